//! The numbers that stand for optional ones of each width: 0 for absent, else the value plus 1.

ghost use Rattle.std.specs.Prelude.{◌≡◌};
ghost use Rattle.forms.specs.Form.{found};
ghost use Rattle.forms.specs.Optional.{number8, number16, number32, optional16};

use crate::number::read_bounded;
use crate::numbers::optional_number;
use crate::stop::Stop;

/// Reads an optional number whose value is at most `most`. (`Option<u16>::read` takes any of 16 bits.)
#[tactic(auto, using(crate::specs::NumberLaws::optional16_is))]
#[inline(always)]
pub fn opt_u16_field(bytes: &mut &[u8], most: u16) -> Result<Option<u16>, Stop>
    ensures { found result bytes.new.now ≡ (optional16 most).read bytes.old.now }
{
    match read_bounded(bytes, most as u64 + 1)? {
        0 => Ok(None),
        next => Ok(Some((next - 1) as u16)),
    }
}

/// The number that stands for an optional one of 8 bits.
#[tactic(auto, using(crate::specs::NumberLaws::same8))]
pub fn opt_u8_number(o: Option<u8>) -> u64
    ensures { result ≡ number8 o }
{
    optional_number(o)
}

/// The number that stands for an optional one of 16 bits.
#[tactic(auto, using(crate::specs::NumberLaws::same16))]
pub fn opt_u16_number(o: Option<u16>) -> u64
    ensures { result ≡ number16 o }
{
    optional_number(o)
}

/// The number that stands for an optional one of 32 bits.
#[tactic(auto, using(crate::specs::NumberLaws::same32))]
pub fn opt_u32_number(o: Option<u32>) -> u64
    ensures { result ≡ number32 o }
{
    optional_number(o)
}
