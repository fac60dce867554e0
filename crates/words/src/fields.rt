// The field of a record that a word stands for. An optional is 0 for absent, else its value plus 1; a range is the words of its two
// bounds. The word of a field is the number of the record form (crate wire).
ghost use Rattle.std.specs.Prelude.{◌≡◌, ◌^◌, ◌≤◌};
ghost use Rattle.words.specs.Fields.{opt8_at, opt16_at, range8_at, range32_at, bounds_fit, BoundsFit};

use stats::range::Range;

pub fn opt_u8_at(word: u64) -> Option<u8>
    requires { word ≤ 2 ^ 8 }
    ensures { result ≡ opt8_at word }
{
    if word == 0 {
        return None;
    }
    Some((word - 1) as u8)
}

pub fn opt_u16_at(word: u64) -> Option<u16>
    requires { word ≤ 2 ^ 16 }
    ensures { result ≡ opt16_at word }
{
    if word == 0 {
        return None;
    }
    Some((word - 1) as u16)
}

#[tactic(auto, using(crate::specs::FieldLaws::range8_present))]
pub(crate) fn range8_at(least: u64, greatest: u64) -> Option<Range<u8>>
    requires { BoundsFit (2 ^ 8) least greatest }
    ensures { result ≡ range8_at least greatest }
{
    if least == 0 {
        return None;
    }
    Some(Range {
        min: (least - 1) as u8,
        max: (greatest - 1) as u8,
    })
}

#[tactic(auto, using(crate::specs::FieldLaws::range32_present))]
pub(crate) fn range32_at(least: u64, greatest: u64) -> Option<Range<u32>>
    requires { BoundsFit (2 ^ 32) least greatest }
    ensures { result ≡ range32_at least greatest }
{
    if least == 0 {
        return None;
    }
    Some(Range {
        min: (least - 1) as u32,
        max: (greatest - 1) as u32,
    })
}

// Whether some range with both bounds below `most` has these words.
#[tactic(auto, unfolding(crate::specs::Fields::bounds_fit))]
pub(crate) fn bounds_fit(most: u64, least: u64, greatest: u64) -> bool
    ensures { result ≡ bounds_fit most least greatest }
{
    (least <= most)
        & (greatest <= most)
        & (((0 < least) & (0 < greatest)) | ((least == 0) & (greatest == 0)))
}
