//! The types whose values are numbers, and the optional ones.

ghost use Rattle.std.specs.Prelude.{◌≡◌, ℕ, ◌+◌, ◌^◌, ◌<◌, ◌≤◌, List, Option, None, Some, refl};
ghost use Rattle.std.proofs.Common.{rules};
ghost use Rattle.forms.specs.Form.{Form, and_then, got};
ghost use Rattle.forms.specs.Number.{number, number_bytes, number_writes};
ghost use Rattle.forms.specs.Optional.{to_opt, optional8, optional16, optional32};
ghost use Rattle.forms.specs.Numbers.{optional_of};
ghost use Rattle.forms.specs.NumberLaws.{number_itself, optional8_is, optional16_is, optional32_is, optional8_bytes, optional16_bytes, optional32_bytes};

use crate::form::ByteForm;
use crate::number::{number_len, read_bounded, read_u64, store_number};
use crate::stop::Stop;

/// A type whose values are the numbers up to `MOST`. Its form is the number's, and that of an `Option` of it is 0 for `None`, else
/// the number plus 1.
pub trait Number: Copy {
    const MOST: u64;

    ghost MOST: { ℕ };

    ghost number_of: { Self → ℕ };

    ghost of_number: { ℕ → Self };

    ghost number_form: { Form Self };

    ghost optional_form: { Form (Option Self) };

    fn to_u64(self) -> u64
        ensures number { result ≡ number_of self }
        ensures most { result ≤ MOST };

    fn from_u64(number: u64) -> Self
        requires { number ≤ MOST }
        ensures { result ≡ of_number number };

    ghost room: { MOST + 1 < 2 ^ 64 };

    ghost reads: { (s : List ℕ) → number_form.read s ≡ and_then ((number MOST).read s) (λ n rest. got (of_number n) rest) };

    ghost writes: { (a : Self) → number_form.write a ≡ number_bytes (number_of a) };

    ghost optional_reads: { (s : List ℕ) → optional_form.read s ≡ and_then ((number (MOST + 1)).read s) (λ n rest. got (to_opt None (λ k. Some (of_number k)) n) rest) };

    ghost optional_writes: { (o : Option Self) → optional_form.write o ≡ number_bytes (optional_of number_of o) };
}

impl Number for u8 {
    const MOST: u64 = 255;

    ghost MOST = { 255 };

    ghost number_of = { λ n. n };

    ghost of_number = { λ n. n };

    ghost number_form = { number 255 };

    ghost optional_form = { optional8 };

    fn to_u64(self) -> u64 {
        self as u64
    }

    fn from_u64(number: u64) -> u8 {
        number as u8
    }

    ghost room = { Prim.search rules };

    ghost reads = { number_itself 255 };

    ghost writes = { λ a. number_writes 255 a };

    ghost optional_reads = { optional8_is };

    ghost optional_writes = { optional8_bytes };
}

impl Number for u16 {
    const MOST: u64 = 65535;

    ghost MOST = { 65535 };

    ghost number_of = { λ n. n };

    ghost of_number = { λ n. n };

    ghost number_form = { number 65535 };

    ghost optional_form = { optional16 65535 };

    fn to_u64(self) -> u64 {
        self as u64
    }

    fn from_u64(number: u64) -> u16 {
        number as u16
    }

    ghost room = { Prim.search rules };

    ghost reads = { number_itself 65535 };

    ghost writes = { λ a. number_writes 65535 a };

    ghost optional_reads = { optional16_is 65535 };

    ghost optional_writes = { optional16_bytes 65535 };
}

impl Number for u32 {
    const MOST: u64 = 4294967295;

    ghost MOST = { 4294967295 };

    ghost number_of = { λ n. n };

    ghost of_number = { λ n. n };

    ghost number_form = { number 4294967295 };

    ghost optional_form = { optional32 };

    fn to_u64(self) -> u64 {
        self as u64
    }

    fn from_u64(number: u64) -> u32 {
        number as u32
    }

    ghost room = { Prim.search rules };

    ghost reads = { number_itself 4294967295 };

    ghost writes = { λ a. number_writes 4294967295 a };

    ghost optional_reads = { optional32_is };

    ghost optional_writes = { optional32_bytes };
}

impl<T: Number> ByteForm for T {
    ghost form = { T.number_form };

    ghost longest = { 10 };

    #[inline(always)]
    fn read(bytes: &mut &[u8]) -> Result<T, Stop> {
        Ok(T::from_u64(read_bounded(bytes, T::MOST)?))
    }

    fn len(&self) -> usize {
        number_len(self.to_u64())
    }

    fn write(&self, out: &mut [u8], at: usize) -> usize {
        store_number(out, at, self.to_u64())
    }

    ghost short = { Prim.search rules };
}

impl<T: Number> ByteForm for Option<T> {
    ghost form = { T.optional_form };

    ghost longest = { 10 };

    #[inline(always)]
    fn read(bytes: &mut &[u8]) -> Result<Option<T>, Stop> {
        match read_bounded(bytes, T::MOST + 1)? {
            0 => Ok(None),
            next => Ok(Some(T::from_u64(next - 1))),
        }
    }

    fn len(&self) -> usize {
        number_len(optional_number(*self))
    }

    fn write(&self, out: &mut [u8], at: usize) -> usize {
        store_number(out, at, optional_number(*self))
    }

    ghost short = { Prim.search rules };
}

/// The number of any size, which has no optional form. Nanoseconds since 1970 take nine groups: those are read at once.
impl ByteForm for u64 {
    ghost form = { number 18446744073709551615 };

    ghost longest = { 10 };

    #[tactic(auto, using(crate::proofs::Found::front_got, crate::proofs::Found::front_stop, crate::proofs::Found::front_inside))]
    #[inline]
    fn read(bytes: &mut &[u8]) -> Result<u64, Stop> {
        let (value, end) = read_u64(bytes, 0)?;
        *bytes = &bytes[end..];
        Ok(value)
    }

    #[tactic(auto, unfolding(crate::specs::Number::number))]
    fn len(&self) -> usize {
        number_len(*self)
    }

    #[tactic(auto, unfolding(crate::specs::Number::number))]
    fn write(&self, out: &mut [u8], at: usize) -> usize {
        store_number(out, at, *self)
    }

    ghost short = { Prim.search rules };
}

/// The number that stands for an optional one.
pub fn optional_number<T: Number>(value: Option<T>) -> u64
    ensures number { result ≡ optional_of T.number_of value }
    ensures most { result ≤ T.MOST + 1 }
{
    match value {
        None => 0,
        Some(value) => value.to_u64() + 1,
    }
}
