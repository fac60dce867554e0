//! Whether counts can be added, and milliseconds as nanoseconds.

ghost use Rattle.std.specs.Prelude.{◌≡◌, ◌+◌, ◌-◌, ◌*◌, ◌^◌, min, nat_lt};

/// Whether a sum of two is a u64.
pub fn fits_two(a: u64, b: u64) -> bool
    ensures { result ≡ nat_lt (a + b) (2 ^ 64) }
{
    a.checked_add(b).is_some()
}

/// Whether a sum of three is a u64.
pub fn fits_three(a: u64, b: u64, c: u64) -> bool
    ensures { result ≡ nat_lt (a + b + c) (2 ^ 64) }
{
    match a.checked_add(b) {
        Some(sum) => fits_two(sum, c),
        None => false,
    }
}

/// Milliseconds as nanoseconds, held at the largest u64.
pub fn million_times(millis: u64) -> u64
    ensures { result ≡ min (millis * 1000000) (2 ^ 64 - 1) }
{
    millis.saturating_mul(1_000_000)
}
