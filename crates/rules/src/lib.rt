// The plain rules in specs/; of the code, the sweep's test on numbers.
#![tactic(auto)]

ghost use Rattle.std.specs.Prelude.{◌≡◌};
ghost use Rattle.rules.specs.Due.{idle};

// Whether a flow leaves: end + T + L is at most the clock, in whole numbers. No sum that could wrap is made.
pub fn leaves(end: u64, t: u64, l: u64, clock: u64) -> bool
    ensures { result ≡ idle end t l clock }
{
    if t == 0 {
        return false;
    }
    if clock < end {
        return false;
    }
    let since = clock - end;
    if since < t {
        return false;
    }
    l <= since - t
}
