//! The order of slots: by key bytes, and by end and then key bytes.
ghost use Rattle.std.specs.Prelude.{◌≡◌};
ghost use Rattle.rules.specs.Order.{at_most};
ghost use Rattle.plan.specs.Steps.{before, Fits, key_at, rank_at};

// Whether a comes before b, byte by byte; a beginning comes before what goes on. The order of std's slices is the same, and took a
// drain of 4096 flows one and a half times as long.
fn bytes_before(a: &[u8], b: &[u8]) -> bool
    ensures { result ≡ before a.now b.now }
{
    for k in 0..b.len() {
        if a.len() <= k {
            return true;
        }
        if a[k] < b[k] {
            return true;
        }
        if b[k] < a[k] {
            return false;
        }
    }
    false
}

// Whether slot i's key may go before slot j's.
#[tactic(auto, using(crate::proofs::Before::as_key))]
pub(crate) fn key_at_most(state: &[u8], i: usize, j: usize) -> bool
    requires fits { Fits state.now i }
    requires fits_2 { Fits state.now j }
    ensures { result ≡ at_most (key_at state.now i) (key_at state.now j) }
{
    !bytes_before(slots::key_of(state, j), slots::key_of(state, i))
}

// Whether slot i's flow may go before slot j's, by end and then key.
#[tactic(auto, using(crate::proofs::Before::sooner, crate::proofs::Before::later, crate::proofs::Before::as_keys))]
pub(crate) fn at_most(state: &[u8], i: usize, j: usize) -> bool
    requires fits { Fits state.now i }
    requires fits_2 { Fits state.now j }
    ensures { result ≡ at_most (rank_at state.now i) (rank_at state.now j) }
{
    let a = table::end_of(state, i);
    let b = table::end_of(state, j);
    if a < b {
        return true;
    }
    if b < a {
        return false;
    }
    key_at_most(state, i, j)
}
