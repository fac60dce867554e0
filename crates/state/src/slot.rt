// One slot: whether its bytes are those of a sound flow, and whether its entry in the queue is as it should be.
ghost use Rattle.std.specs.Prelude.{◌≡◌, ◌+◌, ◌*◌, ◌≤◌, ◌<◌, length};
ghost use Rattle.memory.specs.Decides.{Decides};
ghost use Rattle.slots.specs.Table.{slot};
ghost use Rattle.table.specs.View.{view};
ghost use Rattle.table.specs.Due.{due_of};
ghost use Rattle.state.specs.State.{Queued};
ghost use Rattle.state.specs.SlotTest.{whole_key, WordsTested};
ghost use Rattle.state.specs.Slot.{words_in};

use flow::sound::sound_aside;
use flow::time::Nanos;
use key::form::read_key;
use key::key::FlowKey;
use words::words::{record_of, words_fit};

// The key that all of the bytes spell, if they spell one.
pub fn whole_key(bytes: &[u8]) -> Option<FlowKey>
    ensures { result ≡ whole_key bytes.now }
{
    let Ok((key, used)) = read_key(bytes) else {
        return None;
    };
    if used == bytes.len() { Some(key) } else { None }
}

// Whether words are those of a sound record, end reason aside.
fn words_are_sound(ws: &[u64]) -> bool
    requires { length ws.now ≡ 37 }
    ensures { WordsTested ws.now result }
{
    if words_fit(ws) {
        return sound_aside(record_of(ws));
    }
    false
}

// Whether slot i's words are.
pub fn record_is_sound(state: &[u8], i: usize) -> bool
    requires { 256 + 624 * i + 624 ≤ length state.now }
    ensures { WordsTested (words_in (slot state.now i)) result }
{
    let mut ws = [0u64; 37];
    table::load_record_words(state, i, &mut ws);
    words_are_sound(&ws)
}

// Whether the queue's entry for slot i is as it should be: none where the slot is free or the timeout is 0, else one that is not
// later than the flow's end + T.
pub fn entry_is_sound(state: &[u8], capacity: usize, timeout: Nanos, i: usize) -> bool
    requires capacity_in_bounds { 256 + 640 * capacity ≤ length state.now }
    requires i_lt_capacity { i < capacity }
    ensures { Decides result (Queued timeout.0 (slot state.now i) (due_of capacity (view capacity state.now).tree i)) }
{
    let due = table::due_of(state, capacity, i);
    if timeout.0 == 0 {
        return due == queue::NEVER;
    }
    if state[256 + 624 * i] != 1 {
        return due == queue::NEVER;
    }
    let end = table::end_of(state, i);
    (due != queue::NEVER) & (due.saturating_sub(end) <= timeout.0)
}
