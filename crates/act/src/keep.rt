//! The flow that took a packet stays open: its record goes into its slot, or into a free one where the flow is new.
ghost use Rattle.slots.specs.Table.{slots};
ghost use Rattle.state.specs.State.{slots_of};
ghost use Rattle.state.specs.Change.{last_free};
ghost use Rattle.hand.specs.Acting.{Acted};
ghost use Rattle.act.specs.Keep.{flow_under, KeepAsked, kept_slots, OpenAsked, Opened, SeatAsked, Seated, EntryAsked, Entered};

use flow::record::FlowRecord;
use flow::time::Nanos;
use key::key::FlowKey;
use words::words::words_of;

// Takes a free slot for a new flow: its key, and its place in the index.
fn open_slot(
    state: &mut [u8],
    capacity: usize,
    name: FlowKey,
    bytes: &[u8],
    index: &mut [u32],
    free: &mut [u16],
) -> usize
    requires { OpenAsked capacity name bytes.now state.old index.old free.old }
    ensures { Opened capacity bytes.now state.old state.new index.old index.new free.old free.new result }
{
    let i = state::free::pop(free);
    table::put_key(state, capacity, i, bytes);
    index::insert(index, i, name.shard(524_288));
    i
}

// The flow's slot: the one that was found, or a free one.
#[tactic(auto, using(crate::proofs::Opening::seat_opens, crate::proofs::Opening::seat_found, crate::proofs::Opening::seat_opened))]
fn seat(
    state: &mut [u8],
    capacity: usize,
    slot: Option<usize>,
    name: FlowKey,
    bytes: &[u8],
    index: &mut [u32],
    free: &mut [u16],
) -> usize
    requires { SeatAsked capacity slot name bytes.now state.old index.old free.old }
    ensures { Seated slot capacity bytes.now state.old state.new index.old index.new free.old free.new result }
{
    match slot {
        Some(i) => i,
        None => open_slot(state, capacity, name, bytes, index, free),
    }
}

// The queue names a new flow, which sits in slot i. With timeout 0 it names none.
#[tactic(auto, using(crate::proofs::Opening::entry_none, crate::proofs::Opening::entry_kept, crate::proofs::Opening::entry_made))]
fn enter(state: &mut [u8], capacity: usize, timeout: Nanos, slot: Option<usize>, i: usize)
    requires { EntryAsked capacity i state.old }
    ensures { Entered capacity timeout.0 i slot state.old state.new }
{
    match slot {
        Some(_) => (),
        None => {
            if timeout.0 == 0 {
                return;
            }
            let due = table::real_due(state, i, timeout.0);
            table::put_due(state, capacity, i, due);
        }
    }
}

// Keeps the flow with its record. A flow that has a slot keeps its entry in the queue, which is early enough still.
pub(crate) fn keep(
    state: &mut [u8],
    capacity: usize,
    timeout: Nanos,
    slot: Option<usize>,
    name: FlowKey,
    bytes: &[u8],
    record: FlowRecord,
    index: &mut [u32],
    free: &mut [u16],
)
    requires { KeepAsked capacity timeout.0 slot name bytes.now «record» state.old index.old free.old }
    ensures { Acted capacity timeout.0 state.old state.new index.new free.new (kept_slots slot (last_free free.old) (flow_under name «record») (slots_of (slots state.old capacity))) }
{
    let i = seat(state, capacity, slot, name, bytes, index, free);
    let words = words_of(record);
    table::store_record_words(state, capacity, i, &words);
    enter(state, capacity, timeout, slot, i);
}
