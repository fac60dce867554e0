//! What a slot holds: its record, its key, and its flow as it is handed out.
ghost use Rattle.std.specs.Prelude.{◌≡◌, cond, ◌+◌, ◌*◌, ◌≤◌, length};
ghost use Rattle.slots.specs.Table.{slot};
ghost use Rattle.key.specs.KeyOr.{no_key};
ghost use Rattle.flow.specs.declared.time.EndReason.TheVariants.{Fin};
ghost use Rattle.rules.specs.Rules.{finish_or};
ghost use Rattle.rules.specs.Engine.{engine, both_fins, finished_flow};
ghost use Rattle.state.specs.Slot.{key_in, record_in, flow_in};
ghost use Rattle.hand.specs.Slot.{HasRecord, HasFlow, flow_as};

use flow::record::FlowRecord;
use flow::time::EndReason;
use key::form::read_key_at;
use key::key::{Address, Endpoints, FlowKey};
use key::link::MacAddress;
use key::vlan::VlanTags;
use wire::record::Flow;
use words::words::record_of;

/// Slot `i`'s record.
#[tactic(auto, using(crate::proofs::SlotLaws::words_fit_lem, crate::proofs::SlotLaws::record_read_lem))]
pub fn record_at(state: &[u8], i: usize) -> FlowRecord
    requires { HasRecord state.now i }
    ensures { result ≡ record_in (slot state.now i) }
{
    let mut ws = [0u64; 37];
    table::load_record_words(state, i, &mut ws);
    record_of(&ws)
}

// A key of zeros.
fn blank_key() -> FlowKey
    ensures { result ≡ no_key }
{
    let nothing = MacAddress { high: 0, low: 0 };
    FlowKey {
        source: Address::V4(0),
        destination: Address::V4(0),
        endpoints: Endpoints::None,
        protocol: 0,
        ethertype: None,
        source_mac: nothing,
        destination_mac: nothing,
        vlan: VlanTags::Untagged,
        encapsulation: None,
    }
}

/// Slot `i`'s key.
pub fn key_at(state: &[u8], i: usize) -> FlowKey
    requires { 256 + 624 * i + 624 ≤ length state.now }
    ensures { result ≡ key_in (slot state.now i) }
{
    match read_key_at(slots::key_of(state, i), 0) {
        Ok((key, _)) => key,
        Err(_) => blank_key(),
    }
}

/// Whether both FINs were seen.
pub fn both_fins(record: FlowRecord) -> bool
    ensures { result ≡ both_fins «record» }
{
    (0 < record.forward.tcp_flags.fin) & (0 < record.reverse.tcp_flags.fin)
}

// Fin where both FINs were seen, else the other reason.
#[tactic(auto, using(crate::proofs::SlotLaws::fin_seen_lem, crate::proofs::SlotLaws::fin_unseen))]
fn reason_or(record: FlowRecord, other: EndReason) -> EndReason
    ensures { result ≡ cond (both_fins «record») Fin other }
{
    if both_fins(record) {
        return EndReason::Fin;
    }
    other
}

/// A flow with this key and record as it is written.
#[tactic(auto, using(crate::proofs::SlotLaws::finished_is))]
pub fn finished(key: FlowKey, record: FlowRecord, reason: EndReason) -> Flow
    ensures { result ≡ finished_flow key reason «record» }
{
    Flow {
        key,
        record: record.close(reason),
    }
}

/// Slot `i`'s flow as a sweep or a drain finishes it.
pub fn finished_at(state: &[u8], i: usize, other: EndReason) -> Flow
    requires { HasFlow state.now i }
    ensures { result ≡ flow_as (finish_or engine other (flow_in (slot state.now i))) }
{
    let record = record_at(state, i);
    finished(key_at(state, i), record, reason_or(record, other))
}
