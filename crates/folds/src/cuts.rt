//! Reading forms, whole and cut off: each proper, non-empty beginning of a form answers Short.
use forms::refusal::Refusal;
use listing::fields::part;
use wire::packet::read_packet;
use wire::record::read_record;

/// How many cuts a packet's form has, if every one answers Short.
pub fn packet_cuts(form: &[u8]) -> Option<u64> {
    (1..form.len())
        .all(|length| matches!(read_packet(part(form, 0, length)), Err(Refusal::Short)))
        .then_some(cuts_of(form))
}

/// How many cuts a record's form has, if every one answers Short.
pub fn record_cuts(form: &[u8]) -> Option<u64> {
    (1..form.len())
        .all(|length| matches!(read_record(part(form, 0, length)), Err(Refusal::Short)))
        .then_some(cuts_of(form))
}

fn cuts_of(form: &[u8]) -> u64 {
    form.len().saturating_sub(1) as u64
}
