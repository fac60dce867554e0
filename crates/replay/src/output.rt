//! The records that a call of the engine finished: each is printed and counted.
ghost use Rattle.std.specs.Prelude.{◌≡◌};
ghost use Rattle.replay.specs.Totals.{none_yet, with_packets, with_record, clean_closes};

use crate::failure::Failure;
use crate::lines::print_record;
use flow::record::FlowRecord;
use flow::time::EndReason;
use std::io::Stdout;
use wire::record::read_record_at;

/// The last line's numbers.
#[derive(Clone, Copy, Debug, PartialEq, Eq)]
pub struct Totals {
    pub packets: u64,
    pub records: u64,
    /// Clean closes: records whose reason is Fin.
    pub clean: u64,
}

impl Totals {
    /// Before the first packet.
    pub fn new() -> Totals
        ensures { result ≡ none_yet }
    {
        Totals {
            packets: 0,
            records: 0,
            clean: 0,
        }
    }

    /// So many packets more.
    pub fn with_packets(self, count: usize) -> Totals
        ensures { result ≡ with_packets self count }
    {
        Totals {
            packets: self.packets.saturating_add(count as u64),
            ..self
        }
    }

    // One record more, with its clean closes.
    fn with_record(self, closes: u64) -> Totals
        ensures { result ≡ with_record self closes }
    {
        Totals {
            records: self.records.saturating_add(1),
            clean: self.clean.saturating_add(closes),
            ..self
        }
    }
}

// 1 for a clean close, whose reason is Fin, else 0.
fn clean_closes(record: FlowRecord) -> u64
    ensures { result ≡ clean_closes «record» }
{
    match record.time.end_reason {
        Some(EndReason::Fin) => 1,
        _ => 0,
    }
}

/// Prints and counts so many records of the engine's output, where they stand one behind another and fill so many bytes.
pub fn print_records(
    stdout: Stdout,
    output: &[u8],
    count: usize,
    bytes: usize,
    mut totals: Totals,
) -> Result<Totals, Failure> {
    let filled = output.get(..bytes).unwrap_or(&[]);
    let mut at = 0;
    for _ in 0..count {
        // The engine writes nothing but records.
        let (flow, next) = read_record_at(filled, at).map_err(|_| Failure::Unwritten)?;
        print_record(stdout, flow.record)?;
        totals = totals.with_record(clean_closes(flow.record));
        at = next;
    }
    Ok(totals)
}
