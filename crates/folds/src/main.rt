//! Replays a list of known answers on packets, records and counting from standard input against our own answers.
//!
//! For each line our own line is made from the fields that ask, and the two are compared byte for byte. What the lines mean is
//! said at the top of the list, which is the file stdin beside src/.
#![tactic(auto)]

mod cuts;
mod fold;
mod kind;
mod packets;
mod records;
mod totals;

use kind::{Counted, Kind};
use listing::list::{List, Unanswered};
use listing::runner::run;
use listing::tally::Tally;
use std::alloc::Global;
use std::process::ExitCode;

// The list of packets, records and counting.
struct PacketsAndRecords;

impl List for PacketsAndRecords {
    type Counted = Counted;

    const COUNTED: &'static [Counted] = &[
        Counted::Packets,
        Counted::Folds,
        Counted::Totals,
        Counted::Records,
        Counted::Refusals,
        Counted::Cuts,
    ];

    // More than twice what the longest line takes.
    const MOST_LINE: usize = 4096;

    fn answer(
        alloc: Global,
        line: &[u8],
        tally: &mut Tally<Counted>,
    ) -> Result<Vec<u8>, Unanswered> {
        let kind = Kind::of(line).ok_or(Unanswered::UNREADABLE)?;
        tally.add(kind.counted(), 1);
        match kind {
            Kind::Packet | Kind::NoPacket => packets::read(alloc, line, tally),
            Kind::Fold => fold::read(alloc, line, tally),
            Kind::Record | Kind::NoRecord => records::read(alloc, line, tally),
            Kind::Totals => totals::read(alloc, line),
        }
    }
}

fn main(rt: HostRuntime) -> ExitCode {
    run::<PacketsAndRecords>(&rt, rt.alloc(), "folds")
}
