//! Replays a list of known answers from standard input against our own answers.
//!
//! For each line our own line is made from the fields that ask, and the two are compared byte for
//! byte. What the lines mean is said at the top of the list, which is the file stdin beside src/.
#![tactic(auto)]

mod keys;
mod kind;
mod numbers;

use kind::{Counted, Kind};
use listing::list::{List, Unanswered};
use listing::runner::run;
use listing::tally::Tally;
use std::alloc::Global;
use std::process::ExitCode;

// The list of numbers and keys.
struct NumbersAndKeys;

impl List for NumbersAndKeys {
    type Counted = Counted;

    const COUNTED: &'static [Counted] = &[
        Counted::Numbers,
        Counted::Refusals,
        Counted::Keys,
        Counted::Cuts,
    ];

    // About twice what the longest line takes.
    const MOST_LINE: usize = 1024;

    fn answer(
        alloc: Global,
        line: &[u8],
        tally: &mut Tally<Counted>,
    ) -> Result<Vec<u8>, Unanswered> {
        let kind = Kind::of(line).ok_or(Unanswered::UNREADABLE)?;
        tally.add(kind.counted(), 1);
        match kind {
            Kind::Written | Kind::NotWritten => numbers::written(alloc, line),
            Kind::NotRead => numbers::read(alloc, line),
            Kind::Key | Kind::NoKey => keys::read(alloc, line),
        }
    }
}

fn main(rt: HostRuntime) -> ExitCode {
    run::<NumbersAndKeys>(&rt, rt.alloc(), "vectors")
}
