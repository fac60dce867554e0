//! Damages each field of a state in turn, and shows which damage the check of a state refuses.
//!
//! A state of capacity 3 is opened, and a conversation and a lone packet are put into slots 0 and 2. Then for each damage a copy is
//! changed and checked, and a line printed: what was changed, and 3 where the copy is not sound, else 0. Changes that leave it sound
//! stand beside those that do not.
#![tactic(auto)]

mod damage;
mod direction;
mod entries;
mod flows;
mod form;
mod header;
mod keys;
mod pairs;
mod places;
mod record;
mod slot;
mod tally;
mod together;

use flow::time::{Millis, TimeResolution};
use forms::refusal::Refusal;
use places::{CAPACITY, MEMORY_BYTES, Memory};
use state::opening::open;
use std::io;
use std::process::ExitCode;
use tally::{Tally, show};

fn main(rt: HostRuntime) -> ExitCode {
    match run(&rt) {
        Ok(()) => ExitCode::SUCCESS,
        Err(_) => ExitCode::FAILURE,
    }
}

// An error says that the last line cannot be written.
fn run(rt: &impl Print) -> io::Result<()> {
    let mut memory = [165u8; MEMORY_BYTES];
    let opening = open(
        &mut memory,
        CAPACITY,
        Millis(1000),
        TimeResolution::Microseconds,
    );
    match opening {
        Ok(()) => {
            flows::put_flows(&mut memory);
            damage_all(rt, &memory)
        }
        Err(Refusal::Capacity) => rt.println("not opened: capacity"),
        Err(_) => rt.println("not opened: memory"),
    }
}

// All damages, kind by kind.
fn damage_all(rt: &impl Print, state: &Memory) -> io::Result<()> {
    show(rt, "as it stands", state);
    let mut tally = Tally::default();
    header::damage(rt, state, &mut tally);
    slot::damage(rt, state, &mut tally);
    form::damage(rt, state, &mut tally);
    record::damage(rt, state, &mut tally);
    direction::damage(rt, state, &mut tally);
    together::damage(rt, state, &mut tally);
    pairs::damage(rt, state, &mut tally);
    entries::damage(rt, state, &mut tally);
    tally.print(rt)
}
