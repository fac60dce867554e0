//! A run of the engine: opened with the settings, fed to the end of the input, and drained.
ghost use Rattle.std.specs.Prelude.{◌≡◌, ◌≤◌};
ghost use Rattle.replay.specs.Input.{Inside};
ghost use Rattle.replay.specs.Head.{HeadThere, lacks_head};

use crate::CAPACITY;
use crate::failure::Failure;
use crate::feed::{Run, Stage, feed_all};
use crate::head::{MOST_BYTES, Settings, read_head};
use crate::input::{Input, read_more, unused};
use crate::lines::{print_refusal, print_total};
use crate::output::{Totals, print_records};
use forms::refusal::Refusal;
use std::io::{Stdin, Stdout};

// Hands out the open flows, and prints the total. A state that cannot be drained hands out none.
fn hand_out(
    stdout: Stdout,
    state: &mut [u8],
    output: &mut [u8],
    mut totals: Totals,
) -> Result<(), Failure> {
    if let Ok(handed) = engine::drain(state, output) {
        totals = print_records(stdout, output, handed.records, handed.bytes, totals)?;
    }
    print_total(stdout, totals)
}

// A run that was broken off has no total.
fn finish(stdout: Stdout, state: &mut [u8], output: &mut [u8], run: Run) -> Result<(), Failure> {
    match run.stage {
        Stage::Feeding | Stage::Over => {}
        Stage::Refused(refusal) => print_refusal(stdout, refusal, run.totals.packets)?,
        Stage::Unread => return Err(Failure::Unread),
    }
    hand_out(stdout, state, output, run.totals)
}

// No engine was opened.
fn refuse(stdout: Stdout, refusal: Refusal) -> Result<(), Failure> {
    print_refusal(stdout, refusal, 0)?;
    print_total(stdout, Totals::new())
}

fn replay_packets(
    stdin: Stdin,
    stdout: Stdout,
    state: &mut [u8],
    window: &mut [u8],
    output: &mut [u8],
    input: Input,
    settings: Settings,
) -> Result<(), Failure>
    requires { Inside input window.old }
{
    match engine::open(
        state,
        CAPACITY as u64,
        settings.timeout,
        settings.resolution,
    ) {
        Ok(()) => {
            let run = feed_all(stdin, stdout, state, window, output, input)?;
            finish(stdout, state, output, run)
        }
        Err(refusal) => refuse(stdout, refusal),
    }
}

// Whether the first two numbers may still be cut off, and more may come.
fn lacks_head(input: Input) -> bool
    requires { input.at ≤ input.end }
    ensures { result ≡ lacks_head input }
{
    input.source.is_going() && input.end - input.at < MOST_BYTES
}

// Reads until the first two numbers are there, or the input is over. Each turn brings a byte at least, or the end.
#[tactic(auto, using(crate::specs::Input::nothing_inside, crate::specs::Head::reach_begins, crate::specs::Head::reach_goes_on, crate::specs::Head::reach_ends, crate::specs::Head::reach_ends_early))]
fn read_to_head(stdin: Stdin, window: &mut [u8]) -> Input
    ensures { HeadThere result window.new }
{
    let mut input = Input::new();
    for _ in 0..MOST_BYTES {
        if !lacks_head(input) {
            break;
        }
        input = read_more(stdin, window, input);
    }
    input
}

/// Replays the packets of standard input.
#[tactic(auto, using(crate::specs::Input::used_inside))]
pub fn replay(
    stdin: Stdin,
    stdout: Stdout,
    state: &mut [u8],
    window: &mut [u8],
    output: &mut [u8],
) -> Result<(), Failure> {
    let input = read_to_head(stdin, window);
    if input.source.is_failed() {
        return Err(Failure::Unread);
    }
    match read_head(unused(window, input)) {
        Ok(settings) => {
            let packets = input.used(settings.length);
            replay_packets(stdin, stdout, state, window, output, packets, settings)
        }
        Err(refusal) => refuse(stdout, refusal),
    }
}
