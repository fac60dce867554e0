//! Feeding the engine to the end of the input, or to a refusal.
ghost use Rattle.std.specs.Prelude.{◌≡◌, IfOk};
ghost use Rattle.replay.specs.Input.{Inside, Kept};
ghost use Rattle.replay.specs.Feed.{GoneOn, is_feeding, over_with, stage_after, next_stage};

use crate::failure::Failure;
use crate::input::{Input, Source, read_on, unused};
use crate::output::{Totals, print_records};
use forms::refusal::Refusal;
use std::io::{Stdin, Stdout};

/// What a run has come to.
#[derive(Clone, Copy, Debug, PartialEq, Eq)]
pub enum Stage {
    Feeding,
    /// The input is over, and every packet of it is taken.
    Over,
    /// A packet is refused for good.
    Refused(Refusal),
    /// Standard input cannot be read.
    Unread,
}

impl Stage {
    fn is_feeding(self) -> bool
        ensures { result ≡ is_feeding self }
    {
        matches!(self, Stage::Feeding)
    }
}

/// A run of the engine.
#[derive(Clone, Copy, Debug, PartialEq, Eq)]
pub struct Run {
    pub input: Input,
    pub totals: Totals,
    pub stage: Stage,
}

// The input is over: a packet that waits for more bytes is refused.
fn over_with(refusal: Option<Refusal>) -> Stage
    ensures { result ≡ over_with refusal }
{
    refusal.map_or(Stage::Over, Stage::Refused)
}

// Every packet so far is taken, or the last one waits for more bytes: what the input then gave decides.
fn stage_after(refusal: Option<Refusal>, source: Source) -> Stage
    ensures { result ≡ stage_after refusal source }
{
    match source {
        Source::Going => Stage::Feeding,
        Source::Over => over_with(refusal),
        Source::Failed => Stage::Unread,
    }
}

// What follows an answer of the engine. Where the output was full, it is empty now, and has room for whatever one packet finishes.
#[tactic(auto, using(crate::specs::Feed::final_refused), unfolding(crate::specs::Feed::next_stage))]
fn next_stage(refusal: Option<Refusal>, source: Source) -> Stage
    ensures { result ≡ next_stage refusal source }
{
    match refusal {
        None => stage_after(refusal, source),
        Some(why) => match why {
            Refusal::Short => stage_after(refusal, source),
            Refusal::Room => Stage::Feeding,
            _ => Stage::Refused(why),
        },
    }
}

// Reads on where an answer of the engine asks for more input.
#[tactic(auto, using(crate::specs::Input::kept_as_it_is))]
fn read_for(stdin: Stdin, window: &mut [u8], input: Input, refusal: Option<Refusal>) -> Input
    requires { Inside input window.old }
    ensures { Kept input window.old result window.new }
{
    match refusal {
        None | Some(Refusal::Short) => read_on(stdin, window, input),
        Some(_) => input,
    }
}

// Goes on behind an answer of the engine.
fn go_on(
    stdin: Stdin,
    window: &mut [u8],
    input: Input,
    totals: Totals,
    refusal: Option<Refusal>,
) -> Run
    requires { Inside input window.old }
    ensures { GoneOn input window.old totals (next_stage refusal) result window.new }
{
    let input = read_for(stdin, window, input, refusal);
    Run {
        input,
        totals,
        stage: next_stage(refusal, input.source),
    }
}

// Feeds what is there, prints what that finished, and reads on.
#[tactic(auto, using(crate::specs::Input::used_inside))]
fn feed_once(
    stdin: Stdin,
    stdout: Stdout,
    state: &mut [u8],
    window: &mut [u8],
    output: &mut [u8],
    run: Run,
) -> Result<Run, Failure>
    requires { Inside run.input window.old }
    ensures { IfOk result (λ r. Inside r.input window.new) }
{
    let answer = engine::feed(state, unused(window, run.input), output);
    let totals = print_records(
        stdout,
        output,
        answer.records,
        answer.bytes,
        run.totals.with_packets(answer.packets),
    )?;
    let rest = run.input.used(answer.used);
    Ok(go_on(stdin, window, rest, totals, answer.refusal))
}

/// Feeds the engine until there is no more to feed.
pub fn feed_all(
    stdin: Stdin,
    stdout: Stdout,
    state: &mut [u8],
    window: &mut [u8],
    output: &mut [u8],
    input: Input,
) -> Result<Run, Failure>
    requires { Inside input window.old }
{
    let mut run = Run {
        input,
        totals: Totals::new(),
        stage: Stage::Feeding,
    };
    // A proved loop has to end, and nothing says that the input does. No run uses these turns up.
    for _ in 0..u64::MAX {
        if !run.stage.is_feeding() {
            break;
        }
        run = feed_once(stdin, stdout, state, window, output, run)?;
    }
    Ok(run)
}
