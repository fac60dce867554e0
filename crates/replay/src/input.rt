//! Standard input, read in pieces. What was read and is not used yet is a part of a window that the caller keeps.
ghost use Rattle.std.specs.Prelude.{◌≡◌, ◌-◌, ◌≤◌, length};
ghost use Rattle.replay.specs.Input.{Inside, AtFront, Refilled, Kept, unused_of, used_up, nothing_read, source_after, answer_of, is_going, is_failed};

use std::io;
use std::io::{Read, Stdin};

/// Whether more may come.
#[derive(Clone, Copy, Debug, PartialEq, Eq)]
pub enum Source {
    Going,
    Over,
    Failed,
}

impl Source {
    /// More may come.
    pub fn is_going(self) -> bool
        ensures { result ≡ is_going self }
    {
        matches!(self, Source::Going)
    }

    /// It cannot be read.
    pub fn is_failed(self) -> bool
        ensures { result ≡ is_failed self }
    {
        matches!(self, Source::Failed)
    }
}

/// The part of the window that is not used yet, and whether more may come.
#[derive(Clone, Copy, Debug, PartialEq, Eq)]
pub struct Input {
    pub at: usize,
    pub end: usize,
    pub source: Source,
}

impl Input {
    /// Before the first read.
    pub fn new() -> Input
        ensures { result ≡ nothing_read }
    {
        Input {
            at: 0,
            end: 0,
            source: Source::Going,
        }
    }

    /// So many bytes more are used: all of them at most.
    pub fn used(self, count: usize) -> Input
        ensures { result ≡ used_up self count }
    {
        Input {
            at: self.at.saturating_add(count).min(self.end),
            ..self
        }
    }
}

/// What is not used yet.
#[tactic(auto, unfolding(crate::specs::Input::unused_of))]
pub fn unused(window: &[u8], input: Input) -> &[u8]
    requires { Inside input window.now }
    ensures { result.now ≡ unused_of input window.now }
{
    &window[input.at..input.end]
}

// Moves the bytes from `at` up to `end` to the front, and answers how many they are.
#[tactic(auto, using(crate::specs::Input::moved_to_front))]
fn move_to_front(window: &mut [u8], at: usize, end: usize) -> usize
    requires { (at ≤ end) × (end ≤ length window.old) }
    ensures { (result ≡ end - at) × AtFront window.old at result window.new }
{
    window.copy_within(at..end, 0);
    end - at
}

// What a read's answer says: an error that it failed, 0 that the input is over.
fn source_after(got: &io::Result<usize>) -> Source
    ensures { result ≡ source_after (answer_of got.now) }
{
    match got {
        Err(_) => Source::Failed,
        Ok(0) => Source::Over,
        Ok(_) => Source::Going,
    }
}

/// Reads once, behind what is not used yet.
pub fn read_more(mut stdin: Stdin, window: &mut [u8], input: Input) -> Input
    requires { Inside input window.old }
    ensures { Refilled input window.old result window.new }
{
    let kept = move_to_front(window, input.at, input.end);
    let got = stdin.read(&mut window[kept..]);
    let source = source_after(&got);
    let came = got.unwrap_or(0);
    Input {
        at: 0,
        end: kept + came,
        source,
    }
}

/// The same, unless nothing more may come.
#[tactic(auto, using(crate::specs::Input::kept_by_reading, crate::specs::Input::kept_as_it_is))]
pub fn read_on(stdin: Stdin, window: &mut [u8], input: Input) -> Input
    requires { Inside input window.old }
    ensures { Kept input window.old result window.new }
{
    if input.source.is_going() {
        return read_more(stdin, window, input);
    }
    input
}
