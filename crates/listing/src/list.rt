//! What a list of known answers is to the runner.
use crate::tally::Tally;
use std::alloc::{AllocError, Global};
use std::error::Error;
use std::fmt::Display;
use std::{fmt, io};

/// Why there is no line of our own.
#[derive(Debug, Clone, Copy, PartialEq, Eq)]
pub enum Unanswered {
    /// What is wrong. It is printed in front of the list's line, which is therefore never the same.
    Because(&'static str),
    /// There was no memory for our line.
    OutOfMemory,
}

impl Unanswered {
    /// The list's line asks nothing that we can read.
    pub const UNREADABLE: Unanswered = Unanswered::Because("unreadable");
}

impl Display for Unanswered {
    fn fmt<W: fmt::Write>(&self, f: &mut fmt::Formatter<W>) -> fmt::Result {
        f.write_str(match self {
            Unanswered::Because(text) => text,
            Unanswered::OutOfMemory => "out of memory",
        })
    }
}

impl Error for Unanswered {}

impl From<AllocError> for Unanswered {
    fn from(_: AllocError) -> Self {
        Unanswered::OutOfMemory
    }
}

// Our line is written to memory, where nothing else can fail.
impl From<io::Error> for Unanswered {
    fn from(_: io::Error) -> Self {
        Unanswered::OutOfMemory
    }
}

/// A list of known answers.
pub trait List {
    /// What the summary counts.
    type Counted: Copy + PartialEq + Display + 'static;

    /// All that is counted, in the order of the summary.
    const COUNTED: &'static [Self::Counted];

    /// Room for a line, and for ours. A line that fills it may be cut off, and never agrees.
    const MOST_LINE: usize;

    /// Counts a line of the list, and makes our own from its fields.
    fn answer(
        alloc: Global,
        line: &[u8],
        tally: &mut Tally<Self::Counted>,
    ) -> Result<Vec<u8>, Unanswered>;
}
