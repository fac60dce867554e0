//! What is wrong outside of the input's bytes.
use std::fmt;
use std::fmt::Display;

/// Why a run was broken off.
#[derive(Clone, Copy, Debug, PartialEq, Eq)]
pub enum Failure {
    /// Standard input cannot be read.
    Unread,
    /// A line cannot be written to standard output.
    Unwritten,
}

impl Display for Failure {
    fn fmt<W: fmt::Write>(&self, f: &mut fmt::Formatter<W>) -> fmt::Result {
        f.write_str(match self {
            Failure::Unread => "standard input cannot be read",
            Failure::Unwritten => "a line cannot be written to standard output",
        })
    }
}
