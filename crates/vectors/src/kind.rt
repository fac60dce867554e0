//! The kinds of lines, and what is counted of them.
use std::fmt;

/// What a line says.
#[derive(Debug, Clone, Copy, PartialEq, Eq)]
pub enum Kind {
    /// A number has a form.
    Written,
    /// A number is too large to be written.
    NotWritten,
    /// No number is read from some bytes.
    NotRead,
    /// A key is read, and what it answers.
    Key,
    /// No key is read from some bytes.
    NoKey,
}

impl Kind {
    /// The kind that a line's first letter names, if it is one.
    pub fn of(line: &[u8]) -> Option<Kind> {
        match line.first()? {
            b'n' => Some(Kind::Written),
            b'w' => Some(Kind::NotWritten),
            b'r' => Some(Kind::NotRead),
            b'k' => Some(Kind::Key),
            b'q' => Some(Kind::NoKey),
            _ => None,
        }
    }

    pub fn counted(self) -> Counted {
        match self {
            Kind::Written => Counted::Numbers,
            Kind::NotWritten | Kind::NotRead => Counted::Refusals,
            Kind::Key => Counted::Keys,
            Kind::NoKey => Counted::Cuts,
        }
    }
}

/// What the summary counts.
#[derive(Debug, Clone, Copy, PartialEq, Eq)]
pub enum Counted {
    Numbers,
    Refusals,
    Keys,
    Cuts,
}

impl fmt::Display for Counted {
    fn fmt<W: fmt::Write>(&self, f: &mut fmt::Formatter<W>) -> fmt::Result {
        f.write_str(match self {
            Counted::Numbers => "numbers",
            Counted::Refusals => "refusals",
            Counted::Keys => "keys",
            Counted::Cuts => "cuts",
        })
    }
}
