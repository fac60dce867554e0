//! The kinds of lines, and what is counted of them.
use std::fmt;

/// What a line says.
#[derive(Debug, Clone, Copy, PartialEq, Eq)]
pub enum Kind {
    /// A packet is read.
    Packet,
    /// No packet is read from some bytes.
    NoPacket,
    /// Packets are counted on a record.
    Fold,
    /// A record is read.
    Record,
    /// No record is read from some bytes.
    NoRecord,
    /// What is derived from a record.
    Totals,
}

impl Kind {
    /// The kind that a line's first letter names, if it is one.
    pub fn of(line: &[u8]) -> Option<Kind> {
        match line.first()? {
            b'p' => Some(Kind::Packet),
            b'y' => Some(Kind::NoPacket),
            b'f' => Some(Kind::Fold),
            b'r' => Some(Kind::Record),
            b'x' => Some(Kind::NoRecord),
            b't' => Some(Kind::Totals),
            _ => None,
        }
    }

    pub fn counted(self) -> Counted {
        match self {
            Kind::Packet => Counted::Packets,
            Kind::Fold => Counted::Folds,
            Kind::Record => Counted::Records,
            Kind::NoPacket | Kind::NoRecord => Counted::Refusals,
            Kind::Totals => Counted::Totals,
        }
    }
}

/// What the summary counts.
#[derive(Debug, Clone, Copy, PartialEq, Eq)]
pub enum Counted {
    Packets,
    Folds,
    Totals,
    Records,
    Refusals,
    /// Cuts of forms, of which each was tried.
    Cuts,
}

impl fmt::Display for Counted {
    fn fmt<W: fmt::Write>(&self, f: &mut fmt::Formatter<W>) -> fmt::Result {
        f.write_str(match self {
            Counted::Packets => "packets",
            Counted::Folds => "folds",
            Counted::Totals => "totals",
            Counted::Records => "records",
            Counted::Refusals => "refusals",
            Counted::Cuts => "cuts",
        })
    }
}
