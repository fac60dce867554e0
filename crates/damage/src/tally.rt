//! What the check says of a damaged copy, and how many were refused.
use crate::damage::Damage;
use crate::places::Memory;
use state::check::is_sound;
use std::fmt::Display;
use std::io;
use std::io::Print;

#[derive(Debug, Clone, Copy, PartialEq, Eq, Default)]
pub struct Tally {
    damages: u64,
    refused: u64,
}

impl Tally {
    /// Prints the line of a damaged state, and counts it.
    pub fn judge(&mut self, rt: &impl Print, name: impl Display + Drop, damaged: &[u8]) {
        self.damages = self.damages.saturating_add(1);
        if !show(rt, name, damaged) {
            self.refused = self.refused.saturating_add(1);
        }
    }

    /// Tries damages one by one.
    pub fn judge_each(&mut self, rt: &impl Print, state: &Memory, damages: &[Damage]) {
        for damage in damages {
            self.judge(rt, damage.0, &damage.of(state));
        }
    }

    /// Prints how many there were, a piece at a time. What is answered is whether the last piece could be written, which tells of all
    /// lines: where a pipe is closed or a disk is full, it stays so.
    pub fn print(&self, rt: &impl Print) -> io::Result<()> {
        let _ = rt.print(self.damages);
        let _ = rt.print(" damages, ");
        let _ = rt.print(self.refused);
        rt.println(" refused")
    }
}

/// Prints the line of a state, and answers whether it is sound. What cannot be written is let go.
pub fn show(rt: &impl Print, name: impl Display + Drop, state: &[u8]) -> bool {
    let _ = rt.print(name);
    let is_sound = is_sound(state);
    let _ = rt.println(if is_sound { " 0" } else { " 3" });
    is_sound
}
