//! Counting the lines, and saying how many there were.
use std::alloc::{AllocError, Global};
use std::fmt::Display;
use std::io;
use std::io::Print;

/// How many there were of each thing that is counted, and how many of all lines differ. No list is so long that a count ends at
/// the top.
#[derive(Debug, Drop)]
pub struct Tally<C> {
    counts: Vec<(C, u64)>,
    differ: u64,
}

impl<C: Copy + PartialEq> Tally<C> {
    /// Nothing is counted yet. The summary has this order.
    pub fn new(alloc: Global, counted: &[C]) -> Result<Self, AllocError> {
        Ok(Tally {
            counts: counted.iter().map(|what| (*what, 0)).collect(alloc)?,
            differ: 0,
        })
    }

    pub fn add(&mut self, counted: C, by: u64) {
        for (what, count) in self.counts.iter_mut() {
            if *what == counted {
                *count = count.saturating_add(by);
            }
        }
    }

    pub fn add_difference(&mut self) {
        self.differ = self.differ.saturating_add(1);
    }
}

impl<C: Display> Tally<C> {
    /// Prints the summary, a piece at a time. What is answered is whether its last piece could be written.
    pub fn print(&self, rt: &impl Print) -> io::Result<()> {
        if self.differ == 0 && self.counts.iter().all(|(_, count)| *count == 0) {
            return rt.println("no lines");
        }
        let mut separator = "";
        for (what, count) in self.counts.iter() {
            let _ = rt.print(format_args!("{separator}{what} "));
            let _ = rt.print(count);
            separator = ", ";
        }
        match self.differ {
            0 => rt.println(": all agree"),
            differ => {
                let _ = rt.print(": ");
                let _ = rt.print(differ);
                rt.println(" differ")
            }
        }
    }
}
