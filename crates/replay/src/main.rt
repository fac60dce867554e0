//! Replays packets from standard input: each conversation that ends comes out as a line.
//!
//! The input is the timeout in milliseconds, the resolution (0 microseconds, 1 finer), then packets to its end, each in its byte
//! form. A line has the reason, start, end, forward and reverse packets, forward and reverse octets of a finished record. The last
//! line is the total: packets, records, clean closes. A refusal is a line of its own, and behind it come the flows that were open.
//!
//! Where standard input cannot be read, or a line cannot be written, the run is broken off with a message on standard error,
//! without a total, and with status 1.
#![tactic(auto)]

mod failure;
mod feed;
mod head;
mod input;
mod lines;
mod output;
mod run;

use std::process::ExitCode;

// How many flows may be open at once.
const CAPACITY: usize = 32;

// The state of an engine of that capacity.
const STATE_BYTES: usize = 256 + 640 * CAPACITY;

// Room for what is read and not used yet.
const WINDOW_BYTES: usize = 65536;

// Room for all records that one packet can finish: each flow's and its own, 358 bytes each at most.
const OUTPUT_BYTES: usize = (CAPACITY + 1) * 358;

fn main(rt: HostRuntime) -> ExitCode {
    let mut state = [0u8; STATE_BYTES];
    let mut window = [0u8; WINDOW_BYTES];
    let mut output = [0u8; OUTPUT_BYTES];
    match run::replay(
        rt.stdin(),
        rt.stdout(),
        &mut state,
        &mut window,
        &mut output,
    ) {
        Ok(()) => ExitCode::SUCCESS,
        Err(failure) => {
            // What cannot be said there shows in the status all the same.
            let _ = eprintln!(rt; "replay: {failure}");
            ExitCode::FAILURE
        }
    }
}
