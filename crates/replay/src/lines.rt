//! The lines of the output. Each is written at once.
use crate::failure::Failure;
use crate::output::Totals;
use flow::record::FlowRecord;
use flow::time::EndReason;
use forms::refusal::Refusal;
use std::fmt::Display;
use std::io::Stdout;

fn print(stdout: Stdout, line: impl Display + Drop) -> Result<(), Failure> {
    stdout.println(line).map_err(|_| Failure::Unwritten)
}

/// A finished record's line.
pub fn print_record(stdout: Stdout, record: FlowRecord) -> Result<(), Failure> {
    let FlowRecord {
        time,
        forward,
        reverse,
        ..
    } = record;
    let reason = match time.end_reason {
        None => "",
        Some(EndReason::IdleTimeout) => "IdleTimeout",
        Some(EndReason::Fin) => "Fin",
        Some(EndReason::Rst) => "Rst",
        Some(EndReason::CaptureEnd) => "CaptureEnd",
    };
    print(
        stdout,
        format_args!(
            "{reason} {} {} {} {} {} {}",
            time.start.0,
            time.end.0,
            forward.packets,
            reverse.packets,
            forward.frame_octets,
            reverse.frame_octets
        ),
    )
}

/// A refusal's line, with how many packets were taken before it.
pub fn print_refusal(stdout: Stdout, refusal: Refusal, packets: u64) -> Result<(), Failure> {
    let number = refusal.number();
    print(stdout, format_args!("refused {number} after {packets}"))
}

/// The last line.
pub fn print_total(stdout: Stdout, totals: Totals) -> Result<(), Failure> {
    let Totals {
        packets,
        records,
        clean,
    } = totals;
    print(stdout, format_args!("total {packets} {records} {clean}"))
}
