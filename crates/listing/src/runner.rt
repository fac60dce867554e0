//! Going through a list on standard input.
use crate::list::{List, Unanswered};
use crate::tally::Tally;
use std::alloc::Global;
use std::io;
use std::io::{BufRead, BufReader, Eprint, ErrorKind, Input, Print, Read, Write};
use std::process::ExitCode;

/// Replays a list, and answers with the program's status. Where memory is short, standard error says so; a line that cannot be written
/// has no other place to be told of.
pub fn run<L: List>(rt: &(impl Input + Print + Eprint), alloc: Global, program: &str) -> ExitCode {
    match replay::<L>(rt, alloc) {
        Ok(()) => ExitCode::SUCCESS,
        Err(error) => {
            if error.kind() == ErrorKind::OutOfMemory {
                let _ = rt.eprintln(format_args!("{program}: out of memory"));
            }
            ExitCode::FAILURE
        }
    }
}

/// Prints each of our lines that is not the list's, and a summary. A list that cannot be read counts as a line that differs. A line
/// that cannot be written is let go: the summary's end tells of all, since where a pipe is closed or a disk is full, it stays so. An
/// error says that it could not be written, or that memory is short.
pub fn replay<L: List>(rt: &(impl Input + Print), alloc: Global) -> io::Result<()> {
    let mut tally = Tally::new(alloc, L::COUNTED)?;
    let mut reader = BufReader::new(alloc, rt.reader())?;
    // Room for the longest line and its end, so that only the input can fail as it is read.
    let mut line = Vec::with_capacity(alloc, L::MOST_LINE.saturating_add(1))?;
    // A proved loop has to end, and nothing says that the input does. No run uses these turns up.
    for _ in 0..u64::MAX {
        let end = match next_line(&mut reader, L::MOST_LINE, &mut line) {
            Ok(Some(end)) => end,
            Ok(None) => break,
            Err(_) => {
                let _ = rt.println("differs: the list cannot be read");
                tally.add_difference();
                break;
            }
        };
        take_line::<L>(rt, alloc, line.as_slice(), &mut tally)?;
        if end == End::OfList {
            break;
        }
    }
    tally.print(rt)
}

// What a line ends with. The last one may lack an end of its own.
#[derive(Debug, Clone, Copy, PartialEq, Eq)]
enum End {
    OfLine,
    OfList,
}

// Puts the next line into `line`, without its end and without what is beyond `most` bytes, if there is one.
fn next_line<R: BufRead>(
    reader: &mut R,
    most: usize,
    line: &mut Vec<u8>,
) -> io::Result<Option<End>> {
    line.clear();
    let room = (most as u64).saturating_add(1);
    let count = reader.by_ref().take(room).read_until(b'\n', line)?;
    if line.ends_with(b"\n") {
        line.pop();
        return Ok(Some(End::OfLine));
    }
    if most < count {
        line.truncate(most);
        return rest_of_line(reader).map(Some);
    }
    Ok((0 < count).then_some(End::OfList))
}

// Goes past what a line has beyond its room.
fn rest_of_line<R: BufRead>(reader: &mut R) -> io::Result<End> {
    for _ in 0..u64::MAX {
        let bytes = reader.fill_buf()?;
        let all = bytes.len();
        if let Some(end) = bytes.iter().position(|byte| *byte == b'\n') {
            reader.consume(end + 1);
            return Ok(End::OfLine);
        }
        if all == 0 {
            break;
        }
        reader.consume(all);
    }
    Ok(End::OfList)
}

// Compares a line, unless it is a comment.
fn take_line<L: List>(
    rt: &impl Print,
    alloc: Global,
    line: &[u8],
    tally: &mut Tally<L::Counted>,
) -> io::Result<()> {
    if line.starts_with(b"#") {
        return Ok(());
    }
    let mut ours = our_line::<L>(alloc, line, tally)?;
    if ours.len() < L::MOST_LINE && ours.as_slice() == line {
        return Ok(());
    }
    ours.truncate(L::MOST_LINE);
    tally.add_difference();
    let _ = rt.write_all(b"differs: ");
    let _ = rt.write_all(ours.as_slice());
    let _ = rt.write_all(b"\n");
    Ok(())
}

fn our_line<L: List>(
    alloc: Global,
    line: &[u8],
    tally: &mut Tally<L::Counted>,
) -> io::Result<Vec<u8>> {
    match L::answer(alloc, line, tally) {
        Ok(ours) => Ok(ours),
        Err(Unanswered::Because(text)) => {
            let mut ours = Vec::new(alloc);
            write!(ours, "{text}: ")?;
            ours.write_all(line)?;
            Ok(ours)
        }
        Err(Unanswered::OutOfMemory) => Err(io::Error::from(ErrorKind::OutOfMemory)),
    }
}
