//! Reads calls from its standard input, performs them on maps and sets of the library, and replies to each with its
//! answer and the content after it. It writes a digest of each hundred replies, after the number of the first line, or
//! the text of the hundred that begins at the line that its argument names.
//!
//! These are calls, each with the reply to it:
//!
//! ```text
//! map 3                      ok | -
//! insert 3x 10               none | 3x:10
//! insert 3y 11               some 10 | 3x:11
//! checked_insert 7a -2       some none | 3x:11 7a:-2
//! ```
//!
//! A header begins a case: `map N` has an empty map, and `maps N M` and `sets N M` have two empty maps or sets, `a` and
//! `b`. Each later line is a call on the case, or the next header. At a line that is neither, the program stops with
//! status 1, as at the last line of `stdin`.
//!
//! A reply is the answer, ` | ` and the content after the call, of two maps or sets that of `a`, ` | ` and that of `b`.
//! An answer is what the library's call of that name returns, unless `calls` says otherwise. A list is sorted, by id or
//! by value, so none shows an order. The answer to a header, and to a call that returns nothing, is `ok`.
//!
//! `refused` means that the Rust crate would panic, and that nothing has changed: a new key meets a full map or set, an
//! indexed key is missing, two keys of `add_disjoint` are equal, or not all items of `from_iter` or `extend` fit.
#![tactic(auto)]

mod answer;
mod calls;
mod case;
mod perform;
mod words;

use answer::Reply;
use case::Case;
use std::alloc::Global;
use std::io::{self, BufRead, BufReader, BufWriter, Write};
use std::process::ExitCode;
use std::{env, fmt};
use words::Fault;

/// The most bytes of a line, without its end.
const LONGEST_LINE: usize = 200;

/// Why a replay ends before the calls do.
#[derive(Drop)]
enum Stop {
    /// No hundred begins at the line that this argument names.
    Argument(String),
    /// The line of this number has no answer.
    Line(u64, Fault),
    Read(io::Error),
    Write(io::Error),
}

impl fmt::Display for Stop {
    fn fmt<W: fmt::Write>(&self, f: &mut fmt::Formatter<W>) -> fmt::Result {
        match self {
            Stop::Argument(line) => write!(f, "no hundred begins at line {line}"),
            Stop::Line(number, Fault::Unreadable) => {
                write!(f, "line {number} is not of the language")
            }
            Stop::Line(number, Fault::Memory) => {
                write!(f, "there is no memory for the answer to line {number}")
            }
            Stop::Read(error) => write!(f, "the input can't be read: {error}"),
            Stop::Write(error) => write!(f, "the answers can't be written: {error}"),
        }
    }
}

/// The number of replies that a digest covers.
const HUNDRED: u64 = 100;

/// Takes the replies in turn, and writes a digest of each hundred, or the text of one hundred.
#[derive(Drop)]
struct Hundreds<W> {
    output: W,
    /// The first line of the hundred whose text is written. Without it, the digests are.
    shown: Option<u64>,
    /// The first line of the hundred that goes on.
    first: u64,
    /// The replies to it and to the lines after it.
    text: Vec<u8>,
}

impl<W: Write> Hundreds<W> {
    /// Writes to this output, where no reply is taken yet.
    fn new(alloc: Global, output: W, shown: Option<u64>) -> Self {
        let text = Vec::new(alloc);
        Hundreds {
            output,
            shown,
            first: 1,
            text,
        }
    }

    /// Takes the reply to the line of this number, which may end a hundred.
    fn push(&mut self, number: u64, reply: &Reply) -> io::Result<()> {
        if self.text.is_empty() {
            self.first = number;
        }
        writeln!(self.text, "{reply}")?;
        if number % HUNDRED == 0 {
            self.write_hundred()?;
        }
        Ok(())
    }

    /// Ends the hundred that goes on, if it has replies, and flushes the output.
    fn finish(&mut self) -> io::Result<()> {
        if !self.text.is_empty() {
            self.write_hundred()?;
        }
        self.output.flush()
    }

    // Writes what is wanted of the hundred that goes on, and ends it.
    fn write_hundred(&mut self) -> io::Result<()> {
        match self.shown {
            None => writeln!(self.output, "{} {:016x}", self.first, digest(&self.text))?,
            Some(first) if first == self.first => self.output.write_all(&self.text)?,
            Some(_) => {}
        }
        self.text.clear();
        Ok(())
    }
}

// The 64-bit FNV-1a hash of a text.
fn digest(text: &[u8]) -> u64 {
    text.iter().fold(0xcbf29ce484222325, |hash, byte| {
        (hash ^ u64::from(*byte)).wrapping_mul(0x100000001b3)
    })
}

// The reply to a line, which begins a case or is a call on the one that goes on.
fn reply(alloc: Global, case: &mut Option<Case>, line: &[u8]) -> Result<Reply, Fault> {
    let line = text(line).ok_or(Fault::Unreadable)?;
    if let Some(begun) = Case::begin(line) {
        case.insert(begun).reply(alloc, None)
    } else if let Some(case) = case {
        case.reply(alloc, Some(line))
    } else {
        Err(Fault::Unreadable)
    }
}

// The text of a line before its end, or `None` where it is too long or has no end.
fn text(line: &[u8]) -> Option<&str> {
    let line = line.strip_suffix(b"\n")?;
    if line.len() <= LONGEST_LINE {
        str::from_utf8(line).ok()
    } else {
        None
    }
}

// Replies to each line in turn, up to the first that has no answer.
fn replay<R: BufRead, W: Write>(
    alloc: Global,
    calls: &mut R,
    replies: &mut Hundreds<W>,
) -> Result<(), Stop> {
    let mut case = None;
    let mut line = Vec::new(alloc);
    for number in 1..u64::MAX {
        line.clear();
        if calls.read_until(b'\n', &mut line).map_err(Stop::Read)? == 0 {
            break;
        }
        match reply(alloc, &mut case, &line) {
            Ok(reply) => replies.push(number, &reply).map_err(Stop::Write)?,
            Err(fault) => return Err(Stop::Line(number, fault)),
        }
    }
    Ok(())
}

// The first line of the hundred that the argument names, if there is one.
fn argument(rt: &HostRuntime) -> Result<Option<u64>, Stop> {
    let Some(argument) = env::args(rt).map_err(Stop::Read)?.nth(1) else {
        return Ok(None);
    };
    match argument.parse::<u64>() {
        Ok(line) if line % HUNDRED == 1 => Ok(Some(line)),
        _ => Err(Stop::Argument(argument)),
    }
}

// Replays the calls on the standard input to the standard output.
fn run(rt: &HostRuntime) -> Result<(), Stop> {
    let alloc = rt.alloc();
    let shown = argument(rt)?;
    let mut calls = BufReader::new(alloc, rt.reader()).map_err(Stop::Read)?;
    let output = BufWriter::new(alloc, io::writer(rt)).map_err(Stop::Write)?;
    let mut replies = Hundreds::new(alloc, output, shown);
    let end = replay(alloc, &mut calls, &mut replies);
    replies.finish().map_err(Stop::Write)?;
    end
}

fn main(rt: HostRuntime) -> ExitCode {
    match run(&rt) {
        Ok(()) => ExitCode::SUCCESS,
        Err(stop) => {
            let _ = eprintln!(rt; "{stop}");
            ExitCode::FAILURE
        }
    }
}
