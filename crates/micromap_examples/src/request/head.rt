//! The head of a request, as `httparse` reads it, with its headers by their names.
ghost use Rattle.std.specs.Prelude.{◌≡◌, take, IfErr, IfOk};
ghost use Rattle.micromap_examples.specs.Heads.{Explains, HasHead, IsUnfinished};
ghost use Rattle.micromap_examples.specs.declared.request.head.HeadFault.TheVariants.{Headers};

use crate::headers::{HeaderFault, Headers, collect};
use httparse::{EMPTY_HEADER, Request, Status};
use std::alloc::Global;
use std::error::Error;
use std::fmt;

/// The most bytes of a head.
pub const MOST_BYTES: usize = 8192;

/// The most fields of a head, with those whose name comes again.
pub const MOST_FIELDS: usize = 100;

/// The most names of a head.
pub const MOST_NAMES: usize = 32;

/// The head of a request.
#[derive(Drop)]
pub struct Head<'a> {
    pub method: &'a str,
    pub target: &'a str,
    pub headers: Headers<MOST_NAMES>,
}

/// Why no head of a request was read.
#[derive(Debug, Clone, Copy, PartialEq, Eq)]
pub enum HeadFault {
    /// The input ends before the head does.
    Incomplete,
    /// The head has more than `MOST_BYTES`.
    TooLong,
    /// What came is no head, or one with more than `MOST_FIELDS`.
    Malformed(httparse::Error),
    /// The fields are no headers.
    Headers(HeaderFault),
}

impl fmt::Display for HeadFault {
    fn fmt<W: fmt::Write>(&self, f: &mut fmt::Formatter<W>) -> fmt::Result {
        match self {
            HeadFault::Incomplete => f.write_str("the input ends before the head does"),
            HeadFault::TooLong => write!(f, "the head has more than {MOST_BYTES} bytes"),
            HeadFault::Malformed(error) => write!(f, "the head can't be read: {error}"),
            HeadFault::Headers(fault) => write!(f, "{fault}"),
        }
    }
}

impl Error for HeadFault {}

impl From<HeaderFault> for HeadFault {
    ghost from_gives = { λ fault head_fault. head_fault ≡ Headers fault };

    fn from(fault: HeaderFault) -> Self {
        HeadFault::Headers(fault)
    }
}

impl<'a> Head<'a> {
    /// Reads the head at the front of a text. What comes behind it is left.
    pub fn parse(alloc: Global, text: &'a [u8]) -> Result<Head<'a>, HeadFault>
        ensures head { IfOk result (HasHead text.now) }
        ensures fault { IfErr result (Explains text.now) }
    {
        let front = front(text, MOST_BYTES);
        let mut fields = [EMPTY_HEADER; MOST_FIELDS];
        let mut request = Request::new(&mut fields);
        match request.parse(front) {
            Ok(Status::Complete(_)) => Ok(Head {
                headers: collect(alloc, request.headers)?,
                method: request.method.unwrap(),
                target: request.path.unwrap(),
            }),
            Ok(Status::Partial) => Err(unfinished(text)),
            Err(error) => Err(HeadFault::Malformed(error)),
        }
    }
}

// Returns why a text that can become a head is none yet.
fn unfinished(text: &[u8]) -> HeadFault
    requires { IsUnfinished text.now }
    ensures { Explains text.now result }
{
    if text.len() > MOST_BYTES {
        HeadFault::TooLong
    } else {
        HeadFault::Incomplete
    }
}

// Returns the first bytes of a text, up to so many.
fn front(text: &[u8], most: usize) -> &[u8]
    ensures { result.now ≡ take most text.now }
{
    &text[..text.len().min(most)]
}
