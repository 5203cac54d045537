//! Reads the head of a request, and writes its method and its target, and then its headers in the order in which their
//! names came, but for those of some names.
//!
//! Names are written in small letters, and the values of a name that comes again behind the first, after a comma. A head
//! that isn't well formed, has more than 8,192 bytes, 100 fields or 32 names, has no `host`, or has two distinct values of
//! `host` or `content-length`, is a fault.
#![tactic(auto)]

ghost use Rattle.std.specs.Prelude.{◌≡◌, ◌+◌, ◌<◌, drop, length, take, IfErr, IfOk, IfSome, OnErr, OnOk};
ghost use Rattle.std.specs.Io.KnownBytes.{Appends};
ghost use Rattle.std.specs.List.{flat_map};
ghost use Rattle.micromap_examples.specs.Heads.{head_text, header_line, names_in, names_of, without, EndsCopy, EndsRun, SparesOutput, WritesHead};

mod fault;
mod head;

use crate::headers::{Headers, Name, Value};
pub use fault::RunFault;
pub use head::{Head, HeadFault, MOST_BYTES, MOST_FIELDS, MOST_NAMES};
use std::alloc::{AllocError, Global};
use std::io::{self, Read, Write};

/// Reads a head, and writes it without the headers that the arguments behind the first name.
///
/// Reads no more than one byte beyond the most that a head may have.
pub fn run<R: Read + Drop, W: Write>(
    alloc: Global,
    arguments: &[String],
    input: R,
    output: &mut W,
) -> Result<(), RunFault>
    ensures written { OnOk result (IfSome (R.remaining input) (λ all. WritesHead (take (MOST_BYTES + 1) all) (names_in arguments.now) (W.contents output.old) (W.contents output.new))) }
    ensures fault { IfErr result (λ fault. IfSome (R.remaining input) (λ all. EndsRun (take (MOST_BYTES + 1) all) (names_in arguments.now) fault)) }
    ensures spared { IfErr result (SparesOutput output.old output.new) }
{
    let text = read_front(alloc, input, MOST_BYTES as u64 + 1).map_err(RunFault::Input)?;
    copy_head(alloc, &text, arguments, output)
}

// Reads the first bytes, up to so many.
fn read_front<R: Read + Drop>(alloc: Global, input: R, most: u64) -> io::Result<Vec<u8>>
    ensures { IfOk result (λ text. IfSome (R.remaining input) (λ all. text.items ≡ take most all)) }
{
    let mut text = Vec::new(alloc);
    input.take(most).read_to_end(&mut text)?;
    Ok(text)
}

/// Writes the head at the front of a text, without the headers that the arguments behind the first name.
pub fn copy_head<W: Write>(
    alloc: Global,
    text: &[u8],
    arguments: &[String],
    output: &mut W,
) -> Result<(), RunFault>
    ensures written { OnOk result (WritesHead text.now (names_in arguments.now) (W.contents output.old) (W.contents output.new)) }
    ensures fault { IfErr result (EndsCopy text.now (names_in arguments.now)) }
    ensures spared { IfErr result (SparesOutput output.old output.new) }
{
    let mut head = Head::parse(alloc, text)?;
    remove_each(alloc, &mut head.headers, behind_first(arguments))?;
    write_head(output, &head).map_err(RunFault::Output)
}

// Returns the arguments behind the first, which is the program's own name.
fn behind_first(arguments: &[String]) -> &[String]
    ensures { result.now ≡ drop 1 arguments.now }
{
    match arguments {
        [_own_name, names @ ..] => names,
        [] => arguments,
    }
}

/// Removes the headers of these names, in whatever case.
#[tactic(auto, using(crate::proofs::HeadLemmas::removals, std::proofs::lemmas::Grind::common_steps))]
pub fn remove_each(
    alloc: Global,
    headers: &mut Headers<MOST_NAMES>,
    names: &[String],
) -> Result<(), AllocError>
    ensures headers { OnOk result (headers.new ≡ without (names_of names.now) headers.old) }
    ensures memory { OnErr result (0 < length names.now) }
{
    for name in names {
        headers.remove(&Name::new(alloc, name.as_str())?);
    }
    Ok(())
}

/// Writes the method and the target, and then each header, in lines of their own.
pub fn write_head<W: Write>(output: &mut W, head: &Head<'_>) -> io::Result<()>
    ensures { OnOk result (Appends (W.contents output.old) (W.contents output.new) (head_text head.now)) }
{
    writeln!(output, "{} {}", head.method, head.target)?;
    write_headers(output, &head.headers)
}

// Writes each header in a line.
fn write_headers<W: Write>(output: &mut W, headers: &Headers<MOST_NAMES>) -> io::Result<()>
    ensures { OnOk result (Appends (W.contents output.old) (W.contents output.new) (flat_map header_line headers.now)) }
{
    for (name, value) in headers {
        write_header(output, name, value)?;
    }
    Ok(())
}

/// Writes a header in a line.
pub fn write_header<W: Write>(output: &mut W, name: &Name, value: &Value) -> io::Result<()>
    ensures { OnOk result (Appends (W.contents output.old) (W.contents output.new) (header_line (name.now, value.now))) }
{
    write!(output, "{}: ", name.as_str())?;
    output.write_all(value.as_bytes())?;
    output.write_all(b"\n")
}
