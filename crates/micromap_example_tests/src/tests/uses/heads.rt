//! Heads of requests, and their headers: heads that are refused, inputs and outputs that fail, and the message of each fault;
//! names in any case, and their values.
use anyhow::Result;
use httparse::Header;
use micromap_examples::headers::HeaderFault::{self, Memory};
use micromap_examples::headers::{Headers, Name, collect, value_of};
use micromap_examples::request::run;
use micromap_testing::{Refusing, displays};
use std::alloc::Global;
use std::io::{self, Read, Write};

const FIELDS: [(&str, &str); 5] = [
    ("Accept", "text/html"),
    ("Host", "example.org"),
    ("ACCEPT", "text/plain"),
    ("accept", "text/plain"),
    ("hOST", "example.org"),
];

// The headers of fields, which are names with their values.
fn read<const N: usize>(alloc: Global, fields: &[(&str, &str)]) -> Result<Headers<N>, HeaderFault> {
    let mut list = Vec::new(alloc);
    for (name, value) in fields {
        let (name, value) = (*name, value.as_bytes());
        list.push(Header { name, value }).map_err(|_| Memory)?;
    }
    collect(alloc, &list)
}

// Whether the header of this name, in any case, has this value.
fn has(alloc: Global, headers: &Headers<2>, name: &str, value: Option<&[u8]>) -> bool {
    match Name::new(alloc, name) {
        Ok(name) => value_of(headers, &name) == value,
        Err(_) => false,
    }
}

#[test]
fn names_have_one_case_and_values_are_joined(rt: HostRuntime) -> Result<(), HeaderFault> {
    let alloc = rt.alloc();
    let headers = read::<2>(alloc, &FIELDS)?;
    assert!(rt; headers.len() == 2);
    let joined = b"text/html, text/plain, text/plain";
    assert!(rt; has(alloc, &headers, "aCCept", Some(joined.as_slice())));
    assert!(rt; has(alloc, &headers, "HOST", Some(b"example.org".as_slice())));
    assert!(rt; has(alloc, &headers, "hos", None));
    Ok(())
}

// What the program writes for a text, if its first argument is its own name, `host`, and the second is `Cookie`.
fn written(alloc: Global, text: &[u8]) -> Result<Vec<u8>> {
    let mut arguments = Vec::new(alloc);
    for argument in ["host", "Cookie"] {
        arguments.push(String::from_str(alloc, argument)?)?;
    }
    let mut output = Vec::new(alloc);
    run(alloc, &arguments, text, &mut output)?;
    Ok(output)
}

// Whether a head with these fields is refused with this message.
fn refuses(alloc: Global, fields: &[u8], message: &str) -> Result<bool> {
    let mut text = Vec::from_slice(alloc, b"GET / HTTP/1.1\r\n")?;
    text.extend_from_slice(fields)?;
    Ok(written(alloc, &text).is_err_and(|error| displays(alloc, &error, message)))
}

// So many fields with names of their own, and the end of a head.
fn fields(alloc: Global, count: u8) -> Result<Vec<u8>> {
    let mut fields = Vec::new(alloc);
    for number in 0..count {
        write!(fields, "{number}:\r\n")?;
    }
    fields.extend_from_slice(b"\r\n")?;
    Ok(fields)
}

#[test]
fn each_fault_has_its_message(rt: HostRuntime) -> Result<()> {
    for (fields, message) in [
        ("Host: x\n", "the input ends before the head does"),
        ("Host\n", "the head can't be read: invalid header name"),
        ("Accept: x\n\n", "there is no host"),
        ("Host: x\nHOST: y\n\n", "two values of host differ"),
        (
            "Content-Length: 1\ncontent-length: 2\n\n",
            "two values of content-length differ",
        ),
    ] {
        assert!(rt; refuses(rt.alloc(), fields.as_bytes(), message)?);
    }
    Ok(())
}

#[test]
fn a_malformed_head_has_its_kind(rt: HostRuntime) {
    let alloc = rt.alloc();
    for (text, message) in [
        (
            "G\x01T / HTTP/1.1\n\n",
            "the head can't be read: invalid token",
        ),
        (
            "GET /\x01 HTTP/1.1\n\n",
            "the head can't be read: invalid token",
        ),
        (
            "GET / HTTP/2.0\n\n",
            "the head can't be read: invalid HTTP version",
        ),
        (
            "GET / HTTP/1.1\r\r\n",
            "the head can't be read: invalid new line",
        ),
        (
            "GET / HTTP/1.1\nHost: \x01\n\n",
            "the head can't be read: invalid header value",
        ),
    ] {
        let refused = written(alloc, text.as_bytes());
        assert!(rt; refused.is_err_and(|fault| displays(alloc, &fault, message)));
    }
}

// An input that can't be read.
#[derive(Drop)]
struct Broken;

impl Read for Broken {
    fn read(&mut self, _buf: &mut [u8]) -> io::Result<usize> {
        Err(io::Error::from(io::ErrorKind::BrokenPipe))
    }
}

#[test]
fn a_broken_input_ends_the_program(rt: HostRuntime) {
    let mut output = Refusing::new(usize::MAX);
    let ended = run(rt.alloc(), &[], Broken, &mut output);
    assert!(rt;
        ended.is_err_and(|fault| displays(
            rt.alloc(),
            &fault,
            "the input can't be read: broken pipe"
        ))
    );
    assert!(rt; output.writes == 0);
}

#[test]
fn a_full_output_ends_the_program(rt: HostRuntime) {
    let text = b"GET / HTTP/1.1\nHost: x\n\n".as_slice();
    let mut room = [0; 8];
    let ended = run(rt.alloc(), &[], text, &mut room.as_mut_slice());
    assert!(rt;
        ended.is_err_and(|fault| displays(
            rt.alloc(),
            &fault,
            "the output can't be written: failed to write whole buffer"
        ))
    );
}

#[test]
fn a_head_has_its_limits(rt: HostRuntime) -> Result<()> {
    let alloc = rt.alloc();
    assert!(rt; refuses(alloc, &fields(alloc, 32)?, "there is no host")?);
    assert!(rt; refuses(alloc, &fields(alloc, 33)?, "there are more than 32 names")?);
    assert!(rt;
        refuses(
            alloc,
            &fields(alloc, 101)?,
            "the head can't be read: too many headers"
        )?
    );
    let long = vec![in alloc; b'a'; 9000]?;
    assert!(rt; refuses(alloc, &long, "the head has more than 8192 bytes")?);
    Ok(())
}
