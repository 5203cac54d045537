//! Reads the head of a request from its standard input, and writes its method and its target to its standard output, and
//! then its headers in the order in which their names came, but for those that its arguments name.
//!
//! `micromap_examples::request` says what a head is. What is none ends the program with a message and status 1.
#![tactic(auto)]

use anyhow::Result;
use micromap_examples::request::run;
use std::env;
use std::io::{self, BufWriter, Write};

fn main(rt: HostRuntime) -> Result<()> {
    let alloc = rt.alloc();
    let arguments: Vec<String> = env::args(&rt)?.collect(alloc)?;
    let mut output = BufWriter::new(alloc, io::writer(&rt))?;
    run(alloc, &arguments, rt.reader(), &mut output)?;
    output.flush()?;
    Ok(())
}
