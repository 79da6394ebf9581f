//! Takes captured messages apart, or says why they are refused.
//!
//! Reads the file named as its argument, else standard input: one message a line, as the awaited kind, the protocol
//! identifier and the octets in hexadecimal.
#![tactic(auto)]

use capture::Captured;
use message::{Kind, Message};
use std::io::Read;
use std::{env, fs};
use text::{Hex, ParseError};

/// How many lines came to what.
#[derive(Clone, Copy, Default)]
struct Tally {
    read: u64,
    refused: u64,
    unreadable: u64,
}

fn main(rt: HostRuntime) -> anyhow::Result<()> {
    run(&rt)
}

fn run(rt: &HostRuntime) -> anyhow::Result<()> {
    let text = input(rt)?;
    let mut tally = Tally::default();
    for (number, line) in (1u64..).zip(text.split(|b| *b == b'\n')) {
        show_line(rt, number, line, &mut tally)?;
    }
    let Tally {
        read,
        refused,
        unreadable,
    } = tally;
    println!(rt; "{read} read, {refused} refused, {unreadable} not understood")?;
    Ok(())
}

/// The whole file that is named as the argument, else all of standard input.
// `simulate` reads alike: a crate for a few lines of input is no plainer.
fn input(rt: &HostRuntime) -> anyhow::Result<Vec<u8>> {
    let mut args = env::args(rt)?;
    let _program = args.next();
    match args.next() {
        Some(path) => Ok(fs::read(rt, path.as_str())?),
        None => {
            let mut text = Vec::new(rt.alloc());
            rt.stdin().read_to_end(&mut text)?;
            Ok(text)
        }
    }
}

fn show_line(rt: &HostRuntime, number: u64, line: &[u8], tally: &mut Tally) -> anyhow::Result<()> {
    match capture::parse_line(rt.alloc(), line) {
        Ok(None) => {}
        Ok(Some(captured)) => {
            print!(rt; "line {number}: ")?;
            if show_message(rt, &captured)? {
                tally.read = tally.read.saturating_add(1);
            } else {
                tally.refused = tally.refused.saturating_add(1);
            }
        }
        Err(ParseError::Unreadable(problem)) => {
            println!(rt; "line {number}: not understood: {problem}")?;
            tally.unreadable = tally.unreadable.saturating_add(1);
        }
        Err(ParseError::Memory(error)) => return Err(error.into()),
    }
    Ok(())
}

/// Shows the fields of a message, or its refusal; whether it was read.
fn show_message(rt: &HostRuntime, captured: &Captured) -> anyhow::Result<bool> {
    let octets = captured.octets.as_slice();
    if let Err(fault) = message::check(captured.awaited, captured.pid, octets) {
        println!(rt; "{fault}")?;
        return Ok(false);
    }
    match (Kind::try_from(captured.awaited), u8::try_from(captured.pid)) {
        (Ok(kind), Ok(pid)) => match message::read(kind, pid, octets) {
            Ok(fields) => {
                show_head(rt, kind, pid, octets)?;
                show_fields(rt, fields)?;
                Ok(true)
            }
            Err(fault) => {
                println!(rt; "{fault}")?;
                Ok(false)
            }
        },
        _ => Ok(false),
    }
}

fn show_head(rt: &HostRuntime, kind: Kind, pid: u8, octets: &[u8]) -> anyhow::Result<()> {
    let length = octets.len();
    println!(rt; "{kind}, protocol identifier {pid}, {length} octets")?;
    Ok(())
}

fn show_fields(rt: &HostRuntime, fields: Message<'_>) -> anyhow::Result<()> {
    match fields {
        Message::Act { label, nonce } => {
            show_field(rt, "label", 3, label)?;
            show_field(rt, "nonce", 28, nonce)?;
        }
        Message::Verify { tag } => {
            show_field(rt, "tag", 3, tag)?;
        }
        Message::Enc { number, data, tag } => {
            let length = data.len();
            println!(rt; "  number at 3: {number}")?;
            println!(rt; "  length at 6: {length}")?;
            show_field(rt, "data", 9, data)?;
            show_field(rt, "tag", length.saturating_add(9), tag)?;
        }
    }
    Ok(())
}

fn show_field(rt: &HostRuntime, name: &str, place: usize, octets: &[u8]) -> anyhow::Result<()> {
    let shown = Hex(octets);
    println!(rt; "  {name} at {place}: {shown}")?;
    Ok(())
}
