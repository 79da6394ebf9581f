//! What is shown of each statement.
use crate::air::Air;
use crate::changes::Trouble;
use anyhow::anyhow;
use channel::Role;
use script::{Call, Who};
use simulation::{Entry, Event, Outcome};
use std::fmt;
use text::Hex;

/// How many octets are shown at most.
const SHOWN: usize = 64;

/// A call of the script: its line, its end and its name.
#[derive(Clone, Copy)]
pub(crate) struct Named<'a> {
    pub(crate) line: u64,
    pub(crate) end: Who,
    pub(crate) call: &'a Call,
}

impl Named<'_> {
    /// The role of the end that makes the call.
    pub(crate) fn role(self) -> Role {
        match self.end {
            Who::Fob => Role::Fob,
            Who::Mixer => Role::Mixer,
        }
    }
}

impl fmt::Display for Named<'_> {
    fn fmt<W: fmt::Write>(&self, f: &mut fmt::Formatter<W>) -> fmt::Result {
        let Named { line, end, call } = *self;
        write!(f, "line {line}: {end} {call}")
    }
}

/// A line of the script.
#[derive(Clone, Copy)]
pub(crate) struct AtLine(pub(crate) u64);

impl fmt::Display for AtLine {
    fn fmt<W: fmt::Write>(&self, f: &mut fmt::Formatter<W>) -> fmt::Result {
        write!(f, "line {}", self.0)
    }
}

/// Tells why a statement, or a call, cannot be carried out; the program ends with it.
pub(crate) fn stopped<P: fmt::Display + Drop>(
    rt: &HostRuntime,
    place: P,
    trouble: Trouble,
) -> anyhow::Result<()> {
    println!(rt; "{place}: {trouble}")?;
    Err(anyhow!("\"the script cannot go on\""))
}

/// Shows what a call came to and what it did, which is what it entered into the log. A message that it wrote is put on the air.
pub(crate) fn show(
    rt: &HostRuntime,
    named: Named<'_>,
    outcome: Outcome,
    entered: &[Entry],
    air: &mut Air,
) -> anyhow::Result<()> {
    print!(rt; "{named}: ")?;
    match outcome {
        Outcome::NotAllowed => println!(rt; "not allowed in this state, nothing changed")?,
        Outcome::Refused(fault) => println!(rt; "{fault}")?,
        Outcome::Done => {
            println!(rt; "accepted")?;
            show_events(rt, named.end, entered)?;
        }
        Outcome::Sent(octets) => {
            println!(rt; "accepted")?;
            show_events(rt, named.end, entered)?;
            show_written(rt, named, octets, air)?;
        }
    }
    Ok(())
}

/// Puts a message on the air and shows it with its number.
fn show_written(
    rt: &HostRuntime,
    named: Named<'_>,
    octets: Vec<u8>,
    air: &mut Air,
) -> anyhow::Result<()> {
    match air.write(named.role(), octets) {
        Ok(number) => {
            print!(rt; "  message {number}: ")?;
            show_octets(rt, air.numbered(number).unwrap_or(&[]))
        }
        Err(trouble) => stopped(rt, named, trouble),
    }
}

/// Shows what an end did in a call.
fn show_events(rt: &HostRuntime, end: Who, entered: &[Entry]) -> anyhow::Result<()> {
    for Entry { event, .. } in entered {
        match event {
            Event::Opens => println!(rt; "  the {end} is open")?,
            Event::Seals {
                number,
                counter,
                ..
            } => { println!(rt; "  packet {number}, from counter {counter:032x}")? }
            Event::Unseals { number, payload } => {
                print!(rt; "  packet {number}, payload: ")?;
                show_octets(rt, payload.as_slice())?;
            }
            _ => {}
        }
    }
    Ok(())
}

/// Shows octets in hexadecimal, the first 64 of them; `-` for none.
fn show_octets(rt: &HostRuntime, octets: &[u8]) -> anyhow::Result<()> {
    if octets.is_empty() {
        println!(rt; "-")?;
        return Ok(());
    }
    match octets.get(0..SHOWN) {
        Some(first) if octets.len() > SHOWN => {
            let shown = Hex(first);
            let more = octets.len().saturating_sub(SHOWN);
            println!(rt; "{shown} .. and {more} more")?;
        }
        _ => {
            let shown = Hex(octets);
            println!(rt; "{shown}")?;
        }
    }
    Ok(())
}

/// Shows how many packets were passed.
pub(crate) fn show_passed(
    rt: &HostRuntime,
    line: u64,
    passed: u32,
    count: u32,
    size: u32,
) -> anyhow::Result<()> {
    println!(rt; "line {line}: pass: {passed} of {count} packets of {size} octets came through")?;
    Ok(())
}
