//! Takes whole sessions of an independent implementation through both ends. An octet that differs ends it with status 1.
#![tactic(auto)]

use anyhow::anyhow;
use recorded::{Line, Problem, Session, Stop, Suite, Tally, fixed, octets, parse_named};
use sessions::Comparison;
use std::fs;
use text::split_word;

mod replay;
mod sessions;

fn main(rt: HostRuntime) -> anyhow::Result<()> {
    run(&rt)
}

fn run(rt: &HostRuntime) -> anyhow::Result<()> {
    let mut tally = Tally::new();
    compare_sessions(rt, &mut tally)?;
    let Tally { compared, wrong } = tally;
    println!(rt; "{compared} compared, {wrong} differ")?;
    if wrong != 0 {
        return Err(anyhow!("\"a session differs\""));
    }
    Ok(())
}

/// Compares each session when the next one begins, or the file ends.
fn compare_sessions(rt: &HostRuntime, tally: &mut Tally) -> anyhow::Result<()> {
    let lines = fs::read_to_string(rt, "sessions.txt")?;
    let mut number = 0usize;
    let mut session = Session::new(rt.alloc(), Suite::Aes);
    for line in lines.lines() {
        match read(rt, &session, line.as_bytes()) {
            Ok(None) => {}
            Ok(Some(Line::Cipher(suite))) => {
                compare(rt, number, &session, tally)?;
                number = number.saturating_add(1);
                session = Session::new(rt.alloc(), suite);
            }
            Ok(Some(line)) => session.take(line).map_err(told)?,
            Err(Stop::Unreadable(Problem::Cipher)) => {
                compare(rt, number, &session, tally)?;
                return Err(unreadable(Problem::Cipher));
            }
            Err(stop) => return Err(told(stop)),
        }
    }
    compare(rt, number, &session, tally)
}

/// Compares a session that is read whole; before the first one begins there is none.
fn compare(
    rt: &HostRuntime,
    number: usize,
    session: &Session,
    tally: &mut Tally,
) -> anyhow::Result<()> {
    if number == 0 {
        return Ok(());
    }
    let mut comparison = Comparison {
        rt,
        number,
        session,
        tally,
    };
    comparison.run()
}

/// What a line holds. Of a line of another name the words are looked at first.
fn read(rt: &HostRuntime, session: &Session, line: &[u8]) -> Result<Option<Line>, Stop> {
    let (name, rest) = split_word(line);
    if name == b"counter".as_slice() {
        return counter(rt, session, rest);
    }
    match parse_named(rt.alloc(), name, rest) {
        Err(Stop::Unreadable(Problem::Name)) => {
            Err(of_another_name(rt, session, name, rest)?.into())
        }
        read => read,
    }
}

/// A counter after a packet; octets may follow its sixteen.
fn counter(rt: &HostRuntime, session: &Session, text: &[u8]) -> Result<Option<Line>, Stop> {
    let (word, _) = split_word(text);
    let octets = octets(rt.alloc(), word)?;
    let first = octets.first_chunk::<16>();
    let counter = first.ok_or(of_a_packet(session, Problem::Short))?;
    Ok(Some(Line::Counter(*counter)))
}

/// What is wrong with a line of another name: two letters name a key, and any others what speaks of a packet.
fn of_another_name(
    rt: &HostRuntime,
    session: &Session,
    name: &[u8],
    rest: &[u8],
) -> Result<Problem, Stop> {
    let (word, _) = split_word(rest);
    if name.len() == 2 {
        let _key: [u8; 16] = fixed(rt.alloc(), word)?;
        return Ok(Problem::Name);
    }
    let _octets = octets(rt.alloc(), word)?;
    Ok(of_a_packet(session, Problem::Name))
}

/// What is wrong with a line that speaks of a packet: first of all, that there is none.
fn of_a_packet(session: &Session, problem: Problem) -> Problem {
    if session.packets.is_empty() {
        Problem::Payload
    } else {
        problem
    }
}

/// Why something was not read, in words for people.
fn told(stop: Stop) -> anyhow::Error {
    match stop {
        Stop::Memory(error) => anyhow::Error::from(error),
        Stop::Unreadable(problem) => unreadable(problem),
    }
}

/// What is wrong with a file, in words for people.
// `vectors` words three of them otherwise, so that one Display in `recorded` cannot say them for both.
pub(crate) fn unreadable(problem: Problem) -> anyhow::Error {
    match problem {
        Problem::Octets => anyhow!("\"a word of a session is not hexadecimal\""),
        Problem::Length => anyhow!("\"a word of a session has another length\""),
        Problem::Number => anyhow!("\"a number of a session is not a number\""),
        Problem::Cipher => anyhow!("\"the cipher of a session is another\""),
        Problem::Name => anyhow!("\"a line of a session has another name\""),
        Problem::Short => anyhow!("\"a message of a session is too short\""),
        Problem::Payload => anyhow!("\"a packet of a session has no payload\""),
    }
}
