//! Captured messages as text, one a line: the awaited kind, the protocol identifier, and the octets in hexadecimal.
//!
//! An empty line, and one whose first word begins with `#`, holds no message.
#![tactic(auto)]

ghost use Rattle.std.specs.Prelude.{◌≡◌, Some};
ghost use Rattle.std.specs.Option.{option_map};
ghost use Rattle.text.specs.declared.ParseError.TheVariants.{Unreadable};
ghost use Rattle.text.specs.Reading.{Reads};
ghost use Rattle.capture.specs.Lines.{viewed, meaning};
ghost use Rattle.capture.specs.Expected.{words_of};

use std::alloc::Global;
use std::fmt;
use text::{ParseError, number, octets, split_word};

/// A captured message.
#[derive(Drop)]
pub struct Captured {
    pub awaited: u32,
    pub pid: u32,
    pub octets: Vec<u8>,
}

/// Why a line cannot be read.
#[derive(Clone, Copy, PartialEq, Eq, Debug)]
pub enum Problem {
    /// the first word is not a number
    Kind,
    /// the second word is not a number, or is missing
    Protocol,
    /// the third word is not pairs of hexadecimal digits, or is missing
    Octets,
    /// there is a fourth word
    More,
}

impl fmt::Display for Problem {
    ghost output = { λ p. Some (words_of p) };

    fn fmt<W: fmt::Write>(&self, f: &mut fmt::Formatter<W>) -> fmt::Result {
        f.write_str(match self {
            Problem::Kind => "the first word is the awaited kind, one to nine decimal digits",
            Problem::Protocol =>
                "the second word is the protocol identifier, one to nine decimal digits",
            Problem::Octets =>
                "the third word is the octets, pairs of hexadecimal digits, or - for none",
            Problem::More => "a line has three words",
        })
    }
}

// `script` has the like. Tried as one `impl<P> From<P>` in `text`: it conflicts with the one from `AllocError` there.
impl From<Problem> for ParseError<Problem> {
    ghost from_gives = { λ p r. r ≡ Unreadable p };

    fn from(problem: Problem) -> ParseError<Problem> {
        ParseError::Unreadable(problem)
    }
}

/// The message that a line of captured text holds, if it holds one.
pub fn parse_line(heap: Global, text: &[u8]) -> Result<Option<Captured>, ParseError<Problem>>
    ensures value { Reads (option_map viewed) result (meaning text.now) }
{
    let (first, rest) = split_word(text);
    if matches!(first.first(), None | Some(b'#')) {
        return Ok(None);
    }
    let awaited = number(first).ok_or(Problem::Kind)?;
    let (second, rest) = split_word(rest);
    let pid = number(second).ok_or(Problem::Protocol)?;
    let (third, rest) = split_word(rest);
    let octets = octets(heap, third)?.ok_or(Problem::Octets)?;
    let (fourth, _) = split_word(rest);
    if !fourth.is_empty() {
        return Err(Problem::More.into());
    }
    Ok(Some(Captured {
        awaited,
        pid,
        octets,
    }))
}
