//! Scripts of a simulation, one statement a line.
//!
//! An empty line, and one whose first word begins with `#`, holds nothing.
#![tactic(auto)]

ghost use Rattle.std.specs.Prelude.{◌≡◌, Some};
ghost use Rattle.std.specs.Option.{option_map};
ghost use Rattle.text.specs.declared.ParseError.TheVariants.{Unreadable};
ghost use Rattle.text.specs.Reading.{Reads};
ghost use Rattle.script.specs.Views.{statement_view};
ghost use Rattle.script.specs.Parts.{who_in, cipher_in};
ghost use Rattle.script.specs.Lines.{meaning};
ghost use Rattle.script.specs.Names.{who_name, call_name};
ghost use Rattle.script.specs.Expected.{words_of};

use forms::statement;
use std::alloc::Global;
use std::fmt;
use text::{ParseError, split_word};

mod calls;
mod forms;
mod parts;

/// One of the two ends.
// A script's word, read and printed here: `Role` of `ends` is not printed, and this crate stands on `text` alone.
#[derive(Clone, Copy, PartialEq, Eq, Debug)]
pub enum Who {
    Fob,
    Mixer,
}

/// The name of a cipher.
// `recorded` has the like, which refuses with the problems of its own files; this crate stands on `text` alone.
#[derive(Clone, Copy, PartialEq, Eq, Debug)]
pub enum CipherName {
    Aes,
    Speck,
}

/// Which message a call is given.
#[derive(Drop)]
pub enum Source {
    /// the last message that the other end wrote
    Last,
    /// the message of this number on the air, from 1
    Message(u32),
    /// these octets
    Octets(Vec<u8>),
}

/// What a call seals.
#[derive(Drop)]
pub enum Payload {
    /// these octets
    Octets(Vec<u8>),
    /// so many octets 0, 1, 2 and so on, modulo 256
    Count(u32),
}

/// A key as a script gives it.
// `recorded` has the like, which makes a key of `lookup`; this crate stands on `text` alone.
#[derive(Drop)]
pub enum KeyText {
    /// the private number of a bench key
    Bench(u32),
    /// the octets of a chip record
    Chip(Vec<u8>),
}

/// A call of an end.
#[derive(Drop)]
pub enum Call {
    Invite,
    Answer(Source),
    Prove(Source),
    Confirm(Source),
    Finish(Source),
    Seal(Payload),
    Unseal(Source),
    Close,
}

/// What a line asks for.
#[derive(Drop)]
pub enum Statement {
    Cipher(CipherName),
    /// the fob's identity and the mixer's, as this end is made with them
    Identities {
        who: Who,
        fob: [u8; 10],
        mixer: [u8; 10],
    },
    Key {
        who: Who,
        key: KeyText,
    },
    /// what this end's next invite or answer hands over as its nonce
    Nonce {
        who: Who,
        octets: [u8; 12],
    },
    /// the message of the next call has only so many octets
    Cut(u32),
    /// one octet of the message of the next call is changed by exclusive or
    Alter {
        place: u32,
        mask: u8,
    },
    /// octets added after the message of the next call
    Append(Vec<u8>),
    /// the size of the workspace lent to the next call
    Workspace(u32),
    /// the size of the output buffer lent to the next call
    Output(u32),
    Call {
        who: Who,
        call: Call,
    },
    /// the last message written is lost
    Lose,
    /// packets passed back and forth
    Pass {
        count: u32,
        size: u32,
    },
}

/// What was expected where a line cannot be read.
#[derive(Clone, Copy, PartialEq, Eq, Debug)]
pub enum Problem {
    /// the word that says what the line asks for
    Verb,
    /// the name of a cipher
    Cipher,
    /// `fob` or `mixer`
    Who,
    /// a call of this end
    Call,
    /// which message the call is given
    Source,
    /// what the call seals
    Payload,
    /// the form of a key
    Key,
    /// one to nine decimal digits
    Number,
    /// pairs of hexadecimal digits
    Octets,
    /// one octet
    OneOctet,
    /// ten octets
    TenOctets,
    /// twelve octets
    TwelveOctets,
    /// the end of the line
    End,
}

impl TryFrom<&[u8]> for Who {
    type Error = Problem;

    ghost try_from_gives = { λ w r. r ≡ who_in w.now };

    fn try_from(word: &[u8]) -> Result<Who, Problem> {
        match word {
            b"fob" => Ok(Who::Fob),
            b"mixer" => Ok(Who::Mixer),
            _ => Err(Problem::Who),
        }
    }
}

impl fmt::Display for Who {
    ghost output = { λ w. Some (who_name w) };

    fn fmt<W: fmt::Write>(&self, f: &mut fmt::Formatter<W>) -> fmt::Result {
        f.write_str(match self {
            Who::Fob => "fob",
            Who::Mixer => "mixer",
        })
    }
}

impl TryFrom<&[u8]> for CipherName {
    type Error = Problem;

    ghost try_from_gives = { λ w r. r ≡ cipher_in w.now };

    fn try_from(word: &[u8]) -> Result<CipherName, Problem> {
        match word {
            b"aes" => Ok(CipherName::Aes),
            b"speck" => Ok(CipherName::Speck),
            _ => Err(Problem::Cipher),
        }
    }
}

/// The name of the call.
impl fmt::Display for Call {
    ghost output = { λ c. Some (call_name c) };

    fn fmt<W: fmt::Write>(&self, f: &mut fmt::Formatter<W>) -> fmt::Result {
        f.write_str(match self {
            Call::Invite => "invite",
            Call::Answer(_) => "answer",
            Call::Prove(_) => "prove",
            Call::Confirm(_) => "confirm",
            Call::Finish(_) => "finish",
            Call::Seal(_) => "seal",
            Call::Unseal(_) => "unseal",
            Call::Close => "close",
        })
    }
}

impl Problem {
    /// What was expected, in words for people.
    pub fn expected(self) -> &'static str
        ensures value { result.now ≡ words_of self }
    {
        match self {
            Problem::Verb =>
                "cipher, identities, key, nonce, cut, alter, append, workspace, output, fob, mixer, lose or pass",
            Problem::Cipher => "aes or speck",
            Problem::Who => "fob or mixer",
            Problem::Call => "a call of this end",
            Problem::Source => "last, message or octets",
            Problem::Payload => "octets or count",
            Problem::Key => "bench or chip",
            Problem::Number => "a number of one to nine decimal digits",
            Problem::Octets => "octets, as pairs of hexadecimal digits, or - for none",
            Problem::OneOctet => "one octet",
            Problem::TenOctets => "ten octets",
            Problem::TwelveOctets => "twelve octets",
            Problem::End => "the end of the line",
        }
    }
}

/// Prints what was expected.
impl fmt::Display for Problem {
    ghost output = { λ p. Some (words_of p) };

    fn fmt<W: fmt::Write>(&self, f: &mut fmt::Formatter<W>) -> fmt::Result {
        f.write_str(self.expected())
    }
}

// `capture` has the like. Tried as one `impl<P> From<P>` in `text`: it conflicts with the one from `AllocError` there.
impl From<Problem> for ParseError<Problem> {
    ghost from_gives = { λ p r. r ≡ Unreadable p };

    fn from(problem: Problem) -> ParseError<Problem> {
        ParseError::Unreadable(problem)
    }
}

/// The statement that a line of a script holds, if it holds one.
pub fn parse_line(heap: Global, text: &[u8]) -> Result<Option<Statement>, ParseError<Problem>>
    ensures value { Reads (option_map statement_view) result (meaning text.now) }
{
    let (first, rest) = split_word(text);
    match first.first() {
        None | Some(b'#') => Ok(None),
        _ => Ok(Some(statement(heap, first, rest)?)),
    }
}
