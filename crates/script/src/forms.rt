//! The statements, each with its own form.
ghost use Rattle.std.specs.Prelude.{◌≡◌};
ghost use Rattle.text.specs.Reading.{Reads};
ghost use Rattle.script.specs.Views.{statement_view};
ghost use Rattle.script.specs.Forms.{verb_in, identities_in, key_in, nonce_in, alter_in, pass_in, form_of, statement_in};

use crate::calls::{fob_call, mixer_call};
use crate::parts::{end, last_cipher, last_key, last_number, last_octets, last_sized, sized};
use crate::{Problem, Statement, Who};
use std::alloc::Global;
use text::{ParseError, number, split_word};

/// The first word of a statement.
// Not one `match` of words and forms, which is no plainer: which words there are stands in `try_from`, what follows each in `form`.
#[derive(Clone, Copy)]
pub(crate) enum Verb {
    Cipher,
    Identities,
    Key,
    Nonce,
    Cut,
    Alter,
    Append,
    Workspace,
    Output,
    Fob,
    Mixer,
    Lose,
    Pass,
}

impl TryFrom<&[u8]> for Verb {
    type Error = Problem;

    ghost try_from_gives = { λ w r. r ≡ verb_in w.now };

    fn try_from(word: &[u8]) -> Result<Verb, Problem> {
        match word {
            b"cipher" => Ok(Verb::Cipher),
            b"identities" => Ok(Verb::Identities),
            b"key" => Ok(Verb::Key),
            b"nonce" => Ok(Verb::Nonce),
            b"cut" => Ok(Verb::Cut),
            b"alter" => Ok(Verb::Alter),
            b"append" => Ok(Verb::Append),
            b"workspace" => Ok(Verb::Workspace),
            b"output" => Ok(Verb::Output),
            b"fob" => Ok(Verb::Fob),
            b"mixer" => Ok(Verb::Mixer),
            b"lose" => Ok(Verb::Lose),
            b"pass" => Ok(Verb::Pass),
            _ => Err(Problem::Verb),
        }
    }
}

/// An end, and the two identities that it is made with.
fn identities(heap: Global, text: &[u8]) -> Result<Statement, ParseError<Problem>>
    ensures value { Reads statement_view result (identities_in text.now) }
{
    let (first, rest) = split_word(text);
    let who = Who::try_from(first)?;
    let (second, rest) = split_word(rest);
    let fob = sized(heap, second, Problem::TenOctets)?;
    let mixer = last_sized(heap, rest, Problem::TenOctets)?;
    Ok(Statement::Identities { who, fob, mixer })
}

/// An end, and its key.
fn key(heap: Global, text: &[u8]) -> Result<Statement, ParseError<Problem>>
    ensures value { Reads statement_view result (key_in text.now) }
{
    let (first, rest) = split_word(text);
    let who = Who::try_from(first)?;
    let key = last_key(heap, rest)?;
    Ok(Statement::Key { who, key })
}

/// An end, and the nonce that it hands over next.
fn nonce(heap: Global, text: &[u8]) -> Result<Statement, ParseError<Problem>>
    ensures value { Reads statement_view result (nonce_in text.now) }
{
    let (first, rest) = split_word(text);
    let who = Who::try_from(first)?;
    let octets = last_sized(heap, rest, Problem::TwelveOctets)?;
    Ok(Statement::Nonce { who, octets })
}

/// A place, and the octet that is put on it by exclusive or.
fn alter(heap: Global, text: &[u8]) -> Result<Statement, ParseError<Problem>>
    ensures value { Reads statement_view result (alter_in text.now) }
{
    let (first, rest) = split_word(text);
    let place = number(first).ok_or(Problem::Number)?;
    let [mask]: [u8; 1] = last_sized(heap, rest, Problem::OneOctet)?;
    Ok(Statement::Alter { place, mask })
}

/// How many packets are passed, and how many octets each has.
fn pass(text: &[u8]) -> Result<Statement, ParseError<Problem>>
    ensures value { Reads statement_view result (pass_in text.now) }
{
    let (first, rest) = split_word(text);
    let count = number(first).ok_or(Problem::Number)?;
    let size = last_number(rest)?;
    Ok(Statement::Pass { count, size })
}

/// What follows the first word of a statement.
fn form(heap: Global, verb: Verb, text: &[u8]) -> Result<Statement, ParseError<Problem>>
    ensures value { Reads statement_view result (form_of verb text.now) }
{
    match verb {
        Verb::Cipher => Ok(Statement::Cipher(last_cipher(text)?)),
        Verb::Identities => identities(heap, text),
        Verb::Key => key(heap, text),
        Verb::Nonce => nonce(heap, text),
        Verb::Cut => Ok(Statement::Cut(last_number(text)?)),
        Verb::Alter => alter(heap, text),
        Verb::Append => Ok(Statement::Append(last_octets(heap, text)?)),
        Verb::Workspace => Ok(Statement::Workspace(last_number(text)?)),
        Verb::Output => Ok(Statement::Output(last_number(text)?)),
        Verb::Fob => Ok(Statement::Call {
            who: Who::Fob,
            call: fob_call(heap, text)?,
        }),
        Verb::Mixer => Ok(Statement::Call {
            who: Who::Mixer,
            call: mixer_call(heap, text)?,
        }),
        Verb::Lose => {
            end(text)?;
            Ok(Statement::Lose)
        }
        Verb::Pass => pass(text),
    }
}

/// The statement of a line that has this first word and this rest.
pub(crate) fn statement(
    heap: Global,
    first: &[u8],
    rest: &[u8],
) -> Result<Statement, ParseError<Problem>>
    ensures value { Reads statement_view result (statement_in first.now rest.now) }
{
    form(heap, Verb::try_from(first)?, rest)
}
