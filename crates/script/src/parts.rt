//! The parts that statements are made of.
ghost use Rattle.std.specs.Prelude.{◌≡◌, vec_items};
ghost use Rattle.text.specs.Reading.{Reads};
ghost use Rattle.script.specs.Views.{source_view, payload_view, key_view};
ghost use Rattle.script.specs.Parts.{ended, last_number, last_octets, sized_octets, last_sized, last_cipher, last_source, last_payload, last_key};

use crate::{CipherName, KeyText, Payload, Problem, Source};
use std::alloc::Global;
use text::{ParseError, number, octets, split_word};

/// Nothing may follow the last word of a form.
pub(crate) fn end(text: &[u8]) -> Result<(), Problem>
    ensures value { result ≡ ended text.now tt }
{
    let (word, _) = split_word(text);
    if !word.is_empty() {
        return Err(Problem::End);
    }
    Ok(())
}

/// A number, as the last word.
pub(crate) fn last_number(text: &[u8]) -> Result<u32, Problem>
    ensures value { result ≡ last_number text.now }
{
    let (word, rest) = split_word(text);
    let value = number(word).ok_or(Problem::Number)?;
    end(rest)?;
    Ok(value)
}

/// Octets, as the last word.
// The heap and the text are two parameters, here and in the forms: a reader that has both would be handed on and back at each word.
pub(crate) fn last_octets(heap: Global, text: &[u8]) -> Result<Vec<u8>, ParseError<Problem>>
    ensures value { Reads vec_items result (last_octets text.now) }
{
    let (word, rest) = split_word(text);
    let octets = octets(heap, word)?.ok_or(Problem::Octets)?;
    end(rest)?;
    Ok(octets)
}

/// A word of this many octets; `problem` where it has another number of them.
pub(crate) fn sized<const N: usize>(
    heap: Global,
    word: &[u8],
    problem: Problem,
) -> Result<[u8; N], ParseError<Problem>>
    ensures value { Reads (λ o. o) result (sized_octets N problem word.now) }
{
    let octets = octets(heap, word)?.ok_or(Problem::Octets)?;
    Ok(<[u8; N]>::try_from(octets.as_slice()).map_err(|_| problem)?)
}

/// A word of this many octets, as the last word.
pub(crate) fn last_sized<const N: usize>(
    heap: Global,
    text: &[u8],
    problem: Problem,
) -> Result<[u8; N], ParseError<Problem>>
    ensures value { Reads (λ o. o) result (last_sized N problem text.now) }
{
    let (word, rest) = split_word(text);
    let octets = sized(heap, word, problem)?;
    end(rest)?;
    Ok(octets)
}

/// The name of a cipher, as the last word.
pub(crate) fn last_cipher(text: &[u8]) -> Result<CipherName, Problem>
    ensures value { result ≡ last_cipher text.now }
{
    let (word, rest) = split_word(text);
    let cipher = CipherName::try_from(word)?;
    end(rest)?;
    Ok(cipher)
}

/// Which message a call is given, as the last words.
pub(crate) fn last_source(heap: Global, text: &[u8]) -> Result<Source, ParseError<Problem>>
    ensures value { Reads source_view result (last_source text.now) }
{
    let (word, rest) = split_word(text);
    match word {
        b"last" => {
            end(rest)?;
            Ok(Source::Last)
        }
        b"message" => Ok(Source::Message(last_number(rest)?)),
        b"octets" => Ok(Source::Octets(last_octets(heap, rest)?)),
        _ => Err(Problem::Source.into()),
    }
}

/// What a call seals, as the last words.
pub(crate) fn last_payload(heap: Global, text: &[u8]) -> Result<Payload, ParseError<Problem>>
    ensures value { Reads payload_view result (last_payload text.now) }
{
    let (word, rest) = split_word(text);
    match word {
        b"octets" => Ok(Payload::Octets(last_octets(heap, rest)?)),
        b"count" => Ok(Payload::Count(last_number(rest)?)),
        _ => Err(Problem::Payload.into()),
    }
}

/// A key, as the last words.
pub(crate) fn last_key(heap: Global, text: &[u8]) -> Result<KeyText, ParseError<Problem>>
    ensures value { Reads key_view result (last_key text.now) }
{
    let (word, rest) = split_word(text);
    match word {
        b"bench" => Ok(KeyText::Bench(last_number(rest)?)),
        b"chip" => Ok(KeyText::Chip(last_octets(heap, rest)?)),
        _ => Err(Problem::Key.into()),
    }
}
