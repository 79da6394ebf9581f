//! The calls that each end has.
ghost use Rattle.text.specs.Reading.{Reads};
ghost use Rattle.script.specs.Views.{call_view};
ghost use Rattle.script.specs.Calls.{fob_call, mixer_call, packet_call};

use crate::parts::{end, last_payload, last_source};
use crate::{Call, Problem};
use std::alloc::Global;
use text::{ParseError, split_word};

/// A call of the fob.
pub(crate) fn fob_call(heap: Global, text: &[u8]) -> Result<Call, ParseError<Problem>>
    ensures value { Reads call_view result (fob_call text.now) }
{
    let (word, rest) = split_word(text);
    // Tried as a `match` on the word: the proof of its last arm, which has a branch for each octet that differs, did not close.
    if word == b"invite".as_slice() {
        end(rest)?;
        return Ok(Call::Invite);
    }
    if word == b"prove".as_slice() {
        return Ok(Call::Prove(last_source(heap, rest)?));
    }
    if word == b"finish".as_slice() {
        return Ok(Call::Finish(last_source(heap, rest)?));
    }
    packet_call(heap, text)
}

/// A call of the mixer.
pub(crate) fn mixer_call(heap: Global, text: &[u8]) -> Result<Call, ParseError<Problem>>
    ensures value { Reads call_view result (mixer_call text.now) }
{
    let (word, rest) = split_word(text);
    match word {
        b"answer" => Ok(Call::Answer(last_source(heap, rest)?)),
        b"confirm" => Ok(Call::Confirm(last_source(heap, rest)?)),
        _ => packet_call(heap, text),
    }
}

/// A call that both ends have.
fn packet_call(heap: Global, text: &[u8]) -> Result<Call, ParseError<Problem>>
    ensures value { Reads call_view result (packet_call text.now) }
{
    let (word, rest) = split_word(text);
    match word {
        b"seal" => Ok(Call::Seal(last_payload(heap, rest)?)),
        b"unseal" => Ok(Call::Unseal(last_source(heap, rest)?)),
        b"close" => {
            end(rest)?;
            Ok(Call::Close)
        }
        _ => Err(Problem::Call.into()),
    }
}
