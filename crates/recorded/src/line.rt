//! What a line holds.
ghost use Rattle.std.specs.Prelude.{◌≡◌};
ghost use Rattle.std.specs.Option.{option_map};
ghost use Rattle.text.specs.Reading.{Reads};
ghost use Rattle.text.specs.Words.{word_of};
ghost use Rattle.recorded.specs.Lines.{derived_of, handshake_of, single_name_of, name_of, key_view, key_in, of_end, line_view, form_of, line_in, line_of};

use crate::key::OwnKey;
use crate::words::{Problem, Stop, Suite, decimal, fixed, octets};
use keyed::{Identities, Nonces};
use std::alloc::Global;
use text::split_word;

/// Which message of the handshake.
#[derive(Clone, Copy, PartialEq, Eq, Debug)]
pub enum Handshake {
    ActReq,
    ActRes,
    VfyReq,
    VfyRes,
}

/// Which of the keys that are derived.
#[derive(Clone, Copy, PartialEq, Eq, Debug)]
pub enum Derived {
    Master,
    Encryption,
    Integrity,
    /// the first counter, in 16 octets
    Counter,
}

/// What a line holds.
#[derive(Drop)]
pub enum Line {
    /// a session begins, under this cipher
    Cipher(Suite),
    Identities(Identities),
    FobKey(OwnKey),
    MixerKey(OwnKey),
    Nonces(Nonces),
    Secret([u8; 24]),
    Derived(Derived, [u8; 16]),
    Message(Handshake, Vec<u8>),
    /// the number of a packet, and its payload
    Payload(u32, Vec<u8>),
    /// the packet of the payload above it
    Packet(Vec<u8>),
    /// the shared counter after the packet above it, in 16 octets
    Counter([u8; 16]),
}

/// The first word of a line.
#[derive(Clone, Copy)]
enum Name {
    Cipher,
    Identities,
    Key,
    Nonces,
    Secret,
    Derived(Derived),
    Message(Handshake),
    Payload,
    Packet,
    Counter,
}

impl TryFrom<&[u8]> for Derived {
    type Error = Problem;

    ghost try_from_gives = { λ w r. r ≡ derived_of w.now };

    fn try_from(word: &[u8]) -> Result<Derived, Problem> {
        match word {
            b"MK" => Ok(Derived::Master),
            b"KE" => Ok(Derived::Encryption),
            b"KI" => Ok(Derived::Integrity),
            b"IV" => Ok(Derived::Counter),
            _ => Err(Problem::Name),
        }
    }
}

impl TryFrom<&[u8]> for Handshake {
    type Error = Problem;

    ghost try_from_gives = { λ w r. r ≡ handshake_of w.now };

    fn try_from(word: &[u8]) -> Result<Handshake, Problem> {
        match word {
            b"ACT_REQ" => Ok(Handshake::ActReq),
            b"ACT_RES" => Ok(Handshake::ActRes),
            b"VFY_REQ" => Ok(Handshake::VfyReq),
            b"VFY_RES" => Ok(Handshake::VfyRes),
            _ => Err(Problem::Name),
        }
    }
}

/// The name of a line that is one word for one figure.
fn single_name(word: &[u8]) -> Result<Name, Problem>
    ensures value { result ≡ single_name_of word.now }
{
    match word {
        b"cipher" => Ok(Name::Cipher),
        b"identities" => Ok(Name::Identities),
        b"key" => Ok(Name::Key),
        b"nonces" => Ok(Name::Nonces),
        b"secret" => Ok(Name::Secret),
        b"payload" => Ok(Name::Payload),
        b"ENC" => Ok(Name::Packet),
        b"counter" => Ok(Name::Counter),
        _ => Err(Problem::Name),
    }
}

impl TryFrom<&[u8]> for Name {
    type Error = Problem;

    ghost try_from_gives = { λ w r. r ≡ name_of w.now };

    fn try_from(word: &[u8]) -> Result<Name, Problem> {
        if let Ok(name) = single_name(word) {
            return Ok(name);
        }
        if let Ok(which) = Derived::try_from(word) {
            return Ok(Name::Derived(which));
        }
        Ok(Name::Message(Handshake::try_from(word)?))
    }
}

/// An own key: of the sort `chip` a record, of any other a private number.
fn own_key(heap: Global, sort: &[u8], word: &[u8]) -> Result<OwnKey, Stop>
    ensures value { Reads key_view result (key_in sort.now word.now) }
{
    match sort {
        b"chip" => Ok(OwnKey::Chip(octets(heap, word)?)),
        _ => Ok(OwnKey::Bench(decimal(word)?)),
    }
}

/// An end's own key: of `fob`, or by any other word of the mixer.
fn end_key(heap: Global, end: &[u8], sort: &[u8], word: &[u8]) -> Result<Line, Stop>
    ensures value { Reads line_view result (of_end end.now (key_in sort.now word.now)) }
{
    let key = own_key(heap, sort, word)?;
    match end {
        b"fob" => Ok(Line::FobKey(key)),
        _ => Ok(Line::MixerKey(key)),
    }
}

/// The first word of a text.
fn word(text: &[u8]) -> &[u8]
    ensures value { result.now ≡ word_of text.now }
{
    let (first, _) = split_word(text);
    first
}

/// What follows the name of a line.
fn form(heap: Global, name: Name, text: &[u8]) -> Result<Line, Stop>
    ensures value { Reads line_view result (form_of name text.now) }
{
    let (first, rest) = split_word(text);
    match name {
        Name::Cipher => Ok(Line::Cipher(Suite::try_from(first)?)),
        Name::Identities => {
            let fob = fixed(heap, first)?;
            let mixer = fixed(heap, word(rest))?;
            Ok(Line::Identities(Identities { fob, mixer }))
        }
        Name::Nonces => {
            let fob = fixed(heap, first)?;
            let mixer = fixed(heap, word(rest))?;
            Ok(Line::Nonces(Nonces { fob, mixer }))
        }
        Name::Key => {
            let (sort, rest) = split_word(rest);
            end_key(heap, first, sort, word(rest))
        }
        Name::Secret => Ok(Line::Secret(fixed(heap, first)?)),
        Name::Derived(which) => Ok(Line::Derived(which, fixed(heap, first)?)),
        Name::Message(which) => Ok(Line::Message(which, octets(heap, first)?)),
        Name::Payload => Ok(Line::Payload(decimal(first)?, octets(heap, word(rest))?)),
        Name::Packet => Ok(Line::Packet(octets(heap, first)?)),
        Name::Counter => Ok(Line::Counter(fixed(heap, first)?)),
    }
}

/// What a line holds, if it holds something.
pub fn parse_line(heap: Global, text: &[u8]) -> Result<Option<Line>, Stop>
    ensures value { Reads (option_map line_view) result (line_of text.now) }
{
    let (name, rest) = split_word(text);
    parse_named(heap, name, rest)
}

/// What a line of this name holds with what follows the name, if it holds something.
pub fn parse_named(heap: Global, name: &[u8], rest: &[u8]) -> Result<Option<Line>, Stop>
    ensures value { Reads (option_map line_view) result (line_in name.now rest.now) }
{
    match name.first() {
        None | Some(b'#') => Ok(None),
        _ => Ok(Some(form(heap, Name::try_from(name)?, rest)?)),
    }
}
