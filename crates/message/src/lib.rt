//! Messages: the check, the reader that borrows a message's fields, and the writers.
//!
//! Octet 0 is the kind, octet 1 the protocol identifier (PID), octet 2 a map of the fields; then come only the
//! fields whose bit stands in the map, lowest bit first: bit 0 a label of 25 octets, bit 1 a nonce of 12, bit 2 a
//! number of 3, bit 3 a length of 3 and as many data octets, bit 4 a tag of 12. Numbers have their highest octet first.
#![tactic(auto)]

ghost use Rattle.std.specs.Prelude.{◌≡◌, ℕ, ◌+◌, ◌≤◌, false, List, ◌++◌, length, take, drop, Some, Ok, Err, cond, ◌==◌, MatchResult};
ghost use Rattle.fault.specs.declared.MessageCause.TheVariants.{Length};
ghost use Rattle.message.specs.Layout.{kind_number, kind_name, map_of, number_at};
ghost use Rattle.message.specs.Kinds.{KindOf};
ghost use Rattle.message.specs.Reading.{refused, shaped, checked, viewed, Sized, fields_at};
ghost use Rattle.message.specs.Writing.{octets_of, act, verify, enc, head_octets, wrote, wrote_enc, after};
ghost use Rattle.message.specs.Laws.{ActBack, VerifyBack, EncBack, WrittenAgain, ByTheMap};

use fault::{Fault, HostCause, MessageCause};
use std::fmt;

mod number;

pub use number::{LAST_NUMBER, OverLast, PacketNumber};

/// The longest payload, and so the longest data of a message.
pub const PAYLOAD: usize = 4096;

/// How many octets an `ACT_REQ` or `ACT_RES` has.
pub const ACT: usize = 40;

/// How many octets a `VFY_REQ` or `VFY_RES` has.
pub const VERIFY: usize = 15;

/// How many octets the longest `ENC` has.
pub const PACKET: usize = 21 + PAYLOAD;

/// Which of two messages of one form: the fob's request or the mixer's response.
#[derive(Clone, Copy, PartialEq, Eq, Debug)]
pub enum Direction {
    Request,
    Response,
}

/// The kinds of messages.
#[derive(Clone, Copy, PartialEq, Eq, Debug)]
pub enum Kind {
    /// 1 `ACT_REQ` and 2 `ACT_RES`: a label and a nonce
    Act(Direction),
    /// 3 `VFY_REQ` and 4 `VFY_RES`: a tag
    Verify(Direction),
    /// 5 `ENC`: a packet
    Enc,
}

/// The fields of a message, each a part of the message itself.
#[derive(Clone, Copy, Debug)]
pub enum Message<'a> {
    /// label at 3, nonce at 28
    Act {
        label: &'a [u8],
        nonce: &'a [u8],
    },
    /// tag at 3
    Verify {
        tag: &'a [u8],
    },
    /// number at 3, length n at 6, data at 9, tag at 9 + n
    Enc {
        number: u32,
        data: &'a [u8],
        tag: &'a [u8],
    },
}

/// A number that no kind has.
#[derive(Clone, Copy, PartialEq, Eq, Debug)]
pub struct UnknownKind(pub u32);

/// The kind of a number of 1 to 5.
impl TryFrom<u32> for Kind {
    type Error = UnknownKind;

    ghost try_from_gives = { KindOf };

    fn try_from(number: u32) -> Result<Kind, UnknownKind> {
        match number {
            1 => Ok(Kind::Act(Direction::Request)),
            2 => Ok(Kind::Act(Direction::Response)),
            3 => Ok(Kind::Verify(Direction::Request)),
            4 => Ok(Kind::Verify(Direction::Response)),
            5 => Ok(Kind::Enc),
            _ => Err(UnknownKind(number)),
        }
    }
}

/// The number in octet 0, 1 to 5.
impl From<Kind> for u8 {
    ghost from_gives = { λ k n. n ≡ kind_number k };

    fn from(kind: Kind) -> u8 {
        match kind {
            Kind::Act(Direction::Request) => 1,
            Kind::Act(Direction::Response) => 2,
            Kind::Verify(Direction::Request) => 3,
            Kind::Verify(Direction::Response) => 4,
            Kind::Enc => 5,
        }
    }
}

/// Prints the name of the kind.
impl fmt::Display for Kind {
    ghost output = { λ k. Some (kind_name k) };

    fn fmt<W: fmt::Write>(&self, f: &mut fmt::Formatter<W>) -> fmt::Result {
        f.write_str(self.name())
    }
}

impl Kind {
    /// The name of the kind.
    pub fn name(self) -> &'static str
        ensures value { result.now ≡ kind_name self }
    {
        match self {
            Kind::Act(Direction::Request) => "ACT_REQ",
            Kind::Act(Direction::Response) => "ACT_RES",
            Kind::Verify(Direction::Request) => "VFY_REQ",
            Kind::Verify(Direction::Response) => "VFY_RES",
            Kind::Enc => "ENC",
        }
    }

    /// The map of the fields of this kind.
    fn map(self) -> u8
        ensures value { result ≡ map_of (kind_number self) }
    {
        match self {
            Kind::Act(_) => 3,
            Kind::Verify(_) => 16,
            Kind::Enc => 28,
        }
    }

    /// Whether the octets are a message of this kind under this protocol identifier, or why not: what `check` answers
    /// for the kind's number.
    pub fn check(self, pid: u8, octets: &[u8]) -> Result<(), Fault>
        ensures value { result ≡ checked (kind_number self) pid octets.now }
    {
        check(u32::from(u8::from(self)), u32::from(pid), octets)
    }

    /// Checks the lengths of a message of this kind whose protocol identifier and map are right.
    fn check_lengths(self, octets: &[u8]) -> Result<(), Fault>
        ensures value { result ≡ shaped (kind_number self) octets.now }
    {
        match self {
            Kind::Act(_) => check_length(octets, ACT),
            Kind::Verify(_) => check_length(octets, VERIFY),
            Kind::Enc if octets.len() < 9 => {
                Err(Fault::message(MessageCause::Length, octets.len()))
            }
            Kind::Enc => match number_at(octets, 6) as usize {
                n if n > PAYLOAD => Err(Fault::message(MessageCause::DataLength, 6)),
                n => check_length(octets, 21 + n),
            },
        }
    }
}

/// The number in three octets at `i`.
fn number_at(octets: &[u8], i: usize) -> u32
    requires { i + 3 ≤ length octets.now }
    ensures value { result ≡ number_at octets.now i }
    ensures fits { result ≤ 16777215 }
{
    u32::from_be_bytes([0, octets[i], octets[i + 1], octets[i + 2]])
}

/// The `n` octets from `i` on.
fn part(octets: &[u8], i: usize, n: usize) -> &[u8]
    requires { i + n ≤ length octets.now }
    ensures value { result.now ≡ take n (drop i octets.now) }
    ensures size { length result.now ≡ n }
{
    &octets[i..i + n]
}

/// Whether a message has this length.
fn check_length(octets: &[u8], want: usize) -> Result<(), Fault>
    ensures value { result ≡ cond (length octets.now == want) (Ok tt) (Err (refused Length (length octets.now))) }
{
    if octets.len() != want {
        return Err(Fault::message(MessageCause::Length, octets.len()));
    }
    Ok(())
}

/// Whether the octets are a message of the awaited kind under this protocol identifier, or why not.
///
/// Kind and protocol identifier are numbers here, since C passes them so; other callers ask `Kind::check`.
///
/// Looked at in this order: under 3 octets (6), not the awaited kind, or an awaited kind outside 1 to 5 (7), another
/// protocol identifier (8), wrong map (9), wrong fixed length or an `ENC` under 9 octets (6), data length over
/// 4,096 (10), wrong full length (6).
pub fn check(awaited: u32, pid: u32, octets: &[u8]) -> Result<(), Fault>
    ensures value { result ≡ checked awaited pid octets.now }
{
    let [kind, protocol, map, ..] = octets else {
        return Err(Fault::message(MessageCause::Length, octets.len()));
    };
    let Ok(awaited) = Kind::try_from(awaited) else {
        return Err(Fault::message(MessageCause::Kind, 0));
    };
    if *kind != u8::from(awaited) {
        return Err(Fault::message(MessageCause::Kind, 0));
    }
    if u32::from(*protocol) != pid {
        return Err(Fault::message(MessageCause::Protocol, 1));
    }
    if *map != awaited.map() {
        return Err(Fault::message(MessageCause::Map, 2));
    }
    awaited.check_lengths(octets)
}

/// The fields of a message of the awaited kind, or the check's refusal.
pub fn read<'a>(awaited: Kind, pid: u8, octets: &'a [u8]) -> Result<Message<'a>, Fault>
    ensures value { MatchResult result (λ m. (checked (kind_number awaited) pid octets.now ≡ Ok tt) × (viewed m ≡ fields_at awaited octets.now) × Sized m) (λ f. checked (kind_number awaited) pid octets.now ≡ Err f) }
{
    awaited.check(pid, octets)?;
    match awaited {
        Kind::Act(_) => Ok(Message::Act {
            label: part(octets, 3, 25),
            nonce: part(octets, 28, 12),
        }),
        Kind::Verify(_) => Ok(Message::Verify {
            tag: part(octets, 3, 12),
        }),
        Kind::Enc => {
            let n = number_at(octets, 6) as usize;
            Ok(Message::Enc {
                number: number_at(octets, 3),
                data: part(octets, 9, n),
                tag: part(octets, 9 + n, 12),
            })
        }
    }
}

/// Writes three parts, one after the other, at the start of the output, and answers how many octets they have together.
fn put(output: &mut [u8], head: &[u8], middle: &[u8], last: &[u8]) -> usize
    requires { length head.now + length middle.now + length last.now ≤ length output.old }
    ensures value { result ≡ length head.now + length middle.now + length last.now }
    ensures output { output.new ≡ (head.now ++ (middle.now ++ last.now)) ++ drop (length head.now + length middle.now + length last.now) output.old }
{
    let h = head.len();
    let m = h + middle.len();
    let n = m + last.len();
    output[0..h].copy_from_slice(head);
    output[h..m].copy_from_slice(middle);
    output[m..n].copy_from_slice(last);
    n
}

/// Writes an `ACT_REQ` or `ACT_RES` of 40 octets at the start of the output and answers 40; refuses a shorter output with 1.
pub fn write_act(
    direction: Direction,
    pid: u8,
    label: &[u8; 25],
    nonce: &[u8; 12],
    output: &mut [u8],
) -> Result<usize, Fault>
    ensures value { result ≡ wrote 40 output.old }
    ensures output { output.new ≡ after result (octets_of (kind_number (Kind.Act direction)) pid (act label.now nonce.now)) output.old }
{
    if output.len() < ACT {
        return Err(HostCause::Size.into());
    }
    let head = [u8::from(Kind::Act(direction)), pid, 3];
    Ok(put(output, &head, label, nonce))
}

/// Writes a `VFY_REQ` or `VFY_RES` of 15 octets at the start of the output and answers 15; refuses a shorter output with 1.
pub fn write_verify(
    direction: Direction,
    pid: u8,
    tag: &[u8; 12],
    output: &mut [u8],
) -> Result<usize, Fault>
    ensures value { result ≡ wrote 15 output.old }
    ensures output { output.new ≡ after result (octets_of (kind_number (Kind.Verify direction)) pid (verify tag.now)) output.old }
{
    if output.len() < VERIFY {
        return Err(HostCause::Size.into());
    }
    let head = [u8::from(Kind::Verify(direction)), pid, 16];
    Ok(put(output, &head, tag, &[]))
}

/// What stands before the data of an `ENC`: kind, protocol identifier, map, number and length.
pub fn enc_head(pid: u8, number: PacketNumber, length: u16) -> [u8; 9]
    ensures value { result ≡ head_octets pid number.value length }
{
    let [_, high, middle, low] = u32::from(number).to_be_bytes();
    let [length_high, length_low] = length.to_be_bytes();
    [
        u8::from(Kind::Enc),
        pid,
        28,
        high,
        middle,
        low,
        0,
        length_high,
        length_low,
    ]
}

/// Writes an `ENC` at the start of the output and answers its 21 + n octets; refuses data over 4,096 octets with 2,
/// a shorter output with 1.
pub fn write_enc(
    pid: u8,
    number: PacketNumber,
    data: &[u8],
    tag: &[u8; 12],
    output: &mut [u8],
) -> Result<usize, Fault>
    ensures value { result ≡ wrote_enc «data».now output.old }
    ensures output { output.new ≡ after result (octets_of 5 pid (enc number.value «data».now tag.now)) output.old }
{
    if data.len() > PAYLOAD {
        return Err(HostCause::PayloadLength.into());
    }
    if output.len() < 21 + data.len() {
        return Err(HostCause::Size.into());
    }
    let head = enc_head(pid, number, data.len() as u16);
    Ok(put(output, &head, data, tag))
}

/// What is written reads back equal; what is read is written again octet for octet; each kind's octets follow its map.
pub fn format_laws()
    ensures act { ActBack }
    ensures verify { VerifyBack }
    ensures enc { EncBack }
    ensures again { WrittenAgain }
    ensures map { ByTheMap }
{}
