//! Whole sessions, each part by itself, compared as the lines of the file give it: the keys, the labels and secrets, the
//! confirmations and the packets.
use crate::{report, told, unreadable};
use aes::Aes;
use cipher::{BlockCipher, WORKSPACE};
use ends::Role;
use keyed::{Labels, Told};
use message::PAYLOAD;
use recorded::{
    Derived, Handshake, Line, Problem, Session, Stop, Suite, Tally, octets, parse_named, part,
};
use speck::Speck;
use std::fs;
use text::split_word;

/// What the lines gave so far. What a session's lines do not give anew stands as those before gave it.
#[derive(Drop)]
struct Reading {
    number: u32,
    session: Session,
    labels: Labels,
    payload: Vec<u8>,
    packets: u32,
    /// the counter as it stands, if the data and the tag of the last packet were right
    counter: Option<u128>,
}

/// Compares the whole sessions.
pub(crate) fn compare_sessions(rt: &HostRuntime, tally: &mut Tally) -> anyhow::Result<()> {
    let lines = fs::read_to_string(rt, "sessions.txt")?;
    let mut reading = Reading::new(rt);
    for line in lines.lines() {
        reading.line(rt, line.as_bytes(), tally)?;
    }
    Ok(())
}

impl Reading {
    /// Nothing was read; the cipher is AES until a line names one.
    fn new(rt: &HostRuntime) -> Reading {
        Reading {
            number: 0,
            session: Session::new(rt.alloc(), Suite::Aes),
            labels: Labels {
                fob: [0; 25],
                mixer: [0; 25],
            },
            payload: Vec::new(rt.alloc()),
            packets: 0,
            counter: None,
        }
    }

    /// Takes in a line, and compares what it gives. A line of another name is passed over.
    fn line(&mut self, rt: &HostRuntime, line: &[u8], tally: &mut Tally) -> anyhow::Result<()> {
        let (name, rest) = split_word(line);
        match name {
            b"cipher" => self.begin(rest),
            b"payload" => self.payload = payload_in(rt, rest)?,
            b"counter" if self.counter.is_none() => return self.end_packet(rt, false, tally),
            _ => match parse_named(rt.alloc(), name, rest) {
                Ok(Some(line)) => return self.compare(rt, line, tally),
                Ok(None) | Err(Stop::Unreadable(Problem::Name)) => {}
                Err(stop) => return Err(told(stop)),
            },
        }
        Ok(())
    }

    /// Another session begins, under the cipher that is named: AES unless it is Speck.
    fn begin(&mut self, words: &[u8]) {
        let (name, _) = split_word(words);
        self.session.suite = Suite::try_from(name).unwrap_or(Suite::Aes);
        self.number = self.number.saturating_add(1);
        self.packets = 0;
    }

    fn compare(&mut self, rt: &HostRuntime, line: Line, tally: &mut Tally) -> anyhow::Result<()> {
        match self.session.suite {
            Suite::Aes => self.compare_under::<Aes>(rt, line, tally),
            Suite::Speck => self.compare_under::<Speck>(rt, line, tally),
        }
    }

    /// Takes in what a line gives, and compares it where it can be.
    fn compare_under<C: BlockCipher>(
        &mut self,
        rt: &HostRuntime,
        line: Line,
        tally: &mut Tally,
    ) -> anyhow::Result<()> {
        match line {
            Line::Derived(Derived::Counter, counter) => {
                let first = u128::from_be_bytes(counter);
                self.session.keys.counter = first;
                self.counter = self.counter.map(|_| first);
                self.report(rt, "keys", self.session.keys_agree::<C>(), tally)?;
            }
            Line::Message(Handshake::ActReq, message) => self.labels.fob = label_in(&message)?,
            Line::Message(Handshake::ActRes, message) => {
                self.labels.mixer = label_in(&message)?;
                let agrees = self.session.secrets_agree(&self.labels);
                self.report(rt, "labels and secrets", agrees, tally)?;
            }
            Line::Message(Handshake::VfyReq, message) => {
                let agrees = self.confirms::<C>(Role::Fob, &message)?;
                self.report(rt, "fob's confirmation", agrees, tally)?;
            }
            Line::Message(Handshake::VfyRes, message) => {
                let agrees = self.confirms::<C>(Role::Mixer, &message)?;
                self.report(rt, "mixer's confirmation", agrees, tally)?;
            }
            Line::Packet(message) => self.packet::<C>(&message)?,
            Line::Counter(counter) => {
                let agrees = self.counter == Some(u128::from_be_bytes(counter));
                self.end_packet(rt, agrees, tally)?;
            }
            other => self.session.take(other).map_err(told)?,
        }
        Ok(())
    }

    /// Writes the line of a part of the session.
    fn report(
        &self,
        rt: &HostRuntime,
        what: &str,
        agrees: bool,
        tally: &mut Tally,
    ) -> anyhow::Result<()> {
        print!(rt; "session {} {what}", self.number)?;
        report(rt, agrees, tally)
    }

    /// Whether a message has the confirmation of its end.
    fn confirms<C: BlockCipher>(&self, whose: Role, message: &[u8]) -> anyhow::Result<bool> {
        let theirs = Told {
            identities: &self.session.identities,
            labels: &self.labels,
            nonces: &self.session.nonces,
        };
        let tag = theirs.tag::<C>(whose, &self.session.keys.master, &mut [0; WORKSPACE]);
        Ok(tag == part(message, 3).map_err(unreadable)?)
    }

    /// Takes in a packet: moves the counter, and keeps it where the data and the tag are those of the payload.
    fn packet<C: BlockCipher>(&mut self, packet: &[u8]) -> anyhow::Result<()> {
        let keys = &self.session.keys;
        let mut data = self.payload.clone()?;
        let mut workspace = [0; WORKSPACE];
        let moved = keyed::keystream::<C>(
            &keys.encryption,
            keys.counter,
            &self.payload,
            &mut data,
            &mut workspace,
        );
        let agrees = is_sealed::<C>(&keys.integrity, packet, data.as_slice());
        self.session.keys.counter = moved;
        self.counter = if agrees { Some(moved) } else { None };
        Ok(())
    }

    /// Ends a packet, whose counter comes last.
    fn end_packet(
        &mut self,
        rt: &HostRuntime,
        agrees: bool,
        tally: &mut Tally,
    ) -> anyhow::Result<()> {
        self.packets = self.packets.saturating_add(1);
        let what = format!(in rt.alloc(); "packet {}", self.packets)?;
        self.report(rt, what.as_str(), agrees, tally)
    }
}

/// Whether a packet holds this data and the tag over it.
fn is_sealed<C: BlockCipher>(integrity: &[u8; 16], packet: &[u8], data: &[u8]) -> bool {
    let Some((body, tag)) = packet.split_last_chunk::<12>() else {
        return false;
    };
    let (Some(tagged), Some(sealed)) = (body.get(3..), body.get(9..)) else {
        return false;
    };
    data.len() <= PAYLOAD
        && sealed == data
        && keyed::tag::<C>(integrity, tagged, &mut [0; WORKSPACE]) == *tag
}

/// The payload that a line gives after its number.
fn payload_in(rt: &HostRuntime, words: &[u8]) -> anyhow::Result<Vec<u8>> {
    let (_, rest) = split_word(words);
    let (payload, _) = split_word(rest);
    octets(rt.alloc(), payload).map_err(told)
}

/// The label in an `ACT_REQ` or `ACT_RES`.
fn label_in(message: &[u8]) -> anyhow::Result<[u8; 25]> {
    part(message, 3).map_err(unreadable)
}
