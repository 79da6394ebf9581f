//! A session, as its lines give it.
ghost use Rattle.std.specs.Prelude.{◌≡◌, [], ◌∷◌, ◌++◌, ◌↔◌, IsTrue, OnOk, OnErr, vec_items};
ghost use Rattle.text.specs.Reading.{Reads};
ghost use Rattle.recorded.specs.Sessions.{IsFresh, IsKept, begun, with_derived, with_message, taken, packets_after, labels_of, SecretsAgree, same_keys};
ghost use Rattle.cipher.specs.Cipher.{E};
ghost use Rattle.keyed.specs.Derivation.{derived};

use crate::key::OwnKey;
use crate::line::{Derived, Handshake, Line};
use crate::words::{Problem, Stop, Suite, part};
use cipher::{BlockCipher, WORKSPACE};
use keyed::{Identities, Labels, Nonces, SessionKeys};
use std::alloc::{AllocError, Global};

/// A session as the file has it. What no line gave is zero, empty or none.
#[derive(Drop)]
pub struct Session {
    pub suite: Suite,
    pub identities: Identities,
    pub nonces: Nonces,
    pub secret: [u8; 24],
    pub keys: SessionKeys,
    pub fob_key: Option<OwnKey>,
    pub mixer_key: Option<OwnKey>,
    pub act_req: Vec<u8>,
    pub act_res: Vec<u8>,
    pub vfy_req: Vec<u8>,
    pub vfy_res: Vec<u8>,
    pub packets: Vec<Packet>,
}

/// A packet as the file has it, with the counter after it.
#[derive(Drop)]
pub struct Packet {
    pub number: u32,
    pub payload: Vec<u8>,
    pub message: Option<Vec<u8>>,
    pub counter: Option<u128>,
}

impl Session {
    /// A session of which only its first line is read.
    pub fn new(heap: Global, suite: Suite) -> Session
        ensures value { IsFresh suite result }
    {
        Session {
            suite,
            identities: Identities {
                fob: [0; 10],
                mixer: [0; 10],
            },
            nonces: Nonces {
                fob: [0; 12],
                mixer: [0; 12],
            },
            secret: [0; 24],
            keys: SessionKeys {
                master: [0; 16],
                encryption: [0; 16],
                integrity: [0; 16],
                counter: 0,
            },
            fob_key: None,
            mixer_key: None,
            act_req: Vec::new(heap),
            act_res: Vec::new(heap),
            vfy_req: Vec::new(heap),
            vfy_res: Vec::new(heap),
            packets: Vec::new(heap),
        }
    }

    /// Takes in a line. One that begins a session gives this one another cipher.
    pub fn take(&mut self, line: Line) -> Result<(), Stop>
        ensures rest { OnOk result (self.new ≡ record (taken self.old line) { packets = self.new.packets }) }
        ensures packets { Reads (λ r. vec_items self.new.packets) result (packets_after (vec_items self.old.packets) line) }
        ensures kept { IsKept result self.old self.new }
    {
        match line {
            Line::Cipher(suite) => self.suite = suite,
            Line::Identities(identities) => self.identities = identities,
            Line::FobKey(key) => self.fob_key = Some(key),
            Line::MixerKey(key) => self.mixer_key = Some(key),
            Line::Nonces(nonces) => self.nonces = nonces,
            Line::Secret(secret) => self.secret = secret,
            Line::Derived(which, octets) => self.take_derived(which, octets),
            Line::Message(which, octets) => self.take_message(which, octets),
            Line::Payload(number, payload) => self.begin_packet(number, payload)?,
            Line::Packet(message) => {
                let packet = self.packets.last_mut().ok_or(Problem::Payload)?;
                packet.message = Some(message);
            }
            Line::Counter(octets) => {
                let packet = self.packets.last_mut().ok_or(Problem::Payload)?;
                packet.counter = Some(u128::from_be_bytes(octets));
            }
        }
        Ok(())
    }

    /// The labels, out of the two messages that carry them.
    pub fn labels(&self) -> Result<Labels, Problem>
        ensures value { result ≡ labels_of (vec_items self.now.act_req) (vec_items self.now.act_res) }
    {
        let fob = part(&self.act_req, 3)?;
        let mixer = part(&self.act_res, 3)?;
        Ok(Labels { fob, mixer })
    }

    /// Whether each own key has its end's label, and gives the other's label the secret.
    pub fn secrets_agree(&self, labels: &Labels) -> bool
        ensures value { IsTrue result ↔ SecretsAgree self.now labels.now }
    {
        let Labels { fob, mixer } = labels;
        match (&self.fob_key, &self.mixer_key) {
            (Some(fob_key), Some(mixer_key)) => fob_key.gives(fob, mixer, &self.secret)
                && mixer_key.gives(mixer, fob, &self.secret),
            _ => false,
        }
    }

    /// Whether the keys and the first counter are those that both ends work out.
    pub fn keys_agree<C: BlockCipher>(&self) -> bool
        ensures value { result ≡ same_keys (derived (E C.BlockCipher.schedule C.BlockCipher.worked) self.now.nonces.fob self.now.nonces.mixer self.now.identities.fob self.now.identities.mixer self.now.secret) self.now.keys }
    {
        let derived = keyed::derive::<C>(
            &self.identities,
            &self.nonces,
            &self.secret,
            &mut [0; WORKSPACE],
        );
        // Keys have no `==`, so that none is compared by accident with one that leaves early.
        derived.master == self.keys.master
            && derived.encryption == self.keys.encryption
            && derived.integrity == self.keys.integrity
            && derived.counter == self.keys.counter
    }

    fn begin_packet(&mut self, number: u32, payload: Vec<u8>) -> Result<(), AllocError>
        ensures value { OnOk result (vec_items self.new.packets ≡ vec_items self.old.packets ++ begun number payload ∷ []) }
        ensures kept { OnErr result (vec_items self.new.packets ≡ vec_items self.old.packets) }
        ensures rest { self.new ≡ record self.old { packets = self.new.packets } }
    {
        let packet = Packet {
            number,
            payload,
            message: None,
            counter: None,
        };
        Ok(self.packets.push(packet)?)
    }

    fn take_derived(&mut self, which: Derived, octets: [u8; 16])
        ensures value { self.new ≡ with_derived self.old which octets }
    {
        match which {
            Derived::Master => self.keys.master = octets,
            Derived::Encryption => self.keys.encryption = octets,
            Derived::Integrity => self.keys.integrity = octets,
            Derived::Counter => self.keys.counter = u128::from_be_bytes(octets),
        }
    }

    fn take_message(&mut self, which: Handshake, octets: Vec<u8>)
        ensures value { self.new ≡ with_message self.old which octets }
    {
        match which {
            Handshake::ActReq => self.act_req = octets,
            Handshake::ActRes => self.act_res = octets,
            Handshake::VfyReq => self.vfy_req = octets,
            Handshake::VfyRes => self.vfy_res = octets,
        }
    }
}
