//! The fob's side of the handshake.
ghost use Rattle.std.specs.Prelude.{◌≡◌, ◌≤◌, length, drop, OnOk};
ghost use Rattle.cipher.specs.Cipher.{E};
ghost use Rattle.cipher.specs.Workspace.{left};
ghost use Rattle.keyed.specs.Derivation.{derived};
ghost use Rattle.channel.specs.Steps.{label_in, nonce_in};
ghost use Rattle.channel.specs.Handshake.{invited, invite_output, proof_of, prove_check, to_proved, proven, prove_output, finish_check, open_fob, finished};
ghost use Rattle.channel.specs.Within.{prove_within, finish_within};

use crate::fields::cut;
use crate::{Fob, Invited, Nonce, NotStarted, Open, Proof, Proved, Refused, Role, Session, Ticket};
use cipher::{BlockCipher, Guard, WORKSPACE};
use fault::{Fault, HandshakeCause, HostCause};
use keyed::{Identities, Labels, Nonces, Told, derive};
use lookup::KeyLookup;
use message::{Direction, Kind, VERIFY, write_act, write_verify};
use std::marker::PhantomData;

impl<C: BlockCipher> Fob<C> {
    /// A fob that has not been called yet, with both identities.
    pub fn new(identities: Identities) -> Fob<C>
        ensures end { result.identities ≡ identities }
    {
        Fob {
            identities,
            cipher: PhantomData,
        }
    }

    /// Gives the fob up.
    pub fn give_up(self) -> Identities
        ensures value { result ≡ self.identities }
    {
        self.identities
    }

    /// Invites a mixer: takes over the key and the nonce, and writes an `ACT_REQ` of 40 octets.
    pub fn invite<K: KeyLookup>(
        self,
        key: K,
        nonce: Nonce,
        output: &mut [u8],
    ) -> Result<Invited<C, K>, NotStarted<Fob<C>, K>>
        ensures value { result ≡ invited self key nonce output.old }
        ensures output { output.new ≡ invite_output C.BlockCipher.protocol K.KeyLookup.own key nonce output.old }
    {
        let label = key.label();
        match write_act(Direction::Request, C::pid(), &label, &nonce.octets, output) {
            Err(fault) => Err(NotStarted {
                end: self,
                key,
                nonce,
                fault,
            }),
            Ok(_) => Ok(Invited {
                identities: self.identities,
                key,
                nonce,
                cipher: self.cipher,
            }),
        }
    }
}

impl<C: BlockCipher, K: KeyLookup> Invited<C, K> {
    /// Gives the fob up and its key back.
    pub fn give_up(self) -> K
        ensures value { result ≡ self.key }
    {
        self.key
    }

    /// Proves to the mixer that answered that the fob has the keys: writes a `VFY_REQ` of 15 octets.
    pub fn prove(
        self,
        message: &[u8],
        workspace: &mut [u8],
        output: &mut [u8],
    ) -> Result<Proved<C, K>, Refused<Invited<C, K>>>
        ensures value { result ≡ proven C.BlockCipher.protocol (E C.BlockCipher.schedule C.BlockCipher.worked) K.KeyLookup.own K.KeyLookup.replies self message.now workspace.old output.old }
        ensures output { output.new ≡ prove_output C.BlockCipher.protocol (E C.BlockCipher.schedule C.BlockCipher.worked) K.KeyLookup.own K.KeyLookup.replies self message.now workspace.old output.old }
        ensures workspace { workspace.new ≡ left workspace.old }
    {
        match self.check(message, workspace, output) {
            Err(fault) => Err(Refused { end: self, fault }),
            Ok(proof) => {
                let _written = write_verify(Direction::Request, C::pid(), &proof.tag, output);
                Ok(self.to_proved(message, proof))
            }
        }
    }

    /// What the proof is checked for, and the keys and the tag that it comes to.
    fn check(&self, message: &[u8], workspace: &mut [u8], output: &[u8]) -> Result<Proof, Fault>
        ensures value { result ≡ prove_check C.BlockCipher.protocol (E C.BlockCipher.schedule C.BlockCipher.worked) K.KeyLookup.own K.KeyLookup.replies self.now message.now workspace.old output.now }
        ensures workspace { workspace.new ≡ left workspace.old }
        ensures form { OnOk result ((40 ≤ length message.now) × (15 ≤ length output.now)) }
    {
        if workspace.len() < WORKSPACE {
            return Err(HostCause::Size.into());
        }
        let guard = Guard(workspace);
        self.check_within(message, guard.0, output)
    }

    /// The same with a workspace of full size.
    fn check_within(
        &self,
        message: &[u8],
        workspace: &mut [u8],
        output: &[u8],
    ) -> Result<Proof, Fault>
        requires { 256 ≤ length workspace.old }
        ensures value { result ≡ prove_within C.BlockCipher.protocol (E C.BlockCipher.schedule C.BlockCipher.worked) K.KeyLookup.own K.KeyLookup.replies self.now message.now output.now }
        ensures workspace { drop 256 workspace.new ≡ drop 256 workspace.old }
        ensures form { OnOk result ((40 ≤ length message.now) × (15 ≤ length output.now)) }
    {
        if output.len() < VERIFY {
            return Err(HostCause::Size.into());
        }
        Kind::Act(Direction::Response).check(C::pid(), message)?;
        let Ok(secret) = self.key.reply(&cut(message, 3)) else {
            return Err(Fault::handshake(HandshakeCause::Label, 3));
        };
        Ok(self.proof(message, secret.octets(), workspace))
    }

    /// The labels of both ends.
    fn labels(&self, message: &[u8]) -> Labels
        requires { 40 ≤ length message.now }
        ensures value { (result.fob ≡ K.KeyLookup.own self.now.key) × (result.mixer ≡ label_in message.now) }
    {
        let (own, theirs) = (self.key.label(), cut(message, 3));
        Labels {
            fob: own,
            mixer: theirs,
        }
    }

    /// The nonces of both ends.
    fn nonces(&self, message: &[u8]) -> Nonces
        requires { 40 ≤ length message.now }
        ensures value { (result.fob ≡ self.now.nonce.octets) × (result.mixer ≡ nonce_in message.now) }
    {
        let (own, theirs) = (self.nonce.octets, cut(message, 28));
        Nonces {
            fob: own,
            mixer: theirs,
        }
    }

    /// The keys under a secret, and the tag that proves them.
    fn proof(&self, message: &[u8], secret: &[u8; 24], workspace: &mut [u8]) -> Proof
        requires { (40 ≤ length message.now) × (256 ≤ length workspace.old) }
        ensures value { result ≡ proof_of C.BlockCipher.protocol (E C.BlockCipher.schedule C.BlockCipher.worked) K.KeyLookup.own K.KeyLookup.replies self.now message.now (derived (E C.BlockCipher.schedule C.BlockCipher.worked) self.now.nonce.octets (nonce_in message.now) self.now.identities.fob self.now.identities.mixer secret.now) }
        ensures workspace { drop 256 workspace.new ≡ drop 256 workspace.old }
    {
        let labels = self.labels(message);
        let nonces = self.nonces(message);
        let keys = derive::<C>(&self.identities, &nonces, secret, workspace);
        let told = Told {
            identities: &self.identities,
            labels: &labels,
            nonces: &nonces,
        };
        let tag = told.tag::<C>(Role::Fob, &keys.master, workspace);
        Proof { keys, tag }
    }

    /// The move, which cannot be refused.
    fn to_proved(self, message: &[u8], proof: Proof) -> Proved<C, K>
        requires { 40 ≤ length message.now }
        ensures end { result ≡ to_proved C.BlockCipher.protocol (E C.BlockCipher.schedule C.BlockCipher.worked) K.KeyLookup.own K.KeyLookup.replies self message.now proof }
    {
        let labels = self.labels(message);
        let nonces = self.nonces(message);
        let keys = proof.keys;
        Proved {
            session: Session {
                identities: self.identities,
                key: self.key,
                labels,
                nonces,
                keys,
            },
            cipher: self.cipher,
        }
    }
}

impl<C: BlockCipher, K: KeyLookup> Proved<C, K> {
    /// Gives the fob up and its key back.
    pub fn give_up(self) -> K
        ensures value { result ≡ self.session.key }
    {
        self.session.key
    }

    /// Finishes the handshake: checks the mixer's confirmation and opens.
    pub fn finish(
        self,
        message: &[u8],
        workspace: &mut [u8],
    ) -> Result<(Open<C, K>, Ticket), Refused<Proved<C, K>>>
        ensures value { result ≡ finished C.BlockCipher.protocol (E C.BlockCipher.schedule C.BlockCipher.worked) self message.now workspace.old }
        ensures workspace { workspace.new ≡ left workspace.old }
    {
        match self.check(message, workspace) {
            Err(fault) => Err(Refused { end: self, fault }),
            Ok(()) => Ok((self.to_open(), Ticket { spent: () })),
        }
    }

    /// What finishing is checked for.
    fn check(&self, message: &[u8], workspace: &mut [u8]) -> Result<(), Fault>
        ensures value { result ≡ finish_check C.BlockCipher.protocol (E C.BlockCipher.schedule C.BlockCipher.worked) self.now message.now workspace.old }
        ensures workspace { workspace.new ≡ left workspace.old }
    {
        if workspace.len() < WORKSPACE {
            return Err(HostCause::Size.into());
        }
        let guard = Guard(workspace);
        self.check_within(message, guard.0)
    }

    /// The same with a workspace of full size.
    fn check_within(&self, message: &[u8], workspace: &mut [u8]) -> Result<(), Fault>
        requires { 256 ≤ length workspace.old }
        ensures value { result ≡ finish_within C.BlockCipher.protocol (E C.BlockCipher.schedule C.BlockCipher.worked) self.now message.now }
        ensures workspace { drop 256 workspace.new ≡ drop 256 workspace.old }
    {
        Kind::Verify(Direction::Response).check(C::pid(), message)?;
        let session = &self.session;
        if !session.tag_matches::<C>(Role::Mixer, &message[3..15], workspace) {
            return Err(Fault::handshake(HandshakeCause::Tag, 3));
        }
        Ok(())
    }

    /// The move, which cannot be refused.
    fn to_open(self) -> Open<C, K>
        ensures end { result ≡ open_fob self }
    {
        self.session.open(Role::Fob, self.cipher)
    }
}
