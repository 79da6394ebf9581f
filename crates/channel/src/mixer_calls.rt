//! The mixer's side of the handshake.
ghost use Rattle.std.specs.Prelude.{◌≡◌, ◌≤◌, length, drop, OnOk};
ghost use Rattle.cipher.specs.Cipher.{E};
ghost use Rattle.cipher.specs.Workspace.{left};
ghost use Rattle.channel.specs.Handshake.{answer_check, to_answered, answered, answer_output, confirm_check, open_mixer, confirmed, confirm_output};
ghost use Rattle.channel.specs.Within.{answer_within, confirm_within};

use crate::fields::cut;
use crate::{Answered, Mixer, Nonce, NotStarted, Open, Refused, Role, Session, Ticket};
use cipher::{BlockCipher, Guard, WORKSPACE};
use fault::{Fault, HandshakeCause, HostCause};
use keyed::{Identities, Labels, Nonces, SessionKeys};
use lookup::KeyLookup;
use message::{ACT, Direction, Kind, VERIFY, write_act, write_verify};
use std::marker::PhantomData;

impl<C: BlockCipher> Mixer<C> {
    /// A mixer that has not been called yet, with both identities.
    pub fn new(identities: Identities) -> Mixer<C>
        ensures end { result.identities ≡ identities }
    {
        Mixer {
            identities,
            cipher: PhantomData,
        }
    }

    /// Gives the mixer up.
    pub fn give_up(self) -> Identities
        ensures value { result ≡ self.identities }
    {
        self.identities
    }

    /// Answers an invitation: takes over the key and the nonce, and writes an `ACT_RES` of 40 octets.
    pub fn answer<K: KeyLookup>(
        self,
        key: K,
        nonce: Nonce,
        message: &[u8],
        workspace: &mut [u8],
        output: &mut [u8],
    ) -> Result<Answered<C, K>, NotStarted<Mixer<C>, K>>
        ensures value { result ≡ answered C.BlockCipher.protocol (E C.BlockCipher.schedule C.BlockCipher.worked) K.KeyLookup.own K.KeyLookup.replies self key nonce message.now workspace.old output.old }
        ensures output { output.new ≡ answer_output C.BlockCipher.protocol (E C.BlockCipher.schedule C.BlockCipher.worked) K.KeyLookup.own K.KeyLookup.replies self key nonce message.now workspace.old output.old }
        ensures workspace { workspace.new ≡ left workspace.old }
    {
        match self.check(&key, &nonce, message, workspace, output) {
            Err(fault) => Err(NotStarted {
                end: self,
                key,
                nonce,
                fault,
            }),
            Ok(keys) => {
                let label = key.label();
                let response = Direction::Response;
                let _written = write_act(response, C::pid(), &label, &nonce.octets, output);
                Ok(self.to_answered(key, nonce, message, keys))
            }
        }
    }

    /// What the answer is checked for, and the keys that it comes to.
    fn check<K: KeyLookup>(
        &self,
        key: &K,
        nonce: &Nonce,
        message: &[u8],
        workspace: &mut [u8],
        output: &[u8],
    ) -> Result<SessionKeys, Fault>
        ensures value { result ≡ answer_check C.BlockCipher.protocol (E C.BlockCipher.schedule C.BlockCipher.worked) K.KeyLookup.own K.KeyLookup.replies self.now key.now nonce.now message.now workspace.old output.now }
        ensures workspace { workspace.new ≡ left workspace.old }
        ensures form { OnOk result ((40 ≤ length message.now) × (40 ≤ length output.now)) }
    {
        if workspace.len() < WORKSPACE {
            return Err(HostCause::Size.into());
        }
        let guard = Guard(workspace);
        self.check_within(key, nonce, message, guard.0, output)
    }

    /// The same with a workspace of full size.
    fn check_within<K: KeyLookup>(
        &self,
        key: &K,
        nonce: &Nonce,
        message: &[u8],
        workspace: &mut [u8],
        output: &[u8],
    ) -> Result<SessionKeys, Fault>
        requires { 256 ≤ length workspace.old }
        ensures value { result ≡ answer_within C.BlockCipher.protocol (E C.BlockCipher.schedule C.BlockCipher.worked) K.KeyLookup.own K.KeyLookup.replies self.now key.now nonce.now message.now output.now }
        ensures workspace { drop 256 workspace.new ≡ drop 256 workspace.old }
        ensures form { OnOk result ((40 ≤ length message.now) × (40 ≤ length output.now)) }
    {
        if output.len() < ACT {
            return Err(HostCause::Size.into());
        }
        Kind::Act(Direction::Request).check(C::pid(), message)?;
        let Ok(secret) = key.reply(&cut(message, 3)) else {
            return Err(Fault::handshake(HandshakeCause::Label, 3));
        };
        let nonces = Nonces {
            fob: cut(message, 28),
            mixer: nonce.octets,
        };
        Ok(keyed::derive::<C>(&self.identities, &nonces, secret.octets(), workspace))
    }

    /// The move, which cannot be refused.
    fn to_answered<K: KeyLookup>(
        self,
        key: K,
        nonce: Nonce,
        message: &[u8],
        keys: SessionKeys,
    ) -> Answered<C, K>
        requires { 40 ≤ length message.now }
        ensures end { result ≡ to_answered C.BlockCipher.protocol (E C.BlockCipher.schedule C.BlockCipher.worked) K.KeyLookup.own K.KeyLookup.replies self key nonce message.now keys }
    {
        let (theirs, own) = (cut(message, 3), key.label());
        let labels = Labels {
            fob: theirs,
            mixer: own,
        };
        let (theirs, own) = (cut(message, 28), nonce.octets);
        let nonces = Nonces {
            fob: theirs,
            mixer: own,
        };
        Answered {
            session: Session {
                identities: self.identities,
                key,
                labels,
                nonces,
                keys,
            },
            cipher: self.cipher,
        }
    }
}

impl<C: BlockCipher, K: KeyLookup> Answered<C, K> {
    /// Gives the mixer up and its key back.
    pub fn give_up(self) -> K
        ensures value { result ≡ self.session.key }
    {
        self.session.key
    }

    /// Confirms the fob's proof: writes a `VFY_RES` of 15 octets and opens.
    pub fn confirm(
        self,
        message: &[u8],
        workspace: &mut [u8],
        output: &mut [u8],
    ) -> Result<(Open<C, K>, Ticket), Refused<Answered<C, K>>>
        ensures value { result ≡ confirmed C.BlockCipher.protocol (E C.BlockCipher.schedule C.BlockCipher.worked) self message.now workspace.old output.old }
        ensures output { output.new ≡ confirm_output C.BlockCipher.protocol (E C.BlockCipher.schedule C.BlockCipher.worked) self message.now workspace.old output.old }
        ensures workspace { workspace.new ≡ left workspace.old }
    {
        match self.check(message, workspace, output) {
            Err(fault) => Err(Refused { end: self, fault }),
            Ok(tag) => {
                let _written = write_verify(Direction::Response, C::pid(), &tag, output);
                Ok((self.to_open(), Ticket { spent: () }))
            }
        }
    }

    /// What the confirmation is checked for, and the tag that it comes to.
    fn check(&self, message: &[u8], workspace: &mut [u8], output: &[u8]) -> Result<[u8; 12], Fault>
        ensures value { result ≡ confirm_check C.BlockCipher.protocol (E C.BlockCipher.schedule C.BlockCipher.worked) self.now message.now workspace.old output.now }
        ensures workspace { workspace.new ≡ left workspace.old }
        ensures form { OnOk result (15 ≤ length output.now) }
    {
        if workspace.len() < WORKSPACE {
            return Err(HostCause::Size.into());
        }
        let guard = Guard(workspace);
        self.check_within(message, guard.0, output)
    }

    /// The same with a workspace of full size.
    fn check_within(
        &self,
        message: &[u8],
        workspace: &mut [u8],
        output: &[u8],
    ) -> Result<[u8; 12], Fault>
        requires { 256 ≤ length workspace.old }
        ensures value { result ≡ confirm_within C.BlockCipher.protocol (E C.BlockCipher.schedule C.BlockCipher.worked) self.now message.now output.now }
        ensures workspace { drop 256 workspace.new ≡ drop 256 workspace.old }
        ensures form { OnOk result (15 ≤ length output.now) }
    {
        if output.len() < VERIFY {
            return Err(HostCause::Size.into());
        }
        Kind::Verify(Direction::Request).check(C::pid(), message)?;
        let session = &self.session;
        if !session.tag_matches::<C>(Role::Fob, &message[3..15], workspace) {
            return Err(Fault::handshake(HandshakeCause::Tag, 3));
        }
        Ok(session.tag::<C>(Role::Mixer, workspace))
    }

    /// The move, which cannot be refused.
    fn to_open(self) -> Open<C, K>
        ensures end { result ≡ open_mixer self }
    {
        self.session.open(Role::Mixer, self.cipher)
    }
}
