//! What the calls share: fields of messages, and the confirmations of a session.
ghost use Rattle.std.specs.Prelude.{◌≡◌, ◌+◌, ◌≤◌, length, take, drop};
ghost use Rattle.std.specs.Str.{bytes_eq};
ghost use Rattle.cipher.specs.Cipher.{E};
ghost use Rattle.channel.specs.Handshake.{confirmation_tag};

use crate::{Epoch, Open, Role, Session};
use cipher::BlockCipher;
use keyed::Told;
use std::marker::PhantomData;

/// The `N` octets from `at` on.
pub(crate) fn cut<const N: usize>(octets: &[u8], at: usize) -> [u8; N]
    requires { at + N ≤ length octets.now }
    ensures value { result ≡ take N (drop at octets.now) }
{
    <[u8; N]>::try_from(&octets[at..at + N]).unwrap()
}

impl<K> Session<K> {
    /// The open end that a handshake came to.
    pub(crate) fn open<C>(self, role: Role, cipher: PhantomData<C>) -> Open<C, K>
        ensures end { result ≡ record { role = role; key = self.key; epoch = record { keys = self.keys; number = 0 }; cipher = cipher } }
    {
        let Session { key, keys, .. } = self;
        Open {
            role,
            key,
            epoch: Epoch { keys, number: 0 },
            cipher,
        }
    }

    /// What both ends told each other.
    fn told(&self) -> Told<'_>
        ensures identities { result.identities.now ≡ self.now.identities }
        ensures labels { result.labels.now ≡ self.now.labels }
        ensures nonces { result.nonces.now ≡ self.now.nonces }
    {
        Told {
            identities: &self.identities,
            labels: &self.labels,
            nonces: &self.nonces,
        }
    }

    /// The tag by which an end confirms.
    pub(crate) fn tag<C: BlockCipher>(&self, which: Role, workspace: &mut [u8]) -> [u8; 12]
        requires { 256 ≤ length workspace.old }
        ensures value { result ≡ confirmation_tag C.BlockCipher.protocol (E C.BlockCipher.schedule C.BlockCipher.worked) which self.now }
        ensures workspace { drop 256 workspace.new ≡ drop 256 workspace.old }
    {
        self.told().tag::<C>(which, &self.keys.master, workspace)
    }

    /// Whether `octets` are the tag by which an end confirms.
    pub(crate) fn tag_matches<C: BlockCipher>(
        &self,
        which: Role,
        octets: &[u8],
        workspace: &mut [u8],
    ) -> bool
        requires { 256 ≤ length workspace.old }
        ensures value { result ≡ bytes_eq (confirmation_tag C.BlockCipher.protocol (E C.BlockCipher.schedule C.BlockCipher.worked) which self.now) octets.now }
        ensures workspace { drop 256 workspace.new ≡ drop 256 workspace.old }
    {
        self.told()
            .tag_matches::<C>(which, &self.keys.master, octets, workspace)
    }
}
