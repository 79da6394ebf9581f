//! The tags by which each end of a handshake confirms to the other that it has the master key.
ghost use Rattle.std.specs.Prelude.{◌≡◌, ◌≤◌, length, drop};
ghost use Rattle.std.specs.Str.{bytes_eq};
ghost use Rattle.cipher.specs.Cipher.{E};
ghost use Rattle.keyed.specs.Told.{confirmed_by};
ghost use Rattle.keyed.specs.Xcbc.{tag};

use crate::derivation::{Identities, Nonces};
use crate::parts::{LONGEST, write};
use crate::xcbc::{tag, tag_matches};
use cipher::BlockCipher;
use ends::{Both, Role};

/// The labels of the two ends: QA and QB.
pub type Labels = Both<[u8; 25]>;

/// What the two ends have told each other, which is what they confirm.
#[derive(Clone, Copy)]
pub struct Told<'a> {
    pub identities: &'a Identities,
    pub labels: &'a Labels,
    pub nonces: &'a Nonces,
}

impl Told<'_> {
    /// The string of an end's confirmation. No protocol identifier so far takes the nonces into it.
    fn string<C: BlockCipher>(self, which: Role) -> [u8; LONGEST]
        ensures value { result ≡ confirmed_by C.BlockCipher.protocol which self.entry }
    {
        let Both {
            fob: ida,
            mixer: idb,
        } = self.identities;
        let Both { fob: qa, mixer: qb } = self.labels;
        let mut string = [0; LONGEST];
        match which {
            Role::Fob => {
                write(&mut string, &[&[3], ida, idb, qa, qb]);
            }
            Role::Mixer => {
                write(&mut string, &[&[2], idb, ida, qb, qa]);
            }
        }
        string
    }

    /// The tag under the master key by which an end confirms.
    pub fn tag<C: BlockCipher>(
        self,
        which: Role,
        master: &[u8; 16],
        workspace: &mut [u8],
    ) -> [u8; 12]
        requires { 256 ≤ length workspace.old }
        ensures value { result ≡ tag (E C.BlockCipher.schedule C.BlockCipher.worked) master.now (confirmed_by C.BlockCipher.protocol which self.entry) }
        ensures workspace { drop 256 workspace.new ≡ drop 256 workspace.old }
    {
        tag::<C>(master, &self.string::<C>(which), workspace)
    }

    /// Whether `octets` are the tag by which an end confirms, by a comparison that does not leave early.
    pub fn tag_matches<C: BlockCipher>(
        self,
        which: Role,
        master: &[u8; 16],
        octets: &[u8],
        workspace: &mut [u8],
    ) -> bool
        requires { 256 ≤ length workspace.old }
        ensures value { result ≡ bytes_eq (tag (E C.BlockCipher.schedule C.BlockCipher.worked) master.now (confirmed_by C.BlockCipher.protocol which self.entry)) octets.now }
        ensures workspace { drop 256 workspace.new ≡ drop 256 workspace.old }
    {
        tag_matches::<C>(master, &self.string::<C>(which), octets, workspace)
    }
}
