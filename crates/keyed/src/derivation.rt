//! The keys and the first counter of a session.
ghost use Rattle.std.specs.Prelude.{◌≡◌, ◌≤◌, ◌++◌, length, drop};
ghost use Rattle.cipher.specs.Cipher.{E};
ghost use Rattle.keyed.specs.Derivation.{split, counter_string, derived};
ghost use Rattle.keyed.specs.Xcbc.{keyed_result};

use crate::parts::{result_of, write};
use crate::xcbc::result;
use cipher::BlockCipher;
use ends::Both;

/// The identities of the two ends: IDA and IDB.
pub type Identities = Both<[u8; 10]>;

/// The nonces of the two ends: NA and NB.
pub type Nonces = Both<[u8; 12]>;

/// What a session starts with: MK, KE, KI and the first counter.
#[derive(Clone, Copy)]
pub struct SessionKeys {
    pub master: [u8; 16],
    pub encryption: [u8; 16],
    pub integrity: [u8; 16],
    pub counter: u128,
}

/// S: the first eight octets of each nonce.
fn split_nonces(nonces: &Nonces) -> [u8; 16]
    ensures value { result ≡ split nonces.now.fob nonces.now.mixer }
{
    let mut octets = [0; 16];
    let Both { fob, mixer } = nonces;
    write(&mut octets, &[&fob[0..8], &mixer[0..8]]);
    octets
}

/// The key after `previous`: the result under the seed of `previous`, S, both identities and one octet more.
fn next_key<'a, C: BlockCipher>(
    seed: &[u8; 16],
    previous: &'a [u8],
    s: &'a [u8; 16],
    identities: &'a Identities,
    last: &'a [u8; 1],
    workspace: &mut [u8],
) -> [u8; 16]
    requires { (length previous.now ≤ 16) × (256 ≤ length workspace.old) }
    ensures value { result ≡ keyed_result (E C.BlockCipher.schedule C.BlockCipher.worked) seed.now (previous.now ++ s.now ++ identities.now.fob ++ identities.now.mixer ++ last.now) }
    ensures workspace { drop 256 workspace.new ≡ drop 256 workspace.old }
{
    let Both { fob, mixer } = identities;
    result_of::<C>(seed, &[previous, s, fob, mixer, last], workspace)
}

/// The first counter as a block: the result under MK of KI, both nonces and the octet 04.
fn first_block<'a, C: BlockCipher>(
    master: &[u8; 16],
    integrity: &'a [u8; 16],
    nonces: &'a Nonces,
    workspace: &mut [u8],
) -> [u8; 16]
    requires { 256 ≤ length workspace.old }
    ensures value { result ≡ keyed_result (E C.BlockCipher.schedule C.BlockCipher.worked) master.now (counter_string integrity.now nonces.now.fob nonces.now.mixer) }
    ensures workspace { drop 256 workspace.new ≡ drop 256 workspace.old }
{
    let Both { fob, mixer } = nonces;
    result_of::<C>(master, &[integrity, fob, mixer, &[4]], workspace)
}

/// The keys and the first counter that both ends work out of what they sent and of their secret.
pub fn derive<C: BlockCipher>(
    identities: &Identities,
    nonces: &Nonces,
    secret: &[u8; 24],
    workspace: &mut [u8],
) -> SessionKeys
    requires { 256 ≤ length workspace.old }
    ensures value { result ≡ derived (E C.BlockCipher.schedule C.BlockCipher.worked) nonces.now.fob nonces.now.mixer identities.now.fob identities.now.mixer secret.now }
    ensures workspace { drop 256 workspace.new ≡ drop 256 workspace.old }
{
    let s = split_nonces(nonces);
    let seed = result::<C>(&s, secret, workspace);
    let master = next_key::<C>(&seed, &[], &s, identities, &[1], workspace);
    let encryption = next_key::<C>(&seed, &master, &s, identities, &[2], workspace);
    let integrity = next_key::<C>(&seed, &encryption, &s, identities, &[3], workspace);
    let first = first_block::<C>(&master, &integrity, nonces, workspace);
    SessionKeys {
        master,
        encryption,
        integrity,
        counter: u128::from_be_bytes(first),
    }
}
