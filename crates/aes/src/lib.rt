//! AES-128: the block cipher of FIPS 197 with a key of 128 bits.
#![tactic(auto)]

ghost use Rattle.std.specs.Prelude.{◌≡◌, length, nat_lt};
ghost use Rattle.std.proofs.Math.Path.{refl};
ghost use Rattle.aes.specs.Field.{FieldLaws};
ghost use Rattle.aes.specs.Rounds.{cipher};
ghost use Rattle.aes.specs.Schedule.{key_expansion};
ghost use Rattle.std.proofs.Common.{rules};

use cipher::{BlockCipher, WORKSPACE};

mod rounds;
mod sbox;
mod schedule;
mod state;

/// The protocol identifier of AES-128.
const PID: u8 = 1;

/// How many octets a schedule has: eleven round keys.
const SIZE: usize = 176;

/// Whether a workspace is too short to be used.
fn short(workspace: &[u8]) -> bool
    ensures value { result ≡ nat_lt (length workspace.now) 256 }
{
    workspace.len() < WORKSPACE
}

/// AES-128. Its schedule is the eleven round keys of FIPS 197, in their order.
pub struct Aes;

impl BlockCipher for Aes {
    ghost protocol = { 1 };

    ghost size = { 176 };

    ghost schedule = { key_expansion };

    ghost worked = { cipher };

    ghost fits = { Prim.search rules };

    ghost scheduled = { unfold key_expansion in λ k. refl };

    ghost blocks = { unfold cipher in λ s x. refl };

    fn pid() -> u8 {
        PID
    }

    fn prepare(key: &[u8; 16], workspace: &mut [u8]) {
        if short(workspace) {
            return;
        }
        schedule::expand(key, &mut workspace[0..SIZE]);
    }

    fn encipher(workspace: &[u8], block: &[u8; 16]) -> [u8; 16] {
        if short(workspace) {
            return *block;
        }
        rounds::encrypt(workspace.first_chunk::<SIZE>().unwrap(), block)
    }
}

/// The laws of the field that the S-box and the columns are defined by. It does nothing; its contract is the theorem.
pub fn field_laws()
    ensures { FieldLaws }
{}
