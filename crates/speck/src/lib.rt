//! Speck128/128: a block cipher of 32 rounds on two words of 64 bits.
#![tactic(auto)]

ghost use Rattle.std.specs.Prelude.{◌≡◌, ◌+◌, ◌*◌, ◌≤◌, ◌++◌, length};
ghost use Rattle.std.proofs.Math.Path.{refl};
ghost use Rattle.cipher.specs.Cipher.{prepared};
ghost use Rattle.speck.specs.Speck.{word, octets, round, rounds, words, schedule, worked, round_keys};
ghost use Rattle.speck.specs.Speck as SpecsSpeck;
ghost use Rattle.std.proofs.Common.{rules};

use cipher::{BlockCipher, WORKSPACE};

/// The two words of a block (x, y) or of a key (l, k).
#[derive(Clone, Copy)]
struct Words {
    x: u64,
    y: u64,
}

impl Words {
    /// The words of sixteen octets.
    fn read(from: &[u8; 16]) -> Words
        ensures value { result ≡ words from.now }
    {
        let x = read_word(from, 0);
        let y = read_word(from, 1);
        Words { x, y }
    }

    /// A round of the cipher, and a step of the key schedule, where the number of the round is the round key.
    fn after_round(self, key: u64) -> Words
        ensures value { result ≡ round key self }
    {
        let x = self.x.rotate_right(8).wrapping_add(self.y) ^ key;
        Words {
            x,
            y: self.y.rotate_left(3) ^ x,
        }
    }

    /// The 32 rounds, with the round keys that stand one after another in `keys`.
    fn after_rounds(self, keys: &[u8]) -> Words
        requires { 256 ≤ length keys.now }
        ensures value { result ≡ rounds (λ i. word i keys.now) 32 self }
    {
        let mut state = self;
        // By number: round i takes word i of the schedule, and chunks of the keys, in the same order, are no plainer.
        for i in 0..32 {
            state = state.after_round(read_word(keys, i));
        }
        state
    }

    /// The sixteen octets of the words.
    fn to_octets(self) -> [u8; 16]
        ensures value { result ≡ octets self.x ++ octets self.y }
    {
        let mut to = [0; 16];
        to[0..8].copy_from_slice(&self.x.to_be_bytes());
        to[8..16].copy_from_slice(&self.y.to_be_bytes());
        to
    }
}

/// Word `i` of a row of octets.
fn read_word(from: &[u8], i: usize) -> u64
    requires { 8 * i + 8 ≤ length from.now }
    ensures value { result ≡ word i from.now }
{
    let at = 8 * i;
    u64::from_be_bytes(<[u8; 8]>::try_from(&from[at..at + 8]).unwrap())
}

/// Writes the 32 round keys of `key` at the start of the workspace.
fn write_schedule(key: &[u8; 16], workspace: &mut [u8])
    requires { 256 ≤ length workspace.old }
    ensures workspace { workspace.new ≡ prepared (schedule key.now) workspace.old }
{
    let mut state = Words::read(key);
    // By number: it is itself the key of a step, and `chunks_exact_mut` would leave what is written unknown to the proof.
    for round in 0..32 {
        let at = 8 * round;
        workspace[at..at + 8].copy_from_slice(&state.y.to_be_bytes());
        state = state.after_round(round as u64);
    }
}

/// The cipher Speck128/128, with 32 round keys of eight octets each.
pub struct Speck;

impl BlockCipher for Speck {
    ghost protocol = { 241 };

    ghost size = { 256 };

    ghost schedule = { schedule };

    ghost worked = { worked };

    ghost fits = { Prim.search rules };

    ghost scheduled = { unfold SpecsSpeck.schedule round_keys octets in λ k. refl };

    ghost blocks = { unfold SpecsSpeck.worked octets in λ s x. refl };

    fn pid() -> u8 {
        241
    }

    fn prepare(key: &[u8; 16], workspace: &mut [u8]) {
        if workspace.len() >= WORKSPACE {
            write_schedule(key, workspace);
        }
    }

    fn encipher(workspace: &[u8], block: &[u8; 16]) -> [u8; 16] {
        if workspace.len() < WORKSPACE {
            return *block;
        }
        Words::read(block)
            .after_rounds(&workspace[0..256])
            .to_octets()
    }
}
