//! A fob and a mixer that are given each other's messages.
ghost use Rattle.std.specs.Prelude.{◌≡◌, ℕ, ◌+◌, ◌-◌, ◌≤◌, min, length, replicate, Ok};
ghost use Rattle.std.specs.Str.{bytes_eq};
ghost use Rattle.cipher.specs.Cipher.{E};
ghost use Rattle.runs.specs.Unaltered.{Small, Level};
ghost use Rattle.sessions.specs.Both.{opened_both, Honest, closed_both, then_passed, ended_at};
ghost use Rattle.runs.specs.History.{lookups};
ghost use Rattle.sessions.specs.Sessions.{passing, sealer_after, unsealer_after, Ready, Through, through, comes_through, pair_after, how_many, pair_after_all, held};

use crate::handshake::{Start, Unopened, open_both};
use channel::{Fob, Mixer, Open, Ticket};
use cipher::{BlockCipher, WORKSPACE};
use fault::Fault;
use lookup::KeyLookup;
use message::{PACKET, PAYLOAD};

/// Both ends of a session, open, with their tickets.
pub struct Pair<C, K, L> {
    pub fob: Open<C, K>,
    pub fob_ticket: Ticket,
    pub mixer: Open<C, L>,
    pub mixer_ticket: Ticket,
}

/// Both ends of a session after it was closed: their keys, and the number of the last packet at each.
#[derive(Drop)]
pub struct Closed<K, L> {
    pub fob_key: K,
    pub fob_number: u32,
    pub mixer_key: L,
    pub mixer_number: u32,
}

/// A session that has ended, and how many payloads came through.
#[derive(Drop)]
pub struct Ended<K, L> {
    pub passed: usize,
    pub closed: Closed<K, L>,
}

/// Opens both ends, passes payloads in turn up to the first that does not come through, and closes both.
pub fn run_unaltered<C: BlockCipher, K: KeyLookup, L: KeyLookup>(
    fob: Start<Fob<C>, K>,
    mixer: Start<Mixer<C>, L>,
    payloads: &[&[u8]],
) -> Result<Ended<K, L>, Unopened<K, L>>
    ensures value { result ≡ then_passed C.BlockCipher.protocol (E C.BlockCipher.schedule C.BlockCipher.worked) (held payloads.now) (opened_both C.BlockCipher.protocol (E C.BlockCipher.schedule C.BlockCipher.worked) (lookups K.KeyLookup.own K.KeyLookup.replies L.KeyLookup.own L.KeyLookup.replies) fob.end fob.key fob.nonce mixer.end mixer.key mixer.nonce) }
    ensures honest { Honest (lookups K.KeyLookup.own K.KeyLookup.replies L.KeyLookup.own L.KeyLookup.replies) fob.end fob.key fob.nonce mixer.end mixer.key mixer.nonce → Small (held payloads.now) → length payloads.now ≤ 16777215 → result ≡ Ok (ended_at (length payloads.now) fob.key mixer.key) }
{
    let mut pair = open_both(fob, mixer)?;
    let passed = pair.pass_all(payloads);
    let closed = pair.close();
    Ok(Ended { passed, closed })
}

/// One end seals a payload and the other unseals the packet: whether the same payload came out, or the first refusal.
pub fn pass_one<C: BlockCipher, A, B>(
    sealer: &mut Open<C, A>,
    unsealer: &mut Open<C, B>,
    payload: &[u8],
) -> Result<bool, Fault>
    ensures value { result ≡ passing C.BlockCipher.protocol (E C.BlockCipher.schedule C.BlockCipher.worked) sealer.old unsealer.old payload.now }
    ensures sealer { sealer.new ≡ sealer_after sealer.old payload.now }
    ensures unsealer { unsealer.new ≡ unsealer_after C.BlockCipher.protocol (E C.BlockCipher.schedule C.BlockCipher.worked) sealer.old unsealer.old payload.now }
    ensures honest { Ready sealer.old unsealer.old payload.now → Through sealer.old sealer.new unsealer.old unsealer.new payload.now result }
{
    let mut workspace = [0; WORKSPACE];
    let mut packet = [0; PACKET];
    let mut output = [0; PAYLOAD];
    pass_within(
        sealer,
        unsealer,
        payload,
        &mut workspace,
        &mut packet,
        &mut output,
    )
}

/// The same with buffers that are lent.
fn pass_within<C: BlockCipher, A, B>(
    sealer: &mut Open<C, A>,
    unsealer: &mut Open<C, B>,
    payload: &[u8],
    workspace: &mut [u8],
    packet: &mut [u8],
    output: &mut [u8],
) -> Result<bool, Fault>
    requires { (length workspace.old ≡ 256) × ((length packet.old ≡ 4117) × (length output.old ≡ 4096)) }
    ensures value { result ≡ passing C.BlockCipher.protocol (E C.BlockCipher.schedule C.BlockCipher.worked) sealer.old unsealer.old payload.now }
    ensures sealer { sealer.new ≡ sealer_after sealer.old payload.now }
    ensures unsealer { unsealer.new ≡ unsealer_after C.BlockCipher.protocol (E C.BlockCipher.schedule C.BlockCipher.worked) sealer.old unsealer.old payload.now }
{
    let size = sealer.seal(payload, workspace, packet)?;
    let (count, _) = unsealer.unseal(&packet[0..size], workspace, output)?;
    Ok(&output[0..count] == payload)
}

impl<C: BlockCipher, K, L> Pair<C, K, L> {
    /// Closes both ends.
    pub fn close(self) -> Closed<K, L>
        ensures value { result ≡ closed_both self }
    {
        let Pair {
            fob,
            fob_ticket,
            mixer,
            mixer_ticket,
        } = self;
        let (fob_key, fob_number) = fob.close(fob_ticket);
        let (mixer_key, mixer_number) = mixer.close(mixer_ticket);
        Closed {
            fob_key,
            fob_number,
            mixer_key,
            mixer_number,
        }
    }

    /// Passes a payload on from the end whose turn it is: whether it came through.
    fn pass_next(&mut self, payload: &[u8]) -> bool
        ensures value { result ≡ comes_through C.BlockCipher.protocol (E C.BlockCipher.schedule C.BlockCipher.worked) self.old payload.now }
        ensures end { self.new ≡ pair_after C.BlockCipher.protocol (E C.BlockCipher.schedule C.BlockCipher.worked) self.old payload.now }
    {
        let passed = if self.fob.number() % 2 == 0 {
            pass_one(&mut self.fob, &mut self.mixer, payload)
        } else {
            pass_one(&mut self.mixer, &mut self.fob, payload)
        };
        matches!(passed, Ok(true))
    }

    /// Passes the same payload back and forth, at most `count` times: how many times it came through.
    pub fn pass(&mut self, payload: &[u8], count: u32) -> u32
        ensures value { result ≡ how_many C.BlockCipher.protocol (E C.BlockCipher.schedule C.BlockCipher.worked) self.old (replicate count payload.now) }
        ensures end { self.new ≡ pair_after_all C.BlockCipher.protocol (E C.BlockCipher.schedule C.BlockCipher.worked) self.old (replicate count payload.now) }
        ensures honest { (n : ℕ) → Level self.old.fob self.old.mixer n → length payload.now ≤ 4096 → (result ≡ min count (16777215 - n)) × Level self.new.fob self.new.mixer (n + result) }
    {
        for i in 0..count {
            if !self.pass_next(payload) {
                return i;
            }
        }
        count
    }

    /// Passes payloads in turn, up to the first that does not come through: how many came through.
    // Not one function with `pass`: the two counts are of different types, and one loop over an iterator would have to say in its
    // contract what the iterator gives, which is longer than either loop.
    pub fn pass_all(&mut self, payloads: &[&[u8]]) -> usize
        ensures value { result ≡ how_many C.BlockCipher.protocol (E C.BlockCipher.schedule C.BlockCipher.worked) self.old (held payloads.now) }
        ensures end { self.new ≡ pair_after_all C.BlockCipher.protocol (E C.BlockCipher.schedule C.BlockCipher.worked) self.old (held payloads.now) }
        ensures honest { (n : ℕ) → Level self.old.fob self.old.mixer n → Small (held payloads.now) → (result ≡ min (length payloads.now) (16777215 - n)) × Level self.new.fob self.new.mixer (n + result) }
    {
        for (i, payload) in payloads.iter().enumerate() {
            if !self.pass_next(payload) {
                return i;
            }
        }
        payloads.len()
    }
}
