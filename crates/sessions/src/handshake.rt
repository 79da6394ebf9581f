//! The handshake of a fob and a mixer that are given each other's messages.
ghost use Rattle.std.specs.Prelude.{◌≡◌};
ghost use Rattle.cipher.specs.Cipher.{E};
ghost use Rattle.channel.specs.Handshake.{answered, proven, confirmed, finished, answer_output, prove_output, confirm_output};
ghost use Rattle.sessions.specs.Sessions.{zeros};
ghost use Rattle.sessions.specs.Both.{then_finished, then_confirmed, then_proved, then_answered, opened_both, Honest, Both};
ghost use Rattle.runs.specs.History.{lookups};

use crate::unaltered::Pair;
use channel::{Answered, Fob, Invited, Mixer, Nonce, NotStarted, Open, Proved, Refused, Ticket};
use cipher::{BlockCipher, WORKSPACE};
use fault::Fault;
use lookup::KeyLookup;
use message::{ACT, VERIFY};

/// An end that has not been called yet, with the key and the nonce that its first call takes over.
pub struct Start<E, K> {
    pub end: E,
    pub key: K,
    pub nonce: Nonce,
}

/// The ends were given up: a call was refused, and the keys come back.
#[derive(Drop)]
pub struct Unopened<K, L> {
    pub fob_key: K,
    pub mixer_key: L,
    pub fault: Fault,
}

/// A buffer of zeros.
pub(crate) fn buffer<const N: usize>() -> [u8; N]
    ensures value { result ≡ zeros N }
{
    [0; N]
}

/// Opens both ends, each call given what the other end wrote.
pub fn open_both<C: BlockCipher, K: KeyLookup, L: KeyLookup>(
    fob: Start<Fob<C>, K>,
    mixer: Start<Mixer<C>, L>,
) -> Result<Pair<C, K, L>, Unopened<K, L>>
    ensures value { result ≡ opened_both C.BlockCipher.protocol (E C.BlockCipher.schedule C.BlockCipher.worked) (lookups K.KeyLookup.own K.KeyLookup.replies L.KeyLookup.own L.KeyLookup.replies) fob.end fob.key fob.nonce mixer.end mixer.key mixer.nonce }
    ensures honest { Honest (lookups K.KeyLookup.own K.KeyLookup.replies L.KeyLookup.own L.KeyLookup.replies) fob.end fob.key fob.nonce mixer.end mixer.key mixer.nonce → Both fob.key mixer.key result }
{
    let Start { end, key, nonce } = fob;
    let mut message = buffer::<ACT>();
    match end.invite(key, nonce, &mut message) {
        Ok(invited) => answer_to(invited, mixer, &message),
        Err(
            NotStarted {
                end,
                key,
                fault,
                ..
            },
        ) => {
            let Start {
                end: mixer,
                key: mixer_key,
                nonce: _,
            } = mixer;
            let (_fob, _mixer) = (end.give_up(), mixer.give_up());
            Err(Unopened {
                fob_key: key,
                mixer_key,
                fault,
            })
        }
    }
}

/// The mixer answers the invitation, and so on.
// Each call moves one end and leaves the other: a closure for `map_err` would take the other end along, which the next call needs.
fn answer_to<C: BlockCipher, K: KeyLookup, L: KeyLookup>(
    invited: Invited<C, K>,
    mixer: Start<Mixer<C>, L>,
    message: &[u8],
) -> Result<Pair<C, K, L>, Unopened<K, L>>
    ensures value { result ≡ then_answered C.BlockCipher.protocol (E C.BlockCipher.schedule C.BlockCipher.worked) (lookups K.KeyLookup.own K.KeyLookup.replies L.KeyLookup.own L.KeyLookup.replies) invited (answer_output C.BlockCipher.protocol (E C.BlockCipher.schedule C.BlockCipher.worked) L.KeyLookup.own L.KeyLookup.replies mixer.end mixer.key mixer.nonce message.now (zeros 256) (zeros 40)) (answered C.BlockCipher.protocol (E C.BlockCipher.schedule C.BlockCipher.worked) L.KeyLookup.own L.KeyLookup.replies mixer.end mixer.key mixer.nonce message.now (zeros 256) (zeros 40)) }
{
    let Start { end, key, nonce } = mixer;
    let mut workspace = buffer::<WORKSPACE>();
    let mut output = buffer::<ACT>();
    match end.answer(key, nonce, message, &mut workspace, &mut output) {
        Ok(answered) => prove_to(invited, answered, &output),
        Err(
            NotStarted {
                end,
                key,
                fault,
                ..
            },
        ) => {
            let _mixer = end.give_up();
            Err(Unopened {
                fob_key: invited.give_up(),
                mixer_key: key,
                fault,
            })
        }
    }
}

/// The fob proves, and so on.
fn prove_to<C: BlockCipher, K: KeyLookup, L: KeyLookup>(
    invited: Invited<C, K>,
    mixer: Answered<C, L>,
    message: &[u8],
) -> Result<Pair<C, K, L>, Unopened<K, L>>
    ensures value { result ≡ then_proved C.BlockCipher.protocol (E C.BlockCipher.schedule C.BlockCipher.worked) mixer (prove_output C.BlockCipher.protocol (E C.BlockCipher.schedule C.BlockCipher.worked) K.KeyLookup.own K.KeyLookup.replies invited message.now (zeros 256) (zeros 15)) (proven C.BlockCipher.protocol (E C.BlockCipher.schedule C.BlockCipher.worked) K.KeyLookup.own K.KeyLookup.replies invited message.now (zeros 256) (zeros 15)) }
{
    let mut workspace = buffer::<WORKSPACE>();
    let mut output = buffer::<VERIFY>();
    match invited.prove(message, &mut workspace, &mut output) {
        Ok(proved) => confirm_to(proved, mixer, &output),
        Err(Refused { end, fault }) => Err(Unopened {
            fob_key: end.give_up(),
            mixer_key: mixer.give_up(),
            fault,
        }),
    }
}

/// The mixer confirms and opens, and so on.
fn confirm_to<C: BlockCipher, K: KeyLookup, L: KeyLookup>(
    proved: Proved<C, K>,
    mixer: Answered<C, L>,
    message: &[u8],
) -> Result<Pair<C, K, L>, Unopened<K, L>>
    ensures value { result ≡ then_confirmed C.BlockCipher.protocol (E C.BlockCipher.schedule C.BlockCipher.worked) proved (confirm_output C.BlockCipher.protocol (E C.BlockCipher.schedule C.BlockCipher.worked) mixer message.now (zeros 256) (zeros 15)) (confirmed C.BlockCipher.protocol (E C.BlockCipher.schedule C.BlockCipher.worked) mixer message.now (zeros 256) (zeros 15)) }
{
    let mut workspace = buffer::<WORKSPACE>();
    let mut output = buffer::<VERIFY>();
    match mixer.confirm(message, &mut workspace, &mut output) {
        Ok((end, ticket)) => finish_with(proved, end, ticket, &output),
        Err(Refused { end, fault }) => Err(Unopened {
            fob_key: proved.give_up(),
            mixer_key: end.give_up(),
            fault,
        }),
    }
}

/// The fob finishes and opens; where it refuses, the mixer is closed.
fn finish_with<C: BlockCipher, K: KeyLookup, L: KeyLookup>(
    proved: Proved<C, K>,
    mixer: Open<C, L>,
    mixer_ticket: Ticket,
    message: &[u8],
) -> Result<Pair<C, K, L>, Unopened<K, L>>
    ensures value { result ≡ then_finished mixer mixer_ticket (finished C.BlockCipher.protocol (E C.BlockCipher.schedule C.BlockCipher.worked) proved message.now (zeros 256)) }
{
    let mut workspace = buffer::<WORKSPACE>();
    match proved.finish(message, &mut workspace) {
        Ok((fob, fob_ticket)) => Ok(Pair {
            fob,
            fob_ticket,
            mixer,
            mixer_ticket,
        }),
        Err(Refused { end, fault }) => {
            let (mixer_key, _) = mixer.close(mixer_ticket);
            Err(Unopened {
                fob_key: end.give_up(),
                mixer_key,
                fault,
            })
        }
    }
}
