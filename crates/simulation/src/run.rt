//! A fob and a mixer, driven through calls in any order, and the record of what the calls did.
ghost use Rattle.std.specs.Prelude.{◌≡◌, ◌+◌, ◌*◌, ◌≤◌, [], ◌∷◌, map, IfOk, vec_len, vec_capacity};
ghost use Rattle.cipher.specs.Cipher.{E};
ghost use Rattle.ends.specs.declared.Role.TheVariants.{Fob as AtFob, Mixer as AtMixer};
ghost use Rattle.runs.specs.History.{logged};
ghost use Rattle.simulation.specs.Outcomes.{outcome_in, came};
ghost use Rattle.simulation.specs.Simulation.{events_in, log_of, call_in, calls_made, Makes, Simulates, Follows};
ghost use Rattle.runs.specs.History.{lookups};

use crate::packets::Side;
use crate::record::{Entry, Move, Outcome};
use crate::{packets, sides};
use channel::{Fob, Mixer, Role};
use cipher::BlockCipher;
use lookup::KeyLookup;
use runs::{FobSide, MixerSide};
use std::alloc::{AllocError, Global};

/// What a call is given: a message or a payload, and the buffers that are lent to it.
#[derive(Drop)]
pub struct Given {
    pub input: Vec<u8>,
    pub workspace: Vec<u8>,
    pub output: Vec<u8>,
}

/// A call, with all that is handed to it and lent to it.
#[derive(Drop)]
pub enum Call {
    Invite {
        nonce: [u8; 12],
        output: Vec<u8>,
    },
    Answer {
        nonce: [u8; 12],
        given: Given,
    },
    Prove(Given),
    Confirm(Given),
    Finish {
        message: Vec<u8>,
        workspace: Vec<u8>,
    },
    Seal {
        by: Role,
        given: Given,
    },
    Unseal {
        by: Role,
        given: Given,
    },
    Close {
        by: Role,
    },
}

/// Both ends, and what the calls so far did, the first event first.
pub struct Run<C, K, L> {
    pub(crate) fob: FobSide<C, K>,
    pub(crate) mixer: MixerSide<C, L>,
    pub(crate) log: Vec<Entry>,
}

/// A call of the fob was made: its next state, and its events in the log, in which there is room for three.
fn fob_did<C, K, L>(
    done: Move<FobSide<C, K>>,
    mixer: MixerSide<C, L>,
    mut log: Vec<Entry>,
) -> (Run<C, K, L>, Outcome)
    requires { vec_len log + 3 ≤ vec_capacity log }
    ensures ends { (result.0.fob ≡ done.next) × (result.0.mixer ≡ mixer) }
    ensures log { log_of result.0.log ≡ logged AtFob (events_in done.events) (log_of log) }
    ensures room { (vec_len result.0.log ≤ vec_len log + 3) × (vec_capacity result.0.log ≡ vec_capacity log) }
    ensures outcome { result.1 ≡ done.outcome }
{
    let (fob, outcome) = done.enter(Role::Fob, &mut log);
    (Run { fob, mixer, log }, outcome)
}

/// The same of a call of the mixer.
// Two functions, since each puts back another field of the run.
fn mixer_did<C, K, L>(
    fob: FobSide<C, K>,
    done: Move<MixerSide<C, L>>,
    mut log: Vec<Entry>,
) -> (Run<C, K, L>, Outcome)
    requires { vec_len log + 3 ≤ vec_capacity log }
    ensures ends { (result.0.fob ≡ fob) × (result.0.mixer ≡ done.next) }
    ensures log { log_of result.0.log ≡ logged AtMixer (events_in done.events) (log_of log) }
    ensures room { (vec_len result.0.log ≤ vec_len log + 3) × (vec_capacity result.0.log ≡ vec_capacity log) }
    ensures outcome { result.1 ≡ done.outcome }
{
    let (mixer, outcome) = done.enter(Role::Mixer, &mut log);
    (Run { fob, mixer, log }, outcome)
}

impl<C: BlockCipher, K: KeyLookup + Drop, L: KeyLookup + Drop> Run<C, K, L> {
    /// Nothing called yet.
    pub fn new(heap: Global, fob: Fob<C>, fob_key: K, mixer: Mixer<C>, mixer_key: L) -> Run<C, K, L>
        ensures run { Simulates C.BlockCipher.protocol (E C.BlockCipher.schedule C.BlockCipher.worked) (lookups K.KeyLookup.own K.KeyLookup.replies L.KeyLookup.own L.KeyLookup.replies) fob fob_key mixer mixer_key [] result }
    {
        let (_own, _peer) = (fob_key.label(), mixer_key.label());
        Run {
            fob: FobSide::Fresh(fob, fob_key),
            mixer: MixerSide::Fresh(mixer, mixer_key),
            log: Vec::new(heap),
        }
    }

    /// What the calls so far did, the first event first.
    pub fn log(&self) -> &[Entry]
        ensures value { result.now ≡ self.now.log.items }
    {
        self.log.as_slice()
    }

    /// The fob, wherever its session is.
    pub fn fob(&self) -> &FobSide<C, K>
        ensures value { result.now ≡ self.now.fob }
    {
        &self.fob
    }

    /// The mixer, wherever its session is.
    pub fn mixer(&self) -> &MixerSide<C, L>
        ensures value { result.now ≡ self.now.mixer }
    {
        &self.mixer
    }

    /// Closes both ends, or gives them up, and keeps the record.
    pub fn end(self) -> Vec<Entry>
        ensures value { result ≡ self.log }
    {
        let Run { fob, mixer, log } = self;
        let (_fob, _mixer) = (fob.end(), mixer.end());
        log
    }

    /// Makes a call, in whatever state the ends are. For want of memory to record it, it is not made.
    pub fn make(self, call: Call) -> (Run<C, K, L>, Result<Outcome, AllocError>)
        ensures run { Makes C.BlockCipher.protocol (E C.BlockCipher.schedule C.BlockCipher.worked) (lookups K.KeyLookup.own K.KeyLookup.replies L.KeyLookup.own L.KeyLookup.replies) self (calls_made result.1 (call_in call ∷ [])) result.0 }
        ensures law { Follows C.BlockCipher.protocol (E C.BlockCipher.schedule C.BlockCipher.worked) (lookups K.KeyLookup.own K.KeyLookup.replies L.KeyLookup.own L.KeyLookup.replies) self (calls_made result.1 (call_in call ∷ [])) result.0 }
        ensures outcome { IfOk result.1 (λ o. outcome_in o ≡ came C.BlockCipher.protocol (E C.BlockCipher.schedule C.BlockCipher.worked) (lookups K.KeyLookup.own K.KeyLookup.replies L.KeyLookup.own L.KeyLookup.replies) self.fob self.mixer (call_in call)) }
    {
        let Run {
            fob,
            mixer,
            mut log,
        } = self;
        match log.reserve(3) {
            Err(want) => (Run { fob, mixer, log }, Err(want)),
            Ok(()) => {
                let (run, outcome) = Run { fob, mixer, log }.step(call);
                (run, Ok(outcome))
            }
        }
    }

    /// Makes calls, one after another. For want of memory to record them, none is made.
    pub fn go_on(self, calls: Vec<Call>) -> (Run<C, K, L>, Result<(), AllocError>)
        ensures run { Makes C.BlockCipher.protocol (E C.BlockCipher.schedule C.BlockCipher.worked) (lookups K.KeyLookup.own K.KeyLookup.replies L.KeyLookup.own L.KeyLookup.replies) self (calls_made result.1 (map call_in calls.items)) result.0 }
        ensures law { Follows C.BlockCipher.protocol (E C.BlockCipher.schedule C.BlockCipher.worked) (lookups K.KeyLookup.own K.KeyLookup.replies L.KeyLookup.own L.KeyLookup.replies) self (calls_made result.1 (map call_in calls.items)) result.0 }
    {
        let Run {
            fob,
            mixer,
            mut log,
        } = self;
        match log.reserve(calls.len().saturating_mul(3)) {
            Err(want) => (Run { fob, mixer, log }, Err(want)),
            Ok(()) => (Run { fob, mixer, log }.steps(calls), Ok(())),
        }
    }

    /// Makes calls, with room for three events of each in the log.
    fn steps(self, calls: Vec<Call>) -> Run<C, K, L>
        requires { vec_len self.log + 3 * vec_len calls ≤ vec_capacity self.log }
        ensures run { Makes C.BlockCipher.protocol (E C.BlockCipher.schedule C.BlockCipher.worked) (lookups K.KeyLookup.own K.KeyLookup.replies L.KeyLookup.own L.KeyLookup.replies) self (map call_in calls.items) result }
    {
        let mut run = self;
        for call in calls {
            let (next, _) = run.step(call);
            run = next;
        }
        run
    }

    /// Makes a call, with room for three events in the log.
    fn step(self, call: Call) -> (Run<C, K, L>, Outcome)
        requires { vec_len self.log + 3 ≤ vec_capacity self.log }
        ensures run { Makes C.BlockCipher.protocol (E C.BlockCipher.schedule C.BlockCipher.worked) (lookups K.KeyLookup.own K.KeyLookup.replies L.KeyLookup.own L.KeyLookup.replies) self (call_in call ∷ []) result.0 }
        ensures room { (vec_len result.0.log ≤ vec_len self.log + 3) × (vec_capacity result.0.log ≡ vec_capacity self.log) }
        ensures outcome { outcome_in result.1 ≡ came C.BlockCipher.protocol (E C.BlockCipher.schedule C.BlockCipher.worked) (lookups K.KeyLookup.own K.KeyLookup.replies L.KeyLookup.own L.KeyLookup.replies) self.fob self.mixer (call_in call) }
    {
        let Run { fob, mixer, log } = self;
        match call {
            Call::Invite { nonce, output } => {
                fob_did(sides::invite(fob, nonce, output), mixer, log)
            }
            Call::Answer { nonce, given } => {
                mixer_did(fob, sides::answer(mixer, nonce, given), log)
            }
            Call::Prove(given) => fob_did(sides::prove(fob, given), mixer, log),
            Call::Confirm(given) => mixer_did(fob, sides::confirm(mixer, given), log),
            Call::Finish { message, workspace } => {
                fob_did(sides::finish(fob, message, workspace), mixer, log)
            }
            Call::Seal { by, given } => match by {
                Role::Fob => fob_did(packets::seal(fob, given), mixer, log),
                Role::Mixer => mixer_did(fob, packets::seal(mixer, given), log),
            },
            Call::Unseal { by, given } => match by {
                Role::Fob => fob_did(packets::unseal(fob, given), mixer, log),
                Role::Mixer => mixer_did(fob, packets::unseal(mixer, given), log),
            },
            Call::Close { by } => match by {
                Role::Fob => fob_did(packets::close(fob), mixer, log),
                Role::Mixer => mixer_did(fob, packets::close(mixer), log),
            },
        }
    }
}

/// Makes calls from two fresh ends on: the run is the history of the calls, and without a lucky tag the law holds of it.
pub fn simulate<C: BlockCipher, K: KeyLookup + Drop, L: KeyLookup + Drop>(
    heap: Global,
    fob: Fob<C>,
    fob_key: K,
    mixer: Mixer<C>,
    mixer_key: L,
    calls: Vec<Call>,
) -> (Run<C, K, L>, Result<(), AllocError>)
    ensures run { Simulates C.BlockCipher.protocol (E C.BlockCipher.schedule C.BlockCipher.worked) (lookups K.KeyLookup.own K.KeyLookup.replies L.KeyLookup.own L.KeyLookup.replies) fob fob_key mixer mixer_key (calls_made result.1 (map call_in calls.items)) result.0 }
{
    Run::new(heap, fob, fob_key, mixer, mixer_key).go_on(calls)
}
