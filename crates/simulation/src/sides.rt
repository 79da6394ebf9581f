//! What each call makes of a fob and of a mixer, wherever their sessions are.
ghost use Rattle.std.specs.Prelude.{◌≡◌};
ghost use Rattle.cipher.specs.Cipher.{E};
ghost use Rattle.runs.specs.History.{invite_at, answer_at, prove_at, confirm_at, finish_at};
ghost use Rattle.simulation.specs.Outcomes.{outcome_in, invite_came, answer_came, prove_came, confirm_came, finish_came};
ghost use Rattle.simulation.specs.Simulation.{Does};

use crate::record::{Event, Events, Move, Outcome, field};
use crate::run::Given;
use channel::{Nonce, NotStarted, Refused};
use cipher::BlockCipher;
use lookup::KeyLookup;
use message::{ACT, VERIFY};
use runs::{FobSide, MixerSide};

/// Invites, if the fob has not been called yet.
pub(crate) fn invite<C: BlockCipher, K: KeyLookup>(
    side: FobSide<C, K>,
    nonce: [u8; 12],
    mut output: Vec<u8>,
) -> Move<FobSide<C, K>>
    ensures does { Does result (invite_at K.KeyLookup.own side nonce output.items) }
    ensures outcome { outcome_in result.outcome ≡ invite_came C.BlockCipher.protocol K.KeyLookup.own side nonce output.items }
{
    match side {
        FobSide::Fresh(fob, key) => {
            let label = key.label();
            match fob.invite(key, Nonce::new(nonce), output.as_mut_slice()) {
                Ok(invited) => {
                    output.truncate(ACT);
                    Move {
                        next: FobSide::Invited(invited),
                        events: Events::One(Event::Offers { label, nonce }),
                        outcome: Outcome::Sent(output),
                    }
                }
                Err(
                    NotStarted {
                        end,
                        key,
                        fault,
                        ..
                    },
                ) => { Move::stays(FobSide::Fresh(end, key), Outcome::Refused(fault)) }
            }
        }
        other => Move::stays(other, Outcome::NotAllowed),
    }
}

/// Proves, if the fob has invited.
pub(crate) fn prove<C: BlockCipher, K: KeyLookup>(
    side: FobSide<C, K>,
    given: Given,
) -> Move<FobSide<C, K>>
    ensures does { Does result (prove_at C.BlockCipher.protocol (E C.BlockCipher.schedule C.BlockCipher.worked) K.KeyLookup.own K.KeyLookup.replies side given.input.items given.workspace.items given.output.items) }
    ensures outcome { outcome_in result.outcome ≡ prove_came C.BlockCipher.protocol (E C.BlockCipher.schedule C.BlockCipher.worked) K.KeyLookup.own K.KeyLookup.replies side given.input.items given.workspace.items given.output.items }
{
    let Given {
        input: message,
        mut workspace,
        mut output,
    } = given;
    match side {
        FobSide::Invited(invited) => {
            let (space, out) = (workspace.as_mut_slice(), output.as_mut_slice());
            match invited.prove(message.as_slice(), space, out) {
                Ok(proved) => {
                    output.truncate(VERIFY);
                    Move {
                        next: FobSide::Proved(proved),
                        events: Events::Three(
                            Event::Sends(field(output.as_slice(), 3)),
                            Event::Proves,
                            Event::reads(message.as_slice()),
                        ),
                        outcome: Outcome::Sent(output),
                    }
                }
                Err(Refused { end, fault }) => {
                    Move::stays(FobSide::Invited(end), Outcome::Refused(fault))
                }
            }
        }
        other => Move::stays(other, Outcome::NotAllowed),
    }
}

/// Finishes, if the fob has proved.
pub(crate) fn finish<C: BlockCipher, K: KeyLookup>(
    side: FobSide<C, K>,
    message: Vec<u8>,
    mut workspace: Vec<u8>,
) -> Move<FobSide<C, K>>
    ensures does { Does result (finish_at C.BlockCipher.protocol (E C.BlockCipher.schedule C.BlockCipher.worked) side message.items workspace.items) }
    ensures outcome { outcome_in result.outcome ≡ finish_came C.BlockCipher.protocol (E C.BlockCipher.schedule C.BlockCipher.worked) side message.items workspace.items }
{
    match side {
        FobSide::Proved(proved) => {
            match proved.finish(message.as_slice(), workspace.as_mut_slice()) {
                Ok((end, ticket)) => Move {
                    next: FobSide::Open(end, ticket),
                    events: Events::Two(Event::Opens, Event::accepts(message.as_slice())),
                    outcome: Outcome::Done,
                },
                Err(Refused { end, fault }) => {
                    Move::stays(FobSide::Proved(end), Outcome::Refused(fault))
                }
            }
        }
        other => Move::stays(other, Outcome::NotAllowed),
    }
}

/// Answers, if the mixer has not been called yet.
pub(crate) fn answer<C: BlockCipher, K: KeyLookup>(
    side: MixerSide<C, K>,
    nonce: [u8; 12],
    given: Given,
) -> Move<MixerSide<C, K>>
    ensures does { Does result (answer_at C.BlockCipher.protocol (E C.BlockCipher.schedule C.BlockCipher.worked) K.KeyLookup.own K.KeyLookup.replies side nonce given.input.items given.workspace.items given.output.items) }
    ensures outcome { outcome_in result.outcome ≡ answer_came C.BlockCipher.protocol (E C.BlockCipher.schedule C.BlockCipher.worked) K.KeyLookup.own K.KeyLookup.replies side nonce given.input.items given.workspace.items given.output.items }
{
    let Given {
        input: message,
        mut workspace,
        mut output,
    } = given;
    match side {
        MixerSide::Fresh(mixer, key) => {
            let label = key.label();
            let (space, out) = (workspace.as_mut_slice(), output.as_mut_slice());
            match mixer.answer(key, Nonce::new(nonce), message.as_slice(), space, out) {
                Ok(answered) => {
                    output.truncate(ACT);
                    Move {
                        next: MixerSide::Answered(answered),
                        events: Events::Two(
                            Event::Offers { label, nonce },
                            Event::reads(message.as_slice()),
                        ),
                        outcome: Outcome::Sent(output),
                    }
                }
                Err(
                    NotStarted {
                        end,
                        key,
                        fault,
                        ..
                    },
                ) => { Move::stays(MixerSide::Fresh(end, key), Outcome::Refused(fault)) }
            }
        }
        other => Move::stays(other, Outcome::NotAllowed),
    }
}

/// Confirms, if the mixer has answered.
pub(crate) fn confirm<C: BlockCipher, K: KeyLookup>(
    side: MixerSide<C, K>,
    given: Given,
) -> Move<MixerSide<C, K>>
    ensures does { Does result (confirm_at C.BlockCipher.protocol (E C.BlockCipher.schedule C.BlockCipher.worked) side given.input.items given.workspace.items given.output.items) }
    ensures outcome { outcome_in result.outcome ≡ confirm_came C.BlockCipher.protocol (E C.BlockCipher.schedule C.BlockCipher.worked) side given.input.items given.workspace.items given.output.items }
{
    let Given {
        input: message,
        mut workspace,
        mut output,
    } = given;
    match side {
        MixerSide::Answered(answered) => {
            let (space, out) = (workspace.as_mut_slice(), output.as_mut_slice());
            match answered.confirm(message.as_slice(), space, out) {
                Ok((end, ticket)) => {
                    output.truncate(VERIFY);
                    Move {
                        next: MixerSide::Open(end, ticket),
                        events: Events::Three(
                            Event::Sends(field(output.as_slice(), 3)),
                            Event::Opens,
                            Event::accepts(message.as_slice()),
                        ),
                        outcome: Outcome::Sent(output),
                    }
                }
                Err(Refused { end, fault }) => {
                    Move::stays(MixerSide::Answered(end), Outcome::Refused(fault))
                }
            }
        }
        other => Move::stays(other, Outcome::NotAllowed),
    }
}
