//! What sealing, unsealing and closing make of a fob and of a mixer.
ghost use Rattle.std.specs.Prelude.{◌≡◌, MatchResult, refl};
ghost use Rattle.cipher.specs.Cipher.{E};
ghost use Rattle.channel.specs.declared.Open.{Open};
ghost use Rattle.channel.specs.declared.Ticket.{Ticket};
ghost use Rattle.channel.specs.Packets.{seal_check, unseal_check};
ghost use Rattle.runs.specs.declared.FobSide.TheVariants.{Open as OpenFob, Closed as ClosedFob};
ghost use Rattle.runs.specs.declared.MixerSide.TheVariants.{Open as OpenMixer, Closed as ClosedMixer};
ghost use Rattle.runs.specs.History.{Done, sealed_by, unsealed_by, open_fob_does, open_mixer_does, idle};
ghost use Rattle.simulation.specs.Outcomes.{Came, not_allowed, outcome_in, seal_came, unseal_came, open_fob_came, open_mixer_came, close_fob_came, close_mixer_came};
ghost use Rattle.simulation.specs.Simulation.{Does};

use crate::record::{Event, Events, Move, Outcome, field};
use crate::run::Given;
use channel::{Open, Ticket};
use cipher::BlockCipher;
use lookup::KeyLookup;
use runs::{FobSide, MixerSide};

/// Seals a payload at an open end.
fn seal_at<C: BlockCipher, K>(mut end: Open<C, K>, given: Given) -> Move<Open<C, K>>
    ensures does { Does result (sealed_by C.BlockCipher.protocol (E C.BlockCipher.schedule C.BlockCipher.worked) end given.input.items (seal_check end given.input.items given.workspace.items given.output.items)) }
    ensures outcome { outcome_in result.outcome ≡ seal_came C.BlockCipher.protocol (E C.BlockCipher.schedule C.BlockCipher.worked) end given.input.items given.workspace.items given.output.items }
{
    let Given {
        input: payload,
        mut workspace,
        mut output,
    } = given;
    let counter = end.counter();
    let (space, out) = (workspace.as_mut_slice(), output.as_mut_slice());
    match end.seal(payload.as_slice(), space, out) {
        Err(fault) => Move::stays(end, Outcome::Refused(fault)),
        Ok(size) => {
            output.truncate(size);
            let tag = field(output.as_slice(), 9 + payload.len());
            let number = end.number();
            let sealed = Event::Seals {
                number,
                counter,
                payload,
            };
            Move {
                next: end,
                events: Events::Two(Event::Sends(tag), sealed),
                outcome: Outcome::Sent(output),
            }
        }
    }
}

/// Unseals a message at an open end.
fn unseal_at<C: BlockCipher, K>(mut end: Open<C, K>, given: Given) -> Move<Open<C, K>>
    ensures does { Does result (unsealed_by C.BlockCipher.protocol (E C.BlockCipher.schedule C.BlockCipher.worked) end given.input.items given.workspace.items given.output.items (unseal_check C.BlockCipher.protocol (E C.BlockCipher.schedule C.BlockCipher.worked) end given.input.items given.workspace.items given.output.items)) }
    ensures outcome { outcome_in result.outcome ≡ unseal_came C.BlockCipher.protocol (E C.BlockCipher.schedule C.BlockCipher.worked) end given.input.items given.workspace.items given.output.items }
{
    let Given {
        input: message,
        mut workspace,
        mut output,
    } = given;
    let (space, out) = (workspace.as_mut_slice(), output.as_mut_slice());
    match end.unseal(message.as_slice(), space, out) {
        Err(fault) => Move::stays(end, Outcome::Refused(fault)),
        Ok((size, number)) => {
            output.truncate(size);
            let tag = field(message.as_slice(), 9 + size);
            let unsealed = Event::Unseals {
                number,
                payload: output,
            };
            Move {
                next: end,
                events: Events::Two(unsealed, Event::Accepts(tag)),
                outcome: Outcome::Done,
            }
        }
    }
}

/// A fob or a mixer, wherever its session is: it may be open, and it can be ended.
pub(crate) trait Side<C, K> {
    // what is done at the open end makes of this end, or nothing where it is not open
    ghost does: { (Open C K → Done (Open C K)) → Self → Done Self };

    // what that comes to
    ghost came: { (Open C K → Came) → Self → Came };

    // what ending it comes to
    ghost ended: { Self → Came };

    // an open end is this end
    ghost opened: { Open C K → Ticket → Self };

    // this end once it was closed or given up
    ghost closed: { Self };

    /// The open end with its ticket, or this end as it is.
    fn into_open(self) -> Result<(Open<C, K>, Ticket), Self>
        ensures value { MatchResult result (λ x. self ≡ opened x.0 x.1) (λ s. (s ≡ self) × ((f : _) → does f self ≡ idle self) × ((f : _) → came f self ≡ not_allowed)) };

    /// This end, open.
    fn from_open(end: Open<C, K>, ticket: Ticket) -> Self
        ensures value { result ≡ opened end ticket };

    /// This end, closed.
    fn closed() -> Self
        ensures value { result ≡ closed };

    /// Ends the session: closes this end, or gives it up.
    fn end(self) -> Outcome
        ensures outcome { outcome_in result ≡ ended self };

    ghost does_opened: { (f : Open C K → Done (Open C K)) (x : Open C K) (t : Ticket) → does f (opened x t) ≡ record { next = opened (f x).next t; events = (f x).events; worked = (f x).worked } };

    ghost came_opened: { (f : Open C K → Came) (x : Open C K) (t : Ticket) → came f (opened x t) ≡ f x };
}

impl<C: BlockCipher, K: KeyLookup + Drop> Side<C, K> for FobSide<C, K> {
    ghost does = { open_fob_does };

    ghost came = { open_fob_came };

    ghost ended = { close_fob_came };

    ghost opened = { OpenFob };

    ghost closed = { ClosedFob };

    ghost does_opened = { λ f x t. refl };

    ghost came_opened = { λ f x t. refl };

    fn into_open(self) -> Result<(Open<C, K>, Ticket), FobSide<C, K>> {
        match self {
            FobSide::Open(end, ticket) => Ok((end, ticket)),
            other => Err(other),
        }
    }

    fn from_open(end: Open<C, K>, ticket: Ticket) -> FobSide<C, K>
        ensures value { result ≡ FobSide.Open end ticket }
    {
        FobSide::Open(end, ticket)
    }

    fn closed() -> FobSide<C, K> {
        FobSide::Closed
    }

    fn end(self) -> Outcome {
        let _key = match self {
            FobSide::Fresh(fob, key) => {
                let _identities = fob.give_up();
                key
            }
            FobSide::Invited(invited) => invited.give_up(),
            FobSide::Proved(proved) => proved.give_up(),
            FobSide::Open(end, ticket) => end.close(ticket).0,
            FobSide::Closed => return Outcome::NotAllowed,
        };
        Outcome::Done
    }
}

impl<C: BlockCipher, K: KeyLookup + Drop> Side<C, K> for MixerSide<C, K> {
    ghost does = { open_mixer_does };

    ghost came = { open_mixer_came };

    ghost ended = { close_mixer_came };

    ghost opened = { OpenMixer };

    ghost closed = { ClosedMixer };

    ghost does_opened = { λ f x t. refl };

    ghost came_opened = { λ f x t. refl };

    fn into_open(self) -> Result<(Open<C, K>, Ticket), MixerSide<C, K>> {
        match self {
            MixerSide::Open(end, ticket) => Ok((end, ticket)),
            other => Err(other),
        }
    }

    fn from_open(end: Open<C, K>, ticket: Ticket) -> MixerSide<C, K>
        ensures value { result ≡ MixerSide.Open end ticket }
    {
        MixerSide::Open(end, ticket)
    }

    fn closed() -> MixerSide<C, K> {
        MixerSide::Closed
    }

    fn end(self) -> Outcome {
        let _key = match self {
            MixerSide::Fresh(mixer, key) => {
                let _identities = mixer.give_up();
                key
            }
            MixerSide::Answered(answered) => answered.give_up(),
            MixerSide::Open(end, ticket) => end.close(ticket).0,
            MixerSide::Closed => return Outcome::NotAllowed,
        };
        Outcome::Done
    }
}

impl<C, K> Move<Open<C, K>> {
    /// What is done at an open end is done at its side.
    fn at<S: Side<C, K>>(self, ticket: Ticket) -> Move<S>
        ensures next { result.next ≡ S.opened self.next ticket }
        ensures events { result.events ≡ self.events }
        ensures outcome { result.outcome ≡ self.outcome }
    {
        let Move {
            next,
            events,
            outcome,
        } = self;
        Move {
            next: S::from_open(next, ticket),
            events,
            outcome,
        }
    }
}

/// Seals, if the end is open.
pub(crate) fn seal<C: BlockCipher, K, S: Side<C, K>>(side: S, given: Given) -> Move<S>
    ensures does { Does result (S.does (λ x. sealed_by C.BlockCipher.protocol (E C.BlockCipher.schedule C.BlockCipher.worked) x given.input.items (seal_check x given.input.items given.workspace.items given.output.items)) side) }
    ensures outcome { outcome_in result.outcome ≡ S.came (λ x. seal_came C.BlockCipher.protocol (E C.BlockCipher.schedule C.BlockCipher.worked) x given.input.items given.workspace.items given.output.items) side }
{
    match side.into_open() {
        Ok((end, ticket)) => seal_at(end, given).at(ticket),
        Err(side) => Move::stays(side, Outcome::NotAllowed),
    }
}

/// Unseals, if the end is open.
pub(crate) fn unseal<C: BlockCipher, K, S: Side<C, K>>(side: S, given: Given) -> Move<S>
    ensures does { Does result (S.does (λ x. unsealed_by C.BlockCipher.protocol (E C.BlockCipher.schedule C.BlockCipher.worked) x given.input.items given.workspace.items given.output.items (unseal_check C.BlockCipher.protocol (E C.BlockCipher.schedule C.BlockCipher.worked) x given.input.items given.workspace.items given.output.items)) side) }
    ensures outcome { outcome_in result.outcome ≡ S.came (λ x. unseal_came C.BlockCipher.protocol (E C.BlockCipher.schedule C.BlockCipher.worked) x given.input.items given.workspace.items given.output.items) side }
{
    match side.into_open() {
        Ok((end, ticket)) => unseal_at(end, given).at(ticket),
        Err(side) => Move::stays(side, Outcome::NotAllowed),
    }
}

/// Closes the end, or gives it up.
pub(crate) fn close<C, K, S: Side<C, K>>(side: S) -> Move<S>
    ensures does { Does result (idle S.closed) }
    ensures outcome { outcome_in result.outcome ≡ S.ended side }
{
    Move::stays(S::closed(), side.end())
}
