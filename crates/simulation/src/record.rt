//! What a simulation records of the calls: the events of the accepted ones, each under the end that did it.
ghost use Rattle.std.specs.Prelude.{◌≡◌, ◌+◌, ◌≤◌, length, take, drop, vec_len, vec_capacity};
ghost use Rattle.channel.specs.Steps.{label_in, nonce_in, tag_in};
ghost use Rattle.runs.specs.History.{logged};
ghost use Rattle.simulation.specs.Simulation.{events_in, log_of};

use channel::Role;
use fault::Fault;

/// What an accepted call did.
#[derive(Drop)]
pub enum Event {
    /// a label and a nonce were written into a message
    Offers {
        label: [u8; 25],
        nonce: [u8; 12],
    },
    /// a label and a nonce were read in a message
    Reads {
        label: [u8; 25],
        nonce: [u8; 12],
    },
    /// the fob proved that it has the keys
    Proves,
    /// the end opened
    Opens,
    /// a tag was put into a message
    Sends([u8; 12]),
    /// the tag in a message was accepted
    Accepts([u8; 12]),
    /// a payload was sealed, with its packet's number and counter
    Seals {
        number: u32,
        counter: u128,
        payload: Vec<u8>,
    },
    /// a payload was unsealed
    Unseals {
        number: u32,
        payload: Vec<u8>,
    },
}

impl Event {
    /// That the label and the nonce in a message of full length were read.
    pub(crate) fn reads(message: &[u8]) -> Event
        ensures value { 40 ≤ length message.now → result ≡ Event.Reads (label_in message.now) (nonce_in message.now) }
    {
        let (label, nonce) = (field(message, 3), field(message, 28));
        Event::Reads { label, nonce }
    }

    /// That the tag in a message of full length was accepted.
    pub(crate) fn accepts(message: &[u8]) -> Event
        ensures value { 15 ≤ length message.now → result ≡ Event.Accepts (tag_in message.now) }
    {
        Event::Accepts(field(message, 3))
    }
}

/// An event, and the end that did it.
#[derive(Drop)]
pub struct Entry {
    pub role: Role,
    pub event: Event,
}

/// The events of one call, the latest first.
// Not an array of three options, which could have gaps and which each call would have to fill up; a `Vec` could want memory.
#[derive(Drop)]
pub(crate) enum Events {
    Nothing,
    One(Event),
    Two(Event, Event),
    Three(Event, Event, Event),
}

/// What a call came to.
// Not a `Result` of an `Option`, in which neither `None` nor the two sorts of errors would say what they mean.
#[derive(Drop)]
pub enum Outcome {
    /// the end is not in the state that the call is for
    NotAllowed,
    /// the call was refused
    Refused(Fault),
    /// the call was accepted and wrote this message
    Sent(Vec<u8>),
    /// the call was accepted and wrote no message
    Done,
}

/// What a call made of an end.
pub(crate) struct Move<S> {
    pub(crate) next: S,
    pub(crate) events: Events,
    pub(crate) outcome: Outcome,
}

impl<S> Move<S> {
    /// The end stays as it is.
    pub(crate) fn stays(next: S, outcome: Outcome) -> Move<S>
        ensures next { result.next ≡ next }
        ensures events { result.events ≡ Events.Nothing }
        ensures outcome { result.outcome ≡ outcome }
    {
        Move {
            next,
            events: Events::Nothing,
            outcome,
        }
    }

    /// Enters the events into the log, in which there is room for three: the end's next state, and what the call came to.
    // Not a struct that has this room as its fact, which is no plainer: it holds from a `reserve` to the entry alone.
    pub(crate) fn enter(self, role: Role, log: &mut Vec<Entry>) -> (S, Outcome)
        requires { vec_len log.old + 3 ≤ vec_capacity log.old }
        ensures value { result ≡ (self.next, self.outcome) }
        ensures log { log_of log.new ≡ logged role (events_in self.events) (log_of log.old) }
        ensures room { (vec_len log.new ≤ vec_len log.old + 3) × (vec_capacity log.new ≡ vec_capacity log.old) }
    {
        let Move {
            next,
            events,
            outcome,
        } = self;
        enter(log, role, events);
        (next, outcome)
    }
}

/// The `N` octets from `at` on; zeros where the octets end before.
// `channel` has the like for octets that are known to be long enough; this one asks nothing, so no caller has to prove a length.
pub(crate) fn field<const N: usize>(octets: &[u8], at: usize) -> [u8; N]
    ensures value { at + N ≤ length octets.now → result ≡ take N (drop at octets.now) }
{
    if let Some(rest) = octets.get(at..)
        && let Some((part, _)) = rest.split_first_chunk()
    {
        return *part;
    }
    [0; N]
}

/// Enters the events of a call into the log, in which there is room for three.
fn enter(log: &mut Vec<Entry>, role: Role, events: Events)
    requires { vec_len log.old + 3 ≤ vec_capacity log.old }
    ensures log { log_of log.new ≡ logged role (events_in events) (log_of log.old) }
    ensures room { (vec_len log.new ≤ vec_len log.old + 3) × (vec_capacity log.new ≡ vec_capacity log.old) }
{
    match events {
        Events::Nothing => {}
        Events::One(event) => log.push_reserved(Entry { role, event }),
        Events::Two(second, first) => {
            log.push_reserved(Entry { role, event: first });
            log.push_reserved(Entry {
                role,
                event: second,
            });
        }
        Events::Three(third, second, first) => {
            log.push_reserved(Entry { role, event: first });
            log.push_reserved(Entry {
                role,
                event: second,
            });
            log.push_reserved(Entry { role, event: third });
        }
    }
}
