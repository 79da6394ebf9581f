//! The two ends of a channel: the states that a fob and a mixer go through, and the calls that move them on.
//!
//! A fob invites, proves and finishes; a mixer answers and confirms. Then both are open: they seal and unseal in turn, and
//! are closed. A refused call hands everything back as it was.
//!
//! Each call tests the size of its workspace and makes the guard over it by its literal, for the reason that `cipher::Guard`
//! gives; what follows is a function with a workspace of full size.
#![tactic(auto)]

ghost use Rattle.std.specs.Prelude.{◌≡◌};
ghost use Rattle.channel.specs.Laws.{OutcomeLaws};

use fault::Fault;
use keyed::{Identities, Labels, Nonces, SessionKeys};
use std::marker::PhantomData;

mod fields;
mod fob_calls;
mod mixer_calls;
mod packets;

pub use ends::Role;

/// A nonce of twelve octets. It is handed over once: it can be neither copied nor cloned.
#[derive(Drop)]
pub struct Nonce {
    octets: [u8; 12],
}

impl Nonce {
    /// Takes twelve octets, which are to be drawn at random for each session.
    pub fn new(octets: [u8; 12]) -> Nonce
        ensures value { result.octets ≡ octets }
    {
        Nonce { octets }
    }
}

/// A fob that has not been called yet.
#[derive(Drop)]
pub struct Fob<C> {
    identities: Identities,
    cipher: PhantomData<C>,
}

/// A fob that has invited a mixer.
#[derive(Drop)]
pub struct Invited<C, K> {
    identities: Identities,
    key: K,
    nonce: Nonce,
    cipher: PhantomData<C>,
}

/// A fob that has proved that it holds the keys.
#[derive(Drop)]
pub struct Proved<C, K> {
    session: Session<K>,
    cipher: PhantomData<C>,
}

/// A mixer that has not been called yet. It has a fob's fields in a type of its own: which calls an end has stands in its type.
#[derive(Drop)]
pub struct Mixer<C> {
    identities: Identities,
    cipher: PhantomData<C>,
}

/// A mixer that has answered an invitation.
#[derive(Drop)]
pub struct Answered<C, K> {
    session: Session<K>,
    cipher: PhantomData<C>,
}

/// What an end holds from the derivation of its keys until it opens.
#[derive(Drop)]
struct Session<K> {
    identities: Identities,
    key: K,
    labels: Labels,
    nonces: Nonces,
    keys: SessionKeys,
}

/// What a fob works out to prove: the keys, and the tag under which it says so.
#[derive(Clone, Copy)]
struct Proof {
    keys: SessionKeys,
    tag: [u8; 12],
}

/// The keys of an open end, its counter and its number.
#[derive(Clone, Copy)]
struct Epoch {
    keys: SessionKeys,
    number: u32,
}

/// An open end.
#[derive(Drop)]
pub struct Open<C, K> {
    role: Role,
    key: K,
    epoch: Epoch,
    cipher: PhantomData<C>,
}

/// Handed out when an end opens; only the call that closes the end takes it back.
pub struct Ticket {
    spent: (),
}

/// A refused call hands the end back as it was.
#[derive(Drop)]
pub struct Refused<E> {
    pub end: E,
    pub fault: Fault,
}

/// A refused call that was to take over a key and a nonce hands them back with the end.
#[derive(Drop)]
pub struct NotStarted<E, K> {
    pub end: E,
    pub key: K,
    pub nonce: Nonce,
    pub fault: Fault,
}

/// What a refused call keeps, and what an accepted packet has passed and moved. It does nothing; its contract is the laws.
pub fn outcome_laws<C, K>()
    ensures laws { OutcomeLaws C K }
{}
