//! The two ends of a channel: which of them, and what each of them has.
#![tactic(auto)]

/// Which end of a channel: the fob is entity A, the mixer entity B.
#[derive(Clone, Copy, PartialEq, Eq, Debug)]
pub enum Role {
    Fob,
    Mixer,
}

/// The same kind of value at each end.
#[derive(Clone, Copy)]
pub struct Both<T> {
    pub fob: T,
    pub mixer: T,
}
