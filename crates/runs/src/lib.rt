//! Histories of a fob and a mixer, and the law that every one of them obeys.
#![tactic(auto)]

ghost use Rattle.runs.specs.Law.{LawOfRuns};
ghost use Rattle.runs.specs.Some.{SomeRun, SomeRunAltered};
ghost use Rattle.runs.specs.Unaltered.{OpensUnaltered, PassesUnaltered, EndsAtLast};

use channel::{Answered, Fob, Invited, Mixer, Open, Proved, Ticket};

/// A fob, wherever its session is.
pub enum FobSide<C, K> {
    Fresh(Fob<C>, K),
    Invited(Invited<C, K>),
    Proved(Proved<C, K>),
    Open(Open<C, K>, Ticket),
    Closed,
}

/// A mixer, wherever its session is.
pub enum MixerSide<C, L> {
    Fresh(Mixer<C>, L),
    Answered(Answered<C, L>),
    Open(Open<C, L>, Ticket),
    Closed,
}

/// Whatever is called and whatever the air does: with no lucky tag, opening order, identities, labels and keys agree, and, if the
/// nonces were read as sent, payloads arrive in order and no counter block enciphers two packets.
pub fn law_of_runs<C, K, L>()
    ensures law { LawOfRuns C K L }
{}

/// The law is not empty: in some history without a lucky tag both ends open and payloads go both ways.
pub fn some_run()
    ensures run { SomeRun }
{}

/// The law's condition on the nonces is needed: in some history without a lucky tag, but with the last octet of a nonce altered on
/// the way, both ends open and another payload comes out.
pub fn nonces_count()
    ensures run { SomeRunAltered }
{}

/// Two honest ends that are given each other's messages open, and get every payload back up to the last number.
pub fn unaltered_session<C, K, L>()
    ensures opens { OpensUnaltered C K L }
    ensures passes { PassesUnaltered C K L }
    ensures last { EndsAtLast C K }
{}
