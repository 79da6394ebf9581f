//! What a session does with keys, over any block cipher: results and tags, the derivation of its keys, the confirmations of a handshake, and the keystream.
//!
//! Each function that is lent a workspace says for itself that it has 256 octets. Tried was a struct that says it once, made
//! by a function that may refuse: the proof then no longer knows which slice it borrows. An array of 256 octets would take
//! fewer slices than these functions do.
#![tactic(auto)]

mod confirm;
mod counter_mode;
mod derivation;
mod parts;
mod xcbc;

pub use confirm::{Labels, Told};
pub use counter_mode::keystream;
pub use derivation::{Identities, Nonces, SessionKeys, derive};
pub use xcbc::{result, tag, tag_matches};
