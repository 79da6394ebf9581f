//! Key lookups: an own label, and for each peer's label a secret or the word that it is invalid.
#![tactic(auto)]

ghost use Rattle.std.specs.Prelude.{◌≡◌, ℕ, List, length};
ghost use Rattle.lookup.specs.Replies.{Reply, SecretSize};

use std::marker::Model;

pub mod bench;
pub mod chip;
pub mod either;

/// The secret Z shared with a peer. It has no `Debug`, so that neither it nor a reply is printed by accident.
#[derive(Clone, Copy, PartialEq, Eq)]
pub struct Secret {
    octets: [u8; 24],
}

impl Model for Secret {
    ghost Value = { List ℕ };

    ghost view = { λ s. s.octets };

    ghost inverse = { λ z. record { octets = z } };
}

impl Secret {
    /// The secret of these octets.
    pub fn new(octets: [u8; 24]) -> Secret
        ensures value { result ≡ octets }
    {
        Secret { octets }
    }

    /// Its octets.
    pub fn octets(&self) -> &[u8; 24]
        ensures value { result.now ≡ self.now }
    {
        &self.octets
    }
}

/// Why no secret is shared with a peer.
#[derive(Clone, Copy, PartialEq, Eq)]
pub enum Invalid {
    /// the peer's label is invalid
    Label,
}

/// The reply to a peer's label: the secret shared with the peer, or why there is none.
pub type Reply = Result<Secret, Invalid>;

/// One own label, and a reply to every peer's label. Neither question changes anything, and that a label is invalid is a reply too.
pub trait KeyLookup {
    // the own label
    ghost own: { Self → List ℕ };

    // the reply to a peer's label
    ghost replies: { Self → List ℕ → Reply };

    /// The own label.
    fn label(&self) -> [u8; 25]
        ensures value { result ≡ own self.now }
        ensures size { length (own self.now) ≡ 25 };

    /// The reply to a peer's label.
    fn reply(&self, peer: &[u8; 25]) -> Reply
        ensures value { result ≡ replies self.now peer.now }
        ensures size { SecretSize (replies self.now peer.now) };
}
