//! Own keys, made of what the file has.
ghost use Rattle.std.specs.Prelude.{◌≡◌, ◌↔◌, IsTrue, Ok};
ghost use Rattle.recorded.specs.Keys.{Makes, Gives};

use fault::Fault;
use lookup::bench::BenchKey;
use lookup::chip::ChipRecord;
use lookup::either::EitherKey;
use lookup::{KeyLookup, Secret};

/// What an own key is made of.
#[derive(Drop)]
pub enum OwnKey {
    /// the private number of a bench key
    Bench(u32),
    /// the octets of a chip record
    Chip(Vec<u8>),
}

impl OwnKey {
    /// The key that is made of this, or the refusal of its sort.
    pub fn make(&self) -> Result<EitherKey<'_>, Fault>
        ensures value { Makes self.now result }
    {
        match self {
            OwnKey::Bench(d) => Ok(EitherKey::Bench(BenchKey::new(*d)?)),
            OwnKey::Chip(octets) => Ok(EitherKey::Chip(ChipRecord::new(octets)?)),
        }
    }

    /// Whether a key can be made of this that has this label, and gives the peer's label this secret.
    pub fn gives(&self, own: &[u8; 25], peer: &[u8; 25], secret: &[u8; 24]) -> bool
        ensures value { IsTrue result ↔ Gives self.now own.now peer.now secret.now }
    {
        match self.make() {
            Ok(key) => looks_up(&key, own, peer, secret),
            Err(_) => false,
        }
    }
}

/// Whether a key has this label, and gives the peer's label this secret.
fn looks_up<K: KeyLookup>(key: &K, own: &[u8; 25], peer: &[u8; 25], secret: &[u8; 24]) -> bool
    ensures value { IsTrue result ↔ (K.KeyLookup.own key.now ≡ own.now) × (K.KeyLookup.replies key.now peer.now ≡ Ok secret.now) }
{
    key.label() == *own && key.reply(peer) == Ok(Secret::new(*secret))
}
