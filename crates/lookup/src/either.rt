//! A key of either sort.
ghost use Rattle.lookup.specs.Either.{own_of, replies_of};

use crate::bench::BenchKey;
use crate::chip::ChipRecord;
use crate::{KeyLookup, Reply};

/// A bench key or a chip record, where only the run tells which.
#[derive(Clone, Copy)]
pub enum EitherKey<'a> {
    Bench(BenchKey),
    Chip(ChipRecord<'a>),
}

impl<'a> KeyLookup for EitherKey<'a> {
    ghost own = { own_of };

    ghost replies = { replies_of };

    fn label(&self) -> [u8; 25] {
        match self {
            EitherKey::Bench(key) => key.label(),
            EitherKey::Chip(record) => record.label(),
        }
    }

    fn reply(&self, peer: &[u8; 25]) -> Reply {
        match self {
            EitherKey::Bench(key) => key.reply(peer),
            EitherKey::Chip(record) => record.reply(peer),
        }
    }
}
