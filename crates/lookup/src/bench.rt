//! The bench group: powers of 7 modulo the prime 2,147,483,647.
ghost use Rattle.std.specs.Prelude.{◌≡◌, ◌*◌, ◌%◌, ◌≤◌, true, false, Some, MatchResult};
ghost use Rattle.fault.specs.Faults.{host_fault};
ghost use Rattle.fault.specs.declared.HostCause.TheVariants.{OwnKey};
ghost use Rattle.lookup.specs.Bench.{power_of, is_private, padded, label_of, value_of, reply_to};

use crate::{Invalid, KeyLookup, Reply, Secret};
use fault::{Fault, HostCause};

const P: u32 = 2_147_483_647;

/// A private number d and its value, 7 to the d mod p.
#[derive(Clone, Copy)]
pub struct BenchKey {
    d: u32,
    value: u32,
    ghost private: { (1 ≤ d) × (d ≤ 2147483645) },
    ghost power: { value ≡ power_of 7 d },
    ghost valid: { (2 ≤ value) × (value ≤ 2147483645) },
}

impl BenchKey {
    /// The key of a private number of 1 to p - 2 whose value is 2 to p - 2; any other is refused with 5.
    pub fn new(d: u32) -> Result<BenchKey, Fault>
        ensures value { MatchResult result (λ k. (is_private d ≡ true) × (k.d ≡ d) × (k.value ≡ power_of 7 d)) (λ e. (is_private d ≡ false) × (e ≡ host_fault OwnKey)) }
    {
        if d < 1 || d > P - 2 {
            return Err(HostCause::OwnKey.into());
        }
        let value = power(7, d);
        if value < 2 || value > P - 2 {
            return Err(HostCause::OwnKey.into());
        }
        Ok(BenchKey { d, value })
    }
}

// A product mod p.
fn times(a: u32, b: u32) -> u32
    ensures value { result ≡ a * b % 2147483647 }
{
    (a as u64 * b as u64 % P as u64) as u32
}

// A power mod p, by square and multiply.
fn power(base: u32, exponent: u32) -> u32
    ensures value { result ≡ power_of base exponent }
{
    let mut product = 1;
    let mut square = base;
    let mut remaining = exponent;
    while remaining > 0 {
        if remaining % 2 == 1 {
            product = times(product, square);
        }
        square = times(square, square);
        remaining /= 2;
    }
    product
}

// Twenty zero octets, then a number in 4 octets, highest first.
fn pad(number: u32) -> [u8; 24]
    ensures value { result ≡ padded number }
{
    let mut octets = [0; 24];
    let last = &mut octets[20..24];
    last.copy_from_slice(&number.to_be_bytes());
    octets
}

// The label of a value, from which the value can be read again.
fn encode(value: u32) -> [u8; 25]
    requires { (2 ≤ value) × (value ≤ 2147483645) }
    ensures value { result ≡ label_of value }
    ensures decoded { value_of result ≡ Some value }
{
    let mut octets = [2; 25];
    let rest = &mut octets[1..25];
    rest.copy_from_slice(&pad(value));
    octets
}

// The value whose label this is, if any.
fn decode(label: &[u8; 25]) -> Option<u32>
    ensures value { result ≡ value_of label.now }
{
    let value = u32::from_be_bytes([label[21], label[22], label[23], label[24]]);
    if value >= 2 && value <= P - 2 && *label == encode(value) {
        Some(value)
    } else {
        None
    }
}

impl KeyLookup for BenchKey {
    ghost own = { λ k. label_of k.value };

    ghost replies = { λ k peer. reply_to k.d peer };

    fn label(&self) -> [u8; 25] {
        encode(self.value)
    }

    fn reply(&self, peer: &[u8; 25]) -> Reply {
        let Some(value) = decode(peer) else {
            return Err(Invalid::Label);
        };
        match power(value, self.d) {
            1 => Err(Invalid::Label),
            z => Ok(Secret::new(pad(z))),
        }
    }
}

/// The reply that two keys give to each other's label, which is one and the same.
pub fn shared(ours: &BenchKey, theirs: &BenchKey) -> Reply
    ensures value { result ≡ reply_to ours.now.d (label_of theirs.now.value) }
    ensures agreed { result ≡ reply_to theirs.now.d (label_of ours.now.value) }
{
    ours.reply(&theirs.label())
}
