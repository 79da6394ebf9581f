//! The state, four rows of four octets, and the steps of a round.
ghost use Rattle.std.specs.Prelude.{◌≡◌, ◌≤◌, [], ◌∷◌, length};
ghost use Rattle.aes.specs.Field.{product};
ghost use Rattle.aes.specs.Schedule.{xor_word, sub_word};
ghost use Rattle.aes.specs.Rounds.{input, output, sub_bytes, shift_rows, mix_columns, add_round_key};
ghost use Rattle.aes.specs.View.{octets, state_of, scaled};

use crate::sbox::sub_byte;

/// An octet times 2 and times 3 in the field.
fn multiples(x: u8) -> (u8, u8)
    ensures value { result ≡ (product 2 x, product 3 x) }
{
    let twice = (x << 1) ^ ((x >> 7) * 0x1b);
    (twice, twice ^ x)
}

/// A row of the state: its octets by column.
#[derive(Clone, Copy)]
pub(crate) struct Row {
    c0: u8,
    c1: u8,
    c2: u8,
    c3: u8,
}

impl Row {
    fn new(c0: u8, c1: u8, c2: u8, c3: u8) -> Row
        ensures value { octets result ≡ c0 ∷ c1 ∷ c2 ∷ c3 ∷ [] }
    {
        Row { c0, c1, c2, c3 }
    }

    /// Each octet through the S-box.
    fn substituted(self) -> Row
        ensures value { octets result ≡ sub_word (octets self) }
    {
        Row::new(
            sub_byte(self.c0),
            sub_byte(self.c1),
            sub_byte(self.c2),
            sub_byte(self.c3),
        )
    }

    /// The row times 2 and times 3.
    fn multiples(self) -> (Row, Row)
        ensures value { (octets result.0 ≡ scaled 2 (octets self)) × (octets result.1 ≡ scaled 3 (octets self)) }
    {
        let (d0, t0) = multiples(self.c0);
        let (d1, t1) = multiples(self.c1);
        let (d2, t2) = multiples(self.c2);
        let (d3, t3) = multiples(self.c3);
        (Row::new(d0, d1, d2, d3), Row::new(t0, t1, t2, t3))
    }

    fn xor(self, other: Row) -> Row
        ensures value { octets result ≡ xor_word (octets self) (octets other) }
    {
        Row::new(
            self.c0 ^ other.c0,
            self.c1 ^ other.c1,
            self.c2 ^ other.c2,
            self.c3 ^ other.c3,
        )
    }

    /// The XOR of four rows.
    fn sum(p: Row, q: Row, r: Row, t: Row) -> Row
        ensures value { octets result ≡ xor_word (xor_word (xor_word (octets p) (octets q)) (octets r)) (octets t) }
    {
        p.xor(q).xor(r).xor(t)
    }
}

/// The state that sixteen octets fill, column by column.
pub(crate) fn load(x: &[u8]) -> [Row; 4]
    requires { 16 ≤ length x.now }
    ensures value { state_of result ≡ input x.now }
{
    [
        Row::new(x[0], x[4], x[8], x[12]),
        Row::new(x[1], x[5], x[9], x[13]),
        Row::new(x[2], x[6], x[10], x[14]),
        Row::new(x[3], x[7], x[11], x[15]),
    ]
}

/// The octets of a state, column by column.
pub(crate) fn unload(s: [Row; 4]) -> [u8; 16]
    ensures value { result ≡ output (state_of s) }
{
    let [s0, s1, s2, s3] = s;
    [
        s0.c0, s1.c0, s2.c0, s3.c0, s0.c1, s1.c1, s2.c1, s3.c1, s0.c2, s1.c2, s2.c2, s3.c2, s0.c3,
        s1.c3, s2.c3, s3.c3,
    ]
}

pub(crate) fn sub_bytes(s: [Row; 4]) -> [Row; 4]
    ensures value { state_of result ≡ sub_bytes (state_of s) }
{
    [
        s[0].substituted(),
        s[1].substituted(),
        s[2].substituted(),
        s[3].substituted(),
    ]
}

pub(crate) fn shift_rows(s: [Row; 4]) -> [Row; 4]
    ensures value { state_of result ≡ shift_rows (state_of s) }
{
    let [s0, s1, s2, s3] = s;
    [
        s0,
        Row::new(s1.c1, s1.c2, s1.c3, s1.c0),
        Row::new(s2.c2, s2.c3, s2.c0, s2.c1),
        Row::new(s3.c3, s3.c0, s3.c1, s3.c2),
    ]
}

pub(crate) fn mix_columns(s: [Row; 4]) -> [Row; 4]
    ensures value { state_of result ≡ mix_columns (state_of s) }
{
    let [s0, s1, s2, s3] = s;
    let (d0, t0) = s0.multiples();
    let (d1, t1) = s1.multiples();
    let (d2, t2) = s2.multiples();
    let (d3, t3) = s3.multiples();
    [
        Row::sum(d0, t1, s2, s3),
        Row::sum(d1, t2, s3, s0),
        Row::sum(d2, t3, s0, s1),
        Row::sum(d3, t0, s1, s2),
    ]
}

pub(crate) fn add_round_key(s: [Row; 4], k: [Row; 4]) -> [Row; 4]
    ensures value { state_of result ≡ add_round_key (state_of s) (state_of k) }
{
    [
        s[0].xor(k[0]),
        s[1].xor(k[1]),
        s[2].xor(k[2]),
        s[3].xor(k[3]),
    ]
}
