//! The key expansion, word by word.
ghost use Rattle.std.specs.Prelude.{◌≡◌, ◌+◌, ◌*◌, ◌<◌, ◌≤◌, length};
ghost use Rattle.aes.specs.Schedule.{word, xor_word, rot_word, sub_word, rcon, temp, next_word, key_expansion};

use crate::sbox::sub_byte;

/// x to the 0, 1, .., 9 in the field: the round constants, one for each round.
static POWERS: [u8; 10] = [0x01, 0x02, 0x04, 0x08, 0x10, 0x20, 0x40, 0x80, 0x1b, 0x36];

/// The word Rcon[j].
fn round_constant(j: usize) -> [u8; 4]
    requires le_j { 1 ≤ j }
    requires j_bound { j ≤ 10 }
    ensures value { result ≡ rcon j }
{
    [POWERS[j - 1], 0, 0, 0]
}

/// Word `i` of a list of octets.
fn word_at(x: &[u8], i: usize) -> [u8; 4]
    requires { 4 * i + 4 ≤ length x.now }
    ensures value { result ≡ word x.now i }
{
    [x[4 * i], x[4 * i + 1], x[4 * i + 2], x[4 * i + 3]]
}

fn xor_word(u: [u8; 4], v: [u8; 4]) -> [u8; 4]
    ensures value { result ≡ xor_word u v }
{
    [u[0] ^ v[0], u[1] ^ v[1], u[2] ^ v[2], u[3] ^ v[3]]
}

fn rot_word(u: [u8; 4]) -> [u8; 4]
    ensures value { result ≡ rot_word u }
{
    [u[1], u[2], u[3], u[0]]
}

fn sub_word(u: [u8; 4]) -> [u8; 4]
    ensures value { result ≡ sub_word u }
{
    [
        sub_byte(u[0]),
        sub_byte(u[1]),
        sub_byte(u[2]),
        sub_byte(u[3]),
    ]
}

/// What is XORed with the word four before word `i`, from the word `u` right before it.
fn temp_word(u: [u8; 4], i: usize) -> [u8; 4]
    requires le_i { 4 ≤ i }
    requires i_bound { i < 44 }
    ensures value { result ≡ temp u i }
{
    if i % 4 == 0 {
        xor_word(sub_word(rot_word(u)), round_constant(i / 4))
    } else {
        u
    }
}

/// Word `i` of the schedule, from the words before it.
fn next_word(key: &[u8; 16], before: &[u8], i: usize) -> [u8; 4]
    requires i_bound { i < 44 }
    requires before_len { length before.now ≡ 4 * i }
    ensures value { result ≡ next_word key.now before.now i }
{
    if i < 4 {
        word_at(key, i)
    } else {
        xor_word(word_at(before, i - 4), temp_word(word_at(before, i - 1), i))
    }
}

/// Writes the eleven round keys of a key.
pub(crate) fn expand(key: &[u8; 16], schedule: &mut [u8])
    requires { length schedule.old ≡ 176 }
    ensures output { schedule.new ≡ key_expansion key.now }
{
    // By number: a word is worked out of those before it, which `chunks_exact_mut` would lend away, and of its number.
    for i in 0..44 {
        let word = next_word(key, &schedule[0..4 * i], i);
        schedule[4 * i..4 * i + 4].copy_from_slice(&word);
    }
}
