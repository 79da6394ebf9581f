//! The rounds of the cipher.
ghost use Rattle.std.specs.Prelude.{◌≡◌, ◌≤◌, length};
ghost use Rattle.aes.specs.Rounds.{round_key, full_round, last_round, cipher};
ghost use Rattle.aes.specs.View.{state_of};

use crate::state::{Row, add_round_key, load, mix_columns, shift_rows, sub_bytes, unload};

/// Round key `n` of a schedule.
fn round_key(schedule: &[u8; 176], n: usize) -> [Row; 4]
    requires { n ≤ 10 }
    ensures value { state_of result ≡ round_key schedule.now n }
{
    load(&schedule[16 * n..16 * n + 16])
}

fn full_round(s: [Row; 4], k: [Row; 4]) -> [Row; 4]
    ensures value { state_of result ≡ full_round (state_of s) (state_of k) }
{
    add_round_key(mix_columns(shift_rows(sub_bytes(s))), k)
}

fn last_round(s: [Row; 4], k: [Row; 4]) -> [Row; 4]
    ensures value { state_of result ≡ last_round (state_of s) (state_of k) }
{
    add_round_key(shift_rows(sub_bytes(s)), k)
}

/// A block under a schedule of eleven round keys.
pub(crate) fn encrypt(schedule: &[u8; 176], block: &[u8; 16]) -> [u8; 16]
    ensures value { result ≡ cipher schedule.now block.now }
{
    let mut s = add_round_key(load(block), round_key(schedule, 0));
    // By number: the standard gives round n round key n, and chunks of the schedule, in the same order, are no plainer.
    for n in 0..9 {
        let next = full_round(s, round_key(schedule, n + 1));
        s = next;
    }
    unload(last_round(s, round_key(schedule, 10)))
}
