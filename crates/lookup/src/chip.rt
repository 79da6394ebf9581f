//! A record of ready secrets: the own label, then rows of a peer's label, its validity and its secret.
ghost use Rattle.std.specs.Prelude.{◌≡◌, true, false, length, take, drop, MatchResult};
ghost use Rattle.fault.specs.Faults.{host_fault};
ghost use Rattle.fault.specs.declared.HostCause.TheVariants.{OwnKey};
ghost use Rattle.lookup.specs.Chip.{is_length, rows_of, row_reply, matching_reply, deciding_reply, reply_in};

use crate::{Invalid, KeyLookup, Reply, Secret};
use fault::{Fault, HostCause};

const ROW: usize = 50;

const MOST_ROWS: usize = 64;

/// A record that is lent: its own label and its rows.
#[derive(Clone, Copy)]
pub struct ChipRecord<'a> {
    label: [u8; 25],
    rows: &'a [u8],
}

impl<'a> ChipRecord<'a> {
    /// The record of an own label and 0 to 64 whole rows; octets of any other length are refused with 5.
    pub fn new(octets: &'a [u8]) -> Result<ChipRecord<'a>, Fault>
        ensures value { MatchResult result (λ c. (is_length (length octets.now) ≡ true) × (c.label ≡ take 25 octets.now) × (c.rows.now ≡ drop 25 octets.now)) (λ e. (is_length (length octets.now) ≡ false) × (e ≡ host_fault OwnKey)) }
    {
        let (label, rows) = octets.split_first_chunk::<25>().ok_or(HostCause::OwnKey)?;
        if rows.len() > MOST_ROWS * ROW || rows.len() % ROW != 0 {
            return Err(HostCause::OwnKey.into());
        }
        Ok(ChipRecord {
            label: *label,
            rows,
        })
    }
}

// The reply of a row: its secret, if its validity is 1.
fn row_reply(row: &[u8]) -> Reply
    requires { length row.now ≡ 50 }
    ensures value { result ≡ row_reply row.now }
{
    if row[25] != 1 {
        return Err(Invalid::Label);
    }
    let octets = <[u8; 24]>::try_from(&row[26..50]).unwrap();
    Ok(Secret::new(octets))
}

// The reply of a row, if it has the peer's label.
fn matching_reply(row: &[u8], peer: &[u8; 25]) -> Option<Reply>
    requires { length row.now ≡ 50 }
    ensures value { result ≡ matching_reply peer.now row.now }
{
    if &row[0..25] == peer.as_slice() {
        Some(row_reply(row))
    } else {
        None
    }
}

// The reply of the row that decides: the first with the peer's label.
fn deciding_reply(rows: &[u8], peer: &[u8; 25]) -> Option<Reply>
    ensures value { result ≡ deciding_reply peer.now (rows_of rows.now) }
{
    // Not `find_map`: it would stop at the first match, and all rows are compared, whichever matches.
    let mut found = None;
    for row in rows.chunks_exact(ROW) {
        found = found.or(matching_reply(row, peer));
    }
    found
}

impl<'a> KeyLookup for ChipRecord<'a> {
    ghost own = { λ c. c.label };

    ghost replies = { λ c peer. reply_in c.rows.now peer };

    fn label(&self) -> [u8; 25] {
        self.label
    }

    fn reply(&self, peer: &[u8; 25]) -> Reply {
        deciding_reply(self.rows, peer).unwrap_or(Err(Invalid::Label))
    }
}
