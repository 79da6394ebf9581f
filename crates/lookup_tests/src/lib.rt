//! Callers of the key lookups, and runs of them on examples.
#![tactic(auto)]

ghost use Rattle.std.specs.Prelude.{◌≡◌, drop, MatchResult};
ghost use Rattle.fault.specs.Faults.{host_fault};
ghost use Rattle.fault.specs.declared.HostCause.TheVariants.{OwnKey};
ghost use Rattle.lookup.specs.Bench.{power_of, label_of, reply_to};
ghost use Rattle.lookup.specs.Chip.{reply_in};
ghost use Rattle.lookup_tests.specs.Calls.{secret_in};

use fault::Fault;
use lookup::bench::{BenchKey, shared};
use lookup::chip::ChipRecord;
use lookup::{KeyLookup, Reply};

/// The secret that a key shares with a peer.
pub fn secret<K: KeyLookup>(key: &K, peer: &[u8; 25]) -> Option<[u8; 24]>
    ensures value { result ≡ secret_in (K.KeyLookup.replies key.now peer.now) }
{
    Some(*key.reply(peer).ok()?.octets())
}

/// The reply of a record's octets to a peer.
pub fn ask(octets: &[u8], peer: &[u8; 25]) -> Result<Reply, Fault>
    ensures value { MatchResult result (λ y. y ≡ reply_in (drop 25 octets.now) peer.now) (λ e. e ≡ host_fault OwnKey) }
{
    let record = ChipRecord::new(octets)?;
    Ok(record.reply(peer))
}

/// The reply that the keys of two private numbers give to each other's label.
pub fn meet(d: u32, e: u32) -> Result<Reply, Fault>
    ensures value { MatchResult result (λ y. y ≡ reply_to e (label_of (power_of 7 d))) (λ x. x ≡ host_fault OwnKey) }
{
    let ours = BenchKey::new(d)?;
    let theirs = BenchKey::new(e)?;
    Ok(shared(&ours, &theirs))
}

#[cfg(test)]
mod tests {
    use super::*;
    use lookup::{Invalid, Secret};
    use std::test::Fail;

    // Whether a refusal has the number 5, the host's layer and the place 0.
    fn is_own_key(fault: Fault) -> bool {
        fault.number() == 5 && fault.level() == 1 && fault.place() == 0
    }

    fn is_record(octets: &[u8]) -> bool {
        match ChipRecord::new(octets) {
            Ok(_) => true,
            Err(fault) => !is_own_key(fault),
        }
    }

    fn is_key(d: u32) -> bool {
        match BenchKey::new(d) {
            Ok(_) => true,
            Err(fault) => !is_own_key(fault),
        }
    }

    // Twenty zero octets and the four given.
    fn padded(last: [u8; 4]) -> [u8; 24] {
        let mut octets = [0; 24];
        let part = &mut octets[20..24];
        part.copy_from_slice(&last);
        octets
    }

    fn label(last: [u8; 4]) -> [u8; 25] {
        let mut octets = [2; 25];
        let part = &mut octets[1..25];
        part.copy_from_slice(&padded(last));
        octets
    }

    // A record of two rows for the label of threes, each with its validity and the octet of its secret.
    fn two_rows(first: (u8, u8), second: (u8, u8)) -> [u8; 125] {
        let mut octets = [9; 125];
        octets[25..75].copy_from_slice(&row(first));
        octets[75..125].copy_from_slice(&row(second));
        octets
    }

    // A row for the label of threes.
    fn row((validity, z): (u8, u8)) -> [u8; 50] {
        let mut octets = [z; 50];
        octets[0..25].fill(3);
        octets[25] = validity;
        octets
    }

    #[test]
    fn record_lengths(rt: HostRuntime) {
        assert!(rt; !is_record(&[]));
        assert!(rt; !is_record(&[0; 24]));
        assert!(rt; is_record(&[0; 25]));
        assert!(rt; !is_record(&[0; 26]));
        assert!(rt; is_record(&[0; 75]));
        assert!(rt; is_record(&[0; 3225]));
        assert!(rt; !is_record(&[0; 3275]));
    }

    #[test]
    fn first_row_decides(rt: HostRuntime) -> Result<(), Fail> {
        let octets = two_rows((1, 7), (1, 8));
        let record = ChipRecord::new(&octets)?;
        assert_eq!(rt; record.label(), [9; 25]);
        assert_eq!(rt; secret(&record, &[3; 25]), Some([7; 24]));
        assert_eq!(rt; secret(&record, &[9; 25]), None);
        Ok(())
    }

    #[test]
    fn only_one_is_valid(rt: HostRuntime) -> Result<(), Fail> {
        assert!(rt; ask(&two_rows((0, 7), (1, 8)), &[3; 25])? == Err(Invalid::Label));
        assert!(rt; ask(&two_rows((2, 7), (1, 8)), &[3; 25])? == Err(Invalid::Label));
        assert!(rt; ask(&two_rows((255, 7), (1, 8)), &[3; 25])? == Err(Invalid::Label));
        assert!(rt; ask(&two_rows((1, 7), (0, 8)), &[3; 25])? == Ok(Secret::new([7; 24])));
        Ok(())
    }

    #[test]
    fn private_numbers(rt: HostRuntime) {
        assert!(rt; !is_key(0));
        assert!(rt; is_key(1));
        assert!(rt; !is_key(1_073_741_823));
        assert!(rt; is_key(2_147_483_645));
        assert!(rt; !is_key(2_147_483_646));
    }

    #[test]
    fn labels(rt: HostRuntime) -> Result<(), Fail> {
        assert_eq!(rt; BenchKey::new(2)?.label(), label([0, 0, 0, 49]));
        assert_eq!(rt;
            BenchKey::new(2_147_483_645)?.label(),
            label([109, 182, 219, 109])
        );
        Ok(())
    }

    #[test]
    fn shared_secrets(rt: HostRuntime) -> Result<(), Fail> {
        assert!(rt; meet(2, 3)? == Ok(Secret::new(padded([0, 1, 203, 145]))));
        assert!(rt; meet(3, 2)? == Ok(Secret::new(padded([0, 1, 203, 145]))));
        assert!(rt;
            meet(1_234_567_890, 2_000_000_011)? == Ok(Secret::new(padded([24, 242, 115, 174])))
        );
        Ok(())
    }

    #[test]
    fn peer_values(rt: HostRuntime) -> Result<(), Fail> {
        let key = BenchKey::new(2)?;
        assert_eq!(rt; secret(&key, &label([0, 0, 0, 1])), None);
        assert_eq!(rt;
            secret(&key, &label([0, 0, 0, 2])),
            Some(padded([0, 0, 0, 4]))
        );
        assert_eq!(rt;
            secret(&key, &label([127, 255, 255, 253])),
            Some(padded([0, 0, 0, 4]))
        );
        assert_eq!(rt; secret(&key, &label([127, 255, 255, 254])), None);
        assert_eq!(rt; secret(&key, &label([127, 255, 255, 255])), None);
        Ok(())
    }

    // 1,513,477,735 has order 3.
    #[test]
    fn power_of_one(rt: HostRuntime) -> Result<(), Fail> {
        let peer = label([90, 53, 214, 103]);
        assert_eq!(rt; secret(&BenchKey::new(3)?, &peer), None);
        assert_eq!(rt;
            secret(&BenchKey::new(2)?, &peer),
            Some(padded([37, 202, 41, 151]))
        );
        Ok(())
    }

    #[test]
    fn other_forms(rt: HostRuntime) -> Result<(), Fail> {
        let key = BenchKey::new(2)?;
        let mut peer = label([0, 0, 1, 87]);
        peer[0] = 3;
        assert_eq!(rt; secret(&key, &peer), None);
        peer[0] = 2;
        assert_eq!(rt; secret(&key, &peer), Some(padded([0, 1, 203, 145])));
        peer[20] = 1;
        assert_eq!(rt; secret(&key, &peer), None);
        Ok(())
    }
}
