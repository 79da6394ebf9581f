//! The number of a packet.
ghost use Rattle.std.specs.Prelude.{◌≡◌, ◌≤◌, MatchResult};

/// The number of the last packet.
pub const LAST_NUMBER: u32 = 16_777_215;

/// The number of a packet: at most 16,777,215, so that it fits its three octets.
#[derive(Clone, Copy)]
pub struct PacketNumber {
    value: u32,
    ghost fits: { value ≤ 16777215 },
}

/// A number over 16,777,215.
#[derive(Clone, Copy, PartialEq, Eq, Debug)]
pub struct OverLast(pub u32);

/// The packet number of a value, unless it is over 16,777,215.
impl TryFrom<u32> for PacketNumber {
    type Error = OverLast;

    ghost try_from_gives = { λ v r. MatchResult r (λ n. n.value ≡ v) (λ e. (16777216 ≤ v) × (e.0 ≡ v)) };

    fn try_from(value: u32) -> Result<PacketNumber, OverLast> {
        if value <= LAST_NUMBER {
            Ok(PacketNumber { value })
        } else {
            Err(OverLast(value))
        }
    }
}

/// The value of a packet number.
impl From<PacketNumber> for u32 {
    ghost from_gives = { λ n v. v ≡ n.value };

    fn from(number: PacketNumber) -> u32 {
        number.value
    }
}
