//! Lines that are read where memory suffices.
use super::*;

#[test]
fn reads_octets(rt: HostRuntime) {
    let read = octets(rt.alloc(), b"00ff7A");
    assert!(rt; matches!(&read, Ok(read) if read.as_slice() == [0, 255, 122].as_slice()));
    let none = octets(rt.alloc(), b"0g");
    assert!(rt; matches!(&none, Err(Stop::Unreadable(Problem::Octets))));
}

#[test]
fn reads_fixed_octets(rt: HostRuntime) {
    let read = fixed::<2>(rt.alloc(), b"0102");
    assert!(rt; matches!(&read, Ok(read) if *read == [1, 2]));
    let longer = fixed::<2>(rt.alloc(), b"010203");
    assert!(rt; matches!(&longer, Err(Stop::Unreadable(Problem::Length))));
}

#[test]
fn takes_the_lines_of_a_packet(rt: HostRuntime) {
    let mut session = Session::new(rt.alloc(), Suite::Speck);
    for line in [
        "payload 1845063987 e4",
        "ENC 0501",
        "counter 0000000000000000000000000000000a",
    ] {
        let taken = match parse_line(rt.alloc(), line.as_bytes()) {
            Ok(Some(line)) => session.take(line).is_ok(),
            _ => false,
        };
        assert!(rt; taken, "{line}");
    }
    assert_eq!(rt; session.packets.len(), 1);
    if let Some(packet) = session.packets.last() {
        assert_eq!(rt; packet.number, 1845063987);
        assert_eq!(rt; packet.payload.len(), 1);
        assert_eq!(rt; packet.counter, Some(10));
    }
}
