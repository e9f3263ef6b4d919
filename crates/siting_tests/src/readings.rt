//! Reading stored heights, and lines.
use crate::talk::line_of;
use console::line::Line;
use console::session::choose;
use heights::float::FloatBits;
use heights::height::{Height, HeightKind, Unread};

// Reads a float height: an error has the number of its cause.
fn fault(bytes: &[u8]) -> Result<(), Unread<u8>> {
    match <FloatBits as HeightKind>::read(bytes) {
        Ok(_) => Ok(()),
        Err(Unread::Length) => Err(Unread::Length),
        Err(Unread::Cause(cause)) => Err(Unread::Cause(cause.number())),
    }
}

// Two bytes are a whole number of metres, the most significant first; any other number of bytes is none.
#[test]
fn whole_metres(rt: HostRuntime) {
    assert_eq!(rt; <i16 as HeightKind>::stored_width(), 2);
    assert!(rt; matches!(<i16 as HeightKind>::read(&[0x80, 0x00]), Ok(-32768)));
    assert!(rt; matches!(<i16 as HeightKind>::read(&[0xFF, 0xFF]), Ok(-1)));
    assert!(rt; matches!(<i16 as HeightKind>::read(&[0x01, 0x02]), Ok(258)));
    assert!(rt; matches!(<i16 as HeightKind>::read(&[0x01]), Err(Unread::Length)));
    assert!(rt;
        matches!(
            <i16 as HeightKind>::read(&[0x01, 0x02, 0x03]),
            Err(Unread::Length)
        )
    );
    assert!(rt; matches!(<i16 as HeightKind>::read(&[]), Err(Unread::Length)));
}

// Infinities and NaNs do not read, with their causes; the largest finite numbers do.
#[test]
fn float_causes(rt: HostRuntime) {
    assert_eq!(rt; <FloatBits as HeightKind>::stored_width(), 4);
    assert_eq!(rt; fault(&[0x7F, 0x80, 0, 0]), Err(Unread::Cause(1)));
    assert_eq!(rt; fault(&[0xFF, 0x80, 0, 0]), Err(Unread::Cause(1)));
    assert_eq!(rt; fault(&[0x7F, 0x80, 0, 1]), Err(Unread::Cause(2)));
    assert_eq!(rt; fault(&[0xFF, 0xC0, 0, 0]), Err(Unread::Cause(2)));
    assert_eq!(rt; fault(&[0x7F, 0x7F, 0xFF, 0xFF]), Ok(()));
    assert_eq!(rt; fault(&[0xFF, 0x7F, 0xFF, 0xFF]), Ok(()));
    assert_eq!(rt; fault(&[0, 0, 0]), Err(Unread::Length));
    assert_eq!(rt; fault(&[0, 0, 0, 0, 0]), Err(Unread::Length));
}

// The order of float patterns goes by their keys, for any 32 bits.
#[test]
fn float_order(rt: HostRuntime) {
    let plus = FloatBits { bits: 0 };
    let minus = FloatBits { bits: 0x8000_0000 };
    let below = FloatBits { bits: 0xBF80_0000 };
    let deeper = FloatBits { bits: 0xC000_0000 };
    assert!(rt; plus.is_not_higher(minus) && minus.is_not_higher(plus));
    assert!(rt; below.is_not_higher(minus) && !minus.is_not_higher(below));
    assert!(rt; deeper.is_not_higher(below) && !below.is_not_higher(deeper));
    assert!(rt; deeper.is_not_higher(FloatBits { bits: 0x7FC0_0000 }));
    assert_eq!(rt; deeper.rank(), -0x4000_0000);
}

// A line of 9,000 bytes is a line; one byte more is too much, until the next line begins.
#[test]
fn longest_line(rt: HostRuntime) {
    let mut line = Line::new();
    for _ in 0..9000 {
        line.add(b'S');
    }
    assert!(rt; line.text().is_some());
    line.add(b'S');
    assert!(rt; line.text().is_none());
    line.add(b'S');
    assert!(rt; line.text().is_none());
    line.clear();
    line.add(b'S');
    assert!(rt; line.text().is_some());
}

// Whether a line chooses a kind and a counter.
fn chooses(text: &str) -> bool {
    choose(&line_of(text)).is_some()
}

// Only K with a kind and a counter chooses them.
#[test]
fn first_line(rt: HostRuntime) {
    assert!(rt; chooses("K W A") && chooses("K F A") && chooses("K W L") && chooses("K F L"));
    assert!(rt; !chooses("K L W") && !chooses("K W") && !chooses("K  W A") && !chooses("K W A "));
    assert!(rt; !chooses("") && !chooses("S") && !chooses("O 1 1 1 0001") && !chooses("k W A"));
}
