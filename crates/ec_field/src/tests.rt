use super::*;
use std::num::NonZeroU8;

/// Products by the polynomial 0x11D, worked by hand.
#[test]
fn multiplies_modulo_0x11d(rt: HostRuntime) {
    for (a, b, product) in [
        (0x02, 0x80, 0x1D),
        (0x02, 0xFF, 0xE3),
        (0x03, 0xFF, 0x1C),
        (0x04, 0x80, 0x3A),
    ] {
        assert_eq!(rt; mul(a, b), product, "{a} times {b}");
    }
    assert_eq!(rt; add(0xE3, 0xFF), 0x1C);
    assert_eq!(rt; pow(2, 9), 0x3A);
    assert_eq!(rt; pow(0, 0), 1);
}

#[test]
fn inverts(rt: HostRuntime) {
    let three = NonZeroU8::new(3).expect(&rt, "3 isn't 0");
    assert_eq!(rt; mul(3, inv(three).get()), 1);
    field_laws();
}

/// Element 9 has bit 1 of byte 1 of each plane.
#[test]
fn reads_elements(rt: HostRuntime) {
    assert_eq!(rt; element(&Chunk::zero(), 511), 0);
    let mut bytes = [0u8; 512];
    bytes[1] = 2;
    bytes[449] = 2;
    let chunk = Chunk::from_array(bytes);
    assert_eq!(rt; element(&chunk, 9), 0x81);
    assert_eq!(rt; element(&chunk, 8), 0);
    assert_eq!(rt; chunk.bytes().len(), 512);
}

/// Element 9 has its bits in bytes 1, 65, .., 449, and element 511 in bytes 63, 127, .., 511.
#[test]
fn builds_from_elements(rt: HostRuntime) {
    let mut elements = [0u8; 512];
    elements[9] = 0x81;
    elements[511] = 0x40;
    let mut bytes = [0u8; 512];
    bytes[1] = 0x02;
    bytes[449] = 0x02;
    bytes[447] = 0x80;
    assert_eq!(rt; Chunk::from_elements(&elements), Chunk::from_array(bytes));
}

#[test]
fn adds_chunks(rt: HostRuntime) {
    let mut ours = [0u8; 512];
    let mut theirs = [0u8; 512];
    let mut sum = [0u8; 512];
    for (place, a, b, both) in [
        (0usize, 0x0F, 0x35, 0x3A),
        (511, 0xFF, 0x01, 0xFE),
        (64, 0xA5, 0, 0xA5),
    ] {
        ours[place] = a;
        theirs[place] = b;
        sum[place] = both;
    }
    let added = Chunk::from_array(ours).plus(&Chunk::from_array(theirs));
    assert_eq!(rt; added, Chunk::from_array(sum));
    assert_eq!(rt; added.plus(&added), Chunk::zero());
}
