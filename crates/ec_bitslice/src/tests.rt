use crate::{dot, mul_const, muladd, pack, unpack};
use ec_field::{Chunk, element, mul};

/// A chunk whose elements differ.
fn mixed(seed: u8) -> Chunk {
    let mut elements = [0u8; 512];
    let mut x = seed;
    for e in elements.iter_mut() {
        x = x.wrapping_mul(109).wrapping_add(57);
        *e = x;
    }
    pack(&elements)
}

/// Products modulo 0x11D that were worked by hand.
#[test]
fn products_by_hand(rt: HostRuntime) {
    for (a, b, want) in [
        (2, 0x80, 0x1D),
        (2, 0xFF, 0xE3),
        (3, 0xFF, 0x1C),
        (4, 0x80, 0x3A),
    ] {
        let all = pack(&[b; 512]);
        let mut sum = Chunk::zero();
        muladd(a, &all, &mut sum);
        for e in [0u16, 7, 8, 127, 128, 255, 511] {
            assert_eq!(rt;
                element(&mul_const(a, &all), e),
                want,
                "{a} times {b} at {e}"
            );
            assert_eq!(rt; element(&sum, e), want, "{a} times {b} added at {e}");
            assert_eq!(rt;
                element(&dot(&[a], &[all]), e),
                want,
                "{a} times {b} alone at {e}"
            );
        }
    }
}

/// A sum of more chunks than share their doublings, against the product of the field at each element.
#[test]
fn sums_as_the_field(rt: HostRuntime) {
    let chunks = [mixed(1), mixed(2), mixed(3), mixed(4), mixed(5), mixed(6)];
    let coefficients = [0x53, 1, 0, 0xCA, 0xFF, 2];
    let sum = dot(&coefficients, &chunks);
    for e in 0..512u16 {
        let mut want = 0;
        for (a, c) in coefficients.iter().zip(chunks.iter()) {
            want ^= mul(*a, element(c, e));
        }
        assert_eq!(rt; element(&sum, e), want, "at {e}");
    }
}

/// Elements are packed and unpacked, and a bit lies where its plane says.
#[test]
fn packs_both_ways(rt: HostRuntime) {
    let mut elements = [0u8; 512];
    elements[9] = 0x81;
    let chunk = pack(&elements);
    let bytes = chunk.bytes();
    assert_eq!(rt; bytes.len(), 512);
    assert_eq!(rt; bytes[1], 2);
    assert_eq!(rt; bytes[449], 2);
    let mut out = [1u8; 512];
    unpack(&chunk, &mut out);
    assert!(rt; out == elements);
}
