// What no clause says: that calls succeed, the texts, and the tables of values and faults.
use super::{
    Attr, AttrFault, BadGeometry, BadName, Blob, BrickSet, Child, Config, Dirty, Geometry, Gfid,
    Head, Kind, Name, NameList, Version, gfid_text, hex_text, is_marked, marked, same_head,
    size_from_bytes, size_to_bytes, stripped,
};
use std::alloc::Global;
use std::test::Fail;

/// Geometries at the edges, each with whether there is such a one.
const EDGES: [(u32, u32, bool); 14] = [
    (3, 1, true),
    (2, 1, false),
    (3, 0, false),
    (4, 2, false),
    (5, 2, true),
    (6, 2, true),
    (17, 1, true),
    (18, 1, false),
    (31, 15, true),
    (32, 15, false),
    (32, 16, false),
    (31, 14, false),
    (0, 4294967295, false),
    (4294967295, 4294967295, false),
];

#[test]
fn geometries_at_the_edges(rt: HostRuntime) {
    for (n, r, fits) in EDGES {
        match Geometry::new(n, r) {
            Ok(g) => {
                assert!(rt; fits);
                assert_eq!(rt; u32::from(g.k()) + r, n);
                assert_eq!(rt; g.algorithm, 0);
                assert_eq!(rt; g.systematic().algorithm, 1);
            }
            Err(e) => {
                assert!(rt; !fits);
                assert_eq!(rt; e, BadGeometry { n, r });
            }
        }
    }
}

#[test]
fn a_set_is_walked_in_rising_order(rt: HostRuntime) {
    let set = BrickSet::empty()
        .plus(30)
        .plus(4)
        .plus(0)
        .plus(4)
        .plus(9)
        .minus(9);
    assert_eq!(rt; set.len(), 3);
    assert_eq!(rt; set.next_from(0), Some(0));
    assert_eq!(rt; set.next_from(1), Some(4));
    assert_eq!(rt; set.next_from(5), Some(30));
    assert_eq!(rt; set.next_from(31), None);
    assert!(rt; set.has(4) && !set.has(9));
}

#[test]
fn bytes_are_kept(rt: HostRuntime) -> Result<(), Fail> {
    let mut blob = Blob::new(rt.alloc());
    blob.push(7)?;
    blob.extend(&[8, 9])?;
    let copy = blob.copy()?;
    assert_eq!(rt; copy.items(), [7, 8, 9].as_slice());
    assert_eq!(rt; copy.len(), 3);
    Ok(())
}

/// Bytes that are no config, each with its first fault. The last four have a fault in every later field too.
const HOSTILE: [(&[u8], AttrFault); 16] = [
    (&[], AttrFault::BadLength(0)),
    (&[0, 0, 8, 6, 2, 0, 2], AttrFault::BadLength(7)),
    (&[0, 0, 8, 6, 2, 0, 2, 0, 0], AttrFault::BadLength(9)),
    (&[1, 0, 8, 6, 2, 0, 2, 0], AttrFault::BadVersion(1)),
    (&[0, 2, 8, 6, 2, 0, 2, 0], AttrFault::BadAlgorithm(2)),
    (&[0, 0, 7, 6, 2, 0, 2, 0], AttrFault::BadWord(7)),
    (
        &[0, 0, 8, 6, 0, 0, 2, 0],
        AttrFault::BadGeometry { n: 6, r: 0 },
    ),
    (
        &[0, 1, 8, 4, 2, 0, 2, 0],
        AttrFault::BadGeometry { n: 4, r: 2 },
    ),
    (
        &[0, 0, 8, 2, 6, 0, 2, 0],
        AttrFault::BadGeometry { n: 2, r: 6 },
    ),
    (
        &[0, 0, 8, 255, 100, 0, 2, 0],
        AttrFault::BadGeometry { n: 255, r: 100 },
    ),
    (&[0, 0, 8, 6, 2, 0, 4, 0], AttrFault::BadChunk(1024)),
    (&[0, 0, 8, 6, 2, 2, 0, 0], AttrFault::BadChunk(131072)),
    (&[255, 255, 255, 0, 0, 0, 0, 0], AttrFault::BadVersion(255)),
    (&[0, 255, 255, 0, 0, 0, 0, 0], AttrFault::BadAlgorithm(255)),
    (&[0, 1, 255, 0, 0, 0, 0, 0], AttrFault::BadWord(255)),
    (
        &[0, 1, 8, 0, 0, 0, 0, 0],
        AttrFault::BadGeometry { n: 0, r: 0 },
    ),
];

/// Whether these bytes are refused as a config with this fault.
fn is_refused(bytes: &[u8], fault: AttrFault) -> bool {
    match Config::from_bytes(bytes) {
        Ok(_) => false,
        Err(f) => f == fault,
    }
}

#[test]
fn configs_are_bytes_and_back(rt: HostRuntime) -> Result<(), Fail> {
    let six = Geometry::new(6, 2).ok().ok_or("refused")?;
    let three = Geometry::new(3, 1).ok().ok_or("refused")?;
    for (geometry, text) in [
        (six, "0000080602000200"),
        (three, "0000080301000200"),
        (three.systematic(), "0001080301000200"),
    ] {
        let config = Config { geometry };
        let bytes = config.to_bytes();
        assert_eq!(rt; hex_text(rt.alloc(), &bytes)?.as_str(), text);
        let read = Config::from_bytes(&bytes).ok().ok_or("refused")?;
        assert!(rt; read == config);
    }
    Ok(())
}

#[test]
fn hostile_configs_are_refused(rt: HostRuntime) {
    for (bytes, fault) in HOSTILE {
        assert!(rt; is_refused(bytes, fault));
    }
}

#[test]
fn numbers_are_bytes_and_back(rt: HostRuntime) -> Result<(), Fail> {
    let version = Version {
        content: 1,
        meta: 18446744073709551615,
    };
    let bytes = version.to_bytes();
    assert_eq!(rt;
        hex_text(rt.alloc(), &bytes)?.as_str(),
        "0000000000000001ffffffffffffffff"
    );
    assert!(rt; Version::from_bytes(&bytes) == Ok(version));
    assert!(rt; Version::from_bytes(&bytes[1..]) == Err(AttrFault::BadLength(15)));
    let dirty = Dirty {
        content: 4611686018427387904,
        meta: 0,
    };
    assert!(rt; Dirty::from_bytes(&dirty.to_bytes()) == Ok(dirty));
    assert!(rt; Dirty::from_bytes(&[0; 17]) == Err(AttrFault::BadLength(17)));
    let size = size_to_bytes(2048);
    assert_eq!(rt; hex_text(rt.alloc(), &size)?.as_str(), "0000000000000800");
    assert!(rt; size_from_bytes(&size) == Ok(2048));
    assert!(rt; size_from_bytes(&bytes) == Err(AttrFault::BadLength(16)));
    Ok(())
}

#[test]
fn a_mark_is_bit_62(rt: HostRuntime) {
    assert_eq!(rt; marked(7), 4611686018427387911);
    assert_eq!(rt; marked(4611686018427387911), 4611686018427387911);
    assert_eq!(rt; stripped(4611686018427387911), 7);
    assert_eq!(rt; stripped(9223372036854775808), 9223372036854775808);
    assert!(rt; is_marked(4611686018427387904) && !is_marked(2305843009213693952));
}

/// Why these bytes are no name, or `None` where they are one.
fn refusal(alloc: Global, bytes: &[u8]) -> Option<BadName> {
    match Name::new(alloc, bytes) {
        Ok(_) => None,
        Err(why) => Some(why),
    }
}

#[test]
fn names_at_their_edges(rt: HostRuntime) {
    let names: [&[u8]; 7] = [b"a", b"...", b"..a", b".a", b"\x01", b"\xff ", &[b'n'; 255]];
    for bytes in names {
        assert!(rt; refusal(rt.alloc(), bytes) == None);
    }
    let others: [&[u8]; 8] = [b"", b".", b"..", b"/", b"a/b", b"a\0", b"\0", &[b'n'; 256]];
    for bytes in others {
        assert!(rt; refusal(rt.alloc(), bytes) == Some(BadName::NotAName));
    }
}

#[test]
fn names_are_ordered_and_listed(rt: HostRuntime) -> Result<(), Fail> {
    let short = Name::new(rt.alloc(), b"ab").ok().ok_or("refused")?;
    let long = Name::new(rt.alloc(), b"ab0").ok().ok_or("refused")?;
    let high = Name::new(rt.alloc(), b"b").ok().ok_or("refused")?;
    assert!(rt; short < long && long < high && short == short.copy()?);
    let child = Child {
        kind: Kind::Dir,
        gfid: Gfid(9),
    };
    let mut list = NameList::new(rt.alloc());
    list.push((short, child))?;
    list.push((high, child))?;
    let copy = list.copy()?;
    assert_eq!(rt; copy.len(), 2);
    let items = copy.items();
    assert!(rt; items[1].0.bytes() == b"b".as_slice() && items[1].1 == child);
    Ok(())
}

#[test]
fn heads_and_their_texts(rt: HostRuntime) -> Result<(), Fail> {
    let text = gfid_text(rt.alloc(), Gfid(1))?;
    assert_eq!(rt; text.as_str(), "00000000-0000-0000-0000-000000000001");
    let text = gfid_text(rt.alloc(), Gfid(0x67e5504410b1426f9247bb680e5fe0c8))?;
    assert_eq!(rt; text.as_str(), "67e55044-10b1-426f-9247-bb680e5fe0c8");
    assert!(rt; Attr::new(4096, 0, 0).is_none());
    let attr = Attr::new(4095, 7, 8).ok_or("refused")?;
    let geometry = Geometry::new(3, 1).ok().ok_or("refused")?;
    let head = Head {
        kind: Kind::File,
        config: Config { geometry },
        version: Version {
            content: 0,
            meta: 0,
        },
        size: 0,
        dirty: Dirty {
            content: 1,
            meta: 0,
        },
        attr: Attr::of_new(Kind::File),
    };
    let other = Head { attr, ..head };
    assert!(rt; same_head(&head, &head) && !same_head(&head, &other));
    assert_eq!(rt; head.attr.mode, 420);
    assert_eq!(rt; Attr::of_new(Kind::Dir).mode, 493);
    Ok(())
}
