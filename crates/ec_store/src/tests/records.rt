use crate::tests::{head_of, name_of};
use crate::{BrickStore, MemStore, StoreFault};
use ec_attr::{Child, Gfid, Kind, NameList};
use ec_field::Chunk;
use std::test::Fail;

const FILE: Gfid = Gfid(2);

const FOLDER: Gfid = Gfid(1);

/// The byte at a place of a chunk of a file.
fn byte_at(store: &mut MemStore, chunk: u64, place: usize) -> Result<Option<u8>, StoreFault> {
    let mut bytes = Chunk::zero();
    store.read_chunk(FILE, chunk, &mut bytes)?;
    Ok(bytes.bytes().get(place).copied())
}

/// Bytes across a border of chunks after a gap; then the tail is cut off, and the file made longer again.
#[test]
fn a_store_keeps_a_file(rt: HostRuntime) -> Result<(), Fail> {
    let mut store = MemStore::steady(rt.alloc());
    let head = head_of(&rt, Kind::File);
    assert!(rt; store.put_head(FILE, &head).is_ok());
    assert!(rt; store.head(FILE) == Ok(Some(head)));
    assert!(rt; store.write_part(FILE, 1022, &[5, 6, 7, 8]).is_ok());
    for (chunk, place, byte) in [
        (0, 0, 0),
        (1, 509, 0),
        (1, 510, 5),
        (1, 511, 6),
        (2, 0, 7),
        (2, 1, 8),
        (2, 2, 0),
        (9, 0, 0),
    ] {
        assert_eq!(rt;
            byte_at(&mut store, chunk, place),
            Ok(Some(byte)),
            "chunk {chunk}"
        );
    }
    assert!(rt; store.set_length(FILE, 2, 4).is_ok());
    assert_eq!(rt; byte_at(&mut store, 1, 510), Ok(Some(5)));
    assert_eq!(rt; byte_at(&mut store, 2, 0), Ok(Some(0)));
    assert!(rt; store.remove(FILE).is_ok());
    assert!(rt; store.head(FILE) == Ok(None));
    Ok(())
}

/// Names go by their bytes: A, B, a, b. The range past A and not past a is replaced.
#[test]
fn a_store_keeps_names(rt: HostRuntime) -> Result<(), Fail> {
    let mut store = MemStore::steady(rt.alloc());
    let head = head_of(&rt, Kind::Dir);
    assert!(rt; store.put_head(FOLDER, &head).is_ok());
    let child = |number: u128| Child {
        kind: Kind::File,
        gfid: Gfid(number),
    };
    for (text, number) in [(b"b", 4), (b"A", 1), (b"a", 3), (b"B", 2)] {
        let name = name_of(&rt, text);
        assert!(rt; store.set_name(FOLDER, &name, Some(child(number))).is_ok());
    }
    let mut list = NameList::new(rt.alloc());
    list.push((name_of(&rt, b"Z"), child(9)))?;
    let after = name_of(&rt, b"A");
    let upto = name_of(&rt, b"a");
    assert!(rt;
        store
            .put_names(FOLDER, Some(&after), Some(&upto), &list)
            .is_ok()
    );
    assert!(rt; store.name(FOLDER, &upto) == Ok(None));
    assert!(rt; store.set_name(FOLDER, &upto, None).is_ok());
    match store.names_after(FOLDER, Some(&after)) {
        Ok(page) => {
            assert_eq!(rt; page.len(), 2);
            for ((name, found), (text, number)) in page.items().iter().zip([(b"Z", 9), (b"b", 4)]) {
                assert_eq!(rt; name.bytes(), text.as_slice());
                assert_eq!(rt; found.gfid, Gfid(number));
            }
        }
        Err(_) => assert!(rt; false),
    }
    Ok(())
}

#[test]
fn gfids_are_walked_in_rising_order(rt: HostRuntime) -> Result<(), Fail> {
    let mut store = MemStore::steady(rt.alloc());
    let head = head_of(&rt, Kind::File);
    for number in [9, 2, 40] {
        assert!(rt; store.put_head(Gfid(number), &head).is_ok());
    }
    for (after, next) in [
        (None, Some(Gfid(2))),
        (Some(Gfid(2)), Some(Gfid(9))),
        (Some(Gfid(3)), Some(Gfid(9))),
        (Some(Gfid(40)), None),
    ] {
        assert_eq!(rt; store.heads_after(after), Ok(next));
    }
    Ok(())
}
