use crate::tests::{head_of, name_of};
use crate::{BrickStore, FailList, MemStore, Method, StoreFault};
use ec_attr::{Gfid, Kind, NameList};
use ec_field::Chunk;
use std::process::Abort;
use std::test::Fail;

const METHODS: [Method; 11] = [
    Method::Head,
    Method::PutHead,
    Method::Remove,
    Method::ReadChunk,
    Method::WritePart,
    Method::SetLength,
    Method::Name,
    Method::SetName,
    Method::PutNames,
    Method::NamesAfter,
    Method::HeadsAfter,
];

fn has_failed<T: Drop>(answer: Result<T, StoreFault>) -> bool {
    matches!(answer, Err(StoreFault::Failed))
}

/// Calls a method, and says whether it failed.
fn fails(rt: &(impl Abort + AllocGlobal), store: &mut MemStore, method: Method) -> bool {
    let g = Gfid(3);
    let name = name_of(rt, b"n");
    match method {
        Method::Head => has_failed(store.head(g)),
        Method::PutHead => has_failed(store.put_head(g, &head_of(rt, Kind::File))),
        Method::Remove => has_failed(store.remove(g)),
        Method::ReadChunk => has_failed(store.read_chunk(g, 0, &mut Chunk::zero())),
        Method::WritePart => has_failed(store.write_part(g, 0, &[1])),
        Method::SetLength => has_failed(store.set_length(g, 0, 0)),
        Method::Name => has_failed(store.name(g, &name)),
        Method::SetName => has_failed(store.set_name(g, &name, None)),
        Method::PutNames => has_failed(store.put_names(g, None, None, &NameList::new(rt.alloc()))),
        Method::NamesAfter => has_failed(store.names_after(g, None)),
        Method::HeadsAfter => has_failed(store.heads_after(None)),
    }
}

/// Of 22 calls, two of each method in turn, the one that is named fails, or both of the method that is.
#[test]
fn a_store_fails_at_the_calls_of_its_list(rt: HostRuntime) -> Result<(), Fail> {
    for named in 0..23u64 {
        let mut list = FailList::new(rt.alloc());
        list.push(crate::Fail::Call(named))?;
        let mut store = MemStore::new(rt.alloc(), list);
        for call in 1..23u64 {
            let method = METHODS[((call - 1) % 11) as usize];
            assert_eq!(rt;
                fails(&rt, &mut store, method),
                call == named,
                "call {call}"
            );
        }
        assert_eq!(rt; (store.calls(), store.faults()), (22, u64::from(named > 0)));
    }
    for named in METHODS {
        let mut list = FailList::new(rt.alloc());
        list.push(crate::Fail::Each(named))?;
        let mut store = MemStore::new(rt.alloc(), list);
        for method in METHODS {
            assert_eq!(rt; fails(&rt, &mut store, method), method == named);
            assert_eq!(rt; fails(&rt, &mut store, method), method == named);
        }
        assert_eq!(rt; (store.calls(), store.faults()), (22, 2));
    }
    Ok(())
}

/// A write that fails leaves the bytes as they were.
#[test]
fn a_failed_write_writes_nothing(rt: HostRuntime) -> Result<(), Fail> {
    let mut list = FailList::new(rt.alloc());
    list.push(crate::Fail::Call(3))?;
    let mut store = MemStore::new(rt.alloc(), list);
    let head = head_of(&rt, Kind::File);
    assert!(rt; store.put_head(Gfid(3), &head).is_ok());
    assert!(rt; store.write_part(Gfid(3), 0, &[1, 2]).is_ok());
    assert_eq!(rt;
        store.write_part(Gfid(3), 0, &[8, 9]),
        Err(StoreFault::Failed)
    );
    let mut bytes = Chunk::zero();
    assert!(rt; store.read_chunk(Gfid(3), 0, &mut bytes).is_ok());
    assert_eq!(rt; &bytes.bytes()[..3], [1, 2, 0].as_slice());
    assert_eq!(rt; (store.calls(), store.faults()), (4, 1));
    Ok(())
}
