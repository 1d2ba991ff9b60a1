// Brick folders, their files byte for byte. What is wanted is worked out by hand from the layout.
ghost use Rattle.std.specs.Prelude.{◌≡◌};

use crate::folder_store::FolderStore;
use ec_attr::{Attr, Child, Config, Dirty, Geometry, Gfid, Head, Kind, Name, NameList, Version};
use ec_field::Chunk;
use ec_store::{BrickStore, StoreFault};
use std::fs;
use std::test::Fail;

const HEAD: &str = "brick/heads/00000000-0000-0000-0000-000000000002";

const FRAGMENT: &str = "brick/fragments/00000000-0000-0000-0000-000000000002";

const NAMES: &str = "brick/names/00000000-0000-0000-0000-000000000002";

const OLD_LINES: &str =
    "kind file\ntrusted.ec.config 0000080602000200\ntrusted.ec.version 00000000000000010000000000000000\ntrusted.ec.size 0000000000000800\ntrusted.ec.dirty 00000000000000010000000000000000\n";

/// The head of a file of 2048 bytes of a 4+2 volume.
fn head_of(attr: Attr) -> Head
    ensures { result.size ≡ 2048 }
{
    Head {
        kind: Kind::File,
        config: Config {
            geometry: geometry(),
        },
        version: Version {
            content: 1,
            meta: 0,
        },
        size: 2048,
        dirty: Dirty {
            content: 1,
            meta: 0,
        },
        attr,
    }
}

/// Four bricks and two more.
fn geometry() -> Geometry {
    Geometry {
        n: 6,
        r: 2,
        algorithm: 0,
    }
}

/// The brick in an empty folder.
fn fresh(rt: &HostRuntime) -> Result<FolderStore<&HostRuntime>, Fail> {
    fs::create_dir(rt, "brick")?;
    Ok(FolderStore::open(rt, "brick")?)
}

/// The head of 2 where its file has this text.
fn read_back(rt: &HostRuntime, text: &str) -> Result<Result<Option<Head>, StoreFault>, Fail> {
    fs::write(rt, HEAD, text)?;
    let mut store = FolderStore::open(rt, "brick")?;
    Ok(store.head(Gfid(2)))
}

#[test]
fn keeps_a_file(rt: HostRuntime) -> Result<(), Fail> {
    let head = head_of(Attr {
        mode: 420,
        owner: 0,
        group: 0,
    });
    let mut store = fresh(&rt)?;
    assert!(rt; store.head(Gfid(2)) == Ok(None));
    assert!(rt; store.put_head(Gfid(2), &head) == Ok(()));
    assert!(rt; store.write_part(Gfid(2), 510, b"abc") == Ok(()));
    assert!(rt; store.faults() == 0);
    let text = fs::read_to_string(&rt, HEAD)?;
    assert!(rt; text.as_str().strip_prefix(OLD_LINES) == Some("attr 420 0 0\n"));
    assert!(rt; fs::read(&rt, FRAGMENT)?.len() == 513);
    let mut again = FolderStore::open(&rt, "brick")?;
    assert!(rt; again.head(Gfid(2)) == Ok(Some(head)));
    let mut chunk = Chunk::zero();
    assert!(rt; again.read_chunk(Gfid(2), 0, &mut chunk) == Ok(()));
    assert!(rt; &chunk.bytes()[509..] == [0u8, b'a', b'b'].as_slice());
    assert!(rt; again.read_chunk(Gfid(2), 1, &mut chunk) == Ok(()));
    assert!(rt; &chunk.bytes()[..2] == [b'c', 0u8].as_slice());
    assert!(rt; again.set_length(Gfid(2), 0, 2) == Ok(()));
    assert!(rt; fs::read(&rt, FRAGMENT)?.len() == 1024);
    assert!(rt; again.read_chunk(Gfid(2), 0, &mut chunk) == Ok(()));
    assert!(rt; chunk == Chunk::zero());
    assert!(rt; again.heads_after(None) == Ok(Some(Gfid(2))));
    assert!(rt; again.heads_after(Some(Gfid(2))) == Ok(None));
    assert!(rt; again.remove(Gfid(2)) == Ok(()));
    assert!(rt; again.head(Gfid(2)) == Ok(None));
    assert!(rt; !fs::exists(&rt, FRAGMENT)?);
    fs::write(&rt, FRAGMENT, "left")?;
    fs::write(&rt, NAMES, "left")?;
    assert!(rt; again.put_head(Gfid(2), &head) == Ok(()));
    assert!(rt; !fs::exists(&rt, FRAGMENT)?);
    assert!(rt; !fs::exists(&rt, NAMES)?);
    assert!(rt; again.faults() == 0);
    fs::remove_dir_all(&rt, "brick")?;
    Ok(())
}

#[test]
fn keeps_names(rt: HostRuntime) -> Result<(), Fail> {
    let child = Child {
        kind: Kind::Dir,
        gfid: Gfid(255),
    };
    let mut store = fresh(&rt)?;
    let b = Name::new(rt.alloc(), b"b")?;
    let ab = Name::new(rt.alloc(), b"ab")?;
    assert!(rt; store.set_name(Gfid(2), &b, Some(child)) == Ok(()));
    assert!(rt; store.set_name(Gfid(2), &ab, Some(child)) == Ok(()));
    assert_eq!(rt;
        fs::read_to_string(&rt, NAMES)?.as_str(),
        "6162 dir 00000000-0000-0000-0000-0000000000ff\n62 dir 00000000-0000-0000-0000-0000000000ff\n"
    );
    let mut again = FolderStore::open(&rt, "brick")?;
    assert!(rt; again.name(Gfid(2), &b) == Ok(Some(child)));
    match again.names_after(Gfid(2), Some(&ab)) {
        Ok(list) => assert!(rt; list.len() == 1),
        Err(_) => assert!(rt; false),
    }
    assert!(rt; again.put_names(Gfid(2), Some(&ab), None, &NameList::new(rt.alloc())) == Ok(()));
    assert!(rt; again.name(Gfid(2), &b) == Ok(None));
    assert!(rt; again.set_name(Gfid(2), &ab, None) == Ok(()));
    assert!(rt; fs::read(&rt, NAMES)?.is_empty());
    fs::write(
        &rt,
        NAMES,
        "62 dir 00000000-0000-0000-0000-0000000000ff\n6162 dir 00000000-0000-0000-0000-0000000000ff\n",
    )?;
    assert!(rt; again.name(Gfid(2), &b) == Err(StoreFault::Failed));
    assert!(rt; again.faults() == 1);
    fs::remove_dir_all(&rt, "brick")?;
    Ok(())
}

#[test]
fn reads_heads_strictly(rt: HostRuntime) -> Result<(), Fail> {
    let _store = fresh(&rt)?;
    assert!(rt; read_back(&rt, OLD_LINES)? == Ok(Some(head_of(Attr::of_new(Kind::File)))));
    let six = format!(in rt.alloc(); "{OLD_LINES}attr 4095 7 4294967295\n")?;
    let attr = Attr {
        mode: 4095,
        owner: 7,
        group: 4294967295,
    };
    assert!(rt; read_back(&rt, six.as_str())? == Ok(Some(head_of(attr))));
    for tail in [
        "attr 4096 0 0\n",
        "attr 420 0 0",
        "attr 0420 0 0\n",
        "attr 420 0 +0\n",
        "attr 420 0\n",
        "attr 420 0 0\n\n",
        "attr 420 0 0\nmore\n",
        "attr  420 0 0\n",
        "\n",
        "attr 420 0 4294967296\n",
    ] {
        let text = format!(in rt.alloc(); "{OLD_LINES}{tail}")?;
        assert!(rt; read_back(&rt, text.as_str())? == Err(StoreFault::Failed));
    }
    for text in [
        "",
        "kind file\n",
        "kind file\ntrusted.ec.config 0000080602000200\ntrusted.ec.version 00000000000000010000000000000000\ntrusted.ec.size 0000000000000800\ntrusted.ec.dirty 00000000000000010000000000000000",
        "kind file\ntrusted.ec.config 0000080602000200\ntrusted.ec.version 00000000000000010000000000000000\ntrusted.ec.size 0000000000000A00\ntrusted.ec.dirty 00000000000000010000000000000000\n",
        "kind file\ntrusted.ec.config 0000080602000200\ntrusted.ec.version 00000000000000010000000000000000\ntrusted.ec.size 0000010000000001\ntrusted.ec.dirty 00000000000000010000000000000000\n",
        "kind file\ntrusted.ec.config 0000080602000300\ntrusted.ec.version 00000000000000010000000000000000\ntrusted.ec.size 0000000000000800\ntrusted.ec.dirty 00000000000000010000000000000000\n",
        "kind link\ntrusted.ec.config 0000080602000200\ntrusted.ec.version 00000000000000010000000000000000\ntrusted.ec.size 0000000000000800\ntrusted.ec.dirty 00000000000000010000000000000000\n",
        "kind file\ntrusted.ec.config 0000080602000200\ntrusted.ec.size 0000000000000800\ntrusted.ec.version 00000000000000010000000000000000\ntrusted.ec.dirty 00000000000000010000000000000000\n",
    ] {
        assert!(rt; read_back(&rt, text)? == Err(StoreFault::Failed));
    }
    fs::remove_dir_all(&rt, "brick")?;
    Ok(())
}

#[test]
fn fails_where_files_are_strange(rt: HostRuntime) -> Result<(), Fail> {
    let mut nowhere = FolderStore::open(&rt, "brick")?;
    assert!(rt; nowhere.head(Gfid(2)) == Err(StoreFault::Failed));
    assert!(rt; nowhere.faults() == 1);
    let mut store = fresh(&rt)?;
    fs::create_dir(&rt, HEAD)?;
    assert!(rt; store.head(Gfid(2)) == Err(StoreFault::Failed));
    assert!(rt; store.remove(Gfid(2)) == Err(StoreFault::Failed));
    fs::remove_dir(&rt, HEAD)?;
    fs::create_dir(&rt, FRAGMENT)?;
    let mut chunk = Chunk::zero();
    assert!(rt; store.read_chunk(Gfid(2), 0, &mut chunk) == Err(StoreFault::Failed));
    assert!(rt; store.write_part(Gfid(2), 0, b"a") == Err(StoreFault::Failed));
    assert!(rt; store.faults() == 4);
    fs::write(&rt, "brick/more", "")?;
    fs::write(&rt, "brick/heads/half.new", "")?;
    fs::write(&rt, "brick/heads/00000000-0000-0000-0000-00000000000a", "")?;
    assert!(rt; store.heads_after(None) == Ok(Some(Gfid(10))));
    fs::write(&rt, "brick/heads/00000000-0000-0000-0000-00000000000B", "")?;
    assert!(rt; store.heads_after(None) == Err(StoreFault::Failed));
    fs::remove_dir_all(&rt, "brick")?;
    fs::create_dir(&rt, "brick")?;
    fs::write(&rt, "brick/names", "")?;
    let mut damaged = FolderStore::open(&rt, "brick")?;
    assert!(rt; damaged.head(Gfid(2)) == Err(StoreFault::Failed));
    fs::remove_dir_all(&rt, "brick")?;
    Ok(())
}
