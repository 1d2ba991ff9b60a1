// Every row of the table of requests, with each of its refusals in order.
ghost use Rattle.std.specs.Prelude.{◌≡◌, ◌≤◌, ◌^◌, IfOk, length, true};
ghost use Rattle.ec_attr.specs.Marks.{is_marked};
ghost use Rattle.ec_brick.specs.Fit.{IsFit};

use crate::records::{brick_of, head_of, put};
use ec_attr::{Child, Domain, Gfid, Head, Kind, LockKind, Name, NameList, marked};
use ec_brick::{Brick, Effects};
use ec_field::Chunk;
use ec_locks::Waiter;
use ec_store::{BrickStore, Fail as StoreFail, FailList, MemStore};
use ec_wire::{Body, ChunkList, Entry, Message, Reply, Request, entry_text};
use std::alloc::Global;
use std::process::Abort;
use std::test::Fail;

const MARKED: u64 = 4611686018427387907;

/// The request, the number of its grant, what there is (see `bench_of`), which call of the store fails (0 for none, 1
/// as the head is read, 2 in the work), the reply, the version that was read, and the two heads afterwards where they
/// changed.
type Row = (
    &'static str,
    u64,
    &'static str,
    u64,
    &'static str,
    Option<u64>,
    &'static str,
);

const READS: [Row; 23] = [
    ("query", 1, "---", 1, "nogrant 1", None, ""),
    ("query", 2, "hf-", 1, "nogrant 2", None, ""),
    ("query", 1, "s--", 1, "fault", None, ""),
    ("query", 1, "s--", 0, "noinode", None, ""),
    (
        "query",
        1,
        "sf-",
        0,
        "head file 0000080301000200 3 9 2 420 0 0",
        Some(3),
        "",
    ),
    ("readchunks", 1, "---", 1, "nogrant 1", None, ""),
    ("readchunks", 1, "s--", 1, "fault", None, ""),
    ("readchunks", 1, "s--", 0, "noinode", None, ""),
    ("readchunks", 1, "sd-", 2, "otherkind", Some(3), ""),
    ("readchunks", 1, "sf-", 2, "fault", Some(3), ""),
    ("readchunks", 1, "sf-", 0, "chunks 1", Some(3), ""),
    ("nameget", 1, "---", 1, "nogrant 1", None, ""),
    ("nameget", 1, "s--", 1, "fault", None, ""),
    ("nameget", 1, "s--", 0, "noinode", None, ""),
    ("nameget", 1, "sf-", 2, "otherkind", Some(3), ""),
    ("nameget", 1, "sd-", 2, "fault", Some(3), ""),
    ("nameget", 1, "xd-", 0, "child -", Some(3), ""),
    ("namesafter", 1, "---", 1, "nogrant 1", None, ""),
    ("namesafter", 1, "s--", 1, "fault", None, ""),
    ("namesafter", 1, "s--", 0, "noinode", None, ""),
    ("namesafter", 1, "sm-", 2, "otherkind", Some(MARKED), ""),
    ("namesafter", 1, "sd-", 2, "fault", Some(3), ""),
    ("namesafter", 1, "sd-", 0, "names 0", Some(3), ""),
];

const COMMITS: [Row; 19] = [
    ("preop", 1, "s--", 1, "nogrant 1", None, ""),
    ("preop", 1, "x--", 1, "fault", None, ""),
    ("preop", 1, "x--", 0, "noinode", None, ""),
    ("preop", 1, "xg-", 2, "notat 4", Some(4), ""),
    (
        "preop",
        1,
        "xm-",
        2,
        "notat 4611686018427387907",
        Some(MARKED),
        "",
    ),
    ("preop", 1, "xf-", 2, "fault", Some(3), ""),
    ("preop", 1, "xf-", 0, "done", Some(3), "file 3 9 7* none"),
    ("postop", 1, "s--", 1, "nogrant 1", None, ""),
    ("postop", 1, "x--", 1, "fault", None, ""),
    ("postop", 1, "x--", 0, "noinode", None, ""),
    ("postop", 1, "xg-", 2, "notat 4", Some(4), ""),
    ("postop", 1, "xf-", 2, "fault", Some(3), ""),
    ("postop", 1, "xf-", 0, "done", Some(3), "file 5 11 1* none"),
    ("clear", 1, "s--", 1, "nogrant 1", None, ""),
    ("clear", 1, "x--", 1, "fault", None, ""),
    ("clear", 1, "x--", 0, "noinode", None, ""),
    ("clear", 1, "xg-", 2, "notat 4", Some(4), ""),
    ("clear", 1, "xf-", 2, "fault", Some(3), ""),
    ("clear", 1, "xd-", 0, "done", Some(3), "dir 3 9 0 none"),
];

const CONTENTS: [Row; 31] = [
    ("writechunks", 1, "s--", 1, "nogrant 1", None, ""),
    ("writechunks", 1, "x--", 1, "fault", None, ""),
    ("writechunks", 1, "x--", 0, "noinode", None, ""),
    ("writechunks", 2, "hd-", 2, "nogrant 2", Some(3), ""),
    ("writechunks", 2, "hD-", 2, "otherkind", Some(MARKED), ""),
    ("writechunks", 1, "xd-", 2, "otherkind", Some(3), ""),
    ("writechunks", 1, "xf-", 2, "fault", Some(3), ""),
    ("writechunks", 1, "xf-", 0, "done", Some(3), ""),
    ("writechunks", 2, "hm-", 0, "done", Some(MARKED), ""),
    ("setlength", 1, "s--", 1, "nogrant 1", None, ""),
    ("setlength", 1, "x--", 1, "fault", None, ""),
    ("setlength", 1, "x--", 0, "noinode", None, ""),
    ("setlength", 2, "hf-", 2, "nogrant 2", Some(3), ""),
    ("setlength", 1, "xd-", 2, "otherkind", Some(3), ""),
    ("setlength", 1, "xf-", 2, "fault", Some(3), ""),
    ("setlength", 1, "xf-", 0, "done", Some(3), ""),
    ("setlength", 2, "hm-", 0, "done", Some(MARKED), ""),
    ("nameset", 1, "s--", 1, "nogrant 1", None, ""),
    ("nameset", 1, "x--", 1, "fault", None, ""),
    ("nameset", 1, "x--", 0, "noinode", None, ""),
    ("nameset", 1, "xf-", 2, "otherkind", Some(3), ""),
    ("nameset", 1, "xd-", 2, "fault", Some(3), ""),
    ("nameset", 1, "xd-", 0, "done", Some(3), ""),
    ("namesput", 2, "x--", 1, "nogrant 2", None, ""),
    ("namesput", 1, "xD-", 1, "nogrant 1", None, ""),
    ("namesput", 2, "h--", 1, "fault", None, ""),
    ("namesput", 2, "h--", 0, "noinode", None, ""),
    ("namesput", 2, "hf-", 2, "nogrant 2", Some(3), ""),
    ("namesput", 2, "hm-", 2, "otherkind", Some(MARKED), ""),
    ("namesput", 2, "hD-", 2, "fault", Some(MARKED), ""),
    ("namesput", 2, "hD-", 0, "done", Some(MARKED), ""),
];

const CHILDREN: [Row; 18] = [
    ("make", 1, "s-c", 1, "nogrant 1", None, ""),
    ("make", 1, "x-c", 1, "fault", None, ""),
    ("make", 1, "x-c", 2, "isinode", Some(8), ""),
    ("make", 1, "x-r", 2, "isinode", None, ""),
    ("make", 1, "x--", 2, "fault", None, ""),
    ("make", 1, "x--", 0, "done", None, "none file 0 0 1*"),
    ("made", 1, "s-n", 1, "nogrant 1", None, ""),
    ("made", 1, "x--", 1, "fault", None, ""),
    ("made", 1, "x-r", 2, "noinode", None, ""),
    ("made", 1, "x-c", 2, "notat 8", Some(8), ""),
    ("made", 1, "x-R", 2, "notat 0", Some(0), ""),
    ("made", 1, "x-n", 2, "fault", Some(0), ""),
    ("made", 1, "x-n", 0, "done", Some(0), "none file 0 9 0"),
    ("unmake", 1, "s-c", 1, "nogrant 1", None, ""),
    ("unmake", 1, "x--", 1, "fault", None, ""),
    ("unmake", 1, "x--", 0, "noinode", None, ""),
    ("unmake", 1, "x-c", 2, "fault", Some(8), ""),
    ("unmake", 1, "x-c", 0, "done", Some(8), "none none"),
];

const MARKS: [Row; 18] = [
    ("mark", 1, "h--", 1, "nogrant 1", None, ""),
    ("mark", 1, "x--", 1, "nogrant 2", None, ""),
    ("mark", 1, "b--", 1, "fault", None, ""),
    ("mark", 1, "bd-", 2, "otherkind", Some(3), ""),
    ("mark", 1, "bf-", 2, "isinode", Some(3), ""),
    ("mark", 1, "bg-", 2, "fault", Some(4), ""),
    ("mark", 1, "b--", 2, "fault", None, ""),
    (
        "mark",
        1,
        "bg-",
        0,
        "done",
        Some(4),
        "file 4611686018427387907 9 6* none",
    ),
    (
        "mark",
        1,
        "bm-",
        0,
        "done",
        Some(MARKED),
        "file 4611686018427387907 9 6* none",
    ),
    (
        "mark",
        1,
        "b--",
        0,
        "done",
        None,
        "file 4611686018427387907 9 6* none",
    ),
    ("unmark", 2, "x--", 1, "nogrant 2", None, ""),
    ("unmark", 2, "h--", 1, "fault", None, ""),
    ("unmark", 2, "h--", 0, "noinode", None, ""),
    ("unmark", 2, "hf-", 2, "notat 3", Some(3), ""),
    ("unmark", 2, "hm-", 2, "fault", Some(MARKED), ""),
    (
        "unmark",
        2,
        "hm-",
        0,
        "done",
        Some(MARKED),
        "file 3 9 4* none",
    ),
    ("gfidsafter", 0, "-fc", 1, "fault", None, ""),
    ("gfidsafter", 0, "-fc", 0, "gfids 2", None, ""),
];

/// A chunk of sevens.
fn one_chunk(alloc: Global) -> Result<ChunkList, Fail>
    ensures { IfOk result (λ l. length l ≡ 1) }
{
    let mut chunks = ChunkList::new(alloc);
    chunks.push(Chunk::from_array([7; 512]))?;
    Ok(chunks)
}

/// The head that a Mark sets.
fn mark_of(rt: &impl Abort) -> Head
    ensures size { result.size ≤ 2 ^ 40 }
    ensures mark { is_marked result.version.content ≡ true }
{
    let mut head = head_of(rt, Kind::File, 0, 6);
    head.size = 9;
    head.version.content = marked(3);
    head
}

/// A request about gfid 5 and its child 6, which also names grant 2 where it names two.
fn request_of(rt: &(impl Abort + AllocGlobal), word: &str, grant: u64) -> Result<Request, Fail>
    ensures { IfOk result (λ q. IsFit q) }
{
    let gfid = Gfid(5);
    let child = Gfid(6);
    let file = Child {
        kind: Kind::File,
        gfid: child,
    };
    let name = Name::new(rt.alloc(), b"f").expect(rt, "a name");
    Ok(match word {
        "query" => Request::Query { gfid, grant },
        "preop" => Request::PreOp {
            gfid,
            grant,
            at: 3,
            dirty: 7,
        },
        "readchunks" => Request::ReadChunks {
            gfid,
            grant,
            first: 2,
            count: 1,
        },
        "writechunks" => Request::WriteChunks {
            gfid,
            grant,
            first: 2,
            chunks: one_chunk(rt.alloc())?,
        },
        "setlength" => Request::SetLength {
            gfid,
            grant,
            keep: 2,
            length: 4,
        },
        "postop" => Request::PostOp {
            gfid,
            grant,
            at: 3,
            version: 5,
            size: 11,
            attr: None,
        },
        "clear" => Request::Clear { gfid, grant, at: 3 },
        "nameget" => Request::NameGet { gfid, grant, name },
        "namesafter" => Request::NamesAfter {
            gfid,
            grant,
            after: None,
        },
        "nameset" => Request::NameSet {
            gfid,
            grant,
            name,
            child: Some(file),
        },
        "namesput" => Request::NamesPut {
            gfid,
            grant,
            after: None,
            upto: None,
            list: NameList::new(rt.alloc()),
        },
        "make" => Request::Make {
            gfid,
            grant,
            child: file,
        },
        "made" => Request::Made { gfid, grant, child },
        "unmake" => Request::Unmake { gfid, grant, child },
        "mark" => Request::Mark {
            gfid,
            grant,
            heal: 2,
            head: mark_of(rt),
        },
        "unmark" => Request::Unmark {
            gfid,
            grant,
            at: MARKED,
            dirty: 4,
        },
        "gfidsafter" => Request::GfidsAfter {
            after: None,
            dirty: false,
        },
        _ => return Err(Fail::from("no such request")),
    })
}

/// Executes a request of client 1.
fn execute(
    rt: &impl Abort,
    brick: &mut Brick,
    store: &mut MemStore,
    number: u64,
    request: &Request,
) -> Effects
    requires { IsFit request.now }
{
    assert!(rt; brick.up());
    brick
        .execute(store, 1, number, request)
        .expect(rt, "memory")
}

fn ask(
    rt: &impl Abort,
    brick: &mut Brick,
    store: &mut MemStore,
    number: u64,
    domain: Domain,
    kind: LockKind,
) {
    let request = Request::Ask {
        gfid: Gfid(5),
        domain,
        kind,
    };
    let _ = execute(rt, brick, store, number, &request);
}

/// Puts the record of a letter: a file at version 3 or, g, at version 4, a marked file, a directory, a marked directory, or
/// a child's: a new one, or one at version 8 that isn't dirty. Any other letter puts none.
fn put_letter(rt: &impl Abort, store: &mut MemStore, gfid: u128, letter: u8) {
    let mut head = match letter {
        b'f' => head_of(rt, Kind::File, 3, 2),
        b'g' => head_of(rt, Kind::File, 4, 2),
        b'm' => head_of(rt, Kind::File, MARKED, 2),
        b'd' => head_of(rt, Kind::Dir, 3, 2),
        b'D' => head_of(rt, Kind::Dir, MARKED, 2),
        b'n' => head_of(rt, Kind::File, 0, 1),
        b'c' | b'r' | b'R' => head_of(rt, Kind::File, 8, 0),
        _ => return,
    };
    head.size = 9;
    put(rt, store, gfid, &head);
}

/// Removes gfid 6 by a brick, which remembers it.
fn remove_child(
    rt: &(impl Abort + AllocGlobal),
    brick: &mut Brick,
    store: &mut MemStore,
) -> Result<(), Fail> {
    ask(rt, brick, store, 9, Domain::Inode, LockKind::Exclusive);
    let request = request_of(rt, "unmake", 9)?;
    let _ = execute(rt, brick, store, 10, &request);
    let release = Request::Release {
        gfid: Gfid(5),
        grant: 9,
    };
    let _ = execute(rt, brick, store, 11, &release);
    Ok(())
}

/// A brick and its store, by three letters. The first says which locks on gfid 5 are granted: s and x the Inode lock as
/// grant 1, h the Heal lock as grant 2, b both. The others are the records of gfid 5 and of its child 6, where r is one
/// that was removed and R one that was removed and made anew.
fn bench_of(
    rt: &(impl Abort + AllocGlobal),
    what: &str,
    fails: FailList,
) -> Result<(Brick, MemStore), Fail> {
    let (locks, five, six) = match what.as_bytes() {
        [locks, five, six] => (*locks, *five, *six),
        _ => return Err(Fail::from("not three letters")),
    };
    let mut store = MemStore::new(rt.alloc(), fails);
    let mut brick = brick_of(rt);
    put_letter(rt, &mut store, 5, five);
    put_letter(rt, &mut store, 6, six);
    assert!(rt; brick.open_store(&mut store).is_ok());
    if six == b'r' || six == b'R' {
        remove_child(rt, &mut brick, &mut store)?;
    }
    if six == b'R' {
        put_letter(rt, &mut store, 6, b'n');
    }
    match locks {
        b's' => ask(
            rt,
            &mut brick,
            &mut store,
            1,
            Domain::Inode,
            LockKind::Shared,
        ),
        b'x' => ask(
            rt,
            &mut brick,
            &mut store,
            1,
            Domain::Inode,
            LockKind::Exclusive,
        ),
        b'h' => ask(
            rt,
            &mut brick,
            &mut store,
            2,
            Domain::Heal,
            LockKind::Exclusive,
        ),
        b'b' => {
            ask(
                rt,
                &mut brick,
                &mut store,
                1,
                Domain::Inode,
                LockKind::Exclusive,
            );
            ask(
                rt,
                &mut brick,
                &mut store,
                2,
                Domain::Heal,
                LockKind::Exclusive,
            );
        }
        _ => {}
    }
    Ok((brick, store))
}

/// The head of a gfid, with a star where the gfid is in the brick's index.
fn head_text(
    rt: &(impl Abort + AllocGlobal),
    brick: &Brick,
    store: &mut MemStore,
    gfid: u128,
) -> Result<String, Fail> {
    let head = match store.head(Gfid(gfid)) {
        Ok(head) => head,
        Err(_) => store.head(Gfid(gfid)).expect(rt, "a head"),
    };
    let Some(h) = head else {
        return Ok("none".to_string(rt.alloc())?);
    };
    let kind = if h.kind == Kind::File { "file" } else { "dir" };
    let star = if brick.index().has(Gfid(gfid)) {
        "*"
    } else {
        ""
    };
    let (version, size, dirty) = (h.version.content, h.size, h.dirty.content);
    Ok(format!(in rt.alloc(); "{kind} {version} {size} {dirty}{star}")?)
}

fn heads_text(
    rt: &(impl Abort + AllocGlobal),
    brick: &Brick,
    store: &mut MemStore,
) -> Result<String, Fail> {
    let five = head_text(rt, brick, store, 5)?;
    let six = head_text(rt, brick, store, 6)?;
    Ok(format!(in rt.alloc(); "{five} {six}")?)
}

fn reply_text(alloc: Global, reply: Option<Reply>) -> Result<String, Fail> {
    let Some(reply) = reply else {
        return Ok("none".to_string(alloc)?);
    };
    let body = Body::ToClient { re: 1, reply };
    let message = Message {
        no: 2,
        call: 1,
        client: 1,
        brick: 0,
        body,
    };
    Ok(entry_text(alloc, &Entry::Sent(message))?)
}

/// Whether a row is met.
fn is_met(rt: &(impl Abort + AllocGlobal), row: &Row) -> Result<bool, Fail> {
    let (word, grant, what, fail, reply, version, after) = *row;
    let (brick, mut store) = bench_of(rt, what, FailList::new(rt.alloc()))?;
    let calls = store.calls();
    let before = heads_text(rt, &brick, &mut store)?;
    let mut fails = FailList::new(rt.alloc());
    if fail != 0 {
        fails.push(StoreFail::Call(calls.saturating_add(fail)))?;
    }
    let (mut brick, mut store) = bench_of(rt, what, fails)?;
    let request = request_of(rt, word, grant)?;
    let effects = execute(rt, &mut brick, &mut store, 12, &request);
    let wanted = format!(in rt.alloc(); "sent 2 b0 c1 re 1 {reply}")?;
    let heads = heads_text(rt, &brick, &mut store)?;
    let heads_wanted = if after == "" { before.as_str() } else { after };
    Ok(
        effects.version == version
            && effects.granted.len() == 0
            && reply_text(rt.alloc(), effects.reply)?.as_str() == wanted.as_str()
            && heads.as_str() == heads_wanted,
    )
}

#[test]
fn every_row_is_met(rt: HostRuntime) -> Result<(), Fail> {
    let tables: [&[Row]; 5] = [&READS, &COMMITS, &CONTENTS, &CHILDREN, &MARKS];
    for rows in tables {
        for row in rows {
            assert!(rt; is_met(&rt, row)?, "{} {} {}", row.0, row.2, row.4);
        }
    }
    Ok(())
}

/// The first byte of chunk 2 of gfid 5, under grant 1.
fn byte_of(
    rt: &(impl Abort + AllocGlobal),
    brick: &mut Brick,
    store: &mut MemStore,
) -> Result<u8, Fail> {
    let request = request_of(rt, "readchunks", 1)?;
    let effects = execute(rt, brick, store, 20, &request);
    match &effects.reply {
        Some(Reply::Chunks(list)) => match list.items() {
            [chunk] => Ok(chunk.bytes().first().copied().ok_or("no byte")?),
            _ => Err(Fail::from("other chunks")),
        },
        _ => Err(Fail::from("no chunks")),
    }
}

/// What was written is read, and a waiter comes in as it asked.
#[test]
fn what_is_done_is_seen(rt: HostRuntime) -> Result<(), Fail> {
    let (mut brick, mut store) = bench_of(&rt, "xf-", FailList::new(rt.alloc()))?;
    for (word, byte) in [("query", 0), ("writechunks", 7), ("setlength", 0)] {
        let request = request_of(&rt, word, 1)?;
        let _ = execute(&rt, &mut brick, &mut store, 3, &request);
        assert_eq!(rt; byte_of(&rt, &mut brick, &mut store)?, byte);
    }
    let (mut brick, mut store) = bench_of(&rt, "xd-", FailList::new(rt.alloc()))?;
    for (word, text) in [
        ("nameset", "sent 2 b0 c1 re 1 done"),
        ("nameget", "sent 2 b0 c1 re 1 child file:6"),
        ("namesafter", "sent 2 b0 c1 re 1 names 1"),
    ] {
        let request = request_of(&rt, word, 1)?;
        let reply = execute(&rt, &mut brick, &mut store, 3, &request).reply;
        assert!(rt; reply_text(rt.alloc(), reply)?.as_str() == text);
    }
    let waits = Request::Ask {
        gfid: Gfid(5),
        domain: Domain::Inode,
        kind: LockKind::Shared,
    };
    assert!(rt;
        execute(&rt, &mut brick, &mut store, 4, &waits)
            .reply
            .is_none()
    );
    let release = Request::Release {
        gfid: Gfid(5),
        grant: 1,
    };
    let effects = execute(&rt, &mut brick, &mut store, 5, &release);
    assert!(rt; effects.reply.is_none());
    let waiter = Waiter {
        number: 4,
        client: 1,
    };
    assert!(rt; effects.granted.items() == [waiter].as_slice());
    let reply = execute(&rt, &mut brick, &mut store, 6, &waits).reply;
    assert!(rt; reply_text(rt.alloc(), reply)?.as_str() == "sent 2 b0 c1 re 1 granted");
    Ok(())
}
