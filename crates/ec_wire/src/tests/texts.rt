// Each text once, and phases by their words.
use crate::{
    Answer, Body, ChunkList, Entry, Event, GfidList, Listing, Message, Op, Phase, Reply, Request,
    StripeList, answer_text, entry_text, phase_of, phase_word,
};
use ec_attr::{
    Attr, Blob, BrickSet, Child, Config, Dirty, Domain, Geometry, Gfid, Head, Kind, LockKind, Name,
    NameList, Version,
};
use ec_field::Chunk;
use std::alloc::Global;
use std::test::Fail;

const FILE: Child = Child {
    kind: Kind::File,
    gfid: Gfid(6),
};

const DIR: Child = Child {
    kind: Kind::Dir,
    gfid: Gfid(7),
};

/// The name `f`, 66 in hexadecimal.
fn name(alloc: Global) -> Result<Name, Fail> {
    Ok(Name::new(alloc, b"f").ok().ok_or("refused")?)
}

/// A head of 4+2 whose version is 1 with the mark.
fn head() -> Result<Head, Fail> {
    let geometry = Geometry::new(6, 2).ok().ok_or("refused")?;
    Ok(Head {
        kind: Kind::File,
        config: Config { geometry },
        version: Version {
            content: 4611686018427387905,
            meta: 3,
        },
        size: 2048,
        dirty: Dirty {
            content: 1,
            meta: 9,
        },
        attr: Attr::new(420, 7, 8).ok_or("refused")?,
    })
}

/// Whether a copy of this has this text.
fn is_entry(alloc: Global, entry: &Entry, text: &str) -> Result<bool, Fail> {
    let copy = entry.copy()?;
    Ok(entry_text(alloc, &copy)?.as_str() == text)
}

/// Whether this is the text of client 2's call 3.
fn is_call(alloc: Global, op: &Op, text: &str) -> Result<bool, Fail> {
    let op = op.copy()?;
    let line = entry_text(
        alloc,
        &Entry::Called {
            call: 3,
            client: 2,
            op,
        },
    )?;
    Ok(line.as_str() == text)
}

/// Whether a copy of this, sent as message 1 to brick 0 by client 1, has this text.
fn is_request(alloc: Global, request: &Request, text: &str) -> Result<bool, Fail> {
    let message = Message {
        no: 1,
        call: 4,
        client: 1,
        brick: 0,
        body: Body::ToBrick(request.copy()?),
    };
    is_entry(alloc, &Entry::Sent(message.copy()?), text)
}

/// Whether a copy of this, sent as message 2 in reply to message 1, has this text.
fn is_reply(alloc: Global, reply: &Reply, text: &str) -> Result<bool, Fail> {
    let message = Message {
        no: 2,
        call: 4,
        client: 1,
        brick: 0,
        body: Body::ToClient {
            re: 1,
            reply: reply.copy()?,
        },
    };
    is_entry(alloc, &Entry::Sent(message.copy()?), text)
}

/// Whether this is the text of call 1's answer, alone and in the log.
fn is_answer(alloc: Global, answer: &Answer, text: &str) -> Result<bool, Fail> {
    let alone = answer_text(alloc, 1, answer)?;
    let entry = Entry::Answered {
        call: 1,
        answer: answer.copy()?,
    };
    Ok(alone.as_str() == text && is_entry(alloc, &entry, text)?)
}

#[test]
fn entries_have_their_texts(rt: HostRuntime) -> Result<(), Fail> {
    let table = [
        (
            Entry::Executed {
                no: 7,
                version: Some(4611686018427387905),
                failed: true,
            },
            "executed 7 4611686018427387905",
        ),
        (
            Entry::Executed {
                no: 7,
                version: None,
                failed: false,
            },
            "executed 7 -",
        ),
        (
            Entry::Heard {
                no: 18446744073709551615,
            },
            "heard 18446744073709551615",
        ),
        (Entry::Lost { no: 8 }, "lost 8"),
        (
            Entry::Called {
                call: 1,
                client: 1,
                op: Op::Stat { gfid: Gfid(5) },
            },
            "called 1 1 stat 5",
        ),
        (
            Entry::GivenUp {
                client: 1,
                brick: 30,
                no: 8,
            },
            "givenup 1 30 8",
        ),
        (Entry::Stopped { brick: 0 }, "stopped 0"),
        (Entry::Returned { brick: 0 }, "returned 0"),
        (
            Entry::Cut {
                client: 1,
                brick: 5,
            },
            "cut 1 5",
        ),
        (Entry::Died { client: 16 }, "died 16"),
        (Entry::Yielded { client: 1 }, "yielded 1"),
        (
            Entry::Torn {
                no: 9,
                bytes: 100,
                version: Some(0),
            },
            "torn 9 100 0",
        ),
        (
            Entry::Torn {
                no: 9,
                bytes: 0,
                version: None,
            },
            "torn 9 0 -",
        ),
        (
            Entry::Replaced {
                brick: 5,
                removed: 2,
                all: true,
            },
            "replaced 5 2 all",
        ),
        (
            Entry::Replaced {
                brick: 5,
                removed: 0,
                all: false,
            },
            "replaced 5 0 part",
        ),
    ];
    for (entry, text) in &table {
        assert!(rt; is_entry(rt.alloc(), entry, text)?);
    }
    Ok(())
}

#[test]
fn calls_have_their_texts(rt: HostRuntime) -> Result<(), Fail> {
    let gfid = Gfid(5);
    let attr = Attr::new(384, 7, 8).ok_or("refused")?;
    let via = Some(BrickSet::empty().plus(30).plus(0).plus(4));
    let table = [
        (Op::Truncate { gfid, size: 2 }, "called 3 2 truncate 5 2"),
        (
            Op::Read {
                gfid,
                off: 3,
                len: 4,
                via: None,
            },
            "called 3 2 read 5 3 4",
        ),
        (
            Op::Read {
                gfid,
                off: 3,
                len: 4,
                via,
            },
            "called 3 2 read 5 3 4 via 0,4,30",
        ),
        (Op::Stat { gfid }, "called 3 2 stat 5"),
        (Op::Readdir { gfid }, "called 3 2 readdir 5"),
        (Op::Heal { gfid }, "called 3 2 heal 5"),
        (Op::SetAttr { gfid, attr }, "called 3 2 setattr 5 384 7 8"),
        (Op::GetAttr { gfid }, "called 3 2 getattr 5"),
        (
            Op::Scrub {
                gfid,
                settle: false,
            },
            "called 3 2 scrub 5",
        ),
        (
            Op::Scrub { gfid, settle: true },
            "called 3 2 scrub 5 settle",
        ),
        (Op::Sweep { full: false }, "called 3 2 sweep index"),
        (Op::Sweep { full: true }, "called 3 2 sweep full"),
    ];
    for (op, text) in &table {
        assert!(rt; is_call(rt.alloc(), op, text)?);
    }
    Ok(())
}

#[test]
fn requests_have_their_texts(rt: HostRuntime) -> Result<(), Fail> {
    let gfid = Gfid(5);
    let grant = 9;
    let attr = Some(Attr::new(384, 7, 8).ok_or("refused")?);
    let head = head()?;
    let table = [
        (
            Request::Ask {
                gfid,
                domain: Domain::Inode,
                kind: LockKind::Shared,
            },
            "sent 1 c1 b0 ask 5 inode shared",
        ),
        (
            Request::Ask {
                gfid,
                domain: Domain::Heal,
                kind: LockKind::Exclusive,
            },
            "sent 1 c1 b0 ask 5 heal exclusive",
        ),
        (Request::Release { gfid, grant }, "sent 1 c1 b0 release 5 9"),
        (Request::Query { gfid, grant }, "sent 1 c1 b0 query 5 9"),
        (
            Request::PreOp {
                gfid,
                grant,
                at: 1,
                dirty: 2,
            },
            "sent 1 c1 b0 preop 5 9 1 2",
        ),
        (
            Request::ReadChunks {
                gfid,
                grant,
                first: 3,
                count: 4,
            },
            "sent 1 c1 b0 readchunks 5 9 3 4",
        ),
        (
            Request::SetLength {
                gfid,
                grant,
                keep: 3,
                length: 4,
            },
            "sent 1 c1 b0 setlength 5 9 3 4",
        ),
        (
            Request::PostOp {
                gfid,
                grant,
                at: 1,
                version: 2,
                size: 3,
                attr: None,
            },
            "sent 1 c1 b0 postop 5 9 1 2 3 -",
        ),
        (
            Request::PostOp {
                gfid,
                grant,
                at: 1,
                version: 2,
                size: 3,
                attr,
            },
            "sent 1 c1 b0 postop 5 9 1 2 3 384 7 8",
        ),
        (
            Request::Clear { gfid, grant, at: 1 },
            "sent 1 c1 b0 clear 5 9 1",
        ),
        (
            Request::NamesAfter {
                gfid,
                grant,
                after: None,
            },
            "sent 1 c1 b0 namesafter 5 9 -",
        ),
        (
            Request::Make {
                gfid,
                grant,
                child: DIR,
            },
            "sent 1 c1 b0 make 5 9 dir:7",
        ),
        (
            Request::Made {
                gfid,
                grant,
                child: Gfid(6),
            },
            "sent 1 c1 b0 made 5 9 6",
        ),
        (
            Request::Unmake {
                gfid,
                grant,
                child: Gfid(6),
            },
            "sent 1 c1 b0 unmake 5 9 6",
        ),
        (
            Request::Mark {
                gfid,
                grant,
                heal: 8,
                head,
            },
            "sent 1 c1 b0 mark 5 9 8 file 0000080602000200 4611686018427387905 2048 1 420 7 8",
        ),
        (
            Request::Unmark {
                gfid,
                grant,
                at: 1,
                dirty: 2,
            },
            "sent 1 c1 b0 unmark 5 9 1 2",
        ),
        (
            Request::GfidsAfter {
                after: None,
                dirty: true,
            },
            "sent 1 c1 b0 gfidsafter - true",
        ),
        (
            Request::GfidsAfter {
                after: Some(gfid),
                dirty: false,
            },
            "sent 1 c1 b0 gfidsafter 5 false",
        ),
    ];
    for (request, text) in &table {
        assert!(rt; is_request(rt.alloc(), request, text)?);
    }
    Ok(())
}

#[test]
fn replies_have_their_texts(rt: HostRuntime) -> Result<(), Fail> {
    let head = head()?;
    let table = [
        (Reply::Granted, "sent 2 b0 c1 re 1 granted"),
        (
            Reply::Head(head),
            "sent 2 b0 c1 re 1 head file 0000080602000200 4611686018427387905 2048 1 420 7 8",
        ),
        (Reply::Child(None), "sent 2 b0 c1 re 1 child -"),
        (Reply::Child(Some(DIR)), "sent 2 b0 c1 re 1 child dir:7"),
        (Reply::Done, "sent 2 b0 c1 re 1 done"),
        (Reply::NoGrant(9), "sent 2 b0 c1 re 1 nogrant 9"),
        (Reply::NoInode, "sent 2 b0 c1 re 1 noinode"),
        (Reply::IsInode, "sent 2 b0 c1 re 1 isinode"),
        (Reply::OtherKind, "sent 2 b0 c1 re 1 otherkind"),
        (Reply::NotAt(7), "sent 2 b0 c1 re 1 notat 7"),
        (Reply::Fault, "sent 2 b0 c1 re 1 fault"),
    ];
    for (reply, text) in &table {
        assert!(rt; is_reply(rt.alloc(), reply, text)?);
    }
    Ok(())
}

#[test]
fn answers_have_their_texts(rt: HostRuntime) -> Result<(), Fail> {
    let attr = Attr::new(420, 7, 8).ok_or("refused")?;
    let sinks = BrickSet::empty().plus(2).plus(1);
    let table = [
        (Answer::Size(4096), "1 ok 4096"),
        (Answer::Child(FILE), "1 child file 6"),
        (Answer::Gone, "1 gone"),
        (Answer::Healed { sinks, all: true }, "1 healed 1,2 all"),
        (
            Answer::Healed {
                sinks: BrickSet::empty(),
                all: false,
            },
            "1 healed - part",
        ),
        (Answer::Nothing, "1 nothing"),
        (
            Answer::NoQuorum {
                phase: Phase::Lock2,
                most: 1,
            },
            "1 noquorum lock2 1",
        ),
        (Answer::NoSuch, "1 nosuch"),
        (Answer::IsDir, "1 isdir"),
        (Answer::NotDir, "1 notdir"),
        (Answer::NoName, "1 noname"),
        (Answer::Exists(DIR), "1 exists dir 7"),
        (Answer::Split(None, Some(FILE)), "1 split none file:6"),
        (Answer::TooLong(3), "1 toolong 3"),
        (Answer::TooBig(4), "1 toobig 4"),
        (Answer::Lost(5), "1 lost 5"),
        (Answer::Moved { mark: 2, group: 3 }, "1 moved 2 3"),
        (Answer::Limit(6), "1 limit 6"),
        (Answer::Spent, "1 spent"),
        (Answer::Attr(attr), "1 attr 420 7 8"),
        (Answer::Left(Gfid(5)), "1 left 5"),
        (
            Answer::Swept {
                healed: 2,
                given: 1,
            },
            "1 swept 2 1",
        ),
    ];
    for (answer, text) in &table {
        assert!(rt; is_answer(rt.alloc(), answer, text)?);
    }
    Ok(())
}

/// Calls that own memory, the first six with names.
fn call_of(alloc: Global, n: u8) -> Result<Op, Fail> {
    let parent = Gfid(1);
    let name = name(alloc)?;
    Ok(match n {
        0 => Op::Create { parent, name },
        1 => Op::Mkdir { parent, name },
        2 => Op::Unlink { parent, name },
        3 => Op::Lookup { parent, name },
        4 => Op::Rmdir { parent, name },
        5 => Op::Rename {
            from_dir: parent,
            to_name: name.copy()?,
            to_dir: Gfid(3),
            from_name: name,
        },
        _ => Op::Write {
            gfid: Gfid(340282366920938463463374607431768211455),
            off: 1,
            bytes: Blob::from_slice(alloc, b"AA\xff")?,
        },
    })
}

/// Requests that own memory.
fn request_of(alloc: Global, n: u8) -> Result<Request, Fail> {
    let gfid = Gfid(5);
    let grant = 9;
    let name = name(alloc)?;
    Ok(match n {
        0 => Request::NameGet { gfid, grant, name },
        1 => Request::NamesAfter {
            gfid,
            grant,
            after: Some(name),
        },
        2 => Request::NameSet {
            gfid,
            grant,
            name,
            child: None,
        },
        3 => Request::NameSet {
            gfid,
            grant,
            name,
            child: Some(FILE),
        },
        4 => Request::NamesPut {
            gfid,
            grant,
            after: Some(name),
            upto: None,
            list: NameList::new(alloc),
        },
        _ => Request::WriteChunks {
            gfid,
            grant,
            first: 3,
            chunks: ChunkList::new(alloc),
        },
    })
}

/// Answers that own memory.
fn answer_of(alloc: Global, n: u8) -> Result<Answer, Fail> {
    let mut bad = StripeList::new(alloc);
    let mut list = Listing::new(alloc);
    Ok(match n {
        0 => Answer::Bytes(Blob::from_slice(alloc, b"AA")?),
        1 => Answer::Bytes(Blob::new(alloc)),
        2 => Answer::Names(list),
        3 => {
            list.push((name(alloc)?, Some(FILE)))?;
            list.push((name(alloc)?, None))?;
            Answer::Names(list)
        }
        4 => Answer::NotEmpty(name(alloc)?),
        5 => Answer::Scrubbed { seen: 6, bad },
        _ => {
            bad.push(0)?;
            bad.push(4294967296)?;
            Answer::Settled { seen: 6, bad }
        }
    })
}

#[test]
fn names_and_bytes_have_their_texts(rt: HostRuntime) -> Result<(), Fail> {
    for (n, text) in [
        (0, "called 3 2 create 1 66"),
        (1, "called 3 2 mkdir 1 66"),
        (2, "called 3 2 unlink 1 66"),
        (3, "called 3 2 lookup 1 66"),
        (4, "called 3 2 rmdir 1 66"),
        (5, "called 3 2 rename 1 66 3 66"),
        (
            6,
            "called 3 2 write 340282366920938463463374607431768211455 1 4141ff",
        ),
    ] {
        assert!(rt; is_call(rt.alloc(), &call_of(rt.alloc(), n)?, text)?);
    }
    for (n, text) in [
        (0, "sent 1 c1 b0 nameget 5 9 66"),
        (1, "sent 1 c1 b0 namesafter 5 9 66"),
        (2, "sent 1 c1 b0 nameset 5 9 66 -"),
        (3, "sent 1 c1 b0 nameset 5 9 66 file:6"),
        (4, "sent 1 c1 b0 namesput 5 9 66 - 0"),
        (5, "sent 1 c1 b0 writechunks 5 9 3 0"),
    ] {
        assert!(rt; is_request(rt.alloc(), &request_of(rt.alloc(), n)?, text)?);
    }
    Ok(())
}

#[test]
fn lists_have_their_texts(rt: HostRuntime) -> Result<(), Fail> {
    for (n, text) in [
        (0, "1 data 4141"),
        (1, "1 data -"),
        (2, "1 names"),
        (3, "1 names 66:file:6 66:open"),
        (4, "1 notempty 66"),
        (5, "1 scrubbed 6 -"),
        (6, "1 settled 6 0,4294967296"),
    ] {
        assert!(rt; is_answer(rt.alloc(), &answer_of(rt.alloc(), n)?, text)?);
    }
    let mut chunks = ChunkList::new(rt.alloc());
    chunks.push(Chunk::zero())?;
    assert!(rt;
        is_reply(
            rt.alloc(),
            &Reply::Chunks(chunks),
            "sent 2 b0 c1 re 1 chunks 1"
        )?
    );
    let names = NameList::new(rt.alloc());
    assert!(rt;
        is_reply(
            rt.alloc(),
            &Reply::Names(names),
            "sent 2 b0 c1 re 1 names 0"
        )?
    );
    let mut gfids = GfidList::new(rt.alloc());
    gfids.push(Gfid(5))?;
    assert!(rt;
        is_reply(
            rt.alloc(),
            &Reply::Gfids(gfids),
            "sent 2 b0 c1 re 1 gfids 1"
        )?
    );
    Ok(())
}

#[test]
fn events_are_copied(rt: HostRuntime) -> Result<(), Fail> {
    let event = Event::Call {
        client: 2,
        op: Op::Stat { gfid: Gfid(5) },
    };
    let copy = event.copy()?;
    match &copy {
        Event::Call { client, op } => {
            assert!(rt; *client == 2);
            assert!(rt; is_call(rt.alloc(), op, "called 3 2 stat 5")?);
        }
        _ => return Err(Fail::from("another event")),
    }
    Ok(())
}

#[test]
fn phases_are_read_back(rt: HostRuntime) {
    for phase in [Phase::Heal, Phase::Name2, Phase::List, Phase::Shed] {
        assert!(rt; phase_of(phase_word(phase).as_bytes()) == Some(phase));
    }
    let others: [&[u8]; 4] = [b"", b"lock3", b"Lock", b"lock "];
    for word in others {
        assert!(rt; phase_of(word) == None);
    }
}
