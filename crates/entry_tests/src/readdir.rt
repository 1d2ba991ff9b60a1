// A readdir on three bricks, reply by reply.
ghost use Rattle.std.specs.Prelude.{◌<◌, ◌^◌};

use crate::heads::head;
use ec_attr::{Child, Geometry, Gfid, Kind, Name, NameList, Policy};
use ec_entry::{ReaddirCall, begin_readdir};
use ec_txn::{Call, Ctx, Sends, Turn};
use ec_wire::{Answer, Listing, Reply, Request, phase_word};
use std::alloc::Global;
use std::test::Fail;

/// Two bricks of three suffice.
fn ctx() -> Result<Ctx, Fail> {
    match Geometry::new(3, 1) {
        Ok(geometry) => Ok(Ctx {
            geometry,
            call: 1,
            client: 1,
            policy: Policy::RoundRobin,
            window: 8,
            child: Gfid(9),
            eager: false,
        }),
        Err(_) => Err(Fail::from("no geometry")),
    }
}

fn push(alloc: Global, page: &mut NameList, bytes: &[u8], gfid: u128) -> Result<(), Fail> {
    let Ok(name) = Name::new(alloc, bytes) else {
        return Err(Fail::from("no name"));
    };
    let child = Child {
        kind: Kind::File,
        gfid: Gfid(gfid),
    };
    page.push((name, child))?;
    Ok(())
}

/// So many names of two bytes, the first of them `first`.
fn page(alloc: Global, first: u8, count: u8) -> Result<NameList, Fail> {
    let mut page = NameList::new(alloc);
    for place in 0..count {
        push(alloc, &mut page, &[first, b'0'.wrapping_add(place)], 2)?;
    }
    Ok(page)
}

/// The page of a letter: A 64 names with a; B the same without the last; C two names with a b; D the second of them,
/// which leads elsewhere; E none.
fn page_of(alloc: Global, letter: u8) -> Result<NameList, Fail> {
    match letter {
        b'A' => page(alloc, b'a', 64),
        b'B' => page(alloc, b'a', 63),
        b'C' => page(alloc, b'b', 2),
        b'D' => {
            let mut page = NameList::new(alloc);
            push(alloc, &mut page, b"b1", 3)?;
            Ok(page)
        }
        _ => Ok(NameList::new(alloc)),
    }
}

/// The reply of a letter: g a grant, d and h heads of a directory and a file, f a fault, a page; x is given up.
fn reply_of(alloc: Global, geometry: Geometry, letter: u8) -> Result<Option<Reply>, Fail> {
    Ok(match letter {
        b'g' => Some(Reply::Granted),
        b'd' => Some(Reply::Head(head(geometry, Kind::Dir))),
        b'h' => Some(Reply::Head(head(geometry, Kind::File))),
        b'f' => Some(Reply::Fault),
        b'x' => None,
        _ => Some(Reply::Names(page_of(alloc, letter)?)),
    })
}

/// For each send its brick and a letter; in front of them the last byte of the name past which is asked.
fn letters(alloc: Global, sends: &Sends) -> Result<String, Fail> {
    let mut text = String::new(alloc);
    for send in sends.items() {
        text.push_str(match send.0 {
            0 => "0",
            1 => "1",
            _ => "2",
        })?;
        text.push_str(match &send.1 {
            Request::Ask { .. } => "a",
            Request::Release { .. } => "r",
            Request::Query { .. } => "q",
            Request::NamesAfter { after: None, .. } => "n",
            Request::NamesAfter { after: Some(_), .. } => "m",
            _ => "?",
        })?;
    }
    Ok(text)
}

/// How many names are listed, and how many of them as open.
fn listed(alloc: Global, list: &Listing) -> Result<String, Fail> {
    let mut open = 0u32;
    for entry in list.items() {
        if entry.1.is_none() {
            open = open.saturating_add(1);
        }
    }
    let count = list.len();
    let mut text = String::new(alloc);
    text.push_str(format!(in alloc; " {count}")?.as_str())?;
    text.push_str(format!(in alloc; " open {open}")?.as_str())?;
    Ok(text)
}

fn answered(alloc: Global, answer: &Answer) -> Result<String, Fail> {
    let mut text = String::new(alloc);
    match answer {
        Answer::Names(list) => text.push_str(listed(alloc, list)?.as_str())?,
        Answer::NotDir => text.push_str(" not a directory")?,
        Answer::NoQuorum { phase, most } => {
            text.push_str(" ")?;
            text.push_str(phase_word(*phase))?;
            text.push_str(format!(in alloc; " {most}")?.as_str())?;
        }
        _ => text.push_str(" other")?,
    }
    Ok(text)
}

/// What comes of a reply, None standing for a giving up: the sends, and the answer.
fn step(
    alloc: Global,
    call: &mut ReaddirCall,
    next: u64,
    brick: u8,
    reply: Option<Reply>,
) -> Result<String, Fail>
    requires { next < 2 ^ 62 }
{
    let mut sends = Sends::new(alloc);
    let turn = match reply {
        Some(reply) => call.hear(&(), next, brick, &reply, &mut sends)?,
        None => call.give_up(&(), next, brick, &mut sends)?,
    };
    let mut text = letters(alloc, &sends)?;
    if let Turn::Done(answer) = turn {
        text.push_str(answered(alloc, &answer)?.as_str())?;
    }
    Ok(text)
}

/// The lowest brick that is waited for.
fn lowest(call: &ReaddirCall) -> u8 {
    let waiting = <ReaddirCall as Call<()>>::waiting(call);
    for brick in 0..3u8 {
        if waiting.has(brick) {
            return brick;
        }
    }
    0
}

/// What comes of the last of these replies, each of the lowest brick that is waited for.
fn last_of(alloc: Global, replies: &[u8]) -> Result<String, Fail> {
    let ctx = ctx()?;
    let mut sends = Sends::new(alloc);
    let mut call = begin_readdir(alloc, &ctx, Gfid(1), 1, &mut sends)?;
    let mut last = letters(alloc, &sends)?;
    for letter in replies {
        let brick = lowest(&call);
        let reply = reply_of(alloc, ctx.geometry, *letter)?;
        last = step(alloc, &mut call, 100, brick, reply)?;
    }
    Ok(last)
}

#[test]
fn names_are_listed(rt: HostRuntime) -> Result<(), Fail> {
    let table = [
        ("gggdddAAB", "0m1m2m"),
        ("gggdddAABCCE", "0r1r2r 66 open 0"),
        ("gggdddAABCDE", "0r1r2r 65 open 1"),
        ("gggdddABx", "0m1m"),
        ("gggdddABxCx", "0r1r2r names 1"),
    ];
    for (replies, text) in table {
        let last = last_of(rt.alloc(), replies.as_bytes())?;
        assert!(rt; last.as_str() == text);
    }
    Ok(())
}
