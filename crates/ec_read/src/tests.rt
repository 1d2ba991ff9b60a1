// A stat on three bricks, reply by reply; `read` has the reads.
ghost use Rattle.std.specs.Prelude.{◌<◌, ◌^◌};

mod read;

use crate::{StatCall, begin_stat};
use ec_attr::{Attr, Config, Dirty, Geometry, Gfid, Head, Kind, Policy, Version};
use ec_txn::{Call, Ctx, Sends, Turn};
use ec_wire::{Answer, Phase, Reply, Request};
use std::alloc::Global;
use std::test::Fail;

/// Two bricks of three suffice.
fn ctx() -> Result<Ctx, Fail> {
    match Geometry::new(3, 1) {
        Ok(geometry) => Ok(Ctx {
            geometry,
            call: 1,
            client: 1,
            policy: Policy::RoundRobin,
            window: 8,
            child: Gfid(9),
            eager: false,
        }),
        Err(_) => Err(Fail::from("no geometry")),
    }
}

/// The head of a file of 700 bytes.
fn head(geometry: Geometry, content: u64) -> Head {
    Head {
        kind: Kind::File,
        config: Config { geometry },
        version: Version { content, meta: 0 },
        size: 700,
        dirty: Dirty {
            content: 0,
            meta: 0,
        },
        attr: Attr::of_new(Kind::File),
    }
}

/// A letter for each send: its brick, and a for Ask, r for Release, q for Query.
fn letters(alloc: Global, sends: &Sends) -> Result<String, Fail> {
    let mut text = String::new(alloc);
    for send in sends.items() {
        text.push_str(match send.0 {
            0 => "0",
            1 => "1",
            _ => "2",
        })?;
        text.push_str(match &send.1 {
            Request::Ask { .. } => "a",
            Request::Release { .. } => "r",
            Request::Query { .. } => "q",
            _ => "?",
        })?;
    }
    Ok(text)
}

/// What comes of a reply, None standing for a giving up: the sends, and the size or how many were alike.
fn step(
    alloc: Global,
    call: &mut StatCall,
    next: u64,
    brick: u8,
    reply: Option<Reply>,
) -> Result<String, Fail>
    requires { next < 2 ^ 62 }
{
    let mut sends = Sends::new(alloc);
    let turn = match reply {
        Some(reply) => call.hear(&(), next, brick, &reply, &mut sends)?,
        None => call.give_up(&(), next, brick, &mut sends)?,
    };
    let mut text = letters(alloc, &sends)?;
    match turn {
        Turn::Wait => {}
        Turn::Done(Answer::Size(size)) => text.push_str(format!(in alloc;
            " size {size}"
        )?.as_str())?,
        Turn::Done(
            Answer::NoQuorum {
                phase: Phase::Lock,
                most,
            },
        ) => text.push_str(format!(in alloc; " lock {most}")?.as_str())?,
        Turn::Done(
            Answer::NoQuorum {
                phase: Phase::Query,
                most,
            },
        ) => text.push_str(format!(in alloc; " query {most}")?.as_str())?,
        Turn::Done(Answer::NoSuch) => text.push_str(" no such")?,
        Turn::Done(_) => text.push_str(" other")?,
    }
    Ok(text)
}

/// A stat whose locks are given by three letters, g where the brick grants and x where it is given up; and the sends of
/// the last lock.
fn locked(alloc: Global, grants: &[u8; 3]) -> Result<(StatCall, String), Fail> {
    let ctx = ctx()?;
    let mut sends = Sends::new(alloc);
    let mut call = begin_stat(alloc, &ctx, Gfid(2), 1, &mut sends)?;
    let mut text = letters(alloc, &sends)?;
    for brick in 0..3u8 {
        let reply = if grants[usize::from(brick)] == b'g' {
            Some(Reply::Granted)
        } else {
            None
        };
        let more = step(alloc, &mut call, 10 * u64::from(brick + 1), brick, reply)?;
        text.push_str(" ")?;
        text.push_str(more.as_str())?;
    }
    Ok((call, text))
}

#[test]
fn locks_one_after_another(rt: HostRuntime) -> Result<(), Fail> {
    let table = [
        (b"ggg", "0a 1a 2a 0q1q2q"),
        (b"xgg", "0a 0r1a 2a 1q2q"),
        (b"ggx", "0a 1a 2a 2r0q1q"),
        (b"gxx", "0a 1a 1r2a 2r0r lock 1"),
    ];
    for (grants, text) in table {
        let (_call, sent) = locked(rt.alloc(), grants)?;
        assert!(rt; sent.as_str() == text);
    }
    Ok(())
}

/// The reply of a letter: h and i heads of two versions, n no record, f a fault; x is given up.
fn reply_of(geometry: Geometry, letter: u8) -> Option<Reply> {
    match letter {
        b'h' => Some(Reply::Head(head(geometry, 7))),
        b'i' => Some(Reply::Head(head(geometry, 8))),
        b'n' => Some(Reply::NoInode),
        b'f' => Some(Reply::Fault),
        _ => None,
    }
}

/// What comes of the last reply, where each brick granted, and the bricks reply by these letters.
fn answered(alloc: Global, letters: &[u8; 3]) -> Result<String, Fail> {
    let geometry = ctx()?.geometry;
    let (mut call, mut last) = locked(alloc, b"ggg")?;
    for brick in 0..3u8 {
        let reply = reply_of(geometry, letters[usize::from(brick)]);
        last = step(alloc, &mut call, 50, brick, reply)?;
    }
    Ok(last)
}

#[test]
fn answers_by_the_group(rt: HostRuntime) -> Result<(), Fail> {
    let table = [
        (b"hhh", "0r1r2r size 700"),
        (b"hih", "0r1r2r size 700"),
        (b"xhh", "0r1r2r size 700"),
        (b"hif", "0r1r2r query 1"),
        (b"hnx", "0r1r2r query 1"),
        (b"fxf", "0r1r2r query 0"),
        (b"nhn", "0r1r2r no such"),
    ];
    for (letters, text) in table {
        let last = answered(rt.alloc(), letters)?;
        assert!(rt; last.as_str() == text);
    }
    Ok(())
}
