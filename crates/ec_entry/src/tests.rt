// A lookup on three bricks, reply by reply.
ghost use Rattle.std.specs.Prelude.{◌<◌, ◌^◌};

use crate::{LookupCall, begin_lookup};
use ec_attr::{Attr, Child, Config, Dirty, Geometry, Gfid, Head, Kind, Name, Policy, Version};
use ec_txn::{Call, Ctx, Sends, Turn};
use ec_wire::{Answer, Phase, Reply, Request};
use std::alloc::Global;
use std::test::Fail;

/// Two bricks of three suffice.
fn ctx() -> Result<Ctx, Fail> {
    match Geometry::new(3, 1) {
        Ok(geometry) => Ok(Ctx {
            geometry,
            call: 1,
            client: 1,
            policy: Policy::RoundRobin,
            window: 8,
            child: Gfid(9),
            eager: false,
        }),
        Err(_) => Err(Fail::from("no geometry")),
    }
}

pub fn head(geometry: Geometry, kind: Kind) -> Head {
    Head {
        kind,
        config: Config { geometry },
        version: Version {
            content: 7,
            meta: 0,
        },
        size: 0,
        dirty: Dirty {
            content: 0,
            meta: 0,
        },
        attr: Attr::of_new(kind),
    }
}

pub fn file(gfid: u128) -> Option<Child> {
    Some(Child {
        kind: Kind::File,
        gfid: Gfid(gfid),
    })
}

/// The reply of a letter: g a grant, d and h heads of a directory and a file, a and b two children, n none, f a fault; x
/// is given up.
fn reply_of(geometry: Geometry, letter: u8) -> Option<Reply> {
    match letter {
        b'g' => Some(Reply::Granted),
        b'd' => Some(Reply::Head(head(geometry, Kind::Dir))),
        b'h' => Some(Reply::Head(head(geometry, Kind::File))),
        b'a' => Some(Reply::Child(file(2))),
        b'b' => Some(Reply::Child(file(3))),
        b'n' => Some(Reply::Child(None)),
        b'f' => Some(Reply::Fault),
        _ => None,
    }
}

/// A letter for each send: its brick, and a for Ask, r for Release, q for Query, n for NameGet.
fn letters(alloc: Global, sends: &Sends) -> Result<String, Fail> {
    let mut text = String::new(alloc);
    for send in sends.items() {
        text.push_str(match send.0 {
            0 => "0",
            1 => "1",
            _ => "2",
        })?;
        text.push_str(match &send.1 {
            Request::Ask { .. } => "a",
            Request::Release { .. } => "r",
            Request::Query { .. } => "q",
            Request::NameGet { .. } => "n",
            _ => "?",
        })?;
    }
    Ok(text)
}

fn value(child: Option<Child>) -> &'static str {
    match child {
        Some(child) => { if child.gfid.0 == 2 { "two" } else { "three" } }
        None => "none",
    }
}

/// What comes of a reply, None standing for a giving up: the sends, and the answer.
fn step(
    alloc: Global,
    call: &mut LookupCall,
    next: u64,
    brick: u8,
    reply: Option<Reply>,
) -> Result<String, Fail>
    requires { next < 2 ^ 62 }
{
    let mut sends = Sends::new(alloc);
    let turn = match reply {
        Some(reply) => call.hear(&(), next, brick, &reply, &mut sends)?,
        None => call.give_up(&(), next, brick, &mut sends)?,
    };
    let mut text = letters(alloc, &sends)?;
    match turn {
        Turn::Wait => {}
        Turn::Done(Answer::Child(child)) => {
            text.push_str(" child ")?;
            text.push_str(value(Some(child)))?;
        }
        Turn::Done(Answer::NoName) => text.push_str(" no name")?,
        Turn::Done(Answer::NotDir) => text.push_str(" not a directory")?,
        Turn::Done(Answer::Split(a, b)) => {
            text.push_str(" split ")?;
            text.push_str(value(a))?;
            text.push_str(" ")?;
            text.push_str(value(b))?;
        }
        Turn::Done(
            Answer::NoQuorum {
                phase: Phase::Name,
                most,
            },
        ) => text.push_str(format!(in alloc; " name {most}")?.as_str())?,
        Turn::Done(_) => text.push_str(" other")?,
    }
    Ok(text)
}

/// What comes of the last of these replies, three for each round.
fn last_of(alloc: Global, replies: &[u8]) -> Result<String, Fail> {
    let ctx = ctx()?;
    let Ok(name) = Name::new(alloc, b"f") else {
        return Err(Fail::from("no name"));
    };
    let mut sends = Sends::new(alloc);
    let mut call = begin_lookup(alloc, &ctx, Gfid(1), &name, 1, &mut sends)?;
    let mut last = letters(alloc, &sends)?;
    let mut brick = 0u8;
    for letter in replies {
        let reply = reply_of(ctx.geometry, *letter);
        last = step(alloc, &mut call, 100, brick, reply)?;
        brick = brick.wrapping_add(1) % 3;
    }
    Ok(last)
}

#[test]
fn names_are_looked_up(rt: HostRuntime) -> Result<(), Fail> {
    let table = [
        ("gggddd", "0n1n2n"),
        ("ggghhh", "0r1r2r not a directory"),
        ("gggdddaaa", "0r1r2r child two"),
        ("gggdddaab", "0r1r2r child two"),
        ("gggdddxbb", "0r1r2r child three"),
        ("gggdddnan", "0r1r2r no name"),
        ("gggdddabn", "0r1r2r split two three"),
        ("gggdddfna", "0r1r2r split none two"),
        ("gggdddaxf", "0r1r2r name 1"),
    ];
    for (replies, text) in table {
        let last = last_of(rt.alloc(), replies.as_bytes())?;
        assert!(rt; last.as_str() == text);
    }
    Ok(())
}
