// An unlink on three bricks, reply by reply.
ghost use Rattle.std.specs.Prelude.{◌<◌, ◌^◌};

use crate::heads::{file, head};
use ec_attr::{Child, Geometry, Gfid, Kind, Name, Policy};
use ec_entry::{UnlinkCall, begin_unlink};
use ec_txn::{Call, Ctx, Sends, Turn};
use ec_wire::{Answer, Reply, Request, phase_word};
use std::alloc::Global;
use std::test::Fail;

/// Two bricks of three suffice.
fn ctx() -> Result<Ctx, Fail> {
    match Geometry::new(3, 1) {
        Ok(geometry) => Ok(Ctx {
            geometry,
            call: 1,
            client: 1,
            policy: Policy::RoundRobin,
            window: 8,
            child: Gfid(9),
            eager: false,
        }),
        Err(_) => Err(Fail::from("no geometry")),
    }
}

/// The reply of a letter: g a grant; d the head of a directory; a and b two files, e a directory, n none; k done, f a
/// fault; x is given up.
fn reply_of(geometry: Geometry, letter: u8) -> Option<Reply> {
    match letter {
        b'g' => Some(Reply::Granted),
        b'd' => Some(Reply::Head(head(geometry, Kind::Dir))),
        b'a' => Some(Reply::Child(file(2))),
        b'b' => Some(Reply::Child(file(3))),
        b'e' => Some(Reply::Child(Some(Child {
            kind: Kind::Dir,
            gfid: Gfid(4),
        }))),
        b'n' => Some(Reply::Child(None)),
        b'k' => Some(Reply::Done),
        b'f' => Some(Reply::Fault),
        _ => None,
    }
}

fn letter_of(request: &Request) -> &'static str {
    match request {
        Request::Ask { .. } => "a",
        Request::Release { .. } => "r",
        Request::Query { .. } => "q",
        Request::NameGet { .. } => "n",
        Request::PreOp { .. } => "p",
        Request::NameSet { child: None, .. } => "e",
        Request::PostOp { .. } => "o",
        Request::Clear { .. } => "c",
        Request::Unmake { child, .. } => match child.0 {
            2 => "u",
            3 => "v",
            _ => "?",
        },
        _ => "?",
    }
}

/// For each send its brick and a letter.
fn letters(alloc: Global, sends: &Sends) -> Result<String, Fail> {
    let mut text = String::new(alloc);
    for send in sends.items() {
        text.push_str(match send.0 {
            0 => "0",
            1 => "1",
            _ => "2",
        })?;
        text.push_str(letter_of(&send.1))?;
    }
    Ok(text)
}

/// What comes of a reply, None standing for a giving up: the sends, and the answer.
fn step(
    alloc: Global,
    call: &mut UnlinkCall,
    next: u64,
    brick: u8,
    reply: Option<Reply>,
) -> Result<String, Fail>
    requires { next < 2 ^ 62 }
{
    let mut sends = Sends::new(alloc);
    let turn = match reply {
        Some(reply) => call.hear(&(), next, brick, &reply, &mut sends)?,
        None => call.give_up(&(), next, brick, &mut sends)?,
    };
    let mut text = letters(alloc, &sends)?;
    match turn {
        Turn::Wait => {}
        Turn::Done(Answer::Gone) => text.push_str(" gone")?,
        Turn::Done(Answer::IsDir) => text.push_str(" is a directory")?,
        Turn::Done(Answer::NoName) => text.push_str(" no name")?,
        Turn::Done(Answer::NoQuorum { phase, most }) => {
            text.push_str(" ")?;
            text.push_str(phase_word(phase))?;
            text.push_str(format!(in alloc; " {most}")?.as_str())?;
        }
        Turn::Done(_) => text.push_str(" other")?,
    }
    Ok(text)
}

/// The lowest brick that is waited for.
fn lowest(call: &UnlinkCall) -> u8 {
    let waiting = <UnlinkCall as Call<()>>::waiting(call);
    for brick in 0..3u8 {
        if waiting.has(brick) {
            return brick;
        }
    }
    0
}

/// What comes of the last of these replies, each of the lowest brick that is waited for.
fn last_of(alloc: Global, replies: &[u8]) -> Result<String, Fail> {
    let ctx = ctx()?;
    let Ok(name) = Name::new(alloc, b"f") else {
        return Err(Fail::from("no name"));
    };
    let mut sends = Sends::new(alloc);
    let mut call = begin_unlink(alloc, &ctx, Gfid(1), &name, 1, &mut sends)?;
    let mut last = letters(alloc, &sends)?;
    for letter in replies {
        let brick = lowest(&call);
        last = step(
            alloc,
            &mut call,
            100,
            brick,
            reply_of(ctx.geometry, *letter),
        )?;
    }
    Ok(last)
}

#[test]
fn names_are_refused(rt: HostRuntime) -> Result<(), Fail> {
    let table = [
        ("gggdddnnn", "0r1r2r no name"),
        ("gggdddnne", "0r1r2r is a directory"),
        ("gggdddxna", "1p2p"),
        ("gggdddaxf", "0r1r2r name 1"),
        ("gggdddaaakkkfxk", "0r1r2r entry 1"),
    ];
    for (replies, text) in table {
        let last = last_of(rt.alloc(), replies.as_bytes())?;
        assert!(rt; last.as_str() == text);
    }
    Ok(())
}

#[test]
fn names_are_removed(rt: HostRuntime) -> Result<(), Fail> {
    let table = [
        ("gggdddaaakkkkkkkkk", "0c1c2c"),
        ("gggdddaaakkkkkkkkkkkk", "0u1u2u"),
        ("gggdddbaakkkfkkkk", "0u1u2u"),
        ("gggdddbaakkkfkkkkkkk", "0v1v2v"),
        ("gggdddbaakkkfkkkkkkkkfx", "0r1r2r gone"),
    ];
    for (replies, text) in table {
        let last = last_of(rt.alloc(), replies.as_bytes())?;
        assert!(rt; last.as_str() == text);
    }
    Ok(())
}
