// A create and a mkdir on three bricks, reply by reply.
ghost use Rattle.std.specs.Prelude.{◌<◌, ◌^◌};

use crate::tests::{file, head};
use crate::{MakeCall, begin_make};
use ec_attr::{Geometry, Gfid, Head, Kind, Name, Policy, marked};
use ec_txn::{Call, Ctx, Sends, Turn};
use ec_wire::{Answer, Phase, Reply, Request, phase_word};
use std::alloc::Global;
use std::test::Fail;

/// Two bricks of three suffice.
fn ctx(child: u128) -> Result<Ctx, Fail> {
    match Geometry::new(3, 1) {
        Ok(geometry) => Ok(Ctx {
            geometry,
            call: 1,
            client: 1,
            policy: Policy::RoundRobin,
            window: 8,
            child: Gfid(child),
            eager: false,
        }),
        Err(_) => Err(Fail::from("no geometry")),
    }
}

fn at_version(geometry: Geometry, content: u64) -> Head {
    let mut head = head(geometry, Kind::Dir);
    head.version.content = content;
    head
}

/// The reply of a letter: g a grant; d a head of a directory, h one of a file, s a marked one and l one at the last
/// version; a and b two children, n none; k done, i a record that is there, f a fault; x is given up.
fn reply_of(geometry: Geometry, letter: u8) -> Option<Reply> {
    match letter {
        b'g' => Some(Reply::Granted),
        b'd' => Some(Reply::Head(head(geometry, Kind::Dir))),
        b'h' => Some(Reply::Head(head(geometry, Kind::File))),
        b's' => Some(Reply::Head(at_version(geometry, marked(7)))),
        b'l' => Some(Reply::Head(at_version(geometry, (1 << 61) - 1))),
        b'a' => Some(Reply::Child(file(2))),
        b'b' => Some(Reply::Child(file(3))),
        b'n' => Some(Reply::Child(None)),
        b'k' => Some(Reply::Done),
        b'i' => Some(Reply::IsInode),
        b'f' => Some(Reply::Fault),
        _ => None,
    }
}

fn letter_of(request: &Request) -> &'static str {
    match request {
        Request::Ask { .. } => "a",
        Request::Release { .. } => "r",
        Request::Query { .. } => "q",
        Request::NameGet { .. } => "n",
        Request::PreOp { .. } => "p",
        Request::Make { .. } => "m",
        Request::NameSet { .. } => "e",
        Request::PostOp { .. } => "o",
        Request::Clear { .. } => "c",
        Request::Made { .. } => "w",
        _ => "?",
    }
}

/// For each send its brick and a letter.
fn letters(alloc: Global, sends: &Sends) -> Result<String, Fail> {
    let mut text = String::new(alloc);
    for send in sends.items() {
        text.push_str(match send.0 {
            0 => "0",
            1 => "1",
            _ => "2",
        })?;
        text.push_str(letter_of(&send.1))?;
    }
    Ok(text)
}

fn number(gfid: Gfid) -> &'static str {
    match gfid.0 {
        2 => "two",
        3 => "three",
        9 => "nine",
        _ => "another",
    }
}

fn kind_word(kind: Kind) -> &'static str {
    match kind {
        Kind::File => "file",
        Kind::Dir => "dir",
    }
}

fn answered(alloc: Global, answer: &Answer) -> Result<String, Fail> {
    let mut text = String::new(alloc);
    match answer {
        Answer::Child(child) => {
            text.push_str(kind_word(child.kind))?;
            text.push_str(" ")?;
            text.push_str(number(child.gfid))?;
        }
        Answer::Exists(child) => {
            text.push_str("exists ")?;
            text.push_str(number(child.gfid))?;
        }
        Answer::Split(Some(a), Some(b)) => {
            text.push_str("split ")?;
            text.push_str(number(a.gfid))?;
            text.push_str(" ")?;
            text.push_str(number(b.gfid))?;
        }
        Answer::NoQuorum { phase, most } => {
            text.push_str(phase_word(*phase))?;
            text.push_str(format!(in alloc; " {most}")?.as_str())?;
        }
        Answer::Limit(_) => text.push_str("limit")?,
        Answer::NotDir => text.push_str("not a directory")?,
        Answer::NoSuch => text.push_str("no such")?,
        Answer::Spent => text.push_str("spent")?,
        _ => text.push_str("other")?,
    }
    Ok(text)
}

/// What comes of a reply, None standing for a giving up: the sends, and the answer.
fn step(
    alloc: Global,
    call: &mut MakeCall,
    next: u64,
    brick: u8,
    reply: Option<Reply>,
) -> Result<String, Fail>
    requires { next < 2 ^ 62 }
{
    let mut sends = Sends::new(alloc);
    let turn = match reply {
        Some(reply) => call.hear(&(), next, brick, &reply, &mut sends)?,
        None => call.give_up(&(), next, brick, &mut sends)?,
    };
    let mut text = letters(alloc, &sends)?;
    if let Turn::Done(answer) = turn {
        text.push_str(" ")?;
        text.push_str(answered(alloc, &answer)?.as_str())?;
    }
    Ok(text)
}

/// The lowest brick that is waited for.
fn lowest(call: &MakeCall) -> u8 {
    let waiting = <MakeCall as Call<()>>::waiting(call);
    for brick in 0..3u8 {
        if waiting.has(brick) {
            return brick;
        }
    }
    0
}

/// What comes of the last of these replies, each of the lowest brick that is waited for.
fn last_of(alloc: Global, kind: Kind, child: u128, replies: &[u8]) -> Result<String, Fail> {
    let ctx = ctx(child)?;
    let Ok(name) = Name::new(alloc, b"f") else {
        return Err(Fail::from("no name"));
    };
    let mut sends = Sends::new(alloc);
    let mut call = begin_make(alloc, &ctx, Gfid(1), &name, kind, 1, &mut sends)?;
    let mut last = letters(alloc, &sends)?;
    if let Some(answer) = <MakeCall as Call<()>>::ready(&call)? {
        last.push_str(" ")?;
        last.push_str(answered(alloc, &answer)?.as_str())?;
    }
    for letter in replies {
        let brick = lowest(&call);
        last = step(
            alloc,
            &mut call,
            100,
            brick,
            reply_of(ctx.geometry, *letter),
        )?;
    }
    Ok(last)
}

#[test]
fn names_are_made(rt: HostRuntime) -> Result<(), Fail> {
    let table = [
        ("gggddd", "0n1n2n"),
        ("ggghhh", "0r1r2r not a directory"),
        ("gggdhf", "0r1r2r query 1"),
        ("gxx", "2r0r lock 1"),
        ("gggdddaaa", "0r1r2r exists two"),
        ("gggdddnab", "0r1r2r other"),
        ("gggdddabn", "0r1r2r split two three"),
        ("gggdddnxf", "0r1r2r name 1"),
        ("ggglllnnn", "0r1r2r limit"),
        ("gggdddnnn", "0p1p2p"),
        ("gggdddnnf", "0p1p"),
        ("gggdddnnnkff", "0r1r2r pre 1"),
        ("gggdddnnnkkk", "0m1m2m"),
        ("gggdddnnnkkkkfx", "0r1r2r make 1"),
        ("gggdddnnnkkkkik", "0e2e"),
        ("gggdddnnnkkkkkkfxk", "0r1r2r entry 1"),
        ("gggdddnnnkkkkkk", "0e1e2e"),
        ("gggdddnnnkkkkkkkkk", "0o1o2o"),
        ("gggdddnnnkkkkkkkkkffk", "0r1r2r post 1"),
        ("gggdddnnnkkkkkkkkkkkk", "0c1c2c"),
        ("gggdddnnnkkkkkkkkkkkf", "0r1r2r file nine"),
        ("gggdddnnnkkkkkkkkkkkkkkk", "0w1w2w"),
        ("gggdddnnnkkkkkkkkkkkkkfk", "0r1r2r file nine"),
        ("gggdddnnnkkkkkkkkkkkkkkkkfx", "0r1r2r file nine"),
        ("gggdddnnnkkkkfkkk", "0o2o"),
        ("gggdddnnnkkkkfkkkkk", "0r1r2r file nine"),
        ("gxgddnnkkkkkk", "0o2o"),
        ("gxgddnnkkkkkkkk", "0r2r file nine"),
        ("gggddsnn", "0p1p2p"),
        ("gggddsnnkkkkkkkkkkkk", "0r1r2r file nine"),
    ];
    for (replies, text) in table {
        let last = last_of(rt.alloc(), Kind::File, 9, replies.as_bytes())?;
        assert!(rt; last.as_str() == text);
    }
    let made = last_of(rt.alloc(), Kind::Dir, 9, b"gggdddnnnkkkkkkkkkkkkkkkkkk")?;
    assert!(rt; made.as_str() == "0r1r2r dir nine");
    let last = last_of(rt.alloc(), Kind::Dir, 1 << 96, b"")?;
    assert!(rt; last.as_str() == "0a");
    let spent = last_of(rt.alloc(), Kind::Dir, (1 << 96) + 1, b"")?;
    assert!(rt; spent.as_str() == " spent");
    Ok(())
}
