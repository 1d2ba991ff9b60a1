// Writes on three and six bricks, reply by reply; `cut` has the truncates.
ghost use Rattle.std.specs.Prelude.{◌<◌, ◌^◌};

mod cut;

use crate::rows::PlainRows;
use crate::{WriteCall, begin_write};
use ec_attr::{Attr, Blob, Config, Dirty, Geometry, Gfid, Head, Kind, Policy, Version};
use ec_field::Chunk;
use ec_txn::{Call, Ctx, Sends, Turn};
use ec_wire::{Answer, ChunkList, Phase, Reply, Request};
use std::alloc::Global;
use std::test::Fail;

fn ctx(n: u32, r: u32) -> Result<Ctx, Fail> {
    match Geometry::new(n, r) {
        Ok(geometry) => Ok(Ctx {
            geometry,
            call: 1,
            client: 1,
            policy: Policy::RoundRobin,
            window: 8,
            child: Gfid(9),
            eager: false,
        }),
        Err(_) => Err(Fail::from("no geometry")),
    }
}

fn head(geometry: Geometry, content: u64, size: u64, kind: Kind) -> Head {
    Head {
        kind,
        config: Config { geometry },
        version: Version { content, meta: 0 },
        size,
        dirty: Dirty {
            content: 0,
            meta: 0,
        },
        attr: Attr::of_new(kind),
    }
}

/// A letter for each send: its brick, and a for Ask, r for Release, q for Query, p for PreOp, g for ReadChunks, w for
/// WriteChunks, o for PostOp, c for Clear.
fn letters(alloc: Global, sends: &Sends) -> Result<String, Fail> {
    let mut text = String::new(alloc);
    for send in sends.items() {
        text.push_str(format!(in alloc; "{}", send.0)?.as_str())?;
        text.push_str(match &send.1 {
            Request::Ask { .. } => "a",
            Request::Release { .. } => "r",
            Request::Query { .. } => "q",
            Request::PreOp { .. } => "p",
            Request::ReadChunks { .. } => "g",
            Request::WriteChunks { .. } => "w",
            Request::PostOp { .. } => "o",
            Request::Clear { .. } => "c",
            _ => "?",
        })?;
    }
    Ok(text)
}

/// The reply of a letter: g a grant, h the head of a file, s the same marked, k that of a directory, d done, c a chunk of
/// zeros, n no record, f a fault; x is given up.
fn reply_of(
    alloc: Global,
    geometry: Geometry,
    size: u64,
    letter: u8,
) -> Result<Option<Reply>, Fail> {
    Ok(match letter {
        b'g' => Some(Reply::Granted),
        b'h' => Some(Reply::Head(head(geometry, 7, size, Kind::File))),
        b's' => Some(Reply::Head(head(geometry, 7 + (1 << 62), size, Kind::File))),
        b'k' => Some(Reply::Head(head(geometry, 7, 0, Kind::Dir))),
        b'd' => Some(Reply::Done),
        b'c' => {
            let mut chunks = ChunkList::new(alloc);
            chunks.push(Chunk::zero())?;
            Some(Reply::Chunks(chunks))
        }
        b'n' => Some(Reply::NoInode),
        b'f' => Some(Reply::Fault),
        _ => None,
    })
}

/// Adds what a call is answered.
fn tell(alloc: Global, text: &mut String, answer: &Answer) -> Result<(), Fail> {
    match answer {
        Answer::Size(size) => text.push_str(format!(in alloc; "size {size}")?.as_str())?,
        Answer::NoQuorum {
            phase: Phase::Pre,
            most,
        } => text.push_str(format!(in alloc; "pre {most}")?.as_str())?,
        Answer::NoQuorum {
            phase: Phase::Read,
            most,
        } => text.push_str(format!(in alloc; "read {most}")?.as_str())?,
        Answer::NoQuorum {
            phase: Phase::Write,
            most,
        } => text.push_str(format!(in alloc; "write {most}")?.as_str())?,
        Answer::NoQuorum {
            phase: Phase::Post,
            most,
        } => text.push_str(format!(in alloc; "post {most}")?.as_str())?,
        Answer::TooBig(end) => text.push_str(format!(in alloc; "too big {end}")?.as_str())?,
        Answer::IsDir => text.push_str("is a directory")?,
        Answer::NoSuch => text.push_str("no such")?,
        _ => text.push_str("other")?,
    }
    Ok(())
}

/// What a write sends and is answered, by a script of replies: each a brick and a letter.
fn played(
    alloc: Global,
    ctx: &Ctx,
    off: u64,
    len: usize,
    size: u64,
    script: &str,
) -> Result<String, Fail> {
    let bytes = Blob::from_vec(vec![in alloc; 65u8; len]?);
    let mut sends = Sends::new(alloc);
    let mut call = begin_write(alloc, ctx, Gfid(2), off, bytes, 1, &mut sends)?;
    let mut text = letters(alloc, &sends)?;
    let mut brick = 0u8;
    let mut is_brick = true;
    for letter in script.as_bytes() {
        if is_brick {
            brick = letter.wrapping_sub(b'0');
        } else {
            let reply = reply_of(alloc, ctx.geometry, size, *letter)?;
            let mut sends = Sends::new(alloc);
            let turn = match reply {
                Some(reply) => call.hear(&PlainRows, 100, brick, &reply, &mut sends)?,
                None => {
                    <WriteCall as Call<PlainRows>>::give_up(
                        &mut call, &PlainRows, 100, brick, &mut sends,
                    )?
                }
            };
            if sends.len() > 0 {
                text.push_str(" ")?;
                text.push_str(letters(alloc, &sends)?.as_str())?;
            }
            if let Turn::Done(answer) = turn {
                text.push_str(" ")?;
                tell(alloc, &mut text, &answer)?;
            }
        }
        is_brick = !is_brick;
    }
    Ok(text)
}

/// What is sent and answered after the Queries of three bricks.
fn after_queries(
    alloc: Global,
    off: u64,
    len: usize,
    size: u64,
    script: &str,
) -> Result<String, Fail> {
    let mut whole = String::new(alloc);
    whole.push_str("0g1g2g")?;
    whole.push_str(script)?;
    played(alloc, &ctx(3, 1)?, off, len, size, whole.as_str())
}

#[test]
fn whole_stripes_are_written(rt: HostRuntime) -> Result<(), Fail> {
    let table = [
        (
            "0h1h2h0d1d2d0d1d2d0d1d2d0d1d2d",
            "0a 1a 2a 0q1q2q 0p1p2p 0w1w2w 0o1o2o 0c1c2c 0r1r2r size 1024",
        ),
        (
            "0h1h2h0d1d2d0d1d2d0d1d2x",
            "0a 1a 2a 0q1q2q 0p1p2p 0w1w2w 0o1o2o 0r1r2r size 1024",
        ),
        (
            "0h1h2h0f1d2d1d2d1d2d",
            "0a 1a 2a 0q1q2q 0p1p2p 1w2w 1o2o 0r1r2r size 1024",
        ),
        (
            "0h1h2h0d1d2d0d1f2d0d2d",
            "0a 1a 2a 0q1q2q 0p1p2p 0w1w2w 0o2o 0r1r2r size 1024",
        ),
        (
            "0h1h2s0d1d2d0d1d2d0d1d2d",
            "0a 1a 2a 0q1q2q 0p1p2p 0w1w2w 0o1o2o 0r1r2r size 1024",
        ),
        ("0h1h2h0f1x2d", "0a 1a 2a 0q1q2q 0p1p2p 0r1r2r pre 1"),
        (
            "0h1h2h0d1d2d0f1x2d",
            "0a 1a 2a 0q1q2q 0p1p2p 0w1w2w 0r1r2r write 1",
        ),
        (
            "0h1h2h0d1d2d0d1d2d0f1x2d",
            "0a 1a 2a 0q1q2q 0p1p2p 0w1w2w 0o1o2o 0r1r2r post 1",
        ),
        ("0k1k2k", "0a 1a 2a 0q1q2q 0r1r2r is a directory"),
        ("0n1n2n", "0a 1a 2a 0q1q2q 0r1r2r no such"),
    ];
    for (script, text) in table {
        let all = after_queries(rt.alloc(), 0, 1024, 0, script)?;
        assert!(rt; all.as_str() == text);
    }
    Ok(())
}

#[test]
fn parts_are_read_first(rt: HostRuntime) -> Result<(), Fail> {
    let table = [
        (
            "0h1h2h0d1d2d0c1c0d1d2d0d1d2d0d1d2d",
            "0a 1a 2a 0q1q2q 0p1p2p 0g1g 0w1w2w 0o1o2o 0c1c2c 0r1r2r size 700",
        ),
        (
            "0h1h2h0d1d2d0f1c2c1d2d1d2d",
            "0a 1a 2a 0q1q2q 0p1p2p 0g1g 2g 1w2w 1o2o 0r1r2r size 700",
        ),
        (
            "0h1h2h0d1d2d0f1f2c",
            "0a 1a 2a 0q1q2q 0p1p2p 0g1g 2g 0r1r2r read 1",
        ),
    ];
    for (script, text) in table {
        let all = after_queries(rt.alloc(), 1, 1, 700, script)?;
        assert!(rt; all.as_str() == text);
    }
    let both = after_queries(
        rt.alloc(),
        1000,
        1048,
        4096,
        "0h1h2h0d1d2d0c1c0d1d2d0d1d2d0d1d2d",
    )?;
    assert!(rt;
        both.as_str() == "0a 1a 2a 0q1q2q 0p1p2p 0g1g 0w1w2w 0o1o2o 0c1c2c 0r1r2r size 4096"
    );
    Ok(())
}

#[test]
fn ends_at_once(rt: HostRuntime) -> Result<(), Fail> {
    let none = after_queries(rt.alloc(), 5, 0, 700, "0h1h2h")?;
    assert!(rt; none.as_str() == "0a 1a 2a 0q1q2q 0r1r2r size 700");
    let ctx = ctx(6, 2)?;
    let mut sends = Sends::new(rt.alloc());
    let bytes = Blob::from_vec(vec![in rt.alloc(); 65u8; 2]?);
    let call = begin_write(
        rt.alloc(),
        &ctx,
        Gfid(2),
        (1 << 40) - 1,
        bytes,
        1,
        &mut sends,
    )?;
    let ready = <WriteCall as Call<PlainRows>>::ready(&call)?;
    assert!(rt; matches!(ready, Some(Answer::TooBig(end)) if end == (1 << 40) + 1));
    assert!(rt; sends.len() == 0);
    Ok(())
}

#[test]
fn six_bricks(rt: HostRuntime) -> Result<(), Fail> {
    let text = played(
        rt.alloc(),
        &ctx(6, 2)?,
        0,
        1,
        2048,
        "0g1g2g3g4g5g0h1h2h3h4h5h0d1d2d3d4d5d0c1c2c3c0d1d2d3d4d5d0d1d2d3d4d5d0d1d2d3d4d5d",
    )?;
    assert!(rt;
        text.as_str()
            == "0a 1a 2a 3a 4a 5a 0q1q2q3q4q5q 0p1p2p3p4p5p 0g1g2g3g 0w1w2w3w4w5w 0o1o2o3o4o5o 0c1c2c3c4c5c 0r1r2r3r4r5r size 2048"
    );
    Ok(())
}
