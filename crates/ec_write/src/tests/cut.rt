// Truncates on three bricks, reply by reply, with the chunks that are written.
ghost use Rattle.std.specs.Prelude.{◌<◌, ◌^◌};

use super::{ctx, head};
use crate::rows::PlainRows;
use crate::{TruncateCall, begin_truncate};
use ec_attr::{Geometry, Gfid, Kind};
use ec_field::Chunk;
use ec_stripe::encode;
use ec_txn::{Call, Sends, Turn};
use ec_wire::{Answer, ChunkList, Phase, Reply, Request};
use std::alloc::Global;
use std::test::Fail;

/// Of 512 bytes the first are 65, so many, and the others zeros.
fn front(len: usize) -> Chunk {
    let mut bytes = [0u8; 512];
    for i in 0..512usize {
        if i < len {
            bytes[i] = 65;
        }
    }
    Chunk::from_array(bytes)
}

/// A brick's chunk of the stripe whose first bytes are 65, so many, and the others zeros.
fn piece(geometry: &Geometry, brick: u8, len: usize) -> Chunk {
    let mut chunks = [Chunk::zero(); 16];
    for j in 0..16usize {
        chunks[j] = front(len.saturating_sub(512 * j));
    }
    if brick < geometry.n {
        encode(
            &PlainRows,
            geometry,
            brick,
            &chunks[..usize::from(geometry.k())],
        )
    } else {
        Chunk::zero()
    }
}

fn is_one(chunks: &ChunkList, wanted: &Chunk) -> bool {
    chunks.len() == 1 && chunks.items()[0].bytes() == wanted.bytes()
}

/// Each send: its brick, and a for Ask, r for Release, q for Query, p for PreOp, g for ReadChunks, w for WriteChunks, s for
/// SetLength, o for PostOp, c for Clear, with the first stripe, with keep and length, or with the size. After a w stands `=`
/// where the chunk is of a stripe of so many bytes.
fn told(alloc: Global, geometry: &Geometry, low: usize, sends: &Sends) -> Result<String, Fail> {
    let mut text = String::new(alloc);
    for send in sends.items() {
        text.push_str(format!(in alloc; "{}", send.0)?.as_str())?;
        match &send.1 {
            Request::Ask { .. } => text.push_str("a")?,
            Request::Release { .. } => text.push_str("r")?,
            Request::Query { .. } => text.push_str("q")?,
            Request::PreOp { .. } => text.push_str("p")?,
            Request::ReadChunks { first, .. } => {
                text.push_str(format!(in alloc; "g{first};")?.as_str())?;
            }
            Request::WriteChunks { first, chunks, .. } => {
                text.push_str(format!(in alloc; "w{first}")?.as_str())?;
                let same = is_one(chunks, &piece(geometry, send.0, low));
                text.push_str(if same { "=" } else { "!" })?;
            }
            Request::SetLength { keep, length, .. } => {
                text.push_str(format!(in alloc; "s{keep}")?.as_str())?;
                text.push_str(format!(in alloc; ",{length};")?.as_str())?;
            }
            Request::PostOp { size, .. } => {
                text.push_str(format!(in alloc; "o{size};")?.as_str())?;
            }
            Request::Clear { .. } => text.push_str("c")?,
            _ => text.push_str("?")?,
        }
    }
    Ok(text)
}

/// The reply of a letter: g a grant, h the head of a file of this size, l the same with the last version, d done, c its
/// chunk of a stripe of `held` bytes, f a fault; x is given up.
fn reply_of(
    alloc: Global,
    geometry: &Geometry,
    size: u64,
    held: usize,
    brick: u8,
    letter: u8,
) -> Result<Option<Reply>, Fail> {
    Ok(match letter {
        b'g' => Some(Reply::Granted),
        b'h' => Some(Reply::Head(head(*geometry, 7, size, Kind::File))),
        b'l' => Some(Reply::Head(head(*geometry, (1 << 61) - 1, size, Kind::File))),
        b'd' => Some(Reply::Done),
        b'c' => {
            let mut chunks = ChunkList::new(alloc);
            chunks.push(piece(geometry, brick, held))?;
            Some(Reply::Chunks(chunks))
        }
        b'f' => Some(Reply::Fault),
        _ => None,
    })
}

fn answer_told(alloc: Global, answer: &Answer) -> Result<String, Fail> {
    let mut text = String::new(alloc);
    match answer {
        Answer::Size(size) => text.push_str(format!(in alloc; "size {size}")?.as_str())?,
        Answer::NoQuorum {
            phase: Phase::Trim,
            most,
        } => text.push_str(format!(in alloc; "trim {most}")?.as_str())?,
        Answer::Limit(version) => text.push_str(format!(in alloc; "limit {version}")?.as_str())?,
        _ => text.push_str("other")?,
    }
    Ok(text)
}

/// What a truncate of a file of `size` bytes sends and is answered, by a script of replies: each a brick and a letter. The
/// stripe that is read has `held` bytes, the one that is written is to have `low`.
fn played(
    alloc: Global,
    to: u64,
    size: u64,
    held: usize,
    low: usize,
    script: &str,
) -> Result<String, Fail> {
    let ctx = ctx(3, 1)?;
    let mut sends = Sends::new(alloc);
    let mut call = begin_truncate(alloc, &ctx, Gfid(2), to, 1, &mut sends)?;
    let mut text = told(alloc, &ctx.geometry, low, &sends)?;
    let mut brick = 0u8;
    let mut is_brick = true;
    for letter in script.as_bytes() {
        if is_brick {
            brick = letter.wrapping_sub(b'0');
        } else {
            let reply = reply_of(alloc, &ctx.geometry, size, held, brick, *letter)?;
            let mut sends = Sends::new(alloc);
            let turn = match reply {
                Some(reply) => call.hear(&PlainRows, 100, brick, &reply, &mut sends)?,
                None => {
                    <TruncateCall as Call<PlainRows>>::give_up(
                        &mut call, &PlainRows, 100, brick, &mut sends,
                    )?
                }
            };
            if sends.len() > 0 {
                text.push_str(" ")?;
                text.push_str(told(alloc, &ctx.geometry, low, &sends)?.as_str())?;
            }
            if let Turn::Done(answer) = turn {
                text.push_str(" ")?;
                text.push_str(answer_told(alloc, &answer)?.as_str())?;
            }
        }
        is_brick = !is_brick;
    }
    Ok(text)
}

#[test]
fn only_a_cut_on_a_border(rt: HostRuntime) -> Result<(), Fail> {
    let down = played(
        rt.alloc(),
        1024,
        2148,
        0,
        0,
        "0g1g2g0h1h2h0d1d2d0d1d2d0d1d2d0d1d2d",
    )?;
    assert!(rt;
        down.as_str()
            == "0a 1a 2a 0q1q2q 0p1p2p 0s1,1;1s1,1;2s1,1; 0o1024;1o1024;2o1024; 0c1c2c 0r1r2r size 1024"
    );
    let up = played(rt.alloc(), 2000, 1024, 0, 0, "0g1g2g0h1h2h0d1d2d0d1f2x")?;
    assert!(rt; up.as_str() == "0a 1a 2a 0q1q2q 0p1p2p 0s1,2;1s1,2;2s1,2; 0r1r2r trim 1");
    Ok(())
}

#[test]
fn the_tail_is_zeros(rt: HostRuntime) -> Result<(), Fail> {
    let down = played(
        rt.alloc(),
        1624,
        2500,
        1024,
        600,
        "0g1g2g0h1h2h0d1d2d0c1c0d1f2d0d2d0d2d",
    )?;
    assert!(rt;
        down.as_str()
            == "0a 1a 2a 0q1q2q 0p1p2p 0g1;1g1; 0w1=1w1=2w1= 0s2,2;2s2,2; 0o1624;2o1624; 0r1r2r size 1624"
    );
    // What stands past the old size is none of the file's bytes.
    let up = played(
        rt.alloc(),
        3000,
        600,
        1024,
        600,
        "0g1g2g0h1h2h0d1d2d0f1c2c1d2d1d2d1d2d",
    )?;
    assert!(rt;
        up.as_str()
            == "0a 1a 2a 0q1q2q 0p1p2p 0g0;1g0; 2g0; 1w0=2w0= 1s1,3;2s1,3; 1o3000;2o3000; 0r1r2r size 3000"
    );
    Ok(())
}

#[test]
fn truncates_end_at_once(rt: HostRuntime) -> Result<(), Fail> {
    let limit = played(rt.alloc(), 1, 700, 0, 0, "0g1g2g0l1l2l")?;
    assert!(rt; limit.as_str() == "0a 1a 2a 0q1q2q 0r1r2r limit 2305843009213693951");
    let ctx = ctx(6, 2)?;
    let mut sends = Sends::new(rt.alloc());
    let call = begin_truncate(rt.alloc(), &ctx, Gfid(2), (1 << 40) + 1, 1, &mut sends)?;
    let ready = <TruncateCall as Call<PlainRows>>::ready(&call)?;
    assert!(rt; matches!(ready, Some(Answer::TooBig(size)) if size == (1 << 40) + 1));
    assert!(rt; sends.len() == 0);
    Ok(())
}
