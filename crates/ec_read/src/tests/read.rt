// Reads, brick by brick.
ghost use Rattle.std.specs.Prelude.{◌<◌, ◌^◌, IfSome};

use super::head;
use crate::rows::PlainRows;
use crate::{ReadCall, begin_read};
use ec_attr::{BrickSet, Geometry, Gfid, Kind, Policy};
use ec_field::Chunk;
use ec_stripe::encode;
use ec_txn::{Call, Ctx, Sends, Turn};
use ec_wire::{Answer, ChunkList, Phase, Reply, Request};
use std::alloc::Global;
use std::test::Fail;

/// A call of this number.
fn ctx(n: u32, r: u32, call: u32, policy: Policy) -> Result<Ctx, Fail> {
    match Geometry::new(n, r) {
        Ok(geometry) => Ok(Ctx {
            geometry,
            call,
            client: 1,
            policy,
            window: 8,
            child: Gfid(9),
            eager: false,
        }),
        Err(_) => Err(Fail::from("no geometry")),
    }
}

/// The 512 bytes from a place of the file on.
fn chunk_of(place: u64) -> Chunk
    requires { place < 2 ^ 40 }
{
    let mut bytes = [0u8; 512];
    for i in 0..512usize {
        bytes[i] = ((place + i as u64) % 251) as u8;
    }
    Chunk::from_array(bytes)
}

/// What a brick keeps of a stripe.
fn piece(geometry: &Geometry, brick: u8, stripe: u64) -> Chunk
    requires brick { brick < geometry.now.n }
    requires stripe { stripe < 2 ^ 20 }
{
    let k = usize::from(geometry.k());
    let mut chunks = [Chunk::zero(); 16];
    for j in 0..16usize {
        chunks[j] = chunk_of((stripe * u64::from(geometry.k()) + j as u64) * 512);
    }
    encode(&PlainRows, geometry, brick, &chunks[..k])
}

/// The chunks that a brick gives.
fn pieces(
    alloc: Global,
    geometry: &Geometry,
    brick: u8,
    first: u64,
    count: u32,
) -> Result<ChunkList, Fail>
    requires brick { brick < geometry.now.n }
{
    let mut list = ChunkList::new(alloc);
    for i in 0..count {
        if first < 1000 && i < 1000 {
            list.push(piece(geometry, brick, first + u64::from(i)))?;
        }
    }
    Ok(list)
}

/// What a brick replies, by its letter: d gives no lock, s has another version, n no record and k a directory; f has a
/// fault as it is read, x is given up then, and any other letter gives what is asked.
fn reply_of(
    alloc: Global,
    geometry: &Geometry,
    letter: u8,
    phase: Phase,
    brick: u8,
    read: (u64, u32),
) -> Result<Option<Reply>, Fail>
    requires brick { brick < geometry.now.n }
{
    Ok(match phase {
        Phase::Lock => {
            if letter == b'd' {
                None
            } else {
                Some(Reply::Granted)
            }
        }
        Phase::Query => {
            let mut head = head(*geometry, 7);
            head.size = 5000;
            match letter {
                b'n' => Some(Reply::NoInode),
                b's' => {
                    head.version.content = 6;
                    Some(Reply::Head(head))
                }
                b'k' => {
                    head.kind = Kind::Dir;
                    Some(Reply::Head(head))
                }
                _ => Some(Reply::Head(head)),
            }
        }
        _ => match letter {
            b'f' => Some(Reply::Fault),
            b'x' => None,
            _ => Some(Reply::Chunks(pieces(alloc, geometry, brick, read.0, read.1)?)),
        },
    })
}

/// Adds the bricks that are asked for chunks, and gives what they were asked for.
fn note(
    alloc: Global,
    sends: &Sends,
    text: &mut String,
    read: (u64, u32),
) -> Result<(u64, u32), Fail> {
    let mut read = read;
    for send in sends.items() {
        if let Request::ReadChunks { first, count, .. } = &send.1 {
            let brick = send.0;
            text.push_str(format!(in alloc; "{brick}")?.as_str())?;
            read = (*first, *count);
        }
    }
    Ok(read)
}

/// Whether the bytes are those of the file from a place on.
fn are_right(bytes: &[u8], off: u64) -> bool
    requires { off < 2 ^ 40 }
{
    let mut right = true;
    for i in 0..bytes.len() {
        if u64::from(bytes[i]) != (off + i as u64) % 251 {
            right = false;
        }
    }
    right
}

fn answer_text(alloc: Global, answer: &Answer, off: u64) -> Result<String, Fail>
    requires { off < 2 ^ 40 }
{
    Ok(match answer {
        Answer::Bytes(bytes) => {
            let count = bytes.len();
            if are_right(bytes.items(), off) {
                format!(in alloc; " right {count}")?
            } else {
                format!(in alloc; " wrong {count}")?
            }
        }
        Answer::NoQuorum {
            phase: Phase::Read,
            most,
        } => format!(in alloc; " read {most}")?,
        Answer::NoQuorum {
            phase: Phase::Query,
            most,
        } => format!(in alloc; " query {most}")?,
        Answer::NoQuorum {
            phase: Phase::Lock,
            most,
        } => format!(in alloc; " lock {most}")?,
        Answer::TooLong(count) => format!(in alloc; " long {count}")?,
        Answer::NoSuch => String::from_str(alloc, " no such")?,
        Answer::IsDir => String::from_str(alloc, " dir")?,
        _ => String::from_str(alloc, " other")?,
    })
}

/// The lowest brick that is waited for.
fn lowest(call: &ReadCall, bricks: u8) -> Option<u8>
    ensures { IfSome result (λ brick. brick < bricks) }
{
    for brick in 0..bricks {
        if <ReadCall as Call<PlainRows>>::awaits(call, brick).is_some() {
            return Some(brick);
        }
    }
    None
}

/// Reads, where the bricks reply by these letters, the lowest that is waited for first: who is asked for chunks, and the
/// answer.
fn read(
    alloc: Global,
    ctx: &Ctx,
    letters: &[u8],
    off: u64,
    len: u64,
    via: Option<BrickSet>,
) -> Result<String, Fail>
    requires { off < 2 ^ 40 }
{
    let mut text = String::new(alloc);
    let mut sends = Sends::new(alloc);
    let mut call = begin_read(alloc, ctx, Gfid(2), off, len, via, 1, &mut sends)?;
    if let Some(answer) = <ReadCall as Call<PlainRows>>::ready(&call)? {
        text.push_str(answer_text(alloc, &answer, off)?.as_str())?;
        return Ok(text);
    }
    let mut read = (0u64, 0u32);
    for turn in 1..60u64 {
        let Some(brick) = lowest(&call, ctx.geometry.n) else {
            return Ok(text);
        };
        let letter = if usize::from(brick) < letters.len() {
            letters[usize::from(brick)]
        } else {
            b'a'
        };
        let phase = <ReadCall as Call<PlainRows>>::phase(&call);
        let reply = reply_of(alloc, &ctx.geometry, letter, phase, brick, read)?;
        let mut more = Sends::new(alloc);
        let turned = match reply {
            Some(reply) => call.hear(&PlainRows, 100 * turn, brick, &reply, &mut more)?,
            None => {
                <ReadCall as Call<PlainRows>>::give_up(
                    &mut call,
                    &PlainRows,
                    100 * turn,
                    brick,
                    &mut more,
                )?
            }
        };
        read = note(alloc, &more, &mut text, read)?;
        if let Turn::Done(answer) = turned {
            text.push_str(answer_text(alloc, &answer, off)?.as_str())?;
            return Ok(text);
        }
    }
    Ok(text)
}

/// Reads of stripes of 1024 bytes, on three bricks.
#[test]
fn gives_the_bytes_below_the_size(rt: HostRuntime) -> Result<(), Fail> {
    let ctx = ctx(3, 1, 1, Policy::RoundRobin)?;
    let table = [
        (0u64, 10u64, "01 right 10"),
        (1000, 50, "01 right 50"),
        (4990, 100, "01 right 10"),
        (0, 1048576, "01 right 5000"),
    ];
    for (off, len, text) in table {
        let told = read(rt.alloc(), &ctx, b"aaa", off, len, None)?;
        assert!(rt; told.as_str() == text, "{text}");
    }
    Ok(())
}

#[test]
fn reads_another_brick_for_one_that_failed(rt: HostRuntime) -> Result<(), Fail> {
    let ctx = ctx(3, 1, 1, Policy::RoundRobin)?;
    let table = [
        (b"faa", 700u64, 3000u64, "012 right 3000"),
        (b"xaa", 1023, 2, "012 right 2"),
        (b"afa", 0, 1024, "012 right 1024"),
        (b"saa", 1, 1023, "12 right 1023"),
    ];
    for (letters, off, len, text) in table {
        let told = read(rt.alloc(), &ctx, letters, off, len, None)?;
        assert!(rt; told.as_str() == text, "{text}");
    }
    Ok(())
}

#[test]
fn asks_no_brick_for_no_bytes(rt: HostRuntime) -> Result<(), Fail> {
    let ctx = ctx(3, 1, 1, Policy::RoundRobin)?;
    let table = [
        (5000u64, 10u64, " right 0"),
        (9000, 10, " right 0"),
        (10, 0, " right 0"),
        (0, 1048577, " long 1048577"),
    ];
    for (off, len, text) in table {
        let told = read(rt.alloc(), &ctx, b"aaa", off, len, None)?;
        assert!(rt; told.as_str() == text, "{text}");
    }
    Ok(())
}

#[test]
fn says_why_there_are_no_bytes(rt: HostRuntime) -> Result<(), Fail> {
    let ctx = ctx(3, 1, 1, Policy::RoundRobin)?;
    let table = [
        (b"kkk", " dir"),
        (b"ann", " no such"),
        (b"san", " query 1"),
        (b"dda", " lock 1"),
    ];
    for (letters, text) in table {
        let told = read(rt.alloc(), &ctx, letters, 0, 10, None)?;
        assert!(rt; told.as_str() == text, "{text}");
    }
    Ok(())
}

#[test]
fn tells_how_many_gave_their_chunks(rt: HostRuntime) -> Result<(), Fail> {
    let ctx = ctx(3, 1, 1, Policy::RoundRobin)?;
    let table = [
        (b"ffa", "012 read 1"),
        (b"xxx", "012 read 0"),
        (b"sfa", "12 read 1"),
    ];
    for (letters, text) in table {
        let told = read(rt.alloc(), &ctx, letters, 0, 10, None)?;
        assert!(rt; told.as_str() == text, "{text}");
    }
    Ok(())
}

#[test]
fn named_bricks(rt: HostRuntime) -> Result<(), Fail> {
    let ctx = ctx(3, 1, 1, Policy::RoundRobin)?;
    let none = BrickSet::empty();
    let table = [
        (b"aaa", none.plus(1).plus(2), "12 right 100"),
        (b"aaa", none.plus(0).plus(2), "02 right 100"),
        (b"faa", none.plus(0).plus(1), "01 read 1"),
        (b"saa", none.plus(0).plus(1), "1 read 1"),
        (b"aaa", none, " read 0"),
    ];
    for (letters, via, text) in table {
        let told = read(rt.alloc(), &ctx, letters, 3000, 100, Some(via))?;
        assert!(rt; told.as_str() == text, "{text}");
    }
    Ok(())
}

/// Reads of stripes of 2048 bytes, on six bricks. The third call chooses from brick 2 on, and so does a read of gfid 2 by the
/// file's id.
#[test]
fn chooses_by_the_policy(rt: HostRuntime) -> Result<(), Fail> {
    let first = ctx(6, 2, 1, Policy::RoundRobin)?;
    let third = ctx(6, 2, 3, Policy::RoundRobin)?;
    let hashed = ctx(6, 2, 1, Policy::GfidHash)?;
    let table = [
        (first, b"aaaaaa", "0123 right 4000"),
        (third, b"aaaaaa", "2345 right 4000"),
        (hashed, b"aaaaaa", "2345 right 4000"),
        (third, b"aasaaa", "0345 right 4000"),
    ];
    for (ctx, letters, text) in table {
        let told = read(rt.alloc(), &ctx, letters, 1000, 4000, None)?;
        assert!(rt; told.as_str() == text, "{text}");
    }
    let via = BrickSet::empty().plus(1).plus(2).plus(3).plus(5);
    let told = read(rt.alloc(), &first, b"aaaaaa", 2047, 2, Some(via))?;
    assert!(rt; told.as_str() == "1235 right 2");
    Ok(())
}

#[test]
fn goes_on_to_the_next_brick(rt: HostRuntime) -> Result<(), Fail> {
    let first = ctx(6, 2, 1, Policy::RoundRobin)?;
    let third = ctx(6, 2, 3, Policy::RoundRobin)?;
    let table = [
        (first, b"afaaaa", "01234 right 4000"),
        (first, b"afaaxa", "012345 right 4000"),
        (first, b"afaxaa", "012345 right 4000"),
        (third, b"aaafaa", "23450 right 4000"),
    ];
    for (ctx, letters, text) in table {
        let told = read(rt.alloc(), &ctx, letters, 1000, 4000, None)?;
        assert!(rt; told.as_str() == text, "{text}");
    }
    Ok(())
}

#[test]
fn goes_round_all_bricks(rt: HostRuntime) -> Result<(), Fail> {
    let first = ctx(6, 2, 1, Policy::RoundRobin)?;
    let third = ctx(6, 2, 3, Policy::RoundRobin)?;
    let table = [
        (third, b"aaafxa", "234501 right 4000"),
        (third, b"aafffa", "234501 read 3"),
        (first, b"aaassa", "0125 right 4000"),
        (first, b"aaasss", " query 3"),
    ];
    for (ctx, letters, text) in table {
        let told = read(rt.alloc(), &ctx, letters, 1000, 4000, None)?;
        assert!(rt; told.as_str() == text, "{text}");
    }
    Ok(())
}
