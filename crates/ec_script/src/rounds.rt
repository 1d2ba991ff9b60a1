// What a round of a generated script orders.
ghost use Rattle.std.specs.Prelude.{◌≡◌, ◌+◌, ◌^◌, ◌%◌, ◌≤◌, ◌<◌, ◌≢◌, IfOk, option_to_list, replicate};
ghost use Rattle.ec_attr.specs.Bricks.{is_in};
ghost use Rattle.ec_script.specs.Generator.{call_of, client_of, file_name, file_of, kind_of, stopped_after, turns};

use crate::draws::Draws;
use ec_attr::{BadName, Blob, BrickSet, Geometry, Gfid, Name};
use ec_wire::{Event, Op};
use std::alloc::{AllocError, Global};

/// Which of 16 kinds a round is.
pub fn kind_of(draws: &Draws) -> u64
    ensures { result ≡ kind_of draws.now }
{
    draws.a / 4 % 16
}

/// The client that calls, from 1 to 3.
pub fn client_of(draws: &Draws) -> u8
    ensures { result ≡ client_of draws.now }
{
    1 + (draws.a % 3) as u8
}

/// The file of a round, one of the four that were made.
fn file_of(first: u128, draws: &Draws) -> Gfid
    requires { first ≤ 2 ^ 96 + 1 }
    ensures { result ≡ file_of first draws.now }
{
    Gfid(first + u128::from(draws.b % 4))
}

/// So many bytes of one value.
fn repeated(alloc: Global, byte: u8, len: u64) -> Result<Blob, AllocError>
    ensures { IfOk result (λ b. b ≡ replicate len byte) }
{
    let mut bytes = Blob::new(alloc);
    for _ in 0..len {
        bytes.push(byte)?;
    }
    Ok(bytes)
}

/// The call of a round of another kind than 14.
pub fn call_of(alloc: Global, first: u128, draws: &Draws) -> Result<Op, AllocError>
    requires { first ≤ 2 ^ 96 + 1 }
    ensures { IfOk result (λ op. op ≡ call_of first draws.now) }
{
    let gfid = file_of(first, draws);
    let off = draws.c % 65536;
    let len = 1 + draws.d % 4096;
    Ok(match kind_of(draws) {
        0..=7 => Op::Write {
            gfid,
            off,
            bytes: repeated(alloc, (draws.d % 256) as u8, len)?,
        },
        8..=11 => Op::Read {
            gfid,
            off,
            len,
            via: None,
        },
        12 => Op::Truncate { gfid, size: off },
        13 => Op::Stat { gfid },
        _ => Op::Heal { gfid },
    })
}

/// The name of the file that gets this gfid.
pub fn file_name(alloc: Global, gfid: u128) -> Result<Name, AllocError>
    requires { gfid < 2 ^ 97 }
    ensures { IfOk result (λ name. name ≡ file_name gfid) }
{
    let text = format!(in alloc; "g{gfid}")?;
    match Name::new(alloc, text.as_bytes()) {
        Ok(name) => Ok(name),
        Err(BadName::NoMemory) => Err(AllocError),
        Err(BadName::NotAName) => unreachable!(),
    }
}

/// What a round orders of a brick, which is then stopped or up: it returns, or stops, or neither.
pub fn turn(geometry: &Geometry, stopped: &mut BrickSet, draws: &Draws) -> Option<Event>
    ensures value { turns geometry.now (is_in stopped.old) (draws.now.c % geometry.now.n) ≡ option_to_list result }
    ensures after { is_in stopped.new ≡ stopped_after (option_to_list result) (is_in stopped.old) }
{
    let brick = (draws.c % u64::from(geometry.n)) as u8;
    if stopped.has(brick) {
        *stopped = stopped.minus(brick);
        return Some(Event::Return(brick));
    }
    if stopped.len() + geometry.k() < geometry.n {
        *stopped = stopped.plus(brick);
        return Some(Event::Stop(brick));
    }
    None
}
