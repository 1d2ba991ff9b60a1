// Scripts that a program apart from this one has given.
use crate::Generator;
use crate::draws::draw_round;
use ec_attr::{Geometry, Gfid};
use ec_wire::{Event, Op};
use std::alloc::Global;
use std::test::Fail;

/// What a call asks for, its numbers in their order, with a write's length and first byte.
fn call_text(alloc: Global, op: &Op) -> Result<String, Fail> {
    Ok(match op {
        Op::Write { gfid, off, bytes } => {
            let first = *bytes.items().first().ok_or("no bytes")?;
            let len = bytes.len();
            format!(in alloc; "write {} {off} {first}*{len}", gfid.0)?
        }
        Op::Read { gfid, off, len, .. } => format!(in alloc; "read {} {off} {len}", gfid.0)?,
        Op::Truncate { gfid, size } => format!(in alloc; "truncate {} {size}", gfid.0)?,
        Op::Stat { gfid } => format!(in alloc; "stat {}", gfid.0)?,
        Op::Heal { gfid } => format!(in alloc; "heal {}", gfid.0)?,
        _ => return Err(Fail::from("another call")),
    })
}

fn event_text(alloc: Global, event: &Event) -> Result<String, Fail> {
    Ok(match event {
        Event::Call { client, op } => {
            let text = call_text(alloc, op)?;
            format!(in alloc; "{client} {text}")?
        }
        Event::Stop(brick) => format!(in alloc; "stop {brick}")?,
        Event::Return(brick) => format!(in alloc; "return {brick}")?,
        Event::Settle => String::from_str(alloc, "settle")?,
        _ => return Err(Fail::from("another event")),
    })
}

/// The script from the first round on.
fn rounds(alloc: Global, start: u64, count: u64) -> Result<Generator, Fail> {
    let geometry = Geometry::new(6, 2).ok().ok_or("no geometry")?;
    let mut script = Generator::new(alloc, start, count, geometry, 2);
    for _ in 0..8 {
        let _ = script.next()?;
    }
    Ok(script)
}

#[test]
fn four_numbers_are_drawn(rt: HostRuntime) -> Result<(), Fail> {
    let mut state = 0;
    let draws = draw_round(&mut state);
    assert!(rt; draws.a == 167951807 && draws.b == 218396424);
    assert!(rt; draws.c == 1299921937 && draws.d == 861605236);
    assert!(rt; state == 7401132627792533940);
    Ok(())
}

#[test]
fn files_are_made_first(rt: HostRuntime) -> Result<(), Fail> {
    let geometry = Geometry::new(6, 2).ok().ok_or("no geometry")?;
    let first = 79228162514264337593543950337;
    let mut script = Generator::new(rt.alloc(), 0, 0, geometry, first);
    for i in 0..4u64 {
        let name = format!(in rt.alloc(); "g{}", first + u128::from(i))?;
        match script.next()? {
            Some(
                Event::Call {
                    client: 1,
                    op: Op::Create { parent, name: made },
                },
            ) => assert!(rt; parent == Gfid(1) && made.bytes() == name.as_bytes()),
            _ => return Err(Fail::from("no create")),
        }
        assert!(rt; matches!(script.next()?, Some(Event::Settle)));
    }
    assert!(rt; script.next()?.is_none() && script.next()?.is_none());
    Ok(())
}

/// For each kind a start whose first round is of it.
#[test]
fn a_round_of_each_kind(rt: HostRuntime) -> Result<(), Fail> {
    let table = [
        (3, "3 write 5 55875 202*1483"),
        (6, "3 write 4 30837 31*3616"),
        (9, "3 write 3 5800 116*1653"),
        (12, "3 write 2 46298 202*3787"),
        (15, "3 write 5 21261 31*1824"),
        (1, "3 write 3 28876 230*2791"),
        (4, "3 write 2 3838 59*828"),
        (7, "3 write 5 44337 145*2962"),
        (10, "2 read 4 19299 999"),
        (13, "2 read 3 59798 3132"),
        (16, "2 read 2 34760 1170"),
        (2, "2 read 4 42376 2137"),
        (5, "2 truncate 3 17338"),
        (8, "2 stat 2"),
        (11, "stop 5"),
        (0, "3 heal 2"),
    ];
    for (start, text) in table {
        let mut script = rounds(rt.alloc(), start, 1)?;
        let event = script.next()?.ok_or("no event")?;
        let given = event_text(rt.alloc(), &event)?;
        assert!(rt; given.as_str() == text);
        if start != 11 {
            assert!(rt; matches!(script.next()?, Some(Event::Settle)));
        }
        assert!(rt; script.next()?.is_none());
    }
    Ok(())
}

/// Of 60 rounds the third that would turn a brick finds just as many up as suffice to read.
#[test]
fn bricks_stop_and_return(rt: HostRuntime) -> Result<(), Fail> {
    let mut script = rounds(rt.alloc(), 0, 60)?;
    let mut turns = String::new(rt.alloc());
    let mut events = 0u64;
    for _ in 0..120 {
        let Some(event) = script.next()? else { break };
        events = events.saturating_add(1);
        if matches!(event, Event::Stop(_) | Event::Return(_)) {
            turns.push_str(event_text(rt.alloc(), &event)?.as_str())?;
            turns.push_str(";")?;
        }
    }
    assert!(rt; turns.as_str() == "stop 5;stop 2;return 5;stop 5;");
    assert!(rt; events == 110 && script.next()?.is_none());
    Ok(())
}
