// Events that are refused, and change nothing.
use crate::bench::Bench;
use ec_world::Refused;
use std::process::Abort;
use std::test::Fail;

/// After a script on three bricks a line is refused so.
fn refused(
    rt: &(impl Abort + AllocGlobal),
    script: &str,
    line: &str,
    wanted: Refused,
) -> Result<(), Fail> {
    let mut bench = Bench::new(rt, 3, 1)?;
    bench.play(rt, script);
    bench.refuses(rt, line, wanted)
}

#[test]
fn messages_are_refused(rt: HostRuntime) -> Result<(), Fail> {
    let table = [
        ("call 1 stat 1", "deliver 2", Refused::NoMessage(2)),
        (
            "call 1 stat 1",
            "lose b0-c1",
            Refused::NoneBetween {
                client: 1,
                brick: 0,
            },
        ),
        ("call 1 stat 1", "tear 1 0", Refused::NotTearable(1)),
        (
            "call 1 create 1 66\nsettle\ncall 1 write 2 0 41\nuntil 1 write",
            "tear c1-b2 513",
            Refused::TooMany(513),
        ),
    ];
    for (script, line, wanted) in table {
        refused(&rt, script, line, wanted)?;
    }
    Ok(())
}

#[test]
fn bricks_are_refused(rt: HostRuntime) -> Result<(), Fail> {
    let table = [
        ("stop 1", "stop 1", Refused::Down(1)),
        ("call 1 stat 1\nstop 0", "deliver c1-b0", Refused::Down(0)),
        ("stop 1", "return 2", Refused::Up(2)),
        ("", "cut 1 3", Refused::NoBrick(3)),
        ("", "call 1 read 2 0 1 via 1", Refused::NoBrick(31)),
    ];
    for (script, line, wanted) in table {
        refused(&rt, script, line, wanted)?;
    }
    Ok(())
}

#[test]
fn clients_are_refused(rt: HostRuntime) -> Result<(), Fail> {
    let table = [
        (
            "call 2 stat 1\ncall 1 stat 1",
            "call 1 stat 1",
            Refused::Busy(2),
        ),
        ("call 2 stat 1", "until 1 query", Refused::Idle(1)),
        ("call 1 stat 1\ndie 1", "die 1", Refused::Dead(1)),
        (
            "call 1 stat 1",
            "giveup 1 1",
            Refused::NotAsked {
                client: 1,
                brick: 1,
            },
        ),
        ("call 1 stat 1", "yield 1", Refused::NotKeeping(1)),
    ];
    for (script, line, wanted) in table {
        refused(&rt, script, line, wanted)?;
    }
    Ok(())
}

/// What isn't built is refused as such before all else.
#[test]
fn unbuilt_events_are_refused(rt: HostRuntime) -> Result<(), Fail> {
    for line in ["call 1 heal 1", "replace 0"] {
        refused(&rt, "die 1", line, Refused::Unbuilt)?;
    }
    Ok(())
}
