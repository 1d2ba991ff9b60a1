// The number with which the program ends by each status, and its text.
use ec_attr::{Config, Geometry, Gfid};
use ec_play::{BricksWhy, ScriptWhy, Status};
use ec_script::LineFault;
use ec_volfile::VolumeFault;
use ec_world::Refused;
use std::process::Abort;
use std::test::Fail;

/// The status has this number and this text.
fn tells(
    rt: &(impl Abort + AllocGlobal),
    status: Status,
    number: u8,
    text: &str,
) -> Result<(), Fail> {
    assert_eq!(rt; status.number(), number, "{text}");
    assert_eq!(rt; format!(in rt.alloc(); "{status}")?.as_str(), text);
    Ok(())
}

/// The text of an event in line 7 that is refused so.
fn refuses(rt: &(impl Abort + AllocGlobal), refused: Refused, text: &str) -> Result<(), Fail> {
    let why = ScriptWhy::Event(refused);
    let whole = format!(in rt.alloc(); "script line 7: {text}")?;
    tells(rt, Status::BadScript { line: 7, why }, 1, whole.as_str())
}

#[test]
fn statuses_are_told(rt: HostRuntime) -> Result<(), Fail> {
    let why = ScriptWhy::Line(LineFault::BadHex(18));
    let bad = Status::BadScript { line: 3, why };
    tells(&rt, bad, 1, "script line 3: badhex 18")?;
    let why = VolumeFault::BadGeometry { n: 4, r: 2 };
    let bad = Status::BadVolume { line: 9, why };
    tells(&rt, bad, 2, "volume line 9: badgeometry 4 2")?;
    tells(&rt, Status::Done, 0, "done")?;
    tells(&rt, Status::BadWords, 3, "bad words")?;
    tells(&rt, Status::ReadFault, 4, "read fault")?;
    tells(&rt, Status::WriteFault, 5, "write fault")?;
    tells(&rt, Status::StoreFault(30), 7, "store fault at brick 30")?;
    tells(&rt, Status::NoMemory, 8, "no memory")
}

#[test]
fn wrong_bricks_are_told(rt: HostRuntime) -> Result<(), Fail> {
    let count = BricksWhy::Count { have: 5, want: 6 };
    tells(
        &rt,
        Status::WrongBricks(count),
        6,
        "wrong bricks: count 5 6",
    )?;
    let config = BricksWhy::Config {
        brick: 1,
        config: Config {
            geometry: Geometry {
                n: 6,
                r: 2,
                algorithm: 1,
            },
        },
    };
    tells(
        &rt,
        Status::WrongBricks(config),
        6,
        "wrong bricks: config 1 0001080602000200",
    )?;
    let head = BricksWhy::Head {
        brick: 0,
        gfid: Gfid(79228162514264337593543950337),
    };
    tells(
        &rt,
        Status::WrongBricks(head),
        6,
        "wrong bricks: head 0 79228162514264337593543950337",
    )
}

#[test]
fn refusals_are_told(rt: HostRuntime) -> Result<(), Fail> {
    let between = Refused::NoneBetween {
        client: 2,
        brick: 4,
    };
    let unasked = Refused::NotAsked {
        client: 3,
        brick: 5,
    };
    refuses(&rt, Refused::NoMessage(99), "nomessage 99")?;
    refuses(&rt, between, "nonebetween 2 4")?;
    refuses(&rt, Refused::Busy(12), "busy 12")?;
    refuses(&rt, Refused::Idle(16), "idle 16")?;
    refuses(&rt, Refused::Dead(1), "dead 1")?;
    refuses(&rt, Refused::Down(0), "down 0")?;
    refuses(&rt, Refused::Up(5), "up 5")?;
    refuses(&rt, Refused::NoBrick(31), "nobrick 31")?;
    refuses(&rt, unasked, "notasked 3 5")?;
    refuses(&rt, Refused::NotTearable(7), "nottearable 7")?;
    refuses(&rt, Refused::TooMany(513), "toomany 513")?;
    refuses(&rt, Refused::NotKeeping(8), "notkeeping 8")?;
    refuses(&rt, Refused::Unbuilt, "unbuilt")
}
