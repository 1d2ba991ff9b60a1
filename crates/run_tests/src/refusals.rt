// Words, volumes, lines and events that are refused, with what is written before them.
use crate::playing::{FOUR_OF_SIX, TWO_OF_THREE, fresh, joined, plays, run_over};
use ec_play::{BricksWhy, ScriptWhy, Status};
use ec_script::LineFault;
use ec_volfile::VolumeFault;
use ec_world::Refused;
use std::test::Fail;

const CREATE: &str = "call 1 create 1 66\nsettle\n";

fn bad_line(line: u64, fault: LineFault) -> Status {
    Status::BadScript {
        line,
        why: ScriptWhy::Line(fault),
    }
}

fn bad_event(line: u64, refused: Refused) -> Status {
    Status::BadScript {
        line,
        why: ScriptWhy::Event(refused),
    }
}

/// What was settled before a bad line stands, and no call is told as open.
#[test]
fn bad_lines(rt: HostRuntime) -> Result<(), Fail> {
    let script = [(CREATE, 1), ("call 1 write 2 0 4", 1)];
    let wanted = [("1 child file 2\n", 1)];
    let status = bad_line(3, LineFault::BadHex(18));
    plays(&rt, TWO_OF_THREE, 3, &script, &wanted, status)?;
    let script = [(CREATE, 1), ("call 1 stat 2\n # x\n", 1)];
    let status = bad_line(4, LineFault::BadEvent);
    plays(&rt, TWO_OF_THREE, 3, &script, &wanted, status)
}

/// No line may follow line 2^20, not even one that is empty but for its newline.
#[test]
fn a_line_too_many(rt: HostRuntime) -> Result<(), Fail> {
    let script = [(CREATE, 1), ("#\n", 1_048_574)];
    let wanted = [("1 child file 2\n", 1)];
    plays(&rt, TWO_OF_THREE, 3, &script, &wanted, Status::Done)?;
    let script = [(CREATE, 1), ("#\n", 1_048_575)];
    let status = bad_line(1_048_577, LineFault::TooMany);
    plays(&rt, TWO_OF_THREE, 3, &script, &wanted, status)
}

/// Events that can't be: of a message that isn't, and a tear of more bytes than the request has.
#[test]
fn bad_events(rt: HostRuntime) -> Result<(), Fail> {
    let status = bad_event(1, Refused::NoMessage(99));
    plays(&rt, TWO_OF_THREE, 3, &[("deliver 99", 1)], &[], status)?;
    let script = [
        (CREATE, 1),
        ("call 1 write 2 0 41*1024\nuntil 1 write\n", 1),
        ("tear c1-b2 513\n", 1),
    ];
    let wanted = [("1 child file 2\n", 1)];
    let status = bad_event(5, Refused::TooMany(513));
    plays(&rt, TWO_OF_THREE, 3, &script, &wanted, status)?;
    let script = [
        (CREATE, 1),
        ("call 1 write 2 0 41*1024\nuntil 1 write\n", 1),
        ("tear c1-b2 512\nsettle\n", 1),
    ];
    let wanted = [("1 child file 2\n2 ok 1024\n", 1)];
    plays(&rt, TWO_OF_THREE, 3, &script, &wanted, Status::Done)
}

/// Of words that are no command line, and of volumes that aren't there as they are described, nothing is read further.
#[test]
fn before_the_script(rt: HostRuntime) -> Result<(), Fail> {
    let alloc = rt.alloc();
    let mut stores = fresh(alloc, 3)?;
    for words in [["play", "x"], ["x", "play"], ["--log", "--log"]] {
        let script = joined(alloc, &[(CREATE, 1)])?;
        let ran = run_over(alloc, &words, TWO_OF_THREE, script, &mut stores)?;
        assert_eq!(rt; ran.status, Status::BadWords, "{words:?}");
        assert_eq!(rt; (ran.out.writes(), ran.log.len()), (0, 0), "{words:?}");
    }
    let why = BricksWhy::Count { have: 5, want: 6 };
    let script = [(CREATE, 1)];
    plays(&rt, FOUR_OF_SIX, 5, &script, &[], Status::WrongBricks(why))?;
    let status = Status::BadVolume {
        line: 5,
        why: VolumeFault::BadGeometry { n: 4, r: 2 },
    };
    let volume =
        "volume v\ntype cluster/disperse\noption redundancy 2\nsubvolumes a b c d\nend-volume\n";
    plays(&rt, volume, 0, &script, &[], status)
}
