// Scripts over fresh stores, with all that they write.
use crate::playing::{FOUR_OF_SIX, FOURS, TWO_OF_THREE, add, fresh, joined, plays, run_over};
use ec_attr::Blob;
use ec_run::Status;
use std::process::Abort;
use std::test::Fail;

const CREATE: &str = "call 1 create 1 66\nsettle\n";

/// A file that is made, written and read.
#[test]
fn a_file_is_written_and_read(rt: HostRuntime) -> Result<(), Fail> {
    let script = [
        (CREATE, 1),
        ("call 1 write 2 0 68656c6c6f\nsettle\n", 1),
        ("call 1 read 2 0 10\nsettle\n", 1),
    ];
    let wanted = [("1 child file 2\n2 ok 5\n3 data 68656c6c6f\n", 1)];
    plays(&rt, FOUR_OF_SIX, 6, &script, &wanted, Status::Done)?;
    plays(&rt, FOUR_OF_SIX, 6, &[], &[], Status::Done)
}

/// What two bricks that were down missed isn't read, and three bricks are too few.
#[test]
fn stopped_bricks_are_left_out(rt: HostRuntime) -> Result<(), Fail> {
    let script = [
        (CREATE, 1),
        ("stop 4\nstop 5\ncall 1 write 2 0 41*2048\nsettle\n", 1),
        ("return 4\nreturn 5\ncall 1 read 2 0 3\nsettle\n", 1),
        ("stop 0\ncall 1 read 2 0 3\nsettle\n", 1),
    ];
    let wanted = [(
        "1 child file 2\n2 ok 2048\n3 data 414141\n4 noquorum query 3\n",
        1,
    )];
    plays(&rt, FOUR_OF_SIX, 6, &script, &wanted, Status::Done)
}

/// One stripe, and out by each two of three bricks.
#[test]
fn each_two_of_three_read(rt: HostRuntime) -> Result<(), Fail> {
    let script = [
        (CREATE, 1),
        ("call 1 write 2 0 ff*512+00*512\nsettle\n", 1),
        ("call 1 read 2 0 1024 via 0,1\nsettle\n", 1),
        ("call 1 read 2 0 1024 via 0,2\nsettle\n", 1),
        ("call 1 read 2 0 1024 via 1,2\nsettle\n", 1),
    ];
    let wanted = [
        ("1 child file 2\n2 ok 1024\n3 data ", 1),
        ("ff", 512),
        ("00", 512),
        ("\n4 data ", 1),
        ("ff", 512),
        ("00", 512),
        ("\n5 data ", 1),
        ("ff", 512),
        ("00", 512),
        ("\n", 1),
    ];
    plays(&rt, TWO_OF_THREE, 3, &script, &wanted, Status::Done)
}

/// Writes that are answered `ok` with these sizes, and then a read of `len` bytes by each four of six bricks.
fn each_four_read(
    rt: &(impl Abort + AllocGlobal),
    volume: &str,
    writes: &str,
    sizes: &str,
    first: usize,
    len: u32,
    bytes: &[(&str, usize)],
) -> Result<(), Fail> {
    let alloc = rt.alloc();
    let mut script = Blob::from_slice(alloc, CREATE.as_bytes())?;
    script.extend(writes.as_bytes())?;
    let mut text = Blob::from_slice(alloc, b"1 child file 2\n")?;
    text.extend(sizes.as_bytes())?;
    for (at, via) in FOURS.iter().enumerate() {
        let call = format!(in alloc; "call 1 read 2 0 {len} via {via}\nsettle\n")?;
        script.extend(call.as_bytes())?;
        let number = first.saturating_add(at);
        let answer = format!(in alloc; "{number} data ")?;
        text.extend(answer.as_bytes())?;
        add(&mut text, bytes)?;
        text.extend(b"\n")?;
    }
    let mut stores = fresh(alloc, 6)?;
    let ran = run_over(alloc, &["play"], volume, script, &mut stores)?;
    assert_eq!(rt; ran.status, Status::Done);
    assert_eq!(rt; ran.out.bytes(), text.items());
    Ok(())
}

/// Two stripes, and out by each four of six bricks.
#[test]
fn each_four_of_six_read(rt: HostRuntime) -> Result<(), Fail> {
    each_four_read(
        &rt,
        FOUR_OF_SIX,
        "call 1 write 2 0 11*512+22*512+33*512+44*2560\nsettle\n",
        "2 ok 4096\n",
        3,
        4096,
        &[("11", 512), ("22", 512), ("33", 512), ("44", 2560)],
    )
}

/// Six bricks whose first four keep the file's own bytes.
const SYSTEMATIC: &str =
    "volume v\ntype cluster/disperse\noption redundancy 2\noption code-rows systematic\n\
    subvolumes a b c d e f\nend-volume\n";

/// A write that begins and ends within stripes keeps what it doesn't cover, whichever rows code it.
#[test]
fn a_write_within_stripes(rt: HostRuntime) -> Result<(), Fail> {
    for volume in [FOUR_OF_SIX, SYSTEMATIC] {
        each_four_read(
            &rt,
            volume,
            "call 1 write 2 0 11*6144\nsettle\ncall 1 write 2 2047 22*3000\nsettle\n",
            "2 ok 6144\n3 ok 6144\n",
            4,
            6144,
            &[("11", 2047), ("22", 3000), ("11", 1097)],
        )?;
    }
    Ok(())
}

/// With `--log` all entries are written, and a call that isn't settled is told as open.
#[test]
fn the_log_is_told(rt: HostRuntime) -> Result<(), Fail> {
    let alloc = rt.alloc();
    let script = joined(alloc, &[("call 1 stat 5\n", 1)])?;
    let mut stores = fresh(alloc, 3)?;
    let ran = run_over(alloc, &["play", "--log"], TWO_OF_THREE, script, &mut stores)?;
    assert_eq!(rt; ran.status, Status::Done);
    assert_eq!(rt;
        ran.out.bytes(),
        b"called 1 1 stat 5\nsent 1 c1 b0 ask 5 inode shared\nopen 1\n".as_slice()
    );
    assert_eq!(rt; ran.log.len(), 2);
    let script = [("call 1 stat 5\nsettle\n", 1)];
    let wanted = [("1 nosuch\n", 1)];
    plays(&rt, TWO_OF_THREE, 3, &script, &wanted, Status::Done)
}
