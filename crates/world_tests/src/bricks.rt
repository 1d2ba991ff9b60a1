// Bricks that stop, come back and write in part, and messages that are lost.
use crate::bench::Bench;
use std::process::Abort;
use std::test::Fail;

/// What the calls of a script on a fresh volume are answered.
pub fn answers(
    rt: &(impl Abort + AllocGlobal),
    n: u32,
    r: u32,
    script: &str,
    wanted: &str,
) -> Result<(), Fail> {
    let mut bench = Bench::new(rt, n, r)?;
    bench.play(rt, script);
    assert_eq!(rt; bench.text(rt.alloc(), false)?.as_str(), wanted);
    Ok(())
}

/// A brick that missed a write is read from by nobody.
#[test]
fn a_stopped_brick_comes_back(rt: HostRuntime) -> Result<(), Fail> {
    answers(
        &rt,
        3,
        1,
        "call 1 create 1 66\nsettle\n\
        call 1 write 2 0 41*1024\nsettle\n\
        stop 2\n\
        call 2 write 2 0 42*512\nsettle\n\
        call 2 read 2 510 4\nsettle\n\
        return 2\n\
        call 1 read 2 510 4\nsettle\n\
        call 1 stat 2\nsettle\n\
        stop 0\n\
        call 1 read 2 0 1\nsettle",
        "1 child file 2\n\
        2 ok 1024\n\
        3 ok 1024\n\
        4 data 42424141\n\
        5 data 42424141\n\
        6 ok 1024\n\
        7 noquorum query 1\n",
    )
}

/// Bricks that have stopped, even if they are back, have no grant of the write.
#[test]
fn grants_end_with_a_stop(rt: HostRuntime) -> Result<(), Fail> {
    answers(
        &rt,
        6,
        2,
        "call 1 create 1 66\nsettle\n\
        call 1 write 2 0 41*2048\nuntil 1 write\n\
        stop 0\nreturn 0\nstop 1\nreturn 1\nstop 2\nreturn 2\nstop 3\nreturn 3\n\
        settle",
        "1 child file 2\n2 noquorum write 2\n",
    )
}

/// All bricks have committed, and the writer heard of none.
#[test]
fn replies_are_lost(rt: HostRuntime) -> Result<(), Fail> {
    answers(
        &rt,
        6,
        2,
        "call 1 create 1 66\nsettle\n\
        call 1 write 2 0 41*2048\nuntil 1 post\n\
        deliver c1-b0\ndeliver c1-b1\ndeliver c1-b2\ndeliver c1-b3\ndeliver c1-b4\ndeliver c1-b5\n\
        lose b0-c1\nlose b1-c1\nlose b2-c1\nlose b3-c1\nlose b4-c1\nlose b5-c1\n\
        settle\n\
        call 1 read 2 0 1\nsettle",
        "1 child file 2\n2 noquorum post 0\n3 data 41\n",
    )
}

/// A brick that wrote in part has stopped, and the write goes on without it.
#[test]
fn a_write_is_torn(rt: HostRuntime) -> Result<(), Fail> {
    answers(
        &rt,
        3,
        1,
        "call 1 create 1 66\nsettle\n\
        call 1 write 2 0 41*1024\nuntil 1 write\n\
        tear c1-b2 100\nsettle\n\
        return 2\n\
        call 1 read 2 0 1\nsettle\n\
        call 1 stat 2\nsettle",
        "1 child file 2\n2 ok 1024\n3 data 41\n4 ok 1024\n",
    )
}

/// However much of the write the brick has written, the others write it whole, and nobody reads from that brick.
#[test]
fn a_write_is_torn_anywhere(rt: HostRuntime) -> Result<(), Fail> {
    for bytes in [0u32, 1, 511, 512, 1024, 1535, 1536] {
        let script = format!(in rt.alloc();
            "call 1 create 1 66\nsettle\n\
            call 1 write 2 0 41*3072\nuntil 1 write\n\
            tear c1-b2 {bytes}\nsettle\n\
            return 2\n\
            call 1 read 2 0 1\nsettle"
        )?;
        let wanted = "1 child file 2\n2 ok 3072\n3 data 41\n";
        answers(&rt, 3, 1, script.as_str(), wanted)?;
    }
    Ok(())
}
