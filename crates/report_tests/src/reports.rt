// What `info` and `check` write of the stores that a script left.
use crate::running::{FOUR_OF_SIX, SIXTEEN_OF_THIRTY_ONE, TWO_OF_THREE, fresh, play, reports};
use ec_run::Status;
use std::test::Fail;

/// Two of six bricks missed a write.
#[test]
fn bricks_that_missed_a_write(rt: HostRuntime) -> Result<(), Fail> {
    let mut stores = fresh(rt.alloc(), 6)?;
    let script = "call 1 create 1 66\nsettle\nstop 4\nstop 5\ncall 1 write 2 0 41*2048\nsettle\n\
        return 4\nreturn 5\ncall 1 read 2 0 3\nsettle\n";
    let wanted = "1 child file 2\n2 ok 2048\n3 data 414141\n";
    play(&rt, FOUR_OF_SIX, script, &mut stores, wanted)?;
    let info = "0 00000000-0000-0000-0000-000000000002\n1 00000000-0000-0000-0000-000000000002\n\
        2 00000000-0000-0000-0000-000000000002\n3 00000000-0000-0000-0000-000000000002\n";
    let check =
        "00000000-0000-0000-0000-000000000001 dir 1/0/0 1/0/0 1/0/0 1/0/0 1/0/0 1/0/0 group 0,1,2,3,4,5\n\
        00000000-0000-0000-0000-000000000002 file 1/2048/1 1/2048/1 1/2048/1 1/2048/1 0/0/0 0/0/0 group 0,1,2,3\n";
    for words in [["--", "info"], ["--log", "info"], ["info", "--"]] {
        reports(&rt, &words, FOUR_OF_SIX, &mut stores, info, Status::Done)?;
    }
    for words in [["--log", "check"], ["check", "--log"]] {
        reports(&rt, &words, FOUR_OF_SIX, &mut stores, check, Status::Done)?;
    }
    reports(&rt, &["info"], FOUR_OF_SIX, &mut stores, info, Status::Done)
}

/// Fresh stores get the root as they are opened, and keep it.
#[test]
fn fresh_stores(rt: HostRuntime) -> Result<(), Fail> {
    let mut stores = fresh(rt.alloc(), 3)?;
    let check = "00000000-0000-0000-0000-000000000001 dir 0/0/0 0/0/0 0/0/0 group 0,1,2\n";
    reports(&rt, &["info"], TWO_OF_THREE, &mut stores, "", Status::Done)?;
    reports(
        &rt,
        &["check"],
        TWO_OF_THREE,
        &mut stores,
        check,
        Status::Done,
    )
}

/// As many bricks as a volume can have, of which one missed a write.
#[test]
fn thirty_one_bricks(rt: HostRuntime) -> Result<(), Fail> {
    let mut stores = fresh(rt.alloc(), 31)?;
    let script = "call 1 create 1 66\nsettle\nstop 30\ncall 1 write 2 0 41\nsettle\n";
    play(
        &rt,
        SIXTEEN_OF_THIRTY_ONE,
        script,
        &mut stores,
        "1 child file 2\n2 ok 1\n",
    )?;
    let check = "00000000-0000-0000-0000-000000000001 dir \
        1/0/0 1/0/0 1/0/0 1/0/0 1/0/0 1/0/0 1/0/0 1/0/0 1/0/0 1/0/0 1/0/0 1/0/0 1/0/0 1/0/0 1/0/0 1/0/0 \
        1/0/0 1/0/0 1/0/0 1/0/0 1/0/0 1/0/0 1/0/0 1/0/0 1/0/0 1/0/0 1/0/0 1/0/0 1/0/0 1/0/0 1/0/0 \
        group 0,1,2,3,4,5,6,7,8,9,10,11,12,13,14,15,16,17,18,19,20,21,22,23,24,25,26,27,28,29,30\n\
        00000000-0000-0000-0000-000000000002 file \
        1/1/1 1/1/1 1/1/1 1/1/1 1/1/1 1/1/1 1/1/1 1/1/1 1/1/1 1/1/1 1/1/1 1/1/1 1/1/1 1/1/1 1/1/1 1/1/1 \
        1/1/1 1/1/1 1/1/1 1/1/1 1/1/1 1/1/1 1/1/1 1/1/1 1/1/1 1/1/1 1/1/1 1/1/1 1/1/1 1/1/1 0/0/0 \
        group 0,1,2,3,4,5,6,7,8,9,10,11,12,13,14,15,16,17,18,19,20,21,22,23,24,25,26,27,28,29\n";
    reports(
        &rt,
        &["check"],
        SIXTEEN_OF_THIRTY_ONE,
        &mut stores,
        check,
        Status::Done,
    )
}

/// A client died as one of three bricks had made its file, which no directory names.
#[test]
fn a_file_without_a_name(rt: HostRuntime) -> Result<(), Fail> {
    let mut stores = fresh(rt.alloc(), 3)?;
    let script = "call 1 create 1 66\nuntil 1 make\ndeliver c1-b1\ndie 1\ncut 1 all\nsettle\n";
    play(&rt, TWO_OF_THREE, script, &mut stores, "open 1\n")?;
    let info = "0 00000000-0000-0000-0000-000000000001\n1 00000000-0000-0000-0000-000000000001\n\
        1 00000000-0000-0000-0000-000000000002\n2 00000000-0000-0000-0000-000000000001\n";
    let check = "00000000-0000-0000-0000-000000000001 dir 0/0/1 0/0/1 0/0/1 group 0,1,2\n\
        00000000-0000-0000-0000-000000000002 file - 0/0/1 - group - orphan\n";
    reports(
        &rt,
        &["info"],
        TWO_OF_THREE,
        &mut stores,
        info,
        Status::Done,
    )?;
    reports(
        &rt,
        &["check"],
        TWO_OF_THREE,
        &mut stores,
        check,
        Status::Done,
    )
}
