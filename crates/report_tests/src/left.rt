// What scripts write, and what `check` then shows of the stores that they left.
use crate::running::{
    FOUR_OF_SIX, SIXTEEN_OF_THIRTY_ONE, SYSTEMATIC, TWO_OF_THREE, fresh, play, reports,
};
use ec_run::Status;
use std::process::Abort;
use std::test::Fail;

/// A script over fresh stores writes this text, and `check` then this one.
fn leaves(
    rt: &(impl Abort + AllocGlobal),
    volume: &str,
    count: u64,
    script: &str,
    wanted: &str,
    check: &str,
) -> Result<(), Fail> {
    let mut stores = fresh(rt.alloc(), count)?;
    play(rt, volume, script, &mut stores, wanted)?;
    reports(rt, &["check"], volume, &mut stores, check, Status::Done)
}

/// A file is cut to one byte, made longer, and read at the cut and at its end.
#[test]
fn a_file_is_cut_and_grows(rt: HostRuntime) -> Result<(), Fail> {
    leaves(
        &rt,
        FOUR_OF_SIX,
        6,
        "call 1 create 1 66\nsettle\ncall 1 write 2 0 41*4096\nsettle\ncall 1 truncate 2 1\nsettle\n\
        call 1 truncate 2 5000\nsettle\ncall 1 read 2 0 3\nsettle\ncall 1 read 2 4999 10\nsettle\n",
        "1 child file 2\n2 ok 4096\n3 ok 1\n4 ok 5000\n5 data 410000\n6 data 00\n",
        "00000000-0000-0000-0000-000000000001 dir 1/0/0 1/0/0 1/0/0 1/0/0 1/0/0 1/0/0 group 0,1,2,3,4,5\n\
        00000000-0000-0000-0000-000000000002 file 3/5000/0 3/5000/0 3/5000/0 3/5000/0 3/5000/0 3/5000/0 \
        group 0,1,2,3,4,5\n",
    )
}

/// Two writes of which one begins and ends within stripes, whichever rows code them.
#[test]
fn writes_within_stripes(rt: HostRuntime) -> Result<(), Fail> {
    for volume in [FOUR_OF_SIX, SYSTEMATIC] {
        leaves(
            &rt,
            volume,
            6,
            "call 1 create 1 66\nsettle\ncall 1 write 2 0 11*6144\nsettle\ncall 1 write 2 2047 22*3000\nsettle\n\
            call 1 read 2 2046 3 via 1,2,4,5\nsettle\n",
            "1 child file 2\n2 ok 6144\n3 ok 6144\n4 data 112222\n",
            "00000000-0000-0000-0000-000000000001 dir 1/0/0 1/0/0 1/0/0 1/0/0 1/0/0 1/0/0 group 0,1,2,3,4,5\n\
            00000000-0000-0000-0000-000000000002 file 2/6144/0 2/6144/0 2/6144/0 2/6144/0 2/6144/0 2/6144/0 \
            group 0,1,2,3,4,5\n",
        )?;
    }
    Ok(())
}

/// Names are made, looked up, listed and removed, and calls that can't be are refused; each create and mkdir takes an id.
#[test]
fn names_come_and_go(rt: HostRuntime) -> Result<(), Fail> {
    leaves(
        &rt,
        TWO_OF_THREE,
        3,
        "call 1 create 1 66\nsettle\ncall 1 create 1 66\nsettle\ncall 1 create 2 67\nsettle\n\
        call 1 mkdir 1 64\nsettle\ncall 1 lookup 1 67\nsettle\ncall 1 readdir 1\nsettle\n\
        call 1 write 1 0 41\nsettle\ncall 1 unlink 1 64\nsettle\ncall 1 unlink 1 66\nsettle\n\
        call 1 read 2 0 1\nsettle\ncall 1 readdir 5\nsettle\ncall 1 write 5 0 -\nsettle\n",
        "1 child file 2\n2 exists file 2\n3 notdir\n4 child dir 5\n5 noname\n6 names 64:dir:5 66:file:2\n\
        7 isdir\n8 isdir\n9 gone\n10 nosuch\n11 names\n12 isdir\n",
        "00000000-0000-0000-0000-000000000001 dir 3/0/0 3/0/0 3/0/0 group 0,1,2\n\
        00000000-0000-0000-0000-000000000005 dir 0/0/0 0/0/0 0/0/0 group 0,1,2\n",
    )
}

/// A client died when two of six bricks had committed its write, and another wrote while just those two were down.
#[test]
fn a_death_after_two_commits(rt: HostRuntime) -> Result<(), Fail> {
    leaves(
        &rt,
        FOUR_OF_SIX,
        6,
        "call 1 create 1 66\nsettle\ncall 1 write 2 0 41*2048\nuntil 1 post\ndeliver c1-b4\ndeliver c1-b5\n\
        die 1\ncut 1 all\nstop 4\nstop 5\ncall 2 write 2 0 42*2048\nsettle\nreturn 4\nreturn 5\n\
        call 2 read 2 0 1\nsettle\n",
        "1 child file 2\n3 ok 2048\n4 data 42\nopen 2\n",
        "00000000-0000-0000-0000-000000000001 dir 1/0/0 1/0/0 1/0/0 1/0/0 1/0/0 1/0/0 group 0,1,2,3,4,5\n\
        00000000-0000-0000-0000-000000000002 file 2/2048/1 2/2048/1 2/2048/1 2/2048/1 1/2048/1 1/2048/1 \
        group 0,1,2,3\n",
    )
}

/// A client died when one of six bricks had its chunk of the first stripe. The next write of that stripe closes it, and all bricks
/// are whole again.
#[test]
fn a_death_within_a_write(rt: HostRuntime) -> Result<(), Fail> {
    leaves(
        &rt,
        FOUR_OF_SIX,
        6,
        "call 1 create 1 66\nsettle\ncall 1 write 2 0 41*4096\nsettle\ncall 1 write 2 0 42*2048\nuntil 1 write\n\
        deliver c1-b1\ndie 1\ncut 1 all\ncall 2 read 2 2048 2\nsettle\ncall 2 write 2 0 43*2048\nsettle\n\
        call 2 read 2 0 2\nsettle\n",
        "1 child file 2\n2 ok 4096\n4 data 4141\n5 ok 4096\n6 data 4343\nopen 3\n",
        "00000000-0000-0000-0000-000000000001 dir 1/0/0 1/0/0 1/0/0 1/0/0 1/0/0 1/0/0 group 0,1,2,3,4,5\n\
        00000000-0000-0000-0000-000000000002 file 3/4096/0 3/4096/0 3/4096/0 3/4096/0 3/4096/0 3/4096/0 \
        group 0,1,2,3,4,5\n",
    )
}

/// Three of six bricks have the name that a client made as it died: no four agree on it, and it can be removed.
#[test]
fn a_name_on_half_of_the_bricks(rt: HostRuntime) -> Result<(), Fail> {
    leaves(
        &rt,
        FOUR_OF_SIX,
        6,
        "call 1 create 1 66\nuntil 1 entry\ndeliver c1-b0\ndeliver c1-b1\ndeliver c1-b2\ndie 1\ncut 1 all\n\
        call 2 lookup 1 66\nsettle\ncall 2 unlink 1 66\nsettle\ncall 2 lookup 1 66\nsettle\n",
        "2 split file:2 none\n3 gone\n4 noname\nopen 1\n",
        "00000000-0000-0000-0000-000000000001 dir 2/0/0 2/0/0 2/0/0 2/0/0 2/0/0 2/0/0 group 0,1,2,3,4,5\n",
    )
}

/// The attribute of a new file, and the one that is set; setting it is a version of its own and none of the bytes.
#[test]
fn an_attribute_is_set(rt: HostRuntime) -> Result<(), Fail> {
    leaves(
        &rt,
        TWO_OF_THREE,
        3,
        "call 1 create 1 66\nsettle\ncall 1 getattr 2\nsettle\ncall 1 setattr 2 384 7 8\nsettle\n\
        call 1 getattr 2\nsettle\n",
        "1 child file 2\n2 attr 420 0 0\n3 attr 384 7 8\n4 attr 384 7 8\n",
        "00000000-0000-0000-0000-000000000001 dir 1/0/0 1/0/0 1/0/0 group 0,1,2\n\
        00000000-0000-0000-0000-000000000002 file 1/0/0 1/0/0 1/0/0 group 0,1,2\n",
    )
}

/// The last byte that a file may have, over as many bricks as a volume may have, and what goes past the limits.
#[test]
fn the_longest_file(rt: HostRuntime) -> Result<(), Fail> {
    let mut stores = fresh(rt.alloc(), 31)?;
    let script = "call 1 create 1 66\nsettle\ncall 1 write 2 1099511627775 7a\nsettle\n\
        call 1 read 2 1099511627775 1\nsettle\ncall 1 write 2 1099511627776 7a\nsettle\n\
        call 1 read 2 0 1048577\nsettle\n";
    let wanted =
        "1 child file 2\n2 ok 1099511627776\n3 data 7a\n4 toobig 1099511627777\n5 toolong 1048577\n";
    play(&rt, SIXTEEN_OF_THIRTY_ONE, script, &mut stores, wanted)?;
    reports(
        &rt,
        &["info"],
        SIXTEEN_OF_THIRTY_ONE,
        &mut stores,
        "",
        Status::Done,
    )
}
