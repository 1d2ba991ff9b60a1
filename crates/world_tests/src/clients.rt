// Clients that overlap, die and are cut off, and the names that they see.
use crate::bench::Bench;
use crate::bricks::answers;
use std::test::Fail;

/// The brick that is asked first decides who writes first.
#[test]
fn two_clients_write(rt: HostRuntime) -> Result<(), Fail> {
    answers(
        &rt,
        3,
        1,
        "call 1 create 1 66\nsettle\n\
        call 1 write 2 0 41*1024\ncall 2 write 2 0 42*1024\n\
        deliver c2-b0\ndeliver c1-b0\nsettle\n\
        call 1 read 2 0 1\nsettle",
        "1 child file 2\n3 ok 1024\n2 ok 1024\n4 data 41\n",
    )
}

/// A dead client's grants keep others out until it is cut off, and its call stays open.
#[test]
fn a_dead_client_is_cut_off(rt: HostRuntime) -> Result<(), Fail> {
    let mut bench = Bench::new(&rt, 3, 1)?;
    bench.play(
        &rt,
        "call 1 create 1 66\nsettle\n\
        call 1 write 2 0 41*1024\nuntil 1 write\ndie 1\nsettle\n\
        call 2 stat 2\nsettle",
    );
    let before = "1 child file 2\nopen 2\nopen 3\n";
    assert_eq!(rt; bench.text(rt.alloc(), false)?.as_str(), before);
    bench.play(&rt, "cut 1 all\nsettle\ncall 2 read 2 0 2\nsettle");
    let after = "1 child file 2\n3 ok 0\n4 data -\nopen 2\n";
    assert_eq!(rt; bench.text(rt.alloc(), false)?.as_str(), after);
    Ok(())
}

/// Two of six bricks have the version of a writer that died, and the others pass it by.
#[test]
fn a_writer_dies_as_it_commits(rt: HostRuntime) -> Result<(), Fail> {
    answers(
        &rt,
        6,
        2,
        "call 1 create 1 66\nsettle\n\
        call 1 write 2 0 41*2048\nuntil 1 post\n\
        deliver c1-b4\ndeliver c1-b5\ndie 1\ncut 1 all\nstop 4\nstop 5\n\
        call 2 write 2 0 42*2048\nsettle\n\
        return 4\nreturn 5\n\
        call 2 read 2 0 1\nsettle",
        "1 child file 2\n3 ok 2048\n4 data 42\nopen 2\n",
    )
}

/// One brick has a chunk of a writer that died. The other stripe reads as before, and the next write closes this one.
#[test]
fn a_writer_dies_within_a_stripe(rt: HostRuntime) -> Result<(), Fail> {
    answers(
        &rt,
        6,
        2,
        "call 1 create 1 66\nsettle\n\
        call 1 write 2 0 41*4096\nsettle\n\
        call 1 write 2 0 42*2048\nuntil 1 write\ndeliver c1-b1\ndie 1\ncut 1 all\n\
        call 2 read 2 2048 2\nsettle\n\
        call 2 write 2 0 43*2048\nsettle\n\
        call 2 read 2 0 2\nsettle",
        "1 child file 2\n2 ok 4096\n4 data 4141\n5 ok 4096\n6 data 4343\nopen 3\n",
    )
}

/// Three of six bricks have a name, whose maker died.
#[test]
fn a_name_is_split(rt: HostRuntime) -> Result<(), Fail> {
    answers(
        &rt,
        6,
        2,
        "call 1 create 1 66\nuntil 1 entry\n\
        deliver c1-b0\ndeliver c1-b1\ndeliver c1-b2\ndie 1\ncut 1 all\n\
        call 2 lookup 1 66\nsettle\n\
        call 2 unlink 1 66\nsettle\n\
        call 2 lookup 1 66\nsettle",
        "2 split file:2 none\n3 gone\n4 noname\nopen 1\n",
    )
}

#[test]
fn names_are_made_and_removed(rt: HostRuntime) -> Result<(), Fail> {
    let mut bench = Bench::new(&rt, 3, 1)?;
    assert_eq!(rt; bench.next_gfid(), 2);
    bench.play(
        &rt,
        "call 1 create 1 66\nsettle\ncall 1 create 1 66\nsettle\ncall 1 create 2 67\nsettle\n\
        call 1 mkdir 1 64\nsettle\ncall 1 lookup 1 67\nsettle\ncall 1 readdir 1\nsettle\n\
        call 1 write 1 0 41\nsettle\ncall 1 unlink 1 64\nsettle\ncall 1 unlink 1 66\nsettle\n\
        call 1 read 2 0 1\nsettle\ncall 1 readdir 5\nsettle\ncall 1 write 5 0 -\nsettle",
    );
    assert_eq!(rt;
        bench.text(rt.alloc(), false)?.as_str(),
        "1 child file 2\n2 exists file 2\n3 notdir\n4 child dir 5\n5 noname\n\
        6 names 64:dir:5 66:file:2\n7 isdir\n8 isdir\n9 gone\n10 nosuch\n11 names\n12 isdir\n"
    );
    assert_eq!(rt; bench.next_gfid(), 6);
    // What stands on the bricks when the next world starts.
    let mut later = bench.restarted(&rt, 3, 1)?;
    assert_eq!(rt; later.next_gfid(), 6);
    later.play(&rt, "call 1 readdir 1\nsettle");
    assert_eq!(rt;
        later.text(rt.alloc(), false)?.as_str(),
        "1 names 64:dir:5\n"
    );
    Ok(())
}

/// A client gives up a brick while its ask waits there, and goes on to the next.
#[test]
fn a_client_gives_a_brick_up(rt: HostRuntime) -> Result<(), Fail> {
    answers(
        &rt,
        3,
        1,
        "call 1 write 2 0 41\ncall 2 stat 2\n\
        deliver c1-b0\ndeliver c2-b0\ngiveup 2 0\nsettle",
        "2 nosuch\n1 nosuch\n",
    )
}

/// The Release of a given up ask is lost, and the grant that comes late is given back once more.
const LATE: &str = "called 1 1 stat 5\n\
    sent 1 c1 b0 ask 5 inode shared\n\
    executed 1 -\n\
    sent 2 b0 c1 re 1 granted\n\
    givenup 1 0 1\n\
    sent 3 c1 b0 release 5 1\n\
    sent 4 c1 b1 ask 5 inode shared\n\
    lost 3\n\
    heard 2\n\
    sent 5 c1 b0 release 5 1\n\
    open 1\n";

#[test]
fn a_late_grant_is_given_back(rt: HostRuntime) -> Result<(), Fail> {
    let mut bench = Bench::new(&rt, 3, 1)?;
    bench.play(
        &rt,
        "call 1 stat 5\ndeliver c1-b0\ngiveup 1 0\nlose c1-b0\ndeliver b0-c1",
    );
    assert_eq!(rt; bench.text(rt.alloc(), true)?.as_str(), LATE);
    bench.play(&rt, "settle\ncall 2 write 5 0 41\nsettle");
    assert_eq!(rt;
        bench.text(rt.alloc(), false)?.as_str(),
        "1 nosuch\n2 nosuch\n"
    );
    Ok(())
}
