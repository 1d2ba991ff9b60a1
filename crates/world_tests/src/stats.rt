// Two stats on a fresh volume, entry by entry.
use crate::bench::{Bench, text_of};
use std::test::Fail;

/// What the first event leaves.
const BEGUN: &str = "called 1 1 stat 5\n\
    sent 1 c1 b0 ask 5 inode shared\n\
    open 1\n";

/// A client asks one brick after another for its lock, and then all for the head. Settling takes the lowest message.
const LOG: &str = "called 1 1 stat 5\n\
    sent 1 c1 b0 ask 5 inode shared\n\
    called 2 2 stat 1\n\
    sent 2 c2 b0 ask 1 inode shared\n\
    executed 1 -\n\
    sent 3 b0 c1 re 1 granted\n\
    executed 2 -\n\
    sent 4 b0 c2 re 2 granted\n\
    heard 3\n\
    sent 5 c1 b1 ask 5 inode shared\n\
    heard 4\n\
    sent 6 c2 b1 ask 1 inode shared\n\
    executed 5 -\n\
    sent 7 b1 c1 re 5 granted\n\
    executed 6 -\n\
    sent 8 b1 c2 re 6 granted\n\
    heard 7\n\
    sent 9 c1 b2 ask 5 inode shared\n\
    heard 8\n\
    sent 10 c2 b2 ask 1 inode shared\n\
    executed 9 -\n\
    sent 11 b2 c1 re 9 granted\n\
    executed 10 -\n\
    sent 12 b2 c2 re 10 granted\n\
    heard 11\n\
    sent 13 c1 b0 query 5 1\n\
    sent 14 c1 b1 query 5 5\n\
    sent 15 c1 b2 query 5 9\n\
    heard 12\n\
    sent 16 c2 b0 query 1 2\n\
    sent 17 c2 b1 query 1 6\n\
    sent 18 c2 b2 query 1 10\n\
    executed 13 -\n\
    sent 19 b0 c1 re 13 noinode\n\
    executed 14 -\n\
    sent 20 b1 c1 re 14 noinode\n\
    executed 15 -\n\
    sent 21 b2 c1 re 15 noinode\n\
    executed 16 0\n\
    sent 22 b0 c2 re 16 head dir 0000080301000200 0 0 0 493 0 0\n\
    executed 17 0\n\
    sent 23 b1 c2 re 17 head dir 0000080301000200 0 0 0 493 0 0\n\
    executed 18 0\n\
    sent 24 b2 c2 re 18 head dir 0000080301000200 0 0 0 493 0 0\n\
    heard 19\n\
    heard 20\n\
    heard 21\n\
    sent 25 c1 b0 release 5 1\n\
    sent 26 c1 b1 release 5 5\n\
    sent 27 c1 b2 release 5 9\n\
    1 nosuch\n\
    heard 22\n\
    heard 23\n\
    heard 24\n\
    sent 28 c2 b0 release 1 2\n\
    sent 29 c2 b1 release 1 6\n\
    sent 30 c2 b2 release 1 10\n\
    2 isdir\n\
    executed 25 -\n\
    executed 26 -\n\
    executed 27 -\n\
    executed 28 -\n\
    executed 29 -\n\
    executed 30 -\n";

/// No brick has gfid 5, and the root is a directory.
#[test]
fn two_stats_are_answered(rt: HostRuntime) -> Result<(), Fail> {
    let mut bench = Bench::new(&rt, 3, 1)?;
    bench.play(&rt, "call 1 stat 5");
    assert_eq!(rt; bench.text(rt.alloc(), true)?.as_str(), BEGUN);
    bench.play(&rt, "call 2 stat 1\nsettle");
    assert_eq!(rt; bench.text(rt.alloc(), true)?.as_str(), LOG);
    assert_eq!(rt;
        bench.text(rt.alloc(), false)?.as_str(),
        "1 nosuch\n2 isdir\n"
    );
    assert_eq!(rt; text_of(rt.alloc(), &bench.finish(), true)?.as_str(), LOG);
    Ok(())
}

/// What is sent as the second phase begins.
const ASKED: &str = "heard 6\n\
    sent 7 c1 b0 query 5 1\n\
    sent 8 c1 b1 query 5 3\n\
    sent 9 c1 b2 query 5 5\n\
    open 1\n";

/// A call that is in the phase takes no step; one that has left it is over before it is in the phase again.
#[test]
fn a_call_goes_on_until_a_phase(rt: HostRuntime) -> Result<(), Fail> {
    let mut bench = Bench::new(&rt, 3, 1)?;
    bench.play(&rt, "call 1 stat 5\nuntil 1 query");
    let text = bench.text(rt.alloc(), true)?;
    assert!(rt; text.as_str().ends_with(ASKED));
    bench.play(&rt, "until 1 query");
    assert_eq!(rt; bench.text(rt.alloc(), true)?.as_str(), text.as_str());
    bench.play(&rt, "until 1 lock");
    assert_eq!(rt; bench.text(rt.alloc(), false)?.as_str(), "1 nosuch\n");
    Ok(())
}
