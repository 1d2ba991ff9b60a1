// Lines that are read, printed and refused.
use crate::{print, read_line};
use std::alloc::Global;
use std::test::Fail;

/// What a line is read as: the line of its event, `nothing`, or its fault.
fn told(alloc: Global, line: &[u8]) -> Result<String, Fail> {
    match read_line(alloc, line) {
        Ok(Some(event)) => Ok(print(alloc, &event)?),
        Ok(None) => Ok(String::from_str(alloc, "nothing")?),
        Err(fault) => Ok(format!(in alloc; "{fault}")?),
    }
}

/// Each event and each call, with both forms of those that have two.
#[test]
fn lines_are_printed_as_they_were_read(rt: HostRuntime) -> Result<(), Fail> {
    let lines = [
        "call 1 write 2 512 00ff",
        "call 1 write 2 0 -",
        "call 16 truncate 340282366920938463463374607431768211455 18446744073709551615",
        "call 1 read 2 0 18446744073709551615",
        "call 1 read 2 0 1024 via 0,2,30",
        "call 1 stat 1",
        "call 1 create 1 6d",
        "call 1 mkdir 1 ff",
        "call 1 unlink 1 2e2e2e",
        "call 1 lookup 1 41",
        "call 1 readdir 1",
        "call 1 heal 2",
        "call 1 setattr 2 4095 4294967295 0",
        "call 1 getattr 2",
        "call 1 rename 1 61 2 62",
        "call 1 rmdir 1 61",
        "call 1 scrub 2",
        "call 1 scrub 2 settle",
        "call 1 sweep index",
        "call 1 sweep full",
        "deliver 7",
        "deliver c1-b0",
        "deliver b30-c16",
        "lose 0",
        "lose c16-b30",
        "lose b0-c1",
        "giveup 1 0",
        "stop 30",
        "return 0",
        "cut 1 2",
        "cut 1 all",
        "die 16",
        "tear 7 512",
        "tear c2-b3 0",
        "yield 3",
        "settle",
        "until 1 heal",
        "until 1 unmark",
        "until 1 clear2",
        "until 16 shed",
        "replace 4",
    ];
    for line in lines {
        assert_eq!(rt; told(rt.alloc(), line.as_bytes())?.as_str(), line);
    }
    Ok(())
}

/// Lines that may be written in more than one way.
#[test]
fn lines_are_printed_in_one_way(rt: HostRuntime) -> Result<(), Fail> {
    let table = [
        ("", "nothing"),
        (" \t ", "nothing"),
        ("\r", "nothing"),
        ("# settle", "nothing"),
        ("#", "nothing"),
        ("\t settle  ", "settle"),
        ("settle\r", "settle"),
        ("stop\t\t007", "stop 7"),
        ("deliver c01-b00", "deliver c1-b0"),
        ("deliver 00000000000000000007", "deliver 7"),
        (
            "call 1 stat 000000000000000000000000000000000000007",
            "call 1 stat 7",
        ),
        ("call 1 create 1 fFA0", "call 1 create 1 ffa0"),
        ("call 1 write 2 0 aB", "call 1 write 2 0 ab"),
        ("call 1 write 2 0 4A*3", "call 1 write 2 0 4a4a4a"),
        ("call 1 write 2 0 41*0", "call 1 write 2 0 -"),
        (
            "call 1 write 2 0 41*02+4243+00*1+ff",
            "call 1 write 2 0 4141424300ff",
        ),
        ("call 1 read 2 0 1 via 00,1", "call 1 read 2 0 1 via 0,1"),
    ];
    for (line, wanted) in table {
        assert_eq!(rt;
            told(rt.alloc(), line.as_bytes())?.as_str(),
            wanted,
            "{line}"
        );
    }
    Ok(())
}

#[test]
fn lines_are_refused_by_their_words(rt: HostRuntime) -> Result<(), Fail> {
    let lines = [
        "settles",
        " # settle",
        "settle 1",
        "\r\r",
        "Settle",
        "stop",
        "stop 31 0",
        "call",
        "call 1",
        "call 0 write 0 x",
        "call 1 fly 2",
        "call 1 stat 0 0",
        "call 1 read 2 0 1 by 0,1",
        "call 1 read 2 0 1 via",
        "call 0 scrub 2 heal",
        "call 1 sweep all",
        "until 0 halt",
        "until 1 lock 2",
        "until 1 Lock",
        "call 1 rename 1 61 2 62 3 63",
        "tear x",
        "1 2 3 4 5 6 7 8 9 10 11",
    ];
    for line in lines {
        assert_eq!(rt;
            told(rt.alloc(), line.as_bytes())?.as_str(),
            "badevent",
            "{line}"
        );
    }
    Ok(())
}

#[test]
fn lines_are_refused_by_their_numbers(rt: HostRuntime) -> Result<(), Fail> {
    let lines = [
        "call 0 stat 1",
        "call 17 stat 1",
        "call 1 stat 0",
        "call 1 stat 340282366920938463463374607431768211456",
        "call 1 stat 0000000000000000000000000000000000000001",
        "call 1 truncate 1 18446744073709551616",
        "call 1 truncate 1 000000000000000000007",
        "call 1 truncate 1 99999999999999999999",
        "call 1 truncate 1 -",
        "call 1 truncate 1 +1",
        "call 1 setattr 1 4096 0 0",
        "call 1 setattr 1 0 4294967296 0",
        "call 1 setattr 1 0 0 4294967296",
        "call 1 read 2 0 1 via 1,1",
        "call 1 read 2 0 1 via 2,1",
        "call 1 read 2 0 1 via 1,,2",
        "call 1 read 2 0 1 via 1,",
        "call 1 read 2 0 1 via ,1",
        "call 1 read 2 0 1 via 31",
        "call 1 write 0 0 x",
        "call 1 write 2 x 4",
        "call 1 rename 1 61 0 6",
        "call 1 write 2 0 41*",
        "call 1 write 2 0 41*x+4",
        "call 1 write 2 0 41*1*1",
        "call 1 write 2 0 41*18446744073709551616",
        "stop 31",
        "deliver 18446744073709551616",
        "deliver c0-b0",
        "deliver c17-b0",
        "deliver c1-b31",
        "deliver b31-c1",
        "deliver c1-b",
        "deliver c1-b0-",
        "deliver c1-c1",
        "deliver C1-b0",
        "cut 1 ALL",
        "giveup 17 0",
        "giveup 1 31",
        "tear 1 x",
        "until 0 lock",
    ];
    for line in lines {
        assert_eq!(rt;
            told(rt.alloc(), line.as_bytes())?.as_str(),
            "badnumber",
            "{line}"
        );
    }
    Ok(())
}

/// Faults of names and data, each with its place.
#[test]
fn lines_are_refused_by_their_digits(rt: HostRuntime) -> Result<(), Fail> {
    let table = [
        ("call 1 create 1 6", "badhex 17"),
        ("call 1 create 1 6x", "badhex 17"),
        ("call 1 create 1 -", "badhex 16"),
        ("\tcall  1 create 1\t61g", "badhex 20"),
        ("call 1 rename 1 61 2 616", "badhex 24"),
        ("call 1 create 1 2F", "badname"),
        ("call 1 create 1 00", "badname"),
        ("call 1 create 1 2e", "badname"),
        ("call 1 rmdir 1 2e2e", "badname"),
        ("call 1 write 2 0 4", "badhex 18"),
        ("call 1 write 2 0 4x", "badhex 18"),
        ("call 1 write 2 0 +", "badhex 17"),
        ("call 1 write 2 0 41+", "badhex 20"),
        ("call 1 write 2 0 +41", "badhex 17"),
        ("call 1 write 2 0 41++42", "badhex 20"),
        ("call 1 write 2 0 414+zz", "badhex 20"),
        ("call 1 write 2 0 41+4z", "badhex 21"),
        ("call 1 write 2 0 -+41", "badhex 17"),
        ("call 1 write 2 0 --", "badhex 17"),
        ("call 1 write 2 0 4*5", "badhex 18"),
        ("call 1 write 2 0 414*5", "badhex 20"),
        ("call 1 write 2 0 4141*5", "badhex 21"),
        ("call 1 write 2 0 *5", "badhex 17"),
        ("call 1 write 2 0 4+41*x", "badhex 18"),
        ("call 1 write 2 0 00*2097153", "bulky"),
        ("call 1 write 2 0 00*2097152+00", "bulky"),
        ("call 1 write 2 0 00*18446744073709551615+00*2", "bulky"),
        ("call 1 write 2 0 00*2097153+4", "badhex 29"),
        ("call 1 write 2 0 00*2097153+41*x", "badnumber"),
    ];
    for (line, wanted) in table {
        assert_eq!(rt;
            told(rt.alloc(), line.as_bytes())?.as_str(),
            wanted,
            "{line}"
        );
    }
    Ok(())
}

/// A name of 255 bytes, and one of 256.
#[test]
fn names_have_a_longest(rt: HostRuntime) -> Result<(), Fail> {
    let mut line = String::from_str(rt.alloc(), "call 1 lookup 1 ")?;
    for _ in 0..255 {
        line.push_str("41")?;
    }
    assert_eq!(rt; told(rt.alloc(), line.as_bytes())?.as_str(), line.as_str());
    line.push_str("41")?;
    assert_eq!(rt; told(rt.alloc(), line.as_bytes())?.as_str(), "badname");
    Ok(())
}
