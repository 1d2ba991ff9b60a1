// The longest lines. Each is read in time that grows as the line does.
use crate::{LineFault, read_line};
use ec_wire::{Event, Op};
use std::alloc::Global;
use std::test::Fail;

const MOST_LINE: usize = 2_200_000;

/// A front, and a piece as often as this.
fn line(alloc: Global, front: &str, piece: &str, times: usize) -> Result<String, Fail> {
    let mut line = String::from_str(alloc, front)?;
    for _ in 0..times {
        line.push_str(piece)?;
    }
    Ok(line)
}

/// How many bytes a line writes.
fn written(alloc: Global, line: &str) -> Result<usize, Fail> {
    match read_line(alloc, line.as_bytes()) {
        Ok(
            Some(
                Event::Call {
                    op: Op::Write { bytes, .. },
                    ..
                },
            ),
        ) => Ok(bytes.len()),
        _ => Err(Fail::from("no write")),
    }
}

#[test]
fn blanks(rt: HostRuntime) -> Result<(), Fail> {
    let mut blank = line(rt.alloc(), "", " ", MOST_LINE)?;
    assert!(rt; matches!(read_line(rt.alloc(), blank.as_bytes()), Ok(None)));
    blank.push('\r')?;
    assert!(rt;
        matches!(
            read_line(rt.alloc(), blank.as_bytes()),
            Err(LineFault::TooLong)
        )
    );
    Ok(())
}

#[test]
fn comments(rt: HostRuntime) -> Result<(), Fail> {
    let mut comment = line(rt.alloc(), "#", "x", MOST_LINE - 1)?;
    assert!(rt; matches!(read_line(rt.alloc(), comment.as_bytes()), Ok(None)));
    comment.push('x')?;
    assert!(rt;
        matches!(
            read_line(rt.alloc(), comment.as_bytes()),
            Err(LineFault::TooLong)
        )
    );
    Ok(())
}

#[test]
fn words(rt: HostRuntime) -> Result<(), Fail> {
    let words = line(rt.alloc(), "", "x ", MOST_LINE / 2)?;
    assert!(rt;
        matches!(
            read_line(rt.alloc(), words.as_bytes()),
            Err(LineFault::BadEvent)
        )
    );
    Ok(())
}

#[test]
fn data_of_one_part(rt: HostRuntime) -> Result<(), Fail> {
    let digits = line(rt.alloc(), "call 1 write 2 0 ", "41", 1_099_991)?;
    assert_eq!(rt; written(rt.alloc(), digits.as_str())?, 1_099_991);
    Ok(())
}

#[test]
fn data_of_many_parts(rt: HostRuntime) -> Result<(), Fail> {
    let parts = line(rt.alloc(), "call 1 write 2 0 41", "+41", 733_326)?;
    assert_eq!(rt; written(rt.alloc(), parts.as_str())?, 733_327);
    let mut most = line(rt.alloc(), "call 1 write 2 0 41*2", "+41*6", 349_525)?;
    assert_eq!(rt; written(rt.alloc(), most.as_str())?, 2_097_152);
    most.push_str("+41")?;
    assert!(rt;
        matches!(
            read_line(rt.alloc(), most.as_bytes()),
            Err(LineFault::Bulky)
        )
    );
    Ok(())
}

#[test]
fn data_of_a_repeated_byte(rt: HostRuntime) -> Result<(), Fail> {
    assert_eq!(rt;
        written(rt.alloc(), "call 1 write 2 0 00*2097152")?,
        2_097_152
    );
    Ok(())
}
