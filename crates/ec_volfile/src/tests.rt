// What no clause says: that calls succeed, and the table of faults and values, line by line.
use crate::{Kernel, Volume, VolumeFault, print, read};
use ec_attr::Policy;
use std::alloc::Global;
use std::test::Fail;

/// Whether the text is refused with this fault at this line.
fn is_refused(alloc: Global, text: &[u8], line: u64, fault: VolumeFault) -> bool {
    match read(alloc, text) {
        Ok(_) => false,
        Err((n, f)) => n == line && f == fault,
    }
}

/// A file of 2+1 with one line more in its disperse section, the fourth.
fn with_line(alloc: Global, line: &[u8]) -> Result<Vec<u8>, Fail> {
    let mut text = Vec::new(alloc);
    text.extend_from_slice(b"volume v\ntype cluster/disperse\noption redundancy 1\n")?;
    text.extend_from_slice(line)?;
    text.extend_from_slice(b"\nsubvolumes a b c\nend-volume\n")?;
    Ok(text)
}

/// Whether the line is refused there.
fn line_is(alloc: Global, line: &[u8], fault: VolumeFault) -> Result<bool, Fail> {
    let text = with_line(alloc, line)?;
    Ok(is_refused(alloc, text.as_slice(), 4, fault))
}

/// The volume of that file.
fn with_option(alloc: Global, line: &[u8]) -> Result<Volume, Fail> {
    let text = with_line(alloc, line)?;
    Ok(read(alloc, text.as_slice()).ok().ok_or("refused")?)
}

/// Whether a disperse section of this redundancy and these subvolumes, line 4, is refused so.
fn shape_is(
    alloc: Global,
    redundancy: &[u8],
    names: &[u8],
    line: u64,
    fault: VolumeFault,
) -> Result<bool, Fail> {
    let mut text = Vec::new(alloc);
    text.extend_from_slice(b"volume v\ntype cluster/disperse\noption redundancy ")?;
    text.extend_from_slice(redundancy)?;
    text.extend_from_slice(b"\nsubvolumes ")?;
    text.extend_from_slice(names)?;
    text.extend_from_slice(b"\nend-volume\n")?;
    Ok(is_refused(alloc, text.as_slice(), line, fault))
}

/// Adds a line of a text, a digit behind it, and a line end.
fn put(text: &mut Vec<u8>, line: &[u8], digit: &[u8], end: &[u8]) -> Result<(), Fail> {
    text.extend_from_slice(line)?;
    text.extend_from_slice(digit)?;
    text.extend_from_slice(end)?;
    Ok(())
}

/// An example: some clients and the volume over them, with a line end of one's own.
fn example(alloc: Global, end: &[u8], count: u8) -> Result<Vec<u8>, Fail> {
    let mut text = Vec::new(alloc);
    let mut names = Vec::new(alloc);
    for i in 0..count.min(9) {
        let digit = [b'0' + i];
        put(&mut text, b"volume vol-client-", &digit, end)?;
        put(&mut text, b"    type protocol/client", b"", end)?;
        put(&mut text, b"    option remote-host server", &digit, end)?;
        put(
            &mut text,
            b"    option remote-subvolume /bricks/b",
            &digit,
            end,
        )?;
        put(&mut text, b"end-volume", b"", end)?;
        put(&mut text, b"", b"", end)?;
        put(&mut names, b" vol-client-", &digit, b"")?;
    }
    put(&mut text, b"volume vol-disperse-0", b"", end)?;
    put(&mut text, b"    type cluster/disperse", b"", end)?;
    put(&mut text, b"    option redundancy 2", b"", end)?;
    put(&mut text, b"    subvolumes", names.as_slice(), end)?;
    put(&mut text, b"end-volume", b"", end)?;
    Ok(text)
}

#[test]
fn reads_the_example(rt: HostRuntime) -> Result<(), Fail> {
    let text = example(rt.alloc(), b"\n", 6)?;
    let volume = read(rt.alloc(), text.as_slice()).ok().ok_or("refused")?;
    assert_eq!(rt; volume.name.items(), b"vol-disperse-0".as_slice());
    assert_eq!(rt; volume.bricks.len(), 6);
    assert_eq!(rt;
        volume.bricks.items()[5].items(),
        b"vol-client-5".as_slice()
    );
    assert_eq!(rt; volume.geometry.n, 6);
    assert_eq!(rt; volume.geometry.r, 2);
    assert_eq!(rt; volume.geometry.algorithm, 0);
    assert!(rt; volume.policy == Policy::RoundRobin);
    assert!(rt; !volume.eager);
    assert_eq!(rt; volume.cache, 4);
    assert_eq!(rt; volume.window, 16);
    assert!(rt; volume.kernel == Kernel::Fused);
    Ok(())
}

#[test]
fn refuses_the_example_changed(rt: HostRuntime) -> Result<(), Fail> {
    // A carriage return is a byte of its word, so `end-volume` isn't there.
    let text = example(rt.alloc(), b"\r\n", 6)?;
    assert!(rt; is_refused(rt.alloc(), text.as_slice(), 5, VolumeFault::BadLine));

    // Four subvolumes with redundancy 2, and no last `end-volume`.
    let text = example(rt.alloc(), b"\n", 4)?;
    assert!(rt;
        is_refused(
            rt.alloc(),
            text.as_slice(),
            29,
            VolumeFault::BadGeometry { n: 4, r: 2 }
        )
    );
    let mut text = example(rt.alloc(), b"\n", 6)?;
    text.truncate(text.len().saturating_sub(11));
    assert!(rt; is_refused(rt.alloc(), text.as_slice(), 40, VolumeFault::NoEnd));
    Ok(())
}

#[test]
fn refuses_files(rt: HostRuntime) -> Result<(), Fail> {
    let table: [(&[u8], u64, VolumeFault); 22] = [
        (b"volume", 1, VolumeFault::BadLine),
        (b"\n# x\n\nvolume a b\n", 4, VolumeFault::BadLine),
        (b"type x\n", 1, VolumeFault::BadLine),
        (b"volume a\noption b c\n", 2, VolumeFault::BadLine),
        (b"volume a\ntype b c\n", 2, VolumeFault::BadLine),
        (b"volume a\ntype b\noption c\n", 3, VolumeFault::BadLine),
        (b"volume a\ntype b\nsubvolumes\n", 3, VolumeFault::BadLine),
        (b"volume a\ntype b\nend-volume c", 3, VolumeFault::BadLine),
        (
            b"volume a\ntype b\nsubvolumes c c\nsubvolumes d\n",
            4,
            VolumeFault::Twice,
        ),
        (
            b"volume v\ntype cluster/disperse\nsubvolumes a b c\nsubvolumes d\n",
            4,
            VolumeFault::Twice,
        ),
        (
            b"volume v\ntype cluster/disperse\noption redundancy 4294967296\n",
            3,
            VolumeFault::BadValue,
        ),
        (
            b"volume v\ntype cluster/disperse\noption redundancy 00000000001\n",
            3,
            VolumeFault::BadValue,
        ),
        (
            b"volume v\ntype cluster/disperse\noption redundancy +1\n",
            3,
            VolumeFault::BadValue,
        ),
        (
            b"volume v\ntype cluster/disperse\noption redundancy 1\nsubvolumes a b c\nend-volume\nvolume w\ntype cluster/disperse",
            7,
            VolumeFault::TwoDisperse,
        ),
        (
            b"volume v\ntype cluster/disperse\nsubvolumes a b c\nend-volume\n",
            4,
            VolumeFault::NoRedundancy,
        ),
        (
            b"volume v\ntype cluster/disperse\noption redundancy 1\nend-volume",
            4,
            VolumeFault::BadGeometry { n: 0, r: 1 },
        ),
        (b"volume v\n\n", 2, VolumeFault::NoEnd),
        (b"volume v\ntype t\n", 2, VolumeFault::NoEnd),
        (
            b"volume v\ntype t\nend-volume\n#",
            4,
            VolumeFault::NoDisperse,
        ),
        (
            b"volume v\ntype t\nend-volume\n",
            3,
            VolumeFault::NoDisperse,
        ),
        (b"", 0, VolumeFault::NoDisperse),
        (b"\n", 1, VolumeFault::NoDisperse),
    ];
    for (text, line, fault) in table {
        assert!(rt; is_refused(rt.alloc(), text, line, fault), "{line} {fault}");
    }
    Ok(())
}

#[test]
fn refuses_lines(rt: HostRuntime) -> Result<(), Fail> {
    let table: [(&[u8], VolumeFault); 24] = [
        (b"volume x", VolumeFault::BadLine),
        (b"type x", VolumeFault::BadLine),
        (b"options x y", VolumeFault::BadLine),
        (b"option redundancy \t ", VolumeFault::BadLine),
        (b"subvolumes", VolumeFault::BadLine),
        (b"option redundancy 2", VolumeFault::Twice),
        (b"option redundancy x", VolumeFault::Twice),
        (b"subvolumes a b a", VolumeFault::Twice),
        (b"option read-policy Round-Robin", VolumeFault::BadValue),
        (b"option read-policy 0", VolumeFault::BadValue),
        (b"option stripe-cache 4294967296", VolumeFault::BadValue),
        (b"option self-heal-window-size 0", VolumeFault::BadValue),
        (b"option self-heal-window-size 1025", VolumeFault::BadValue),
        (
            b"option self-heal-window-size 4294967295",
            VolumeFault::BadValue,
        ),
        (
            b"option self-heal-window-size 4294967296",
            VolumeFault::BadValue,
        ),
        (b"option eager-lock 10", VolumeFault::BadValue),
        (b"option eager-lock 11", VolumeFault::BadValue),
        (b"option eager-lock 1024", VolumeFault::BadValue),
        (b"option eager-lock 1025", VolumeFault::BadValue),
        (b"option eager-lock 4294967295", VolumeFault::BadValue),
        (b"option eager-lock ON", VolumeFault::BadValue),
        (b"option code-rows 0", VolumeFault::BadValue),
        (b"option code-rows 1", VolumeFault::BadValue),
        (b"option code-rows Plain", VolumeFault::BadValue),
    ];
    for (line, fault) in table {
        assert!(rt; line_is(rt.alloc(), line, fault)?, "{fault}");
    }
    Ok(())
}

#[test]
fn counts_many_subvolumes(rt: HostRuntime) -> Result<(), Fail> {
    let alloc = rt.alloc();
    let mut names = Vec::from_slice(alloc, b"z")?;
    for i in 0..40u8 {
        names.extend_from_slice(&[b' ', b'a' + i / 10, b'0' + i % 10])?;
    }
    assert!(rt;
        shape_is(
            alloc,
            b"2",
            names.as_slice(),
            5,
            VolumeFault::BadGeometry { n: 41, r: 2 }
        )?
    );

    // Beyond the 31 that are kept, too, a name that comes twice is one.
    names.extend_from_slice(b" d8")?;
    assert!(rt; shape_is(alloc, b"2", names.as_slice(), 4, VolumeFault::Twice)?);
    Ok(())
}

#[test]
fn reads_redundancies(rt: HostRuntime) -> Result<(), Fail> {
    let alloc = rt.alloc();
    let table: [(&[u8], u32); 6] = [
        (b"0", 0),
        (b"10", 10),
        (b"11", 11),
        (b"1024", 1024),
        (b"1025", 1025),
        (b"4294967295", 4294967295),
    ];
    for (word, r) in table {
        assert!(rt;
            shape_is(
                alloc,
                word,
                b"a b c",
                5,
                VolumeFault::BadGeometry { n: 3, r }
            )?
        );
    }
    let volume = read(
        alloc,
        b"volume v\ntype cluster/disperse\n\toption  redundancy\t0000000001 \nsubvolumes a\tb  c\nend-volume",
    )
    .ok()
    .ok_or("refused")?;
    assert_eq!(rt; volume.geometry.r, 1);
    Ok(())
}

#[test]
fn reads_caches_and_windows(rt: HostRuntime) -> Result<(), Fail> {
    let table: [(&[u8], u8, u32); 12] = [
        (b"option stripe-cache 0", 0, 16),
        (b"option stripe-cache 1", 1, 16),
        (b"option stripe-cache 10", 10, 16),
        (b"option stripe-cache 11", 10, 16),
        (b"option stripe-cache 1024", 10, 16),
        (b"option stripe-cache 1025", 10, 16),
        (b"option stripe-cache 4294967295", 10, 16),
        (b"option self-heal-window-size 1", 4, 1),
        (b"option self-heal-window-size 10", 4, 10),
        (b"option self-heal-window-size 11", 4, 11),
        (b"option self-heal-window-size 1024", 4, 1024),
        (b"option redundancies x", 4, 16),
    ];
    for (line, cache, window) in table {
        let volume = with_option(rt.alloc(), line)?;
        assert_eq!(rt; volume.cache, cache);
        assert_eq!(rt; volume.window, window);
    }
    Ok(())
}

#[test]
fn reads_words_of_options(rt: HostRuntime) -> Result<(), Fail> {
    let table: [(&[u8], Policy, bool, Kernel, u8); 16] = [
        (
            b"option read-policy gfid-hash",
            Policy::GfidHash,
            false,
            Kernel::Fused,
            0,
        ),
        (
            b"option read-policy round-robin",
            Policy::RoundRobin,
            false,
            Kernel::Fused,
            0,
        ),
        (
            b"option eager-lock on",
            Policy::RoundRobin,
            true,
            Kernel::Fused,
            0,
        ),
        (
            b"option eager-lock yes",
            Policy::RoundRobin,
            true,
            Kernel::Fused,
            0,
        ),
        (
            b"option eager-lock true",
            Policy::RoundRobin,
            true,
            Kernel::Fused,
            0,
        ),
        (
            b"option eager-lock enable",
            Policy::RoundRobin,
            true,
            Kernel::Fused,
            0,
        ),
        (
            b"option eager-lock 1",
            Policy::RoundRobin,
            true,
            Kernel::Fused,
            0,
        ),
        (
            b"option eager-lock off",
            Policy::RoundRobin,
            false,
            Kernel::Fused,
            0,
        ),
        (
            b"option eager-lock no",
            Policy::RoundRobin,
            false,
            Kernel::Fused,
            0,
        ),
        (
            b"option eager-lock false",
            Policy::RoundRobin,
            false,
            Kernel::Fused,
            0,
        ),
        (
            b"option eager-lock disable",
            Policy::RoundRobin,
            false,
            Kernel::Fused,
            0,
        ),
        (
            b"option eager-lock 0",
            Policy::RoundRobin,
            false,
            Kernel::Fused,
            0,
        ),
        (
            b"option cpu-extensions none",
            Policy::RoundRobin,
            false,
            Kernel::Plain,
            0,
        ),
        (
            b"option cpu-extensions avx 2",
            Policy::RoundRobin,
            false,
            Kernel::Fused,
            0,
        ),
        (
            b"option code-rows systematic",
            Policy::RoundRobin,
            false,
            Kernel::Fused,
            1,
        ),
        (
            b"option code-rows plain",
            Policy::RoundRobin,
            false,
            Kernel::Fused,
            0,
        ),
    ];
    for (line, policy, eager, kernel, algorithm) in table {
        let volume = with_option(rt.alloc(), line)?;
        assert!(rt; volume.policy == policy);
        assert!(rt; volume.eager == eager);
        assert!(rt; volume.kernel == kernel);
        assert_eq!(rt; volume.geometry.algorithm, algorithm);
    }
    Ok(())
}

#[test]
fn prints_every_option(rt: HostRuntime) -> Result<(), Fail> {
    let text = b"volume v
    type cluster/disperse
    option redundancy 1
    option read-policy gfid-hash
    option eager-lock on
    option stripe-cache 10
    option self-heal-window-size 1024
    option cpu-extensions none
    option code-rows systematic
    subvolumes a b c
end-volume
";
    let volume = read(rt.alloc(), text).ok().ok_or("refused")?;
    assert_eq!(rt; print(rt.alloc(), &volume)?.items(), text.as_slice());
    let volume = with_option(rt.alloc(), b"")?;
    let printed = print(rt.alloc(), &volume)?;
    let expected = b"volume v
    type cluster/disperse
    option redundancy 1
    option read-policy round-robin
    option eager-lock off
    option stripe-cache 4
    option self-heal-window-size 16
    option cpu-extensions auto
    option code-rows plain
    subvolumes a b c
end-volume
";
    assert_eq!(rt; printed.items(), expected.as_slice());
    Ok(())
}

#[test]
fn reads_long_files(rt: HostRuntime) -> Result<(), Fail> {
    let alloc = rt.alloc();
    let blank = vec![in alloc; b'\n'; 1 << 20]?;
    assert!(rt; is_refused(alloc, blank.as_slice(), 1 << 20, VolumeFault::NoDisperse));
    let long = vec![in alloc; b'\n'; (1 << 20) + 1]?;
    assert!(rt; is_refused(alloc, long.as_slice(), 0, VolumeFault::TooLong));
    let comment = vec![in alloc; b'#'; 1 << 20]?;
    assert!(rt; is_refused(alloc, comment.as_slice(), 1, VolumeFault::NoDisperse));
    let word = vec![in alloc; b'x'; 1 << 20]?;
    assert!(rt; is_refused(alloc, word.as_slice(), 1, VolumeFault::BadLine));

    // 31 subvolumes of some 33,000 bytes each.
    let mut text = Vec::from_slice(
        alloc,
        b"volume v\ntype cluster/disperse\noption redundancy 15\nsubvolumes",
    )?;
    for i in 0..31u8 {
        text.push(b' ')?;
        text.extend_from_slice(vec![in alloc; b'x'; 33000]?.as_slice())?;
        text.push(b'0' + i)?;
    }
    text.extend_from_slice(b"\nend-volume\n")?;
    let volume = read(alloc, text.as_slice()).ok().ok_or("refused")?;
    assert_eq!(rt; volume.bricks.len(), 31);
    let printed = print(alloc, &volume)?;
    let again = read(alloc, printed.items()).ok().ok_or("refused")?;
    assert_eq!(rt; again.bricks.len(), 31);
    Ok(())
}
