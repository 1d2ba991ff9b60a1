// Answers letter by letter, brick by brick, and what they come to.
ghost use Rattle.std.specs.Prelude.{◌≡◌, ◌≤◌, ℕ, IfOk, None};
ghost use Rattle.ec_answers.specs.Grouping.{given_by};

use crate::{Answers, Given, Grouped, choose, group};
use ec_attr::{Attr, BrickSet, Config, Dirty, Geometry, Head, Kind, Version, marked};
use std::alloc::Global;
use std::test::Fail;

/// Four bricks of six suffice.
fn geometry() -> Result<Geometry, Fail>
    ensures { IfOk result (λ g. g.n ≡ 6) }
{
    match Geometry::new(6, 2) {
        Ok(g) => Ok(g),
        Err(_) => Err(Fail::from("no geometry")),
    }
}

/// The head of a file of 2048 bytes.
fn head(geometry: Geometry, content: u64, dirty: u64) -> Head {
    Head {
        kind: Kind::File,
        config: Config { geometry },
        version: Version { content, meta: 0 },
        size: 2048,
        dirty: Dirty {
            content: dirty,
            meta: 0,
        },
        attr: Attr::of_new(Kind::File),
    }
}

/// What the letter stands for: a, b and c heads that agree in all but b's dirty number and c's version; k, d, s and t
/// heads that differ from a in the config, the kind, the size and the attribute; m, w and x marked heads, w of c's
/// version and x of s's size; n no record, o another reply, and any other letter no reply.
fn given(geometry: Geometry, letter: u8) -> Option<Given> {
    let mut h = head(geometry, 7, 0);
    match letter {
        b'b' => h.dirty.content = 3,
        b'c' => h = head(geometry, 8, 9),
        b'k' => h.config.geometry = geometry.systematic(),
        b'd' => h.kind = Kind::Dir,
        b's' => h.size = 2047,
        b't' => h.attr.owner = 1,
        b'm' => h = head(geometry, marked(7), 5),
        b'w' => h = head(geometry, marked(8), 5),
        b'x' => {
            h = head(geometry, marked(7), 5);
            h.size = 2047;
        }
        b'n' => return Some(Given::NoInode),
        b'o' => return Some(Given::Other),
        b'a' => {}
        _ => return None,
    }
    Some(Given::Head(h))
}

fn answers(geometry: Geometry, letters: &[u8; 6]) -> Answers
    ensures { (b : ℕ) → 6 ≤ b → given_by result b ≡ None }
{
    let mut given_by = [None; 31];
    for b in 0..6usize {
        given_by[b] = given(geometry, letters[b]);
    }
    Answers { given: given_by }
}

/// The bricks of a set, a digit each.
fn digits(alloc: Global, bricks: &BrickSet) -> Result<String, Fail> {
    let mut text = String::new(alloc);
    for b in 0..10u8 {
        if bricks.has(b) {
            text.push_str(format!(in alloc; "{b}")?.as_str())?;
        }
    }
    Ok(text)
}

fn grouped_text(alloc: Global, grouped: &Grouped) -> Result<String, Fail> {
    Ok(match grouped {
        Grouped::Group(g) => {
            let bricks = digits(alloc, &g.bricks)?;
            let sinks = digits(alloc, &g.sinks)?;
            let version = g.head.version.content;
            format!(in alloc;
                "group {bricks} sinks {sinks} version {version} dirty {}",
                g.head.dirty.content
            )?
        }
        Grouped::Gone(bricks) => {
            let bricks = digits(alloc, bricks)?;
            format!(in alloc; "gone {bricks}")?
        }
        Grouped::Fewer(most) => format!(in alloc; "fewer {most}")?,
    })
}

#[test]
fn answers_are_grouped(rt: HostRuntime) -> Result<(), Fail> {
    let table = [
        (b"aaaaaa", "group 012345 sinks  version 7 dirty 0"),
        (b"aabaam", "group 01234 sinks 5 version 7 dirty 3"),
        (b"caaaac", "group 1234 sinks  version 7 dirty 0"),
        (b"xaaaam", "group 1234 sinks 5 version 7 dirty 0"),
        (b"waaaa-", "group 1234 sinks  version 7 dirty 0"),
        (b"ooccwc", "fewer 3"),
        (b"aaaccc", "fewer 3"),
        (b"aaakkk", "fewer 3"),
        (b"aaaddd", "fewer 3"),
        (b"aaasss", "fewer 3"),
        (b"aaattt", "fewer 3"),
        (b"aammmm", "fewer 2"),
        (b"mmmmmm", "fewer 0"),
        (b"oooooo", "fewer 0"),
        (b"------", "fewer 0"),
        (b"--n---", "fewer 1"),
        (b"a-nn--", "fewer 2"),
        (b"nnnaaa", "fewer 3"),
        (b"nnonna", "gone 0134"),
        (b"nnnnnn", "gone 012345"),
    ];
    let geometry = geometry()?;
    for (letters, text) in table {
        let given = answers(geometry, letters);
        let come_to = grouped_text(rt.alloc(), &group(&given, &geometry))?;
        assert!(rt; come_to.as_str() == text);
    }
    Ok(())
}

#[test]
fn bricks_are_chosen(rt: HostRuntime) -> Result<(), Fail> {
    let among = BrickSet::empty().plus(0).plus(2).plus(5);
    let none = BrickSet::empty();
    let table = [(0, 0), (1, 2), (2, 2), (3, 5), (5, 5), (6, 0), (30, 0)];
    for (start, brick) in table {
        assert!(rt; choose(start, &among, &none) == Some(brick));
    }
    assert!(rt; choose(1, &among, &none.plus(2)) == Some(5));
    assert!(rt; choose(3, &among, &none.plus(5).plus(0)) == Some(2));
    assert!(rt; choose(3, &among, &among).is_none());
    assert!(rt; choose(3, &none, &none).is_none());
    Ok(())
}
