// Many calls, in turns of all clients at once.
use crate::bench::Bench;
use ec_attr::Gfid;
use ec_wire::{Answer, Entry, Event, Log, Op};
use std::test::Fail;

const CALLS: u32 = 1000;

/// Each stat has its call, three asks and three queries with their replies, three releases and its answer.
const ENTRIES: u32 = 1 + 3 * 4 + 3 * 4 + 3 * 2 + 1;

/// How many calls were answered that there is no such gfid, and that it is a directory.
fn answered(log: &Log) -> (u32, u32) {
    let mut counts = (0u32, 0u32);
    for entry in log.items() {
        match entry {
            Entry::Answered {
                answer: Answer::NoSuch,
                ..
            } => counts.0 = counts.0.saturating_add(1),
            Entry::Answered {
                answer: Answer::IsDir,
                ..
            } => counts.1 = counts.1.saturating_add(1),
            _ => {}
        }
    }
    counts
}

/// Sixteen clients each make a call, then all is settled. Every second call is of the root.
#[test]
fn all_calls_are_answered(rt: HostRuntime) -> Result<(), Fail> {
    let mut bench = Bench::new(&rt, 3, 1)?;
    for call in 0..CALLS {
        let event = Event::Call {
            client: (call % 16) as u8 + 1,
            op: Op::Stat {
                gfid: Gfid(u128::from(1 + call % 2)),
            },
        };
        assert_eq!(rt; bench.step(&rt, &event), None, "call {call}");
        if call % 16 == 15 || call == CALLS - 1 {
            bench.play(&rt, "settle");
            assert_eq!(rt; bench.open()?, 0, "call {call}");
        }
    }
    assert_eq!(rt; answered(bench.log()), (CALLS / 2, CALLS / 2));
    assert_eq!(rt; bench.log().len(), (CALLS * ENTRIES) as usize);
    Ok(())
}
