// What is printed of an event that was read is read as that event, by what `read_line` and `print` promise alone.
ghost use Rattle.std.specs.Prelude.{◌≡◌, IfSome};

use crate::{LineFault, print, read_line};
use ec_wire::Event;
use std::alloc::Global;
use std::test::Fail;

/// The event of a line, and what its printed line is read as.
fn read_again(alloc: Global, line: &[u8]) -> Option<(Event, Event)>
    ensures { IfSome result (λ e. e.1 ≡ e.0) }
{
    let Ok(Some(event)) = read_line(alloc, line) else {
        return None;
    };
    let Ok(text) = print(alloc, &event) else {
        return None;
    };
    if text.len() > 2_200_000 {
        return None;
    }
    match read_line(alloc, text.as_bytes()) {
        Ok(Some(again)) => Some((event, again)),
        Err(LineFault::NoMemory) => None,
        _ => unreachable!(),
    }
}

#[test]
fn an_event_is_read_again(rt: HostRuntime) -> Result<(), Fail> {
    assert!(rt; read_again(rt.alloc(), b"call 1 write 2 0 41*3+FF").is_some());
    Ok(())
}
