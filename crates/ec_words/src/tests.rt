// Words that order, and words that don't.
use crate::{Command, WordsFault, command_of};
use std::process::Abort;
use std::test::Fail;

#[test]
fn words_order(rt: HostRuntime) -> Result<(), Fail> {
    let play = Ok(Command::Play { logs: false });
    let all = Ok(Command::Play { logs: true });
    assert_eq!(rt; command_of(rt.alloc(), ["play"].as_slice()), play);
    assert_eq!(rt; command_of(rt.alloc(), ["play", "--log"].as_slice()), all);
    assert_eq!(rt; command_of(rt.alloc(), ["--log", "play"].as_slice()), all);
    assert_eq!(rt;
        command_of(rt.alloc(), ["info"].as_slice()),
        Ok(Command::Info)
    );
    assert_eq!(rt;
        command_of(rt.alloc(), ["--log", "check"].as_slice()),
        Ok(Command::Check)
    );
    Ok(())
}

#[test]
fn other_words_are_bad(rt: HostRuntime) -> Result<(), Fail> {
    let bad = Err(WordsFault::Bad);
    assert_eq!(rt; command_of(rt.alloc(), [].as_slice()), bad);
    assert_eq!(rt; command_of(rt.alloc(), ["--log"].as_slice()), bad);
    assert_eq!(rt; command_of(rt.alloc(), ["--help"].as_slice()), bad);
    assert_eq!(rt; command_of(rt.alloc(), ["play", "x"].as_slice()), bad);
    assert_eq!(rt;
        command_of(rt.alloc(), ["--log", "--log", "play"].as_slice()),
        bad
    );
    assert_eq!(rt; command_of(rt.alloc(), ["gen", "1", "2"].as_slice()), bad);
    assert_eq!(rt; command_of(rt.alloc(), ["play", "--log=x"].as_slice()), bad);
    Ok(())
}
