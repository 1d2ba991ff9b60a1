// Words that order no report.
use crate::running::{TWO_OF_THREE, fresh, reports};
use ec_run::Status;
use std::test::Fail;

/// No word may follow, and flags, cases and parts of a command's word are no command; nor is help, or a generated script.
#[test]
fn words_that_order_nothing(rt: HostRuntime) -> Result<(), Fail> {
    let mut stores = fresh(rt.alloc(), 3)?;
    for words in [
        ["info", "x"],
        ["info", "info"],
        ["check", "--help"],
        ["--check", "info"],
        ["CHECK", "--log"],
        ["--log", "inf"],
        ["--log", ""],
        ["--", "--info"],
    ] {
        reports(&rt, &words, TWO_OF_THREE, &mut stores, "", Status::BadWords)?;
    }
    for words in [
        ["--help"],
        ["-h"],
        ["help"],
        ["-"],
        [""],
        ["--log"],
        ["play\n"],
        ["pl\u{e4}y"],
    ] {
        reports(&rt, &words, TWO_OF_THREE, &mut stores, "", Status::BadWords)?;
    }
    for words in [["--log", "check", "--log"], ["gen", "1", "2"]] {
        reports(&rt, &words, TWO_OF_THREE, &mut stores, "", Status::BadWords)?;
    }
    Ok(())
}
