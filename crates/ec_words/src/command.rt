// What the words order.
ghost use Rattle.std.specs.Prelude.{◌≡◌, Err, None, Some, IfOk, map, option_map};
ghost use Rattle.clap.specs.Words.{app_of, found_of, rows_of};
ghost use Rattle.ec_words.specs.Program.{is_set, order_by, order_of, order_of_word, ordered, program};

use clap::error::ErrorKind;
use clap::{Arg, ArgAction, ArgMatches, Command as Parser};
use std::alloc::{AllocError, Global};

/// What the words of a command line order.
#[derive(Clone, Copy, Debug, PartialEq, Eq)]
pub enum Command {
    /// To play the script, and to write all entries of its log or the answers alone.
    Play { logs: bool },
    /// To list what the bricks' indices hold.
    Info,
    /// To list the records of the bricks.
    Check,
}

/// Why words order nothing.
#[derive(Clone, Copy, Debug, PartialEq, Eq)]
pub enum WordsFault {
    /// They are no command line.
    Bad,
    NoMemory,
}

/// The parser of the command line: `[--log] COMMAND [ARGUMENTS]`.
fn parser<'a>(alloc: Global) -> Result<Parser<'a>, AllocError>
    ensures { IfOk result (λ p. app_of p ≡ program) }
{
    let log = Arg::new(alloc, "log")
        .long("log")
        .action(ArgAction::SetTrue);
    let command = Arg::new(alloc, "command")
        .action(ArgAction::Set)
        .required(true);
    let arguments = Arg::new(alloc, "arguments").action(ArgAction::Append);
    let parser = Parser::new(alloc, "ecrun")
        .arg(log)?
        .arg(command)?
        .arg(arguments)?;
    Ok(parser.no_binary_name(true))
}

/// What a command word orders.
fn order_of_word(word: &str, logs: bool) -> Option<Command>
    ensures { result ≡ order_of_word word.now logs }
{
    match word {
        "play" => Some(Command::Play { logs }),
        "info" => Some(Command::Info),
        "check" => Some(Command::Check),
        _ => None,
    }
}

/// Whether a flag is set, by its value.
fn is_set(value: Option<&str>) -> bool
    ensures { result ≡ is_set (option_map (λ v. v.now) value.entry) }
{
    match value {
        Some(value) => value == "true",
        None => false,
    }
}

/// What a command word orders; no command takes further words.
fn order_by(word: Option<&str>, more: bool, logs: bool) -> Option<Command>
    ensures { result ≡ order_by (option_map (λ w. w.now) word.entry) more logs }
{
    match word {
        Some(word) => {
            if more {
                None
            } else {
                order_of_word(word, logs)
            }
        }
        None => None,
    }
}

/// What the words order of which the parser found this.
#[tactic(auto, using(crate::proofs::Rows::order_is))]
fn order_of(matches: &ArgMatches<'_>) -> Option<Command>
    ensures { result ≡ order_of (rows_of (found_of matches.now)) }
{
    let word = matches.get_str("command");
    let more = matches.contains_id("arguments");
    order_by(word, more, is_set(matches.get_str("log")))
}

/// What the words after the program's name order. Words that the parser refuses, help among them, order nothing.
pub fn command_of<'a>(alloc: Global, words: &'a [&'a str]) -> Result<Command, WordsFault>
    ensures order { IfOk result (λ c. ordered (map (λ w. w.now) words.now) ≡ Some c) }
    ensures bad { result ≡ Err WordsFault.Bad → ordered (map (λ w. w.now) words.now) ≡ None }
{
    let Ok(parser) = parser(alloc) else {
        return Err(WordsFault::NoMemory);
    };
    match parser.try_get_matches_from(words) {
        Ok(matches) => order_of(&matches).ok_or(WordsFault::Bad),
        Err(error) => {
            if error.kind() == ErrorKind::OutOfMemory {
                Err(WordsFault::NoMemory)
            } else {
                Err(WordsFault::Bad)
            }
        }
    }
}
