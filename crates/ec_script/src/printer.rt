// The line of an event.
#![tactic(auto, unfolding(ec_wire::specs::Words::behind, ec_wire::specs::Words::divided))]

ghost use Rattle.std.specs.Prelude.{◌≡◌, ◌≤◌, [], ◌∷◌, ◌++◌, IfOk, Ok, OnOk, Some, codes, decimal, length, string_bytes};
ghost use Rattle.ec_wire.specs.Calls.{op_words};
ghost use Rattle.ec_wire.specs.Phases.{phase_word};
ghost use Rattle.ec_wire.specs.Words.{behind, spaced};
ghost use Rattle.ec_script.specs.Lines.{line_event, most_line};
ghost use Rattle.ec_script.specs.Printed.{IsEvent, brick_or_all_word, event_text, which_word};

use ec_wire::{Event, Op, Phase, Which, line, phase_word, push_numbers, push_op, push_word};
use itoa::Buffer;
use std::alloc::{AllocError, Global};

/// Adds a word of two sides, each a number behind its letter.
fn push_sides(
    text: &mut String,
    left: &str,
    first: u8,
    right: &str,
    second: u8,
) -> Result<(), AllocError>
    ensures { OnOk result (string_bytes text.new ≡ string_bytes text.old ++ behind 32 ((left.now ++ decimal first ++ right.now ++ decimal second) ∷ [])) }
{
    let mut buffer = Buffer::new();
    push_word(text, left)?;
    text.push_str(buffer.format(first))?;
    text.push_str(right)?;
    text.push_str(buffer.format(second))
}

/// Adds a message, by its number or by who sends and who gets it.
fn push_which(text: &mut String, which: Which) -> Result<(), AllocError>
    ensures { OnOk result (string_bytes text.new ≡ string_bytes text.old ++ behind 32 (which_word which ∷ [])) }
{
    match which {
        Which::Number(no) => push_numbers(text, &[no]),
        Which::ToBrick { client, brick } => push_sides(text, "c", client, "-b", brick),
        Which::ToClient { client, brick } => push_sides(text, "b", brick, "-c", client),
    }
}

/// Adds a brick, or `all` for none.
fn push_brick_or_all(text: &mut String, brick: Option<u8>) -> Result<(), AllocError>
    ensures { OnOk result (string_bytes text.new ≡ string_bytes text.old ++ behind 32 (brick_or_all_word brick ∷ [])) }
{
    match brick {
        Some(brick) => push_numbers(text, &[u64::from(brick)]),
        None => push_word(text, "all"),
    }
}

fn call_text(alloc: Global, client: u8, op: &Op) -> Result<String, AllocError>
    ensures { IfOk result (λ t. string_bytes t ≡ spaced (codes "call" ∷ decimal client ∷ op_words op.now)) }
{
    let mut text = line(alloc, "call", &[u64::from(client)])?;
    push_op(&mut text, op)?;
    Ok(text)
}

fn message_text(alloc: Global, word: &str, which: Which) -> Result<String, AllocError>
    ensures { IfOk result (λ t. string_bytes t ≡ spaced (word.now ∷ which_word which ∷ [])) }
{
    let mut text = String::from_str(alloc, word)?;
    push_which(&mut text, which)?;
    Ok(text)
}

fn tear_text(alloc: Global, which: Which, bytes: u64) -> Result<String, AllocError>
    ensures { IfOk result (λ t. string_bytes t ≡ spaced (codes "tear" ∷ which_word which ∷ decimal bytes ∷ [])) }
{
    let mut text = message_text(alloc, "tear", which)?;
    push_numbers(&mut text, &[bytes])?;
    Ok(text)
}

fn cut_text(alloc: Global, client: u8, brick: Option<u8>) -> Result<String, AllocError>
    ensures { IfOk result (λ t. string_bytes t ≡ spaced (codes "cut" ∷ decimal client ∷ brick_or_all_word brick ∷ [])) }
{
    let mut text = line(alloc, "cut", &[u64::from(client)])?;
    push_brick_or_all(&mut text, brick)?;
    Ok(text)
}

fn until_text(alloc: Global, client: u8, phase: Phase) -> Result<String, AllocError>
    ensures { IfOk result (λ t. string_bytes t ≡ spaced (codes "until" ∷ decimal client ∷ phase_word phase ∷ [])) }
{
    let mut text = line(alloc, "until", &[u64::from(client)])?;
    push_word(&mut text, phase_word(phase))?;
    Ok(text)
}

fn text_of(alloc: Global, e: &Event) -> Result<String, AllocError>
    ensures { IfOk result (λ t. string_bytes t ≡ event_text e.now) }
{
    match e {
        Event::Call { client, op } => call_text(alloc, *client, op),
        Event::Deliver(which) => message_text(alloc, "deliver", *which),
        Event::Lose(which) => message_text(alloc, "lose", *which),
        Event::GiveUp { client, brick } => {
            line(alloc, "giveup", &[u64::from(*client), u64::from(*brick)])
        }
        Event::Stop(brick) => line(alloc, "stop", &[u64::from(*brick)]),
        Event::Return(brick) => line(alloc, "return", &[u64::from(*brick)]),
        Event::Cut { client, brick } => cut_text(alloc, *client, *brick),
        Event::Die(client) => line(alloc, "die", &[u64::from(*client)]),
        Event::Tear { which, bytes } => tear_text(alloc, *which, *bytes),
        Event::Yield(client) => line(alloc, "yield", &[u64::from(*client)]),
        Event::Settle => line(alloc, "settle", &[]),
        Event::Until { client, phase } => until_text(alloc, *client, *phase),
        Event::Replace(brick) => line(alloc, "replace", &[u64::from(*brick)]),
    }
}

/// The line of an event, in lower case and with one blank between two words.
pub fn print(alloc: Global, e: &Event) -> Result<String, AllocError>
    ensures text { IfOk result (λ t. string_bytes t ≡ event_text e.now) }

    // The line of an event that a line can order is in the grammar and orders this event, so it is read as it.
    ensures meaning { IfOk result (λ t. IsEvent e.now → length (string_bytes t) ≤ most_line → line_event (string_bytes t) ≡ Ok (Some e.now)) }
{
    text_of(alloc, e)
}
