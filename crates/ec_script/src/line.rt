// One line of a script.
ghost use Rattle.std.specs.Prelude.{◌≡◌, ◌↔◌, ◌≤◌, ◌<◌, None, Ok, length, map, nat_lt, true, IfErr, IfOk, IfSome};
ghost use Rattle.ec_script.specs.Forms.{form_of};
ghost use Rattle.ec_script.specs.Lines.{call_event, event_of, is_passed, line_event, most_line, phase_named, some_event, until_event};
ghost use Rattle.ec_script.specs.Printed.{IsEvent};
ghost use Rattle.ec_script.specs.Results.{Fails, Finds, numbered};
ghost use Rattle.ec_script.specs.Words.{seen};

use crate::calls::call_by;
use crate::events::{brick_event, client_event, message_event};
use crate::fault::LineFault;
use crate::form::form_of;
use crate::numbers::client;
use crate::word::Word;
use crate::words::{TOO_MANY_WORDS, has_word, is, without_return, words};
use ec_wire::{Event, Phase, phase_of};
use std::alloc::Global;

/// The most bytes of a line, a carriage return at its end among them.
const MOST_BYTES: usize = 2_200_000;

/// The phase of this name.
fn phase_named(word: &[u8]) -> Option<Phase>
    ensures { result ≡ phase_named word.now }
{
    phase_of(word)
}

/// `until C PHASE`
fn until_event(phase: Option<Phase>, client_word: &[u8]) -> Result<Event, LineFault>
    ensures found { Finds (λ e. e) result (until_event phase client_word.now) }
    ensures range { IfOk result IsEvent }
{
    let Some(phase) = phase else {
        return Err(LineFault::BadEvent);
    };
    match client(client_word) {
        Some(client) => Ok(Event::Until { client, phase }),
        None => Err(LineFault::BadNumber),
    }
}

/// `call C ..`
#[tactic(auto, using(crate::proofs::WordLemmas::seen_words))]
fn call_event(alloc: Global, words: &[Word]) -> Result<Event, LineFault>
    ensures found { Finds (λ e. e) result (call_event (form_of (map seen words.now)) (map seen words.now)) }
    ensures range { IfOk result IsEvent }
{
    let Some(form) = form_of(words) else {
        return Err(LineFault::BadEvent);
    };
    let Some(client) = client(words[1].text) else {
        return Err(LineFault::BadNumber);
    };
    match call_by(alloc, form, words) {
        Ok(op) => Ok(Event::Call { client, op }),
        Err(fault) => Err(fault),
    }
}

/// An event whose numbers were read, if they are such.
fn numbered(event: Option<Event>) -> Result<Event, LineFault>
    requires { IfSome event IsEvent }
    ensures found { result ≡ numbered event }
    ensures range { IfOk result IsEvent }
{
    event.ok_or(LineFault::BadNumber)
}

/// What the words of a line order.
#[tactic(auto, using(crate::proofs::WordLemmas::seen_words), unfolding(crate::specs::Lines::event_of))]
fn event_of(alloc: Global, words: &[Word]) -> Result<Event, LineFault>
    requires { 0 < length words.now }
    ensures found { Finds (λ e. e) result (event_of (map seen words.now)) }
    ensures range { IfOk result IsEvent }
{
    if is(words[0].text, "call") {
        call_event(alloc, words)
    } else if has_word(words, 3, 0, "until") {
        until_event(phase_named(words[2].text), words[1].text)
    } else if let Some(event) = message_event(words) {
        numbered(event)
    } else if let Some(event) = brick_event(words) {
        numbered(event)
    } else if let Some(event) = client_event(words) {
        numbered(event)
    } else {
        Err(LineFault::BadEvent)
    }
}

/// What one line of a script orders, its newline left out: an event, or nothing where it is blank or its first byte is
/// `#`. A carriage return at its end is left out, and counts among its bytes.
#[tactic(auto, unfolding(crate::specs::Lines::line_event))]
pub fn read_line(alloc: Global, line: &[u8]) -> Result<Option<Event>, LineFault>
    // What is read is in the grammar, and is what the line says.
    ensures event { IfOk result (λ e. line_event line.now ≡ Ok e) }

    // What is refused isn't in the grammar, and has its first fault.
    ensures fault { IfErr result (λ f. Fails f (line_event line.now)) }

    // There is no event exactly where the line is passed over.
    ensures passed { (result ≡ Ok None) ↔ ((length line.now ≤ most_line) × (is_passed line.now ≡ true)) }

    // An event is one that a line can order, so its text is read as it again.
    ensures range { IfOk result (λ e. IfSome e IsEvent) }
{
    if line.len() > MOST_BYTES {
        return Err(LineFault::TooLong);
    }
    if let [b'#', ..] = line {
        return Ok(None);
    }
    let words = words(alloc, without_return(line))?;
    if words.is_empty() {
        return Ok(None);
    }
    if words.len() == TOO_MANY_WORDS {
        return Err(LineFault::BadEvent);
    }
    match event_of(alloc, words.as_slice()) {
        Ok(event) => Ok(Some(event)),
        Err(fault) => Err(fault),
    }
}
