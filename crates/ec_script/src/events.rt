// Events whose words are numbers and fixed words.
ghost use Rattle.std.specs.Prelude.{◌≡◌, Some, map, IfSome};
ghost use Rattle.ec_script.specs.Orders.{brick_event, replace, return_brick, stop};
ghost use Rattle.ec_script.specs.Orders.{client_event, cut, die, give_up, yield_client};
ghost use Rattle.ec_script.specs.Orders.{deliver, lose, message_event, tear};
ghost use Rattle.ec_script.specs.Printed.{IsEvent};
ghost use Rattle.ec_script.specs.Words.{seen};

use crate::bricks::message;
use crate::numbers::{brick, client, number};
use crate::orders::brick_or_all;
use crate::word::Word;
use crate::words::has_word;
use ec_wire::Event;

fn deliver(message_word: &[u8]) -> Option<Event>
    ensures value { result ≡ deliver message_word.now }
    ensures range { IfSome result IsEvent }
{
    Some(Event::Deliver(message(message_word)?))
}

fn lose(message_word: &[u8]) -> Option<Event>
    ensures value { result ≡ lose message_word.now }
    ensures range { IfSome result IsEvent }
{
    Some(Event::Lose(message(message_word)?))
}

fn tear(message_word: &[u8], bytes_word: &[u8]) -> Option<Event>
    ensures value { result ≡ tear message_word.now bytes_word.now }
    ensures range { IfSome result IsEvent }
{
    let which = message(message_word)?;
    let bytes = number(bytes_word)?;
    Some(Event::Tear { which, bytes })
}

/// An event of a message.
#[tactic(auto, using(crate::proofs::WordLemmas::seen_words), unfolding(crate::specs::Orders::message_event))]
pub(crate) fn message_event(words: &[Word]) -> Option<Option<Event>>
    ensures value { result ≡ message_event (map seen words.now) }
    ensures range { IfSome result (λ e. IfSome e IsEvent) }
{
    if has_word(words, 2, 0, "deliver") {
        Some(deliver(words[1].text))
    } else if has_word(words, 2, 0, "lose") {
        Some(lose(words[1].text))
    } else if has_word(words, 3, 0, "tear") {
        Some(tear(words[1].text, words[2].text))
    } else {
        None
    }
}

fn stop(brick_word: &[u8]) -> Option<Event>
    ensures value { result ≡ stop brick_word.now }
    ensures range { IfSome result IsEvent }
{
    Some(Event::Stop(brick(brick_word)?))
}

fn return_brick(brick_word: &[u8]) -> Option<Event>
    ensures value { result ≡ return_brick brick_word.now }
    ensures range { IfSome result IsEvent }
{
    Some(Event::Return(brick(brick_word)?))
}

fn replace(brick_word: &[u8]) -> Option<Event>
    ensures value { result ≡ replace brick_word.now }
    ensures range { IfSome result IsEvent }
{
    Some(Event::Replace(brick(brick_word)?))
}

/// An event of a brick.
#[tactic(auto, using(crate::proofs::WordLemmas::seen_words), unfolding(crate::specs::Orders::brick_event))]
pub(crate) fn brick_event(words: &[Word]) -> Option<Option<Event>>
    ensures value { result ≡ brick_event (map seen words.now) }
    ensures range { IfSome result (λ e. IfSome e IsEvent) }
{
    if has_word(words, 2, 0, "stop") {
        Some(stop(words[1].text))
    } else if has_word(words, 2, 0, "return") {
        Some(return_brick(words[1].text))
    } else if has_word(words, 2, 0, "replace") {
        Some(replace(words[1].text))
    } else {
        None
    }
}

fn give_up(client_word: &[u8], brick_word: &[u8]) -> Option<Event>
    ensures value { result ≡ give_up client_word.now brick_word.now }
    ensures range { IfSome result IsEvent }
{
    let client = client(client_word)?;
    let brick = brick(brick_word)?;
    Some(Event::GiveUp { client, brick })
}

fn cut(client_word: &[u8], brick_word: &[u8]) -> Option<Event>
    ensures value { result ≡ cut client_word.now brick_word.now }
    ensures range { IfSome result IsEvent }
{
    let client = client(client_word)?;
    let brick = brick_or_all(brick_word)?;
    Some(Event::Cut { client, brick })
}

fn die(client_word: &[u8]) -> Option<Event>
    ensures value { result ≡ die client_word.now }
    ensures range { IfSome result IsEvent }
{
    Some(Event::Die(client(client_word)?))
}

fn yield_client(client_word: &[u8]) -> Option<Event>
    ensures value { result ≡ yield_client client_word.now }
    ensures range { IfSome result IsEvent }
{
    Some(Event::Yield(client(client_word)?))
}

/// An event of a client, other than a call and `until`, or of none.
#[tactic(auto, using(crate::proofs::WordLemmas::seen_words), unfolding(crate::specs::Orders::client_event))]
pub(crate) fn client_event(words: &[Word]) -> Option<Option<Event>>
    ensures value { result ≡ client_event (map seen words.now) }
    ensures range { IfSome result (λ e. IfSome e IsEvent) }
{
    if has_word(words, 3, 0, "giveup") {
        Some(give_up(words[1].text, words[2].text))
    } else if has_word(words, 3, 0, "cut") {
        Some(cut(words[1].text, words[2].text))
    } else if has_word(words, 2, 0, "die") {
        Some(die(words[1].text))
    } else if has_word(words, 2, 0, "yield") {
        Some(yield_client(words[1].text))
    } else if has_word(words, 1, 0, "settle") {
        Some(Some(Event::Settle))
    } else {
        None
    }
}
