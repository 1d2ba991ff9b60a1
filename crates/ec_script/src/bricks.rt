// Bricks of a read, and messages by the client and the brick between which they are.
ghost use Rattle.std.specs.Prelude.{◌≡◌, ◌<◌, ◌≤◌, ◌^◌, IfSome};
ghost use Rattle.std.specs.Option.{option_map};
ghost use Rattle.ec_script.specs.Bricks.{after_letter, before, behind, brick_from, message, sides, via_bits};
ghost use Rattle.ec_script.specs.Printed.{IsBrick, IsWhich};

use crate::numbers::{brick, client, number};
use crate::words::{first_piece, place_of};
use ec_attr::BrickSet;
use ec_wire::Which;

/// A brick, where it is none below `least`.
fn brick_from(least: u8, word: &[u8]) -> Option<u8>
    ensures value { result ≡ brick_from least word.now }
    ensures range { IfSome result (λ b. (least ≤ b) × (b ≤ 30)) }
{
    let b = brick(word)?;
    if least <= b { Some(b) } else { None }
}

/// Rising bricks divided by commas.
pub(crate) fn via(word: &[u8]) -> Option<BrickSet>
    ensures value { result ≡ via_bits word.now }
    ensures range { IfSome result (λ bits. (0 < bits) × (bits < 2 ^ 31)) }
{
    let mut set = BrickSet::empty();
    let mut least = 0u8;
    let mut rest = Some(word);
    while let Some(parts) = rest {
        let (part, more) = first_piece(parts, b',');
        match brick_from(least, part) {
            Some(b) => {
                set = set.plus(b);
                least = b + 1;
                rest = more;
            }
            None => return None,
        }
    }
    Some(set)
}

/// What follows a letter that a text begins with.
fn after_letter(letter: u8, text: &[u8]) -> Option<&[u8]>
    ensures { option_map (λ rest. rest.now) result ≡ after_letter letter text.now }
{
    match text {
        [b, rest @ ..] if *b == letter => Some(rest),
        _ => None,
    }
}

/// What stands before the first hyphen, and what stands behind it.
fn around_hyphen(word: &[u8]) -> (&[u8], &[u8])
    ensures before { result.0.now ≡ before 45 word.now }
    ensures behind { result.1.now ≡ behind 45 word.now }
{
    let place = place_of(word, b'-');
    if place < word.len() {
        (&word[..place], &word[place + 1..])
    } else {
        (word, &word[word.len()..])
    }
}

/// The two texts behind these letters on both sides of a hyphen.
fn sides(left: u8, right: u8, word: &[u8]) -> Option<(&[u8], &[u8])>
    ensures { option_map (λ s. (s.0.now, s.1.now)) result ≡ sides left right word.now }
{
    let (front, back) = around_hyphen(word);
    Some((after_letter(left, front)?, after_letter(right, back)?))
}

/// `cC-bB`, `bB-cC` or the number of a message.
#[tactic(auto, unfolding(crate::specs::Bricks::message))]
pub(crate) fn message(word: &[u8]) -> Option<Which>
    ensures value { result ≡ message word.now }
    ensures range { IfSome result IsWhich }
{
    if let Some((c, b)) = sides(b'c', b'b', word) {
        return Some(Which::ToBrick {
            client: client(c)?,
            brick: brick(b)?,
        });
    }
    if let Some((b, c)) = sides(b'b', b'c', word) {
        let brick = brick(b)?;
        return Some(Which::ToClient {
            client: client(c)?,
            brick,
        });
    }
    Some(Which::Number(number(word)?))
}
