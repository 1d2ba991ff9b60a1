// What lines order whose words are numbers and fixed words.
ghost use Rattle.std.specs.Prelude.{◌≡◌, ◌<◌, ◌≤◌, ◌+◌, length, map, IfSome};
ghost use Rattle.ec_script.specs.Forms.{plain_len};
ghost use Rattle.ec_script.specs.Orders.{attr_in, attr_of, brick_or_all, plain_call, plain_of};
ghost use Rattle.ec_script.specs.Printed.{IsAttr, IsBrickOrAll, IsEvent, IsId, IsOp};
ghost use Rattle.ec_script.specs.Words.{seen};

use crate::bricks::{message, via};
use crate::form::PlainForm;
use crate::numbers::{brick, client, gfid, mode, number, owner};
use crate::word::Word;
use crate::words::{has_word, is};
use ec_attr::{Attr, Gfid};
use ec_wire::{Event, Op};

/// An attribute, where its mode is in range.
fn attr_of(mode: u32, owner: u32, group: u32) -> Option<Attr>
    ensures value { result ≡ attr_of mode owner group }
    ensures range { IfSome result IsAttr }
{
    Attr::new(mode, owner, group)
}

/// The attribute of three words.
fn attr_in(mode_word: &[u8], owner_word: &[u8], group_word: &[u8]) -> Option<Attr>
    ensures value { result ≡ attr_in mode_word.now owner_word.now group_word.now }
    ensures range { IfSome result IsAttr }
{
    let mode = mode(mode_word)?;
    let user = owner(owner_word)?;
    attr_of(mode, user, owner(group_word)?)
}

/// The call of a form on a file or directory, by its further words.
#[tactic(auto, using(crate::proofs::WordLemmas::seen_words))]
fn plain_of(form: PlainForm, gfid: Gfid, words: &[Word]) -> Option<Op>
    requires words { plain_len form ≡ length words.now }
    requires id { IsId gfid }
    ensures value { result ≡ plain_of form gfid (map seen words.now) }
    ensures range { IfSome result IsOp }
{
    Some(match form {
        PlainForm::Truncate => {
            let size = number(words[4].text)?;
            Op::Truncate { gfid, size }
        }
        PlainForm::Read => {
            let off = number(words[4].text)?;
            let len = number(words[5].text)?;
            let via = None;
            Op::Read {
                gfid,
                off,
                len,
                via,
            }
        }
        PlainForm::ReadVia => {
            let off = number(words[4].text)?;
            let len = number(words[5].text)?;
            let via = Some(via(words[7].text)?);
            Op::Read {
                gfid,
                off,
                len,
                via,
            }
        }
        PlainForm::Stat => Op::Stat { gfid },
        PlainForm::Readdir => Op::Readdir { gfid },
        PlainForm::Heal => Op::Heal { gfid },
        PlainForm::SetAttr => {
            let attr = attr_in(words[4].text, words[5].text, words[6].text)?;
            Op::SetAttr { gfid, attr }
        }
        PlainForm::GetAttr => Op::GetAttr { gfid },
        PlainForm::Scrub => Op::Scrub {
            gfid,
            settle: false,
        },
        PlainForm::ScrubSettle => Op::Scrub { gfid, settle: true },
    })
}

/// The call of a form on a file or directory, where each number is one.
#[tactic(auto, using(crate::proofs::WordLemmas::seen_words), unfolding(crate::specs::Orders::plain_call))]
pub(crate) fn plain_call(form: PlainForm, words: &[Word]) -> Option<Op>
    requires { plain_len form ≡ length words.now }
    ensures value { result ≡ plain_call form (map seen words.now) }
    ensures range { IfSome result IsOp }
{
    plain_of(form, gfid(words[3].text)?, words)
}

/// A brick, or none for `all`.
pub(crate) fn brick_or_all(word: &[u8]) -> Option<Option<u8>>
    ensures value { result ≡ brick_or_all word.now }
    ensures range { IfSome result IsBrickOrAll }
{
    if is(word, "all") {
        Some(None)
    } else {
        Some(Some(brick(word)?))
    }
}
