// The text of an answer.
#![tactic(auto, unfolding(crate::specs::Words::behind))]

ghost use Rattle.std.specs.Prelude.{◌≡◌, [], ◌∷◌, ◌++◌, IfOk, OnOk, decimal, map, string_bytes};
ghost use Rattle.ec_wire.specs.Answers.{answer_text, answer_words, listed_word};
ghost use Rattle.ec_wire.specs.Words.{behind, child_words, numbers_word};
ghost use Rattle.ec_wire.specs.declared.answer.Answer.TheVariants.{Healed, NoQuorum, Split};

use crate::answer::{Answer, Listing, StripeList};
use crate::phase::{Phase, phase_word};
use crate::words::{
    either, push_attr, push_bricks, push_bytes, push_child_or, push_child_words, push_counted,
    push_gfid, push_hex, push_joined, push_numbers, push_word, put_child_or,
};
use ec_attr::{BrickSet, Child, Name};
use itoa::Buffer;
use std::alloc::{AllocError, Global};

/// Adds a name with what it leads to.
fn push_listed(text: &mut String, name: &Name, child: Option<Child>) -> Result<(), AllocError>
    ensures { OnOk result (string_bytes text.new ≡ string_bytes text.old ++ behind 32 (listed_word (name.now, child) ∷ [])) }
{
    push_hex(text, name.bytes())?;
    text.push(':')?;
    put_child_or(text, "open", child)
}

/// Adds the names of a directory.
fn push_listing(text: &mut String, list: &Listing) -> Result<(), AllocError>
    ensures { OnOk result (string_bytes text.new ≡ string_bytes text.old ++ behind 32 (map listed_word list.now)) }
{
    for (name, child) in list.items() {
        push_listed(text, name, *child)?;
    }
    Ok(())
}

/// Adds a word and a child.
fn push_with_child(text: &mut String, word: &str, child: &Child) -> Result<(), AllocError>
    ensures { OnOk result (string_bytes text.new ≡ string_bytes text.old ++ behind 32 (word.now ∷ child_words child.now)) }
{
    push_word(text, word)?;
    push_child_words(text, child)
}

fn push_healed(text: &mut String, sinks: &BrickSet, all: bool) -> Result<(), AllocError>
    ensures { OnOk result (string_bytes text.new ≡ string_bytes text.old ++ behind 32 (answer_words (Healed sinks.now all))) }
{
    push_word(text, "healed")?;
    push_bricks(text, sinks)?;
    push_word(text, either(all, "all", "part"))
}

fn push_no_quorum(text: &mut String, phase: Phase, most: u8) -> Result<(), AllocError>
    ensures { OnOk result (string_bytes text.new ≡ string_bytes text.old ++ behind 32 (answer_words (NoQuorum phase most))) }
{
    push_word(text, "noquorum")?;
    push_counted(text, phase_word(phase), u64::from(most))
}

fn push_split(text: &mut String, a: Option<Child>, b: Option<Child>) -> Result<(), AllocError>
    ensures { OnOk result (string_bytes text.new ≡ string_bytes text.old ++ behind 32 (answer_words (Split a b))) }
{
    push_word(text, "split")?;
    push_child_or(text, "none", a)?;
    push_child_or(text, "none", b)
}

/// Adds a word, how many bricks were seen, and the bad stripes.
fn push_seen(text: &mut String, word: &str, seen: u8, bad: &StripeList) -> Result<(), AllocError>
    ensures { OnOk result (string_bytes text.new ≡ string_bytes text.old ++ behind 32 (word.now ∷ decimal seen ∷ numbers_word bad.now ∷ [])) }
{
    push_counted(text, word, u64::from(seen))?;
    push_joined(text, bad.items())
}

/// Adds the words of an answer, each behind a blank.
pub(crate) fn push_answer(text: &mut String, answer: &Answer) -> Result<(), AllocError>
    ensures { OnOk result (string_bytes text.new ≡ string_bytes text.old ++ behind 32 (answer_words answer.now)) }
{
    match answer {
        Answer::Size(n) => push_counted(text, "ok", *n),
        Answer::Bytes(bytes) => {
            push_word(text, "data")?;
            push_bytes(text, bytes.items())
        }
        Answer::Child(child) => push_with_child(text, "child", child),
        Answer::Gone => push_word(text, "gone"),
        Answer::Names(list) => {
            push_word(text, "names")?;
            push_listing(text, list)
        }
        Answer::Healed { sinks, all } => push_healed(text, sinks, *all),
        Answer::Nothing => push_word(text, "nothing"),
        Answer::NoQuorum { phase, most } => push_no_quorum(text, *phase, *most),
        Answer::NoSuch => push_word(text, "nosuch"),
        Answer::IsDir => push_word(text, "isdir"),
        Answer::NotDir => push_word(text, "notdir"),
        Answer::NoName => push_word(text, "noname"),
        Answer::Exists(child) => push_with_child(text, "exists", child),
        Answer::Split(a, b) => push_split(text, *a, *b),
        Answer::TooLong(n) => push_counted(text, "toolong", *n),
        Answer::TooBig(n) => push_counted(text, "toobig", *n),
        Answer::Lost(b) => push_counted(text, "lost", u64::from(*b)),
        Answer::Moved { mark, group } => {
            push_word(text, "moved")?;
            push_numbers(text, &[*mark, *group])
        }
        Answer::Limit(version) => push_counted(text, "limit", *version),
        Answer::Spent => push_word(text, "spent"),
        Answer::Attr(attr) => {
            push_word(text, "attr")?;
            push_attr(text, attr)
        }
        Answer::NotEmpty(name) => {
            push_word(text, "notempty")?;
            push_hex(text, name.bytes())
        }
        Answer::Scrubbed { seen, bad } => push_seen(text, "scrubbed", *seen, bad),
        Answer::Settled { seen, bad } => push_seen(text, "settled", *seen, bad),
        Answer::Left(gfid) => {
            push_word(text, "left")?;
            push_gfid(text, *gfid)
        }
        Answer::Swept { healed, given } => {
            push_word(text, "swept")?;
            push_numbers(text, &[*healed, *given])
        }
    }
}

/// The line of a call's answer: the number of the call, and what it is answered.
#[tactic(auto, unfolding(crate::specs::Words::behind, crate::specs::Words::divided))]
pub fn answer_text(alloc: Global, call: u32, a: &Answer) -> Result<String, AllocError>
    ensures { IfOk result (λ text. string_bytes text ≡ answer_text call a.now) }
{
    let mut buffer = Buffer::new();
    let mut text = String::from_str(alloc, buffer.format(call))?;
    push_answer(&mut text, a)?;
    Ok(text)
}
