// The words that texts are made of, each put behind a blank.
#![tactic(auto, unfolding(crate::specs::Words::behind))]

ghost use Rattle.std.specs.Prelude.{◌≡◌, [], ◌∷◌, ◌++◌, IfOk, OnOk, decimal, map, string_bytes};
ghost use Rattle.hex.specs.Hex.{encode_lower};
ghost use Rattle.ec_attr.specs.Bricks.{bricks};
ghost use Rattle.ec_wire.specs.Words.{attr_words, behind, bricks_word, bytes_word, either, gfid_or_dash, gfid_word};
ghost use Rattle.ec_wire.specs.Words.{child_or, child_words, head_words, kind_word, name_or_dash, number_or_dash, numbers_word};

use ec_attr::{Attr, BrickSet, Child, Gfid, Head, Kind, Name};
use itoa::Buffer;
use std::alloc::{AllocError, Global};

/// Adds a word behind a blank. Where there is no memory a part may stand there.
pub fn push_word(text: &mut String, word: &str) -> Result<(), AllocError>
    ensures { OnOk result (string_bytes text.new ≡ string_bytes text.old ++ behind 32 (word.now ∷ [])) }
{
    text.push(' ')?;
    text.push_str(word)
}

/// One of two words.
pub(crate) fn either(test: bool, a: &'static str, b: &'static str) -> &'static str
    ensures { result.now ≡ either test a.now b.now }
{
    if test { a } else { b }
}

/// Adds numbers, each behind a blank. Where there is no memory a part may stand there.
pub fn push_numbers(text: &mut String, numbers: &[u64]) -> Result<(), AllocError>
    ensures { OnOk result (string_bytes text.new ≡ string_bytes text.old ++ behind 32 (map decimal numbers.now)) }
{
    let mut buffer = Buffer::new();
    for number in numbers {
        push_word(text, buffer.format(*number))?;
    }
    Ok(())
}

/// Adds a word and a number.
pub(crate) fn push_counted(text: &mut String, word: &str, number: u64) -> Result<(), AllocError>
    ensures { OnOk result (string_bytes text.new ≡ string_bytes text.old ++ behind 32 (word.now ∷ decimal number ∷ [])) }
{
    push_word(text, word)?;
    push_numbers(text, &[number])
}

/// Adds a number, or a hyphen for none.
pub(crate) fn push_number_or_dash(text: &mut String, number: Option<u64>) -> Result<(), AllocError>
    ensures { OnOk result (string_bytes text.new ≡ string_bytes text.old ++ behind 32 (number_or_dash number ∷ [])) }
{
    match number {
        Some(number) => push_numbers(text, &[number]),
        None => push_word(text, "-"),
    }
}

/// Adds the numbers, each behind a comma, to the last word.
fn put_behind_commas(text: &mut String, numbers: &[u64]) -> Result<(), AllocError>
    ensures { OnOk result (string_bytes text.new ≡ string_bytes text.old ++ behind 44 (map decimal numbers.now)) }
{
    let mut buffer = Buffer::new();
    for number in numbers {
        text.push(',')?;
        text.push_str(buffer.format(*number))?;
    }
    Ok(())
}

/// Adds a word of numbers joined by commas.
#[tactic(auto, using(crate::proofs::WordLemmas::no_numbers))]
pub(crate) fn push_joined(text: &mut String, numbers: &[u64]) -> Result<(), AllocError>
    ensures { OnOk result (string_bytes text.new ≡ string_bytes text.old ++ behind 32 (numbers_word numbers.now ∷ [])) }
{
    match numbers {
        [] => push_word(text, "-"),
        [first, rest @ ..] => {
            push_numbers(text, &[*first])?;
            put_behind_commas(text, rest)
        }
    }
}

/// The bricks of a set, rising.
#[tactic(auto, unfolding(ec_attr::specs::Bricks::bricks_below))]
fn numbers_of(alloc: Global, set: &BrickSet) -> Result<Vec<u64>, AllocError>
    ensures { IfOk result (λ numbers. numbers.items ≡ bricks set.now) }
{
    let mut numbers = Vec::with_capacity(alloc, usize::from(set.len()))?;
    for b in 0..31 {
        if set.has(b) {
            numbers.push(u64::from(b))?;
        }
    }
    Ok(numbers)
}

/// Adds a word of bricks joined by commas.
pub fn push_bricks(text: &mut String, set: &BrickSet) -> Result<(), AllocError>
    ensures { OnOk result (string_bytes text.new ≡ string_bytes text.old ++ behind 32 (bricks_word set.now ∷ [])) }
{
    let numbers = numbers_of(*text.allocator(), set)?;
    push_joined(text, numbers.as_slice())
}

/// Adds the number of a file or directory.
pub(crate) fn push_gfid(text: &mut String, gfid: Gfid) -> Result<(), AllocError>
    ensures { OnOk result (string_bytes text.new ≡ string_bytes text.old ++ behind 32 (gfid_word gfid ∷ [])) }
{
    let mut buffer = Buffer::new();
    push_word(text, buffer.format(gfid.0))
}

/// Adds the number of a file or directory, or a hyphen for none.
pub(crate) fn push_gfid_or_dash(text: &mut String, gfid: Option<Gfid>) -> Result<(), AllocError>
    ensures { OnOk result (string_bytes text.new ≡ string_bytes text.old ++ behind 32 (gfid_or_dash gfid ∷ [])) }
{
    match gfid {
        Some(gfid) => push_gfid(text, gfid),
        None => push_word(text, "-"),
    }
}

/// Adds a word, an id, and numbers.
pub(crate) fn push_about(
    text: &mut String,
    word: &str,
    gfid: Gfid,
    numbers: &[u64],
) -> Result<(), AllocError>
    ensures { OnOk result (string_bytes text.new ≡ string_bytes text.old ++ behind 32 (word.now ∷ gfid_word gfid ∷ map decimal numbers.now)) }
{
    push_word(text, word)?;
    push_gfid(text, gfid)?;
    push_numbers(text, numbers)
}

/// Adds bytes in hexadecimal digits of lower case.
pub(crate) fn push_hex(text: &mut String, bytes: &[u8]) -> Result<(), AllocError>
    ensures { OnOk result (string_bytes text.new ≡ string_bytes text.old ++ behind 32 (encode_lower bytes.now ∷ [])) }
{
    let digits = hex::encode(*text.allocator(), bytes)?;
    push_word(text, digits.as_str())
}

/// Adds bytes in hexadecimal digits, or a hyphen for none.
#[tactic(auto, using(crate::proofs::WordLemmas::no_bytes, crate::proofs::WordLemmas::some_bytes))]
pub(crate) fn push_bytes(text: &mut String, bytes: &[u8]) -> Result<(), AllocError>
    ensures { OnOk result (string_bytes text.new ≡ string_bytes text.old ++ behind 32 (bytes_word bytes.now ∷ [])) }
{
    match bytes {
        [] => push_word(text, "-"),
        [_, ..] => push_hex(text, bytes),
    }
}

/// Adds a name in hexadecimal digits, or a hyphen for none.
pub(crate) fn push_name_or_dash(text: &mut String, name: &Option<Name>) -> Result<(), AllocError>
    ensures { OnOk result (string_bytes text.new ≡ string_bytes text.old ++ behind 32 (name_or_dash name.now ∷ [])) }
{
    match name {
        Some(name) => push_hex(text, name.bytes()),
        None => push_word(text, "-"),
    }
}

/// The word of a kind.
pub fn kind_word(kind: Kind) -> &'static str
    ensures { result.now ≡ kind_word kind }
{
    match kind {
        Kind::File => "file",
        Kind::Dir => "dir",
    }
}

/// Adds a child, or this for none, to the last word.
pub(crate) fn put_child_or(
    text: &mut String,
    none: &str,
    child: Option<Child>,
) -> Result<(), AllocError>
    ensures { OnOk result (string_bytes text.new ≡ string_bytes text.old ++ child_or none.now child) }
{
    let Some(child) = child else {
        return text.push_str(none);
    };
    let mut buffer = Buffer::new();
    text.push_str(kind_word(child.kind))?;
    text.push(':')?;
    text.push_str(buffer.format(child.gfid.0))
}

/// Adds a child, or this word for none.
pub(crate) fn push_child_or(
    text: &mut String,
    none: &str,
    child: Option<Child>,
) -> Result<(), AllocError>
    ensures { OnOk result (string_bytes text.new ≡ string_bytes text.old ++ behind 32 (child_or none.now child ∷ [])) }
{
    text.push(' ')?;
    put_child_or(text, none, child)
}

/// Adds a child as two words.
pub(crate) fn push_child_words(text: &mut String, child: &Child) -> Result<(), AllocError>
    ensures { OnOk result (string_bytes text.new ≡ string_bytes text.old ++ behind 32 (child_words child.now)) }
{
    push_word(text, kind_word(child.kind))?;
    push_gfid(text, child.gfid)
}

/// Adds the three numbers of an attribute.
pub(crate) fn push_attr(text: &mut String, attr: &Attr) -> Result<(), AllocError>
    ensures { OnOk result (string_bytes text.new ≡ string_bytes text.old ++ behind 32 (attr_words attr.now)) }
{
    push_numbers(
        text,
        &[
            u64::from(attr.mode),
            u64::from(attr.owner),
            u64::from(attr.group),
        ],
    )
}

/// Adds the words of a head.
pub(crate) fn push_head(text: &mut String, head: &Head) -> Result<(), AllocError>
    ensures { OnOk result (string_bytes text.new ≡ string_bytes text.old ++ behind 32 (head_words head.now)) }
{
    push_word(text, kind_word(head.kind))?;
    push_hex(text, &head.config.to_bytes())?;
    push_numbers(text, &[head.version.content, head.size, head.dirty.content])?;
    push_attr(text, &head.attr)
}
