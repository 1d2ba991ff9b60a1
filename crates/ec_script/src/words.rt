// The words of a line, and texts that are divided by a byte.
ghost use Rattle.std.specs.Prelude.{◌≡◌, ◌≢◌, ◌∷◌, ◌++◌, ◌<◌, ◌≤◌, ◌+◌, ◌^◌, [], if◌then◌else◌};
ghost use Rattle.std.specs.Prelude.{IfOk, IfSome, IsErr, IsTrue, OnOk, bytes_eq, drop, length, map, nat_eq, nat_lt, take};
ghost use Rattle.std.specs.List.{position_or_len, slice_split};
ghost use Rattle.std.specs.Option.{option_map};
ghost use Rattle.ec_script.specs.Words.{is_blank, one_word, pieces, words, seen, has_word, text_at, without_return};

use crate::word::Word;
use std::alloc::{AllocError, Global};

/// One word more than any line of a script has.
pub(crate) const TOO_MANY_WORDS: usize = 9;

/// The place of the first such byte, or how many bytes there are.
pub(crate) fn place_of(bytes: &[u8], byte: u8) -> usize
    ensures { result ≡ position_or_len (λ b. nat_eq b byte) bytes.now }
{
    for (i, b) in bytes.iter().enumerate() {
        if *b == byte {
            return i;
        }
    }
    bytes.len()
}

/// A space or a tab.
fn is_blank(b: u8) -> bool
    ensures { result ≡ is_blank b }
{
    b == b' ' || b == b'\t'
}

/// The place of the first blank, or how many bytes there are.
fn place_of_blank(bytes: &[u8]) -> usize
    ensures { result ≡ position_or_len is_blank bytes.now }
{
    for (i, b) in bytes.iter().enumerate() {
        if is_blank(*b) {
            return i;
        }
    }
    bytes.len()
}

/// The bytes before a place, and those after it where there is a byte at it.
fn around(bytes: &[u8], place: usize) -> (&[u8], Option<&[u8]>)
    requires { place ≤ length bytes.now }
    ensures front { result.0.now ≡ take place bytes.now }
    ensures rest { option_map (λ rest. rest.now) result.1 ≡ (if nat_lt place (length bytes.now) then Some (drop (place + 1) bytes.now) else None) }
{
    if place < bytes.len() {
        (&bytes[..place], Some(&bytes[place + 1..]))
    } else {
        (bytes, None)
    }
}

/// The first piece of a text that such bytes divide, and the rest behind that byte.
pub(crate) fn first_piece(bytes: &[u8], byte: u8) -> (&[u8], Option<&[u8]>)
    ensures pieces { slice_split (λ b. nat_eq b byte) bytes.now ≡ result.0.now ∷ pieces (λ b. nat_eq b byte) (option_map (λ rest. rest.now) result.1) }
    ensures shorter { IfSome result.1 (λ rest. length result.0.now + length rest.now + 1 ≡ length bytes.now) }
    ensures front { length result.0.now ≤ length bytes.now }
{
    around(bytes, place_of(bytes, byte))
}

/// The first piece of a text that blanks divide, and the rest behind that blank.
fn first_between_blanks(bytes: &[u8]) -> (&[u8], Option<&[u8]>)
    ensures pieces { slice_split is_blank bytes.now ≡ result.0.now ∷ pieces is_blank (option_map (λ rest. rest.now) result.1) }
    ensures shorter { IfSome result.1 (λ rest. length result.0.now + length rest.now + 1 ≡ length bytes.now) }
    ensures front { length result.0.now ≤ length bytes.now }
{
    around(bytes, place_of_blank(bytes))
}

/// Adds a piece that begins at a place, where it is a word.
fn add_word<'a>(found: &mut Vec<Word<'a>>, place: usize, piece: &'a [u8]) -> Result<(), AllocError>
    requires { place + length piece.now < 2 ^ 63 }
    ensures added { OnOk result (map seen found.new.items ≡ map seen found.old.items ++ one_word place piece.now) }
    ensures some { IsErr result → one_word place piece.now ≢ [] }
{
    if !piece.is_empty() {
        found.push(Word { place, text: piece })?;
    }
    Ok(())
}

/// The words of a line, divided by blanks, up to one more than a line of a script has.
pub(crate) fn words<'a>(alloc: Global, line: &'a [u8]) -> Result<Vec<Word<'a>>, AllocError>
    ensures found { IfOk result (λ v. map seen v.items ≡ take TOO_MANY_WORDS (words line.now)) }
    ensures memory { IsErr result → words line.now ≢ [] }
{
    let mut found = Vec::new(alloc);
    let mut place = 0usize;
    let mut rest = Some(line);
    while let Some(text) = rest {
        let (piece, more) = first_between_blanks(text);
        add_word(&mut found, place, piece)?;
        if found.len() == TOO_MANY_WORDS {
            return Ok(found);
        }
        place += piece.len() + 1;
        rest = more;
    }
    Ok(found)
}

/// A line without the carriage return at its end.
pub(crate) fn without_return(line: &[u8]) -> &[u8]
    ensures { result.now ≡ without_return line.now }
{
    match line {
        [front @ .., b'\r'] => front,
        _ => line,
    }
}

/// Whether a word is this text.
pub(crate) fn is(word: &[u8], text: &str) -> bool
    ensures { result ≡ bytes_eq word.now text.now }
{
    word == text.as_bytes()
}

/// Whether there are `n` words, and word `i` is this one.
#[tactic(auto, using(crate::proofs::WordLemmas::seen_words))]
pub(crate) fn has_word(words: &[Word], n: usize, i: usize, word: &str) -> bool
    requires { i < n }
    ensures value { result ≡ has_word (map seen words.now) n i word.now }
    ensures words { IsTrue result → length words.now ≡ n }
{
    words.len() == n && is(words[i].text, word)
}
