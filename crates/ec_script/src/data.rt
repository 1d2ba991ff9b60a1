// Bytes in hexadecimal digits: names, and the data of a write.
ghost use Rattle.std.specs.Prelude.{◌≡◌, ◌<◌, ◌≤◌, ◌+◌, ◌*◌, ◌%◌, ◌^◌, ◌++◌, ◌↔◌, List, not, true, false, ℕ};
ghost use Rattle.std.specs.Prelude.{None, Ok, IfErr, IfOk, IfSome, IsTrue, OnOk, drop, length, replicate, slice_index, take};
ghost use Rattle.std.specs.List.{position_or_len};
ghost use Rattle.std.specs.Option.{option_map};
ghost use Rattle.hex.specs.Hex.{IsBytes, is_hex_digit};
ghost use Rattle.ec_script.specs.Data.{Gathers, digits, digits_bytes, is_repeated, joined_bytes, most_data, name_of, part_bytes, repeated, written_bytes};
ghost use Rattle.ec_script.specs.Printed.{IsData, IsName};
ghost use Rattle.ec_script.specs.Results.{Fails, Finds};
ghost use Rattle.ec_script.specs.Words.{seen};
ghost use Rattle.ec_script.specs.declared.fault.LineFault.TheVariants.{NoMemory};

use crate::fault::LineFault;
use crate::numbers::number;
use crate::word::Word;
use crate::words::{first_piece, is};
use ec_attr::{BadName, Blob, Name};
use std::alloc::Global;

/// The most bytes of data.
const MOST_DATA: usize = 1 << 21;

/// A hexadecimal digit of either case.
fn is_digit(byte: u8) -> bool
    ensures { result ≡ is_hex_digit byte }
{
    byte.is_ascii_hexdigit()
}

/// The place of the first byte that is no digit, or how many bytes there are.
fn first_other(text: &[u8]) -> usize
    ensures { result ≡ position_or_len (λ b. not (is_hex_digit b)) text.now }
{
    for (i, byte) in text.iter().enumerate() {
        if !is_digit(*byte) {
            return i;
        }
    }
    text.len()
}

/// Whether a text that begins at a place is digits, two a byte.
#[tactic(auto, unfolding(crate::specs::Data::digits))]
fn check_digits(place: usize, text: &[u8]) -> Result<(), LineFault>
    requires { place + length text.now < 2 ^ 63 }
    ensures ok { OnOk result ((digits place text.now ≡ Ok (digits_bytes text.now)) × (length text.now % 2 ≡ 0) × (position_or_len (λ b. not (is_hex_digit b)) text.now ≡ length text.now)) }
    ensures err { IfErr result (λ e. digits place text.now ≡ Err e) }
{
    let other = first_other(text);
    if other < text.len() {
        return Err(LineFault::BadHex((place + other) as u64));
    }
    if text.is_empty() || text.len() % 2 == 1 {
        return Err(LineFault::BadHex((place + text.len()) as u64));
    }
    Ok(())
}

/// Writes the bytes of digits that were checked from `start` on.
fn fill_digits(bytes: &mut [u8], start: usize, text: &[u8])
    requires room { length text.now + 2 * start ≡ 2 * length bytes.old }
    requires digits { position_or_len (λ b. not (is_hex_digit b)) text.now ≡ length text.now }
    ensures value { bytes.new ≡ take start bytes.old ++ digits_bytes text.now }
    ensures length { length bytes.new ≡ length bytes.old }
{
    let (_, room) = bytes.split_at_mut(start);
    match hex::decode_to_slice(text, room) {
        Ok(()) => (),
        Err(_) => unreachable!(),
    }
}

/// Adds the bytes of digits that were checked.
fn push_digits(bytes: &mut Vec<u8>, text: &[u8]) -> Result<(), LineFault>
    requires even { length text.now % 2 ≡ 0 }
    requires digits { position_or_len (λ b. not (is_hex_digit b)) text.now ≡ length text.now }
    ensures ok { OnOk result (bytes.new.items ≡ bytes.old.items ++ digits_bytes text.now) }
    ensures memory { IfErr result (λ e. e ≡ NoMemory) }
{
    let start = bytes.len();
    bytes.resize(start + text.len() / 2, 0)?;
    fill_digits(bytes, start, text);
    Ok(())
}

/// The name that the digits of a word say.
pub(crate) fn name(alloc: Global, word: &Word) -> Result<Name, LineFault>
    ensures found { Finds (λ n. n) result (name_of (seen word.now)) }
    ensures range { IfOk result IsName }
{
    if let Err(fault) = check_digits(word.place, word.text) {
        return Err(fault);
    }
    let mut bytes = Vec::new(alloc);
    push_digits(&mut bytes, word.text)?;
    match Name::new(alloc, bytes.as_slice()) {
        Ok(name) => Ok(name),
        Err(BadName::NotAName) => Err(LineFault::BadName),
        Err(BadName::NoMemory) => Err(LineFault::NoMemory),
    }
}

/// The byte that the two digits before a star say, and what stands behind the star.
fn before_star(part: &[u8]) -> Option<(u8, &[u8])>
    ensures found { IfSome result (λ r. (is_repeated part.now ≡ true) × (r.0 ≡ slice_index (digits_bytes (take 2 part.now)) 0) × (r.1.now ≡ drop 3 part.now)) }
    ensures none { result ≡ None → is_repeated part.now ≡ false }
{
    if 3 <= part.len() && is_digit(part[0]) && is_digit(part[1]) && part[2] == b'*' {
        let mut byte = [0u8];
        fill_digits(&mut byte, 0, &part[..2]);
        Some((byte[0], &part[3..]))
    } else {
        None
    }
}

/// Whether more bytes fit behind those so far.
fn has_room(len: usize, bulky: bool, more: u64) -> bool
    ensures { IsTrue result ↔ ((bulky ≡ false) × (len + more ≤ most_data)) }
{
    let most = MOST_DATA as u64;
    !bulky && more <= most && len as u64 <= most - more
}

/// Adds the bytes of digits that were checked, where they fit. Answers whether they don't.
fn add_digits(bytes: &mut Vec<u8>, bulky: bool, text: &[u8]) -> Result<bool, LineFault>
    requires even { length text.now % 2 ≡ 0 }
    requires digits { position_or_len (λ b. not (is_hex_digit b)) text.now ≡ length text.now }
    ensures found { IfOk result (λ still. Gathers bulky bytes.old.items still bytes.new.items (digits_bytes text.now)) }
    ensures memory { IfErr result (λ e. e ≡ NoMemory) }
{
    if !has_room(bytes.len(), bulky, (text.len() / 2) as u64) {
        return Ok(true);
    }
    push_digits(bytes, text)?;
    Ok(false)
}

/// Adds a byte as often as this, where that fits. Answers whether it doesn't.
fn add_repeated(bytes: &mut Vec<u8>, bulky: bool, byte: u8, times: u64) -> Result<bool, LineFault>
    ensures found { IfOk result (λ still. Gathers bulky bytes.old.items still bytes.new.items (replicate times byte)) }
    ensures memory { IfErr result (λ e. e ≡ NoMemory) }
{
    if !has_room(bytes.len(), bulky, times) {
        return Ok(true);
    }
    bytes.resize(bytes.len() + times as usize, byte)?;
    Ok(false)
}

/// Adds the bytes of a part that begins at a place. Where they don't fit, or `bulky` says that those before it don't,
/// the part is only checked. Answers whether all don't fit then.
fn add_part(bytes: &mut Vec<u8>, bulky: bool, place: usize, part: &[u8]) -> Result<bool, LineFault>
    requires { place + length part.now < 2 ^ 63 }
    ensures found { IfOk result (λ still. (more : List ℕ) × (part_bytes place part.now ≡ Ok more) × Gathers bulky bytes.old.items still bytes.new.items more) }
    ensures fault { IfErr result (λ e. Fails e (part_bytes place part.now)) }
{
    match before_star(part) {
        Some((byte, times)) => match number(times) {
            Some(times) => add_repeated(bytes, bulky, byte, times),
            None => Err(LineFault::BadNumber),
        },
        None => match check_digits(place, part) {
            Ok(()) => add_digits(bytes, bulky, part),
            Err(fault) => Err(fault),
        },
    }
}

/// The bytes of parts, the first of them at a place.
fn parts(alloc: Global, mut place: usize, text: &[u8]) -> Result<Vec<u8>, LineFault>
    requires { place + length text.now < 2 ^ 63 }
    ensures found { Finds (λ v. v.items) result (joined_bytes place text.now) }
    ensures most { IfOk result (λ v. length v.items ≤ most_data) }
{
    let mut bytes = Vec::new(alloc);
    let mut bulky = false;
    let mut rest = Some(text);
    while let Some(parts) = rest {
        let (part, more) = first_piece(parts, b'+');
        match add_part(&mut bytes, bulky, place, part) {
            Ok(still) => bulky = still,
            Err(fault) => return Err(fault),
        }
        place += part.len() + 1;
        rest = more;
    }
    if bulky {
        Err(LineFault::Bulky)
    } else {
        Ok(bytes)
    }
}

/// The bytes of a vector, without a copy.
fn blob_of(bytes: Vec<u8>) -> Blob
    ensures value { result ≡ bytes.items }
    ensures bytes { IsBytes bytes.items }
{
    Blob::from_vec(bytes)
}

/// The data of a write that a word says.
#[tactic(auto, unfolding(crate::specs::Data::written_bytes))]
pub(crate) fn data(alloc: Global, word: &Word) -> Result<Blob, LineFault>
    ensures found { Finds (λ b. b) result (written_bytes (seen word.now)) }
    ensures range { IfOk result IsData }
{
    if is(word.text, "-") {
        return Ok(Blob::new(alloc));
    }
    match parts(alloc, word.place, word.text) {
        Ok(bytes) => Ok(blob_of(bytes)),
        Err(fault) => Err(fault),
    }
}
