// The text of a head.
ghost use Rattle.std.specs.Prelude.{◌≡◌, ◌++◌, ◌≤◌, ◌^◌, IfOk, OnOk, string_bytes};
ghost use Rattle.ec_folder.specs.Texts.{attr_line, five_lines, head_lines, line, old_lines, IsHeadText};

use crate::fault::Fault;
use crate::kind_text::{kind_of, kind_word};
use ec_attr::{
    Attr, Config, Dirty, Head, Version, hex_text, same_attr, size_from_bytes, size_to_bytes,
};
use hex::FromHex;
use std::alloc::{AllocError, Global};

/// The greatest size of a file.
const MOST_SIZE: u64 = 1 << 40;

/// A line of a key and a value.
#[tactic(auto, unfolding(crate::specs::Texts::line))]
fn push_line(text: &mut String, key: &str, value: &str) -> Result<(), AllocError>
    ensures { OnOk result (string_bytes text.new ≡ string_bytes text.old ++ line key.now value.now) }
{
    text.push_str(key)?;
    text.push(' ')?;
    text.push_str(value)?;
    text.push('\n')?;
    Ok(())
}

/// Five lines with these values.
#[tactic(auto, unfolding(crate::specs::Texts::five_lines))]
fn five_lines(
    alloc: Global,
    kind: &str,
    config: &str,
    version: &str,
    size: &str,
    dirty: &str,
) -> Result<String, AllocError>
    ensures { IfOk result (λ text. string_bytes text ≡ five_lines kind.now config.now version.now size.now dirty.now) }
{
    let mut text = String::new(alloc);
    push_line(&mut text, "kind", kind)?;
    push_line(&mut text, "trusted.ec.config", config)?;
    push_line(&mut text, "trusted.ec.version", version)?;
    push_line(&mut text, "trusted.ec.size", size)?;
    push_line(&mut text, "trusted.ec.dirty", dirty)?;
    Ok(text)
}

/// The lines of a head before its attribute of callers. A head that has no more is read as having that of a new record.
fn old_text(alloc: Global, h: &Head) -> Result<String, AllocError>
    ensures { IfOk result (λ text. string_bytes text ≡ old_lines h.now) }
{
    let config = hex_text(alloc, &h.config.to_bytes())?;
    let version = hex_text(alloc, &h.version.to_bytes())?;
    let size = hex_text(alloc, &size_to_bytes(h.size))?;
    let dirty = hex_text(alloc, &h.dirty.to_bytes())?;
    five_lines(
        alloc,
        kind_word(h.kind),
        config.as_str(),
        version.as_str(),
        size.as_str(),
        dirty.as_str(),
    )
}

/// The line of the attribute that callers set.
fn attr_line(alloc: Global, a: &Attr) -> Result<String, AllocError>
    ensures { IfOk result (λ text. string_bytes text ≡ attr_line a.now) }
{
    format!(in alloc; "attr {} {} {}\n", a.mode, a.owner, a.group)
}

/// The lines of a head.
pub fn head_text(alloc: Global, h: &Head) -> Result<String, AllocError>
    ensures { IfOk result (λ text. string_bytes text ≡ head_lines h.now) }
{
    let mut text = old_text(alloc, h)?;
    let line = attr_line(alloc, &h.attr)?;
    text.push_str(line.as_str())?;
    Ok(text)
}

/// The head whose lines may be these: only the values are looked at.
fn likely_head(text: &str) -> Option<Head> {
    let mut words = text.split_ascii_whitespace();
    let kind = kind_of(words.nth(1)?)?;
    let config = <[u8; 8] as FromHex>::from_hex(words.nth(1)?).ok()?;
    let version = <[u8; 16] as FromHex>::from_hex(words.nth(1)?).ok()?;
    let size = <[u8; 8] as FromHex>::from_hex(words.nth(1)?).ok()?;
    let dirty = <[u8; 16] as FromHex>::from_hex(words.nth(1)?).ok()?;
    let attr = match words.nth(1) {
        Some(mode) => Attr::new(
            mode.parse().ok()?,
            words.next()?.parse().ok()?,
            words.next()?.parse().ok()?,
        )?,
        None => Attr::of_new(kind),
    };
    Some(Head {
        kind,
        config: Config::from_bytes(&config).ok()?,
        version: Version::from_bytes(&version).ok()?,
        size: size_from_bytes(&size).ok()?,
        dirty: Dirty::from_bytes(&dirty).ok()?,
        attr,
    })
}

/// The head with exactly these lines, of which the last may be missing, and of a size of at most 2^40.
pub fn read_head(alloc: Global, bytes: &[u8]) -> Result<Head, Fault>
    ensures text { IfOk result (IsHeadText bytes.now) }
    ensures size { IfOk result (λ h. h.size ≤ 2 ^ 40) }
{
    let Ok(text) = str::from_utf8(bytes) else {
        return Err(Fault::Failed);
    };
    let Some(head) = likely_head(text) else {
        return Err(Fault::Failed);
    };
    if head.size > MOST_SIZE {
        return Err(Fault::Failed);
    }
    let new = head_text(alloc, &head)?;
    if new.as_bytes() == bytes {
        return Ok(head);
    }
    let old = old_text(alloc, &head)?;
    let is_new = same_attr(&head.attr, &Attr::of_new(head.kind));
    if is_new && old.as_bytes() == bytes {
        return Ok(head);
    }
    Err(Fault::Failed)
}
