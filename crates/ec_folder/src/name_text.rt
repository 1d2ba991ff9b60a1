// The text of the names of a directory.
ghost use Rattle.std.specs.Prelude.{◌≡◌, IfOk, string_bytes};
ghost use Rattle.ec_folder.specs.Texts.{name_line, names_lines};

use crate::fault::Fault;
use crate::id_text::read_id;
use crate::kind_text::{kind_of, kind_word};
use ec_attr::{Child, Name, gfid_text, hex_text};
use hex::FromHexError;
use std::alloc::{AllocError, Global};
use std::collections::BTreeMap;

/// The line of a name.
fn name_line(alloc: Global, name: &Name, child: Child) -> Result<String, AllocError>
    ensures { IfOk result (λ text. string_bytes text ≡ name_line (name.now, child)) }
{
    let mut line = hex_text(alloc, name.bytes())?;
    let id = gfid_text(alloc, child.gfid)?;
    line.push(' ')?;
    line.push_str(kind_word(child.kind))?;
    line.push(' ')?;
    line.push_str(id.as_str())?;
    line.push('\n')?;
    Ok(line)
}

/// A line for each name, in byte order.
pub fn names_text(alloc: Global, names: &BTreeMap<Name, Child>) -> Result<String, AllocError>
    ensures { IfOk result (λ text. string_bytes text ≡ names_lines names.now.entries) }
{
    let mut text = String::new(alloc);
    for (name, child) in names {
        let line = name_line(alloc, name, *child)?;
        text.push_str(line.as_str())?;
    }
    Ok(text)
}

/// The name whose line this may be.
fn likely_name(alloc: Global, line: &str) -> Result<(Name, Child), Fault> {
    let mut words = line.split_ascii_whitespace();
    let (Some(name), Some(kind), Some(id)) = (words.next(), words.next(), words.next()) else {
        return Err(Fault::Failed);
    };
    let bytes = match hex::decode(alloc, name) {
        Ok(bytes) => bytes,
        Err(FromHexError::OutOfMemory) => return Err(Fault::NoMemory),
        Err(_) => return Err(Fault::Failed),
    };
    let name = Name::new(alloc, bytes.as_slice())?;
    let Some(kind) = kind_of(kind) else {
        return Err(Fault::Failed);
    };
    let gfid = read_id(alloc, id)?;
    Ok((name, Child { kind, gfid }))
}

fn insert(names: &mut BTreeMap<Name, Child>, name: Name, child: Child) -> Result<(), AllocError> {
    names.insert(name, child)?;
    Ok(())
}

/// The names with exactly these lines.
pub fn read_names(alloc: Global, bytes: &[u8]) -> Result<BTreeMap<Name, Child>, Fault>
    ensures { IfOk result (λ names. bytes.now ≡ names_lines names.entries) }
{
    let Ok(text) = str::from_utf8(bytes) else {
        return Err(Fault::Failed);
    };
    let mut names = BTreeMap::new(alloc);
    for line in text.lines() {
        let (name, child) = likely_name(alloc, line)?;
        insert(&mut names, name, child)?;
    }
    let expected = names_text(alloc, &names)?;
    if expected.as_bytes() != bytes {
        return Err(Fault::Failed);
    }
    Ok(names)
}
