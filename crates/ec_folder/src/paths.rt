// Where the files of a brick folder are.
ghost use Rattle.std.specs.Prelude.{◌≡◌, ◌++◌, ◌∷◌, IfOk, string_bytes};
ghost use Rattle.ec_folder.specs.Texts.{id_text};
ghost use Rattle.ec_folder.specs.Paths.{part_path};

use ec_attr::{Gfid, gfid_text};
use std::alloc::{AllocError, Global};

/// The three folders of a brick folder. Each has a file for a record, by the text of its id.
#[derive(Clone, Copy, Debug, PartialEq, Eq)]
pub enum Part {
    Heads,
    Fragments,
    Names,
}

/// The path of one of the three folders.
pub fn part_path(alloc: Global, root: &str, part: Part) -> Result<String, AllocError>
    ensures { IfOk result (λ path. string_bytes path ≡ part_path root.now part) }
{
    let mut path = String::from_str(alloc, root)?;
    path.push_str(match part {
        Part::Heads => "/heads",
        Part::Fragments => "/fragments",
        Part::Names => "/names",
    })?;
    Ok(path)
}

/// The path of a record's file in one of the three folders.
pub fn record_path(alloc: Global, root: &str, part: Part, g: Gfid) -> Result<String, AllocError>
    ensures { IfOk result (λ path. string_bytes path ≡ part_path root.now part ++ 47 ∷ id_text g.0) }
{
    let mut path = part_path(alloc, root, part)?;
    let id = gfid_text(alloc, g)?;
    path.push('/')?;
    path.push_str(id.as_str())?;
    Ok(path)
}
