// The text of an id, read strictly.
ghost use Rattle.std.specs.Prelude.{◌≡◌, IfOk};
ghost use Rattle.ec_folder.specs.Texts.{id_text};

use crate::fault::Fault;
use ec_attr::{Gfid, gfid_text};
use std::alloc::Global;
use uuid::Uuid;

/// The id that has exactly this text. A UUID in upper case or without hyphens is no such text.
pub fn read_id(alloc: Global, text: &str) -> Result<Gfid, Fault>
    ensures { IfOk result (λ g. text.now ≡ id_text g.0) }
{
    let Ok(id) = Uuid::try_parse(text) else {
        return Err(Fault::Failed);
    };
    let g = Gfid(id.as_u128());
    let expected = gfid_text(alloc, g)?;
    if expected.as_bytes() != text.as_bytes() {
        return Err(Fault::Failed);
    }
    Ok(g)
}
