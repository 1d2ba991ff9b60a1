// The ids of files and directories.
ghost use Rattle.std.specs.Prelude.{◌≡◌, IfOk, string_bytes};
ghost use Rattle.std.specs.Int.{to_be_bytes, w128};
ghost use Rattle.uuid.specs.Text.{hyphenated_text, lower};

use std::alloc::{AllocError, Global};
use uuid::Uuid;

/// The id of a file or directory, the same on every brick. The root directory is 1.
#[derive(Clone, Copy, Debug, PartialEq, Eq, PartialOrd, Ord)]
pub struct Gfid(pub u128);

/// The id as a UUID in lower case with hyphens.
pub fn gfid_text(alloc: Global, g: Gfid) -> Result<String, AllocError>
    ensures { IfOk result (λ text. string_bytes text ≡ hyphenated_text lower (to_be_bytes w128 g.0)) }
{
    let id = Uuid::from_u128(g.0);
    let mut buffer = Uuid::encode_buffer();
    String::from_str(alloc, id.hyphenated().encode_lower(&mut buffer))
}
