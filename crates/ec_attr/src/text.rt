// Bytes as text.
ghost use Rattle.std.specs.Prelude.{◌≡◌, IfOk, string_bytes};
ghost use Rattle.hex.specs.Hex.{encode_lower};

use std::alloc::{AllocError, Global};

/// Bytes as hexadecimal digits in lower case.
pub fn hex_text(alloc: Global, b: &[u8]) -> Result<String, AllocError>
    ensures { IfOk result (λ text. string_bytes text ≡ encode_lower b.now) }
{
    hex::encode(alloc, b)
}
