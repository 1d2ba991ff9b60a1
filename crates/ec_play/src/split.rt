// Places in a text.
ghost use Rattle.std.specs.Prelude.{◌≡◌, nat_eq};
ghost use Rattle.std.specs.List.{position_or_len};

/// The place of the first such byte, or how many bytes there are.
pub fn place_of(bytes: &[u8], byte: u8) -> usize
    ensures { result ≡ position_or_len (λ b. nat_eq b byte) bytes.now }
{
    for (i, b) in bytes.iter().enumerate() {
        if *b == byte {
            return i;
        }
    }
    bytes.len()
}
