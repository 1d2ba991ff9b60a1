// A word of a line.
ghost use Rattle.std.specs.Prelude.{◌<◌, ◌+◌, ◌^◌, length};

/// A word of a line, and the place of its first byte in the line.
#[derive(Clone, Copy, Debug)]
pub(crate) struct Word<'a> {
    pub place: usize,
    pub text: &'a [u8],
    pub ghost inside: { place + length text.now < 2 ^ 63 },
}
