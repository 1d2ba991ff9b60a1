// Where a range of bytes lies among the stripes.

/// The stripes of a range of bytes: the first and the last that it touches, how many bytes of the first lie before the
/// range, and how many of the last lie past it.
#[derive(Clone, Copy, Debug, PartialEq, Eq)]
pub struct Span {
    pub first: u64,
    pub last: u64,
    pub head: u32,
    pub tail: u32,
}
