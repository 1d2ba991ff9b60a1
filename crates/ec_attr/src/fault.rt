// Why bytes are no attribute.
use thiserror::Error;

/// Why bytes are no attribute of a record. Of several causes the first of these is answered.
#[derive(Clone, Copy, Debug, PartialEq, Eq, Drop, Error)]
pub enum AttrFault {
    /// There are other than the attribute's number of bytes.
    #[error("{0} bytes are no attribute of this name")]
    BadLength(usize),

    /// The version of the format isn't 0.
    #[error("format version {0}")]
    BadVersion(u8),

    /// The algorithm is neither 0 nor 1.
    #[error("algorithm {0}")]
    BadAlgorithm(u8),

    /// A word hasn't 8 bits.
    #[error("words of {0} bits")]
    BadWord(u8),

    /// The bricks and the redundancy are no geometry.
    #[error("{n} bricks with redundancy {r} are no geometry")]
    BadGeometry { n: u8, r: u8 },

    /// A chunk hasn't 512 bytes.
    #[error("chunks of {0} bytes")]
    BadChunk(u32),
}
