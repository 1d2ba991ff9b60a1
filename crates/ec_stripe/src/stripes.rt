// Which stripes hold which bytes of a file.
ghost use Rattle.std.specs.Prelude.{◌≡◌, ◌+◌, ◌-◌, ◌*◌, ◌^◌, ◌<◌, ◌≤◌};
ghost use Rattle.ec_stripe.specs.Span.{IsFragmentLen, IsSpan};

use crate::extent::Span;
use ec_attr::Geometry;

/// The bytes of a stripe.
fn stripe_bytes(g: &Geometry) -> u64
    ensures value { result ≡ 512 * (g.now.n - g.now.r) }
    ensures least { 1024 ≤ result }
    ensures most { result ≤ 8192 }
{
    512 * u64::from(g.k())
}

/// The span of `len` bytes from `off` on.
pub fn span(g: &Geometry, off: u64, len: u64) -> Span
    requires some { 0 < len }
    requires limit { off + len ≤ 2 ^ 40 }
    ensures { IsSpan (g.now.n - g.now.r) off len result.first result.last result.head result.tail }
{
    let bytes = stripe_bytes(g);
    let last = (off + len - 1) / bytes;
    Span {
        first: off / bytes,
        last,
        head: (off % bytes) as u32,
        tail: (bytes * (last + 1) - (off + len)) as u32,
    }
}

/// How many bytes a fragment of a file of `size` bytes has: a chunk for each stripe of the file.
pub fn fragment_len(g: &Geometry, size: u64) -> u64
    requires { size ≤ 2 ^ 40 }
    ensures { IsFragmentLen (g.now.n - g.now.r) size result }
{
    let bytes = stripe_bytes(g);
    512 * ((size + bytes - 1) / bytes)
}
