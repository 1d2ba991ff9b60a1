// Where bytes lie among the stripes of a file, and which stripes a write has to read.
ghost use Rattle.std.specs.Prelude.{◌≡◌, ◌*◌, ◌^◌, ◌<◌, ◌≤◌};
ghost use Rattle.ec_conduct.specs.Changes.{stripes_of};
ghost use Rattle.ec_stripe.specs.Span.{stripe_bytes as stripe_bytes_of};
ghost use Rattle.ec_write.specs.Range.{count_stripes, first_read, first_stripe, head_of, kept_bytes, reach, reads_first, reads_last, second_read, told_end};

/// The bytes of a stripe of `k` chunks.
fn stripe_bytes(k: u8) -> u64
    ensures value { result ≡ stripe_bytes_of k }
    ensures most { result < 2 ^ 17 }
{
    512 * u64::from(k)
}

/// The stripe of the first byte.
pub fn first_stripe(k: u8, off: u64) -> u64
    requires { 0 < k }
    ensures value { result ≡ first_stripe k off }
    ensures within { stripe_bytes_of k * result < 2 ^ 64 }
    ensures few { result < 2 ^ 55 }
{
    off / stripe_bytes(k)
}

/// How many bytes of the first stripe lie before the range.
pub fn head_of(k: u8, off: u64) -> u64
    requires { 0 < k }
    ensures value { result ≡ head_of k off }
    ensures few { result < 2 ^ 17 }
{
    off % stripe_bytes(k)
}

/// Where the range ends, from the begin of the first stripe on.
pub fn reach(k: u8, off: u64, len: usize) -> u128
    requires { 0 < k }
    ensures value { result ≡ reach k off len }
    ensures most { result < 2 ^ 65 }
{
    u128::from(head_of(k, off)) + len as u128
}

/// How many stripes the range touches.
pub fn count_stripes(k: u8, off: u64, len: usize) -> u64
    requires { 0 < k }
    ensures value { result ≡ count_stripes k off len }
    ensures within { stripe_bytes_of k * result < 2 ^ 66 }
    ensures few { result < 2 ^ 57 }
{
    let bytes = u128::from(stripe_bytes(k));
    ((reach(k, off, len) + (bytes - 1)) / bytes) as u64
}

/// How many bytes the file had from the first stripe on.
pub fn kept_bytes(k: u8, off: u64, size: u64) -> u64
    requires { 0 < k }
    ensures { result ≡ kept_bytes k off size }
{
    size.saturating_sub(stripe_bytes(k) * first_stripe(k, off))
}

fn reads_first(k: u8, off: u64, len: usize, size: u64) -> bool
    requires { 0 < k }
    ensures { result ≡ reads_first k off len size }
{
    (0 < head_of(k, off) || reach(k, off, len) < u128::from(stripe_bytes(k)))
        && 0 < kept_bytes(k, off, size)
}

fn reads_last(k: u8, off: u64, len: usize, size: u64) -> bool
    requires { 0 < k }
    ensures { result ≡ reads_last k off len size }
{
    let count = count_stripes(k, off, len);
    if count <= 1 {
        return false;
    }
    let bytes = u128::from(stripe_bytes(k));
    let end = bytes * u128::from(count);
    reach(k, off, len) < end && bytes * u128::from(count - 1) < u128::from(kept_bytes(k, off, size))
}

/// The stripe that is read after the first one.
pub fn second_read(k: u8, off: u64, len: usize, size: u64) -> Option<u64>
    requires { 0 < k }
    ensures { result ≡ second_read k off len size }
{
    if !reads_last(k, off, len, size) {
        return None;
    }
    let count = count_stripes(k, off, len);
    Some(first_stripe(k, off) + count.saturating_sub(1))
}

/// The stripe that is read first.
pub fn first_read(k: u8, off: u64, len: usize, size: u64) -> Option<u64>
    requires { 0 < k }
    ensures { result ≡ first_read k off len size }
{
    if reads_first(k, off, len, size) {
        Some(first_stripe(k, off))
    } else {
        second_read(k, off, len, size)
    }
}

/// The end as a number of 64 bits.
pub fn told_end(off: u64, len: usize) -> u64
    ensures { result ≡ told_end off len }
{
    off.saturating_add(len as u64)
}

/// How many stripes hold so many bytes.
pub fn stripes_of(k: u8, size: u64) -> u64
    requires { 0 < k }
    ensures { result ≡ stripes_of k size }
{
    let bytes = u128::from(stripe_bytes(k));
    ((u128::from(size) + (bytes - 1)) / bytes) as u64
}
