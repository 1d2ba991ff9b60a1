// The numbers of a record: its version, its dirty number, its size, and the mark.
ghost use Rattle.std.specs.Prelude.{◌≡◌, ◌≢◌, ◌<◌, ◌^◌, ℕ, IfOk, IfErr, Ok, false, length, true};
ghost use Rattle.byteorder.specs.Endian.{big_bytes};
ghost use Rattle.ec_attr.specs.Attributes.{pair_bytes};
ghost use Rattle.ec_attr.specs.Marks.{is_marked, marked, stripped};
ghost use Rattle.ec_attr.specs.declared.counts.Dirty.{Dirty};
ghost use Rattle.ec_attr.specs.declared.counts.Version.{Version};
ghost use Rattle.ec_attr.specs.declared.fault.AttrFault.TheVariants.{BadLength};

use crate::fault::AttrFault;
use byteorder::{BigEndian, ByteOrder};

/// Bit 62 of a content version.
const MARK: u64 = 1 << 62;

/// The attribute `trusted.ec.version`: a number that grows with each change of the content, and one for the metadata.
/// Bit 62 of `content` is the mark of a record that a heal rebuilds.
#[derive(Clone, Copy, Debug, PartialEq, Eq)]
pub struct Version {
    pub content: u64,
    pub meta: u64,
}

/// The attribute `trusted.ec.dirty`: a number that is above 0 from a change of the content on until every brick has it,
/// and one for the metadata.
#[derive(Clone, Copy, Debug, PartialEq, Eq)]
pub struct Dirty {
    pub content: u64,
    pub meta: u64,
}

impl Version {
    /// The bytes of the attribute.
    pub fn to_bytes(&self) -> [u8; 16]
        ensures { result ≡ pair_bytes self.now.content self.now.meta }
    {
        pair_to_bytes(self.content, self.meta)
    }

    /// The version that these bytes say; other than 16 bytes are `BadLength`.
    pub fn from_bytes(b: &[u8]) -> Result<Version, AttrFault>
        ensures ok { IfOk result (λ v. b.now ≡ pair_bytes v.content v.meta) }
        ensures reads_back { (v : Version) → v.content < 2 ^ 64 → v.meta < 2 ^ 64 → b.now ≡ pair_bytes v.content v.meta → result ≡ Ok v }
        ensures refused { IfErr result (λ e. (e ≡ BadLength (length b.now)) × (length b.now ≢ 16)) }
    {
        let (content, meta) = pair_from_bytes(b)?;
        Ok(Version { content, meta })
    }
}

impl Dirty {
    /// The bytes of the attribute.
    pub fn to_bytes(&self) -> [u8; 16]
        ensures { result ≡ pair_bytes self.now.content self.now.meta }
    {
        pair_to_bytes(self.content, self.meta)
    }

    /// The dirty numbers that these bytes say; other than 16 bytes are `BadLength`.
    pub fn from_bytes(b: &[u8]) -> Result<Dirty, AttrFault>
        ensures ok { IfOk result (λ d. b.now ≡ pair_bytes d.content d.meta) }
        ensures reads_back { (d : Dirty) → d.content < 2 ^ 64 → d.meta < 2 ^ 64 → b.now ≡ pair_bytes d.content d.meta → result ≡ Ok d }
        ensures refused { IfErr result (λ e. (e ≡ BadLength (length b.now)) × (length b.now ≢ 16)) }
    {
        let (content, meta) = pair_from_bytes(b)?;
        Ok(Dirty { content, meta })
    }
}

/// The bytes of the attribute `trusted.ec.size`.
pub fn size_to_bytes(size: u64) -> [u8; 8]
    ensures { result ≡ big_bytes 8 size }
{
    let mut bytes = [0; 8];
    BigEndian::write_u64(&mut bytes, size);
    bytes
}

/// The size that these bytes say; other than 8 bytes are `BadLength`.
pub fn size_from_bytes(b: &[u8]) -> Result<u64, AttrFault>
    ensures ok { IfOk result (λ size. b.now ≡ big_bytes 8 size) }
    ensures reads_back { (size : ℕ) → size < 2 ^ 64 → b.now ≡ big_bytes 8 size → result ≡ Ok size }
    ensures refused { IfErr result (λ e. (e ≡ BadLength (length b.now)) × (length b.now ≢ 8)) }
{
    if b.len() != 8 {
        return Err(AttrFault::BadLength(b.len()));
    }
    Ok(number_from_bytes(b))
}

/// Two numbers, the content's before the metadata's.
fn pair_to_bytes(content: u64, meta: u64) -> [u8; 16]
    ensures { result ≡ pair_bytes content meta }
{
    let mut bytes = [0; 16];
    BigEndian::write_u64(&mut bytes, content);
    BigEndian::write_u64(&mut bytes[8..], meta);
    bytes
}

/// The two numbers that 16 bytes say.
fn pair_from_bytes(b: &[u8]) -> Result<(u64, u64), AttrFault>
    ensures ok { IfOk result (λ pair. b.now ≡ pair_bytes pair.0 pair.1) }
    ensures reads_back { (content meta : ℕ) → content < 2 ^ 64 → meta < 2 ^ 64 → b.now ≡ pair_bytes content meta → result ≡ Ok (content, meta) }
    ensures refused { IfErr result (λ e. (e ≡ BadLength (length b.now)) × (length b.now ≢ 16)) }
{
    if b.len() != 16 {
        return Err(AttrFault::BadLength(b.len()));
    }
    let (content, meta) = b.split_at(8);
    Ok((number_from_bytes(content), number_from_bytes(meta)))
}

/// The number that 8 bytes say.
fn number_from_bytes(b: &[u8]) -> u64
    requires { length b.now ≡ 8 }
    ensures value { b.now ≡ big_bytes 8 result }
    ensures reads_back { (n : ℕ) → n < 2 ^ 64 → b.now ≡ big_bytes 8 n → result ≡ n }
{
    BigEndian::read_u64(b)
}

/// Whether a content version has the mark.
pub fn is_marked(v: u64) -> bool
    ensures { result ≡ is_marked v }
{
    v / MARK % 2 == 1
}

/// A content version with the mark.
pub fn marked(v: u64) -> u64
    ensures value { result ≡ marked v }
    ensures mark { is_marked result ≡ true }
    ensures rest { stripped result ≡ stripped v }
{
    if is_marked(v) { v } else { v + MARK }
}

/// A content version without the mark.
pub fn stripped(v: u64) -> u64
    ensures value { result ≡ stripped v }
    ensures mark { is_marked result ≡ false }
{
    if is_marked(v) { v - MARK } else { v }
}
