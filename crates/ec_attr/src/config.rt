// How a volume codes, as each of its records tells.
ghost use Rattle.std.specs.Prelude.{◌≡◌, ◌≤◌, ◌↔◌, IfOk, IfErr, IsTrue, Ok};
ghost use Rattle.ec_attr.specs.Attributes.{HasConfigFault, config_bytes};
ghost use Rattle.ec_attr.specs.declared.config.Config.{Config};

use crate::fault::AttrFault;
use crate::geometry::{Geometry, same_geometry};
use byteorder::{BigEndian, ByteOrder};

/// The bits of a word of the code.
const WORD_BITS: u8 = 8;

/// The bytes of a chunk.
const CHUNK_SIZE: u32 = 512;

/// The attribute `trusted.ec.config` of a record: how its volume codes.
#[derive(Clone, Copy, Debug, PartialEq, Eq)]
pub struct Config {
    pub geometry: Geometry,
}

impl Config {
    /// The bytes of the attribute.
    pub fn to_bytes(&self) -> [u8; 8]
        ensures { result ≡ config_bytes self.now }
    {
        let g = &self.geometry;
        let mut bytes = [0, g.algorithm, WORD_BITS, g.n, g.r, 0, 0, 0];
        BigEndian::write_u24(&mut bytes[5..], CHUNK_SIZE);
        bytes
    }

    /// The config that these bytes say, or their first fault.
    pub fn from_bytes(b: &[u8]) -> Result<Config, AttrFault>
        ensures ok { IfOk result (λ c. b.now ≡ config_bytes c) }
        ensures reads_back { (c : Config) → b.now ≡ config_bytes c → result ≡ Ok c }
        ensures refused { IfErr result (λ e. HasConfigFault b.now e) }
    {
        if b.len() != 8 {
            return Err(AttrFault::BadLength(b.len()));
        }
        if b[0] != 0 {
            return Err(AttrFault::BadVersion(b[0]));
        }
        if b[1] > 1 {
            return Err(AttrFault::BadAlgorithm(b[1]));
        }
        if b[2] != WORD_BITS {
            return Err(AttrFault::BadWord(b[2]));
        }
        let Ok(geometry) = Geometry::new(u32::from(b[3]), u32::from(b[4])) else {
            return Err(AttrFault::BadGeometry { n: b[3], r: b[4] });
        };
        let chunk = BigEndian::read_u24(&b[5..]);
        if chunk != CHUNK_SIZE {
            return Err(AttrFault::BadChunk(chunk));
        }
        Ok(Config {
            geometry: with_algorithm(geometry, b[1]),
        })
    }
}

/// The same bricks with this algorithm.
fn with_algorithm(geometry: Geometry, algorithm: u8) -> Geometry
    requires { algorithm ≤ 1 }
    ensures n { result.n ≡ geometry.n }
    ensures r { result.r ≡ geometry.r }
    ensures algorithm { result.algorithm ≡ algorithm }
{
    Geometry {
        n: geometry.n,
        r: geometry.r,
        algorithm,
    }
}

/// Whether two configs are equal. In a contract it says what `==` does.
pub fn same_config(a: &Config, b: &Config) -> bool
    ensures { IsTrue result ↔ (a.now ≡ b.now) }
{
    same_geometry(&a.geometry, &b.geometry)
}
