// The shape of a volume.
ghost use Rattle.std.specs.Prelude.{◌≡◌, ℕ, ◌+◌, ◌*◌, ◌<◌, ◌≤◌, ◌↔◌, IfOk, IfErr, IsTrue};
ghost use Rattle.ec_attr.specs.Geometry.{IsGeometry};

use thiserror::Error;

/// How many bricks there are, how many of them may fail, and how the code is made: `n` bricks with redundancy `r`, of
/// which any `k` = `n` - `r` suffice to read. With algorithm 0 each brick has a code, with algorithm 1 bricks 0 to
/// `k` - 1 have the parts of a stripe as they are.
#[derive(Clone, Copy, Debug, PartialEq, Eq)]
pub struct Geometry {
    pub n: u8,
    pub r: u8,
    pub algorithm: u8,
    pub ghost redundant: { 0 < r },
    pub ghost majority: { 2 * r < n },
    pub ghost least: { 2 + r ≤ n },
    pub ghost most: { n ≤ 16 + r },
    pub ghost bricks: { n ≤ 31 },
    pub ghost known: { algorithm ≤ 1 },
}

/// A geometry that is none: the redundancy is 0, or so many bricks may fail that those left are no more than half, or
/// the bricks that suffice to read aren't from 2 to 16, or there are more than 31.
#[derive(Clone, Copy, Debug, PartialEq, Eq, Drop, Error)]
#[error("{n} bricks with redundancy {r} are no geometry")]
pub struct BadGeometry {
    pub n: u32,
    pub r: u32,
}

impl Geometry {
    /// The geometry of `n` bricks with redundancy `r`, algorithm 0.
    pub fn new(n: u32, r: u32) -> Result<Geometry, BadGeometry>
        ensures ok { IfOk result (λ g. IsGeometry n r 0 × (g.n ≡ n) × (g.r ≡ r) × (g.algorithm ≡ 0)) }
        ensures refused { IfErr result (λ e. ¬ (IsGeometry n r 0) × (e.n ≡ n) × (e.r ≡ r)) }
    {
        if r == 0 || n <= r || n - r <= r || n - r < 2 || n - r > 16 || n > 31 {
            return Err(BadGeometry { n, r });
        }
        Ok(Geometry {
            n: n as u8,
            r: r as u8,
            algorithm: 0,
        })
    }

    /// The same geometry with algorithm 1.
    pub fn systematic(self) -> Geometry
        ensures n { result.n ≡ self.n }
        ensures r { result.r ≡ self.r }
        ensures algorithm { result.algorithm ≡ 1 }
    {
        Geometry {
            n: self.n,
            r: self.r,
            algorithm: 1,
        }
    }

    /// How many bricks suffice to read.
    pub fn k(&self) -> u8
        ensures value { result + self.now.r ≡ self.now.n }
        ensures geometry { IsGeometry self.now.n self.now.r self.now.algorithm }
    {
        self.n - self.r
    }
}

/// Whether two geometries are equal. In a contract it says what `==` does.
pub fn same_geometry(a: &Geometry, b: &Geometry) -> bool
    ensures { IsTrue result ↔ (a.now ≡ b.now) }
{
    *a == *b
}
