// Sets of bricks.
ghost use Rattle.std.specs.Prelude.{◌≡◌, ℕ, ◌+◌, ◌^◌, ◌<◌, ◌≤◌, ◌&&◌, ◌||◌, not, nat_eq, false, true, length, MatchOption};
ghost use Rattle.ec_attr.specs.Bricks.{BrickLaws, bricks, bricks_below, count_below, is_in};

use std::marker::Model;

/// The bricks that a volume can have: their numbers are below 31.
const MOST: u8 = 31;

/// A set of bricks below 31, bit `b` for brick `b`. A clause sees the number of its bits.
#[derive(Clone, Copy, Debug, PartialEq, Eq)]
pub struct BrickSet {
    bits: u32,
}

impl Model for BrickSet {
    ghost use Rattle.std.specs.Prelude.{ℕ, ◌^◌, ◌<◌};

    ghost Value = { ℕ };

    ghost view = { λ s. s.bits };

    ghost invariant = { λ s. s.bits < 2 ^ 31 };

    ghost inverse = { λ bits. record { bits = bits } };
}

impl BrickSet {
    /// The set of no brick.
    pub fn empty() -> BrickSet
        ensures value { result ≡ 0 }
        ensures members { (c : ℕ) → is_in result c ≡ false }
    {
        BrickSet { bits: 0 }
    }

    /// The set with brick `b` in it.
    pub fn plus(self, b: u8) -> BrickSet
        requires { b < 31 }
        ensures members { (c : ℕ) → is_in result c ≡ (nat_eq c b || is_in self c) }
        ensures bound { result < 2 ^ 31 }
    {
        BrickSet {
            bits: self.bits | 1 << b,
        }
    }

    /// The set without brick `b`.
    pub fn minus(self, b: u8) -> BrickSet
        requires { b < 31 }
        ensures members { (c : ℕ) → is_in result c ≡ (not (nat_eq c b) && is_in self c) }
        ensures bound { result < 2 ^ 31 }
    {
        BrickSet {
            bits: self.bits & !(1 << b),
        }
    }

    /// Whether brick `b` is in the set.
    pub fn has(&self, b: u8) -> bool
        requires { b < 31 }
        ensures value { result ≡ is_in self.now b }
        ensures bound { self.now < 2 ^ 31 }
    {
        self.bits >> b & 1 == 1
    }

    /// How many bricks are in the set.
    #[tactic(auto, using(crate::proofs::Sets::counting))]
    pub fn len(&self) -> u8
        ensures value { result ≡ length (bricks self.now) }
        ensures count { result ≡ count_below 31 (is_in self.now) }
        ensures bound { self.now < 2 ^ 31 }
    {
        let mut count = 0;
        for b in 0..MOST {
            if self.bits >> b & 1 == 1 {
                count += 1;
            }
        }
        count
    }

    /// The first brick of the set from `b` on. A walk begins at 0 and goes on at the brick after the one that it got:
    /// what it has seen before brick `b` is `bricks_below b`.
    #[tactic(auto, using(crate::proofs::Sets::walking))]
    pub fn next_from(&self, b: u8) -> Option<u8>
        requires { b ≤ 31 }
        ensures found { MatchOption result (bricks self.now ≡ bricks_below b (is_in self.now)) (λ m. (b ≤ m) × (m < 31) × (is_in self.now m ≡ true) × (bricks_below m (is_in self.now) ≡ bricks_below b (is_in self.now))) }
    {
        for m in b..MOST {
            if self.has(m) {
                return Some(m);
            }
        }
        None
    }
}

/// The laws of sets of bricks, for the proofs that stand on them. It does nothing when it runs.
pub fn brick_laws()
    ensures { BrickLaws }
{}
