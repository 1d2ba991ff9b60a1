// A volume, as its file describes it.
ghost use Rattle.std.specs.Prelude.{◌≡◌, [], ◌∷◌, ◌++◌, length, OnOk, OnErr};

use ec_attr::{Blob, Geometry, Policy};
use std::alloc::{AllocError, Global};
use std::marker::Model;

/// Which bank of kernels does the products: the plain one, or the one whose steps are fused.
#[derive(Clone, Copy, Debug, PartialEq, Eq)]
pub enum Kernel {
    Plain,
    Fused,
}

/// Names in order, seen as the list of their bytes.
#[derive(Debug, Drop)]
pub struct BlobList {
    blobs: Vec<Blob>,
}

impl Model for BlobList {
    ghost use Rattle.std.specs.Prelude.{List, ℕ};

    ghost Value = { List (List ℕ) };

    ghost view = { λ b. b.blobs.items };
}

impl BlobList {
    /// No names.
    pub fn new(alloc: Global) -> BlobList
        ensures { result ≡ [] }
    {
        BlobList {
            blobs: Vec::new(alloc),
        }
    }

    /// How many names there are.
    pub fn len(&self) -> usize
        ensures { result ≡ length self.now }
    {
        self.blobs.len()
    }

    /// The names in order.
    pub fn items(&self) -> &[Blob]
        ensures { result.now ≡ self.now }
    {
        self.blobs.as_slice()
    }

    /// Adds a name at the end.
    pub fn push(&mut self, name: Blob) -> Result<(), AllocError>
        ensures ok { OnOk result (self.new ≡ self.old ++ name ∷ []) }
        ensures err { OnErr result (self.new ≡ self.old) }
    {
        self.blobs.push(name)?;
        Ok(())
    }
}

/// A dispersed volume: its name, the names of its bricks in order, and how it is run. Brick `b` is the `b`-th of them.
#[derive(Debug, Drop)]
pub struct Volume {
    pub name: Blob,
    pub bricks: BlobList,
    pub geometry: Geometry,

    /// How the first brick of a read is chosen.
    pub policy: Policy,

    /// Whether a client keeps its locks after a call.
    pub eager: bool,

    /// How many stripes a client's cache holds, at most 10.
    pub cache: u8,

    /// How many stripes a heal takes at a time, from 1 to 1024.
    pub window: u32,
    pub kernel: Kernel,
}
