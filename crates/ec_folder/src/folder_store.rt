// The records of a brick in a folder.
ghost use Rattle.std.specs.Prelude.{◌≡◌, ℕ, ◌+◌, ◌<◌, ◌≤◌, ◌^◌, length};

use crate::fault::counted;
use crate::folder::Folder;
use ec_attr::{Child, Gfid, Head, Name, NameList};
use ec_field::Chunk;
use ec_store::{BrickStore, StoreFault};
use std::alloc::AllocError;
use std::rt::Files;

/// The records of a brick in its folder: a head for each in `heads`, its fragment in `fragments` and its names in
/// `names`. It counts each failure. What the files hold it does not tell.
#[derive(Drop)]
pub struct FolderStore<R> {
    folder: Folder<R>,
    faults: u64,
}

impl<R: Files + AllocGlobal + Clone + Drop> FolderStore<R> {
    /// The brick in the folder at a path. Its three folders are made where they are not there; where they can't be,
    /// each call fails.
    pub fn open(rt: R, path: &str) -> Result<FolderStore<R>, AllocError> {
        Ok(FolderStore {
            folder: Folder::open(rt, path)?,
            faults: 0,
        })
    }

    /// How often a call failed, up to 2^64 - 1.
    pub fn faults(&self) -> u64
        ensures { result ≡ self.now.faults }
    {
        self.faults
    }
}

impl<R: Files + AllocGlobal + Clone + Drop> BrickStore for FolderStore<R> {
    ghost use Rattle.std.specs.Prelude.{None, false};

    ghost told = { λ s. false };

    ghost records = { λ s g. None };

    ghost faults = { λ s. s.faults };

    fn head(&mut self, g: Gfid) -> Result<Option<Head>, StoreFault> {
        match self.folder.head(g) {
            Ok(head) => Ok(head),
            Err(fault) => Err(counted(&mut self.faults, fault)),
        }
    }

    fn put_head(&mut self, g: Gfid, h: &Head) -> Result<(), StoreFault> {
        match self.folder.put_head(g, h) {
            Ok(()) => Ok(()),
            Err(fault) => Err(counted(&mut self.faults, fault)),
        }
    }

    // What stays of the fragment and the names without their head is not looked at, so that it fails no call.
    fn remove(&mut self, g: Gfid) -> Result<(), StoreFault> {
        match self.folder.remove_head(g) {
            Ok(()) => {
                if let Err(fault) = self.folder.clear(g) {
                    counted(&mut self.faults, fault);
                }
                Ok(())
            }
            Err(fault) => Err(counted(&mut self.faults, fault)),
        }
    }

    fn read_chunk(&mut self, g: Gfid, at: u64, into: &mut Chunk) -> Result<(), StoreFault> {
        match self.folder.chunk(g, at) {
            Ok(bytes) => {
                *into = Chunk::from_array(bytes);
                Ok(())
            }
            Err(fault) => Err(counted(&mut self.faults, fault)),
        }
    }

    fn write_part(&mut self, g: Gfid, at: u64, bytes: &[u8]) -> Result<(), StoreFault> {
        match self.folder.write(g, at, bytes) {
            Ok(()) => Ok(()),
            Err(fault) => Err(counted(&mut self.faults, fault)),
        }
    }

    fn set_length(&mut self, g: Gfid, keep: u64, length: u64) -> Result<(), StoreFault> {
        match self.folder.set_length(g, keep, length) {
            Ok(()) => Ok(()),
            Err(fault) => Err(counted(&mut self.faults, fault)),
        }
    }

    fn name(&mut self, g: Gfid, n: &Name) -> Result<Option<Child>, StoreFault> {
        match self.folder.name(g, n) {
            Ok(child) => Ok(child),
            Err(fault) => Err(counted(&mut self.faults, fault)),
        }
    }

    fn set_name(&mut self, g: Gfid, n: &Name, c: Option<Child>) -> Result<(), StoreFault> {
        match self.folder.set_name(g, n, c) {
            Ok(()) => Ok(()),
            Err(fault) => Err(counted(&mut self.faults, fault)),
        }
    }

    fn put_names(
        &mut self,
        g: Gfid,
        after: Option<&Name>,
        upto: Option<&Name>,
        list: &NameList,
    ) -> Result<(), StoreFault> {
        match self.folder.put_names(g, after, upto, list) {
            Ok(()) => Ok(()),
            Err(fault) => Err(counted(&mut self.faults, fault)),
        }
    }

    fn names_after(&mut self, g: Gfid, after: Option<&Name>) -> Result<NameList, StoreFault> {
        match self.folder.names_after(g, after) {
            Ok(list) => Ok(list),
            Err(fault) => Err(counted(&mut self.faults, fault)),
        }
    }

    fn heads_after(&mut self, after: Option<Gfid>) -> Result<Option<Gfid>, StoreFault> {
        match self.folder.heads_after(after) {
            Ok(next) => Ok(next),
            Err(fault) => Err(counted(&mut self.faults, fault)),
        }
    }
}
