// A brick folder: what each call of a store does to its files.
ghost use Rattle.std.specs.Prelude.{◌≡◌, ◌⊎◌, ◌<◌, ◌≤◌, ◌^◌, true, option_copied, length, IfOk, IfSome, IsTrue, Some};
ghost use Rattle.ec_store.specs.Pages.{is_rising};
ghost use Rattle.ec_store.specs.Reads.{IsAbove};

use crate::fault::Fault;
use crate::files::{fill, open_to_read, open_to_write, remove_if_there, replace_file, write_at};
use crate::head_text::{head_text, read_head};
use crate::id_text::read_id;
use crate::name_text::{names_text, read_names};
use crate::paths::{Part, part_path, record_path};
use ec_attr::{Child, Gfid, Head, Name, NameList};
use ec_store::{page, put_names, set_name};
use std::alloc::AllocError;
use std::collections::BTreeMap;
use std::fs::OpenFile;
use std::io::{Read, Seek, SeekFrom};
use std::path::Path;
use std::rt::Files;
use std::{fs, io};

/// A brick folder, with `heads`, `fragments` and `names` in it. Where these are not all there, each call fails.
#[derive(Drop)]
pub struct Folder<R> {
    rt: R,
    root: String,
    is_whole: bool,
}

/// Makes one of the three folders, and answers whether it is there.
fn make_part<R: Files + AllocGlobal>(rt: &R, root: &str, part: Part) -> Result<bool, AllocError> {
    let path = part_path(rt.alloc(), root, part)?;
    if fs::create_dir(rt, path.as_str()).is_ok() {
        return Ok(true);
    }
    Ok(Path::new(path.as_str()).is_dir(rt))
}

/// Makes the fragment's chunks from `keep` on zeros and the fragment `length` chunks long. The end is set first: where
/// that is refused nothing has changed.
fn resize<F: OpenFile>(file: &F, keep: u64, length: u64) -> io::Result<()>
    requires keep { keep ≤ 2 ^ 30 }
    requires length { length ≤ 2 ^ 30 }
{
    file.set_len(512 * length)?;
    if keep < length {
        file.set_len(512 * keep)?;
        file.set_len(512 * length)?;
    }
    Ok(())
}

/// The less of two ids, where there are two.
fn lower(least: Option<Gfid>, g: Gfid) -> Gfid
    ensures { (result ≡ g) ⊎ (least ≡ Some result) }
{
    match least {
        Some(least) if least < g => least,
        _ => g,
    }
}

fn is_above(after: Option<Gfid>, g: Gfid) -> bool
    ensures { IsTrue result → IsAbove after g.0 }
{
    match after {
        Some(after) => after < g,
        None => true,
    }
}

impl<R: Files + AllocGlobal + Clone + Drop> Folder<R> {
    /// The folder at a path. The three folders in it are made where they are not there.
    pub fn open(rt: R, path: &str) -> Result<Folder<R>, AllocError> {
        let root = String::from_str(rt.alloc(), path)?;
        let heads = make_part(&rt, path, Part::Heads)?;
        let fragments = make_part(&rt, path, Part::Fragments)?;
        let names = make_part(&rt, path, Part::Names)?;
        Ok(Folder {
            rt,
            root,
            is_whole: heads && fragments && names,
        })
    }

    /// The path of one of the three folders.
    fn part(&self, part: Part) -> Result<String, Fault> {
        if !self.is_whole {
            return Err(Fault::Failed);
        }
        Ok(part_path(self.rt.alloc(), self.root.as_str(), part)?)
    }

    /// The path of a record's file.
    fn path(&self, part: Part, g: Gfid) -> Result<String, Fault> {
        if !self.is_whole {
            return Err(Fault::Failed);
        }
        Ok(record_path(self.rt.alloc(), self.root.as_str(), part, g)?)
    }

    /// The head of a record. No head has as many bytes as are looked at.
    pub fn head(&self, g: Gfid) -> Result<Option<Head>, Fault>
        ensures size { IfOk result (λ h. IfSome h (λ h. h.size ≤ 2 ^ 40)) }
    {
        let path = self.path(Part::Heads, g)?;
        let Some(mut file) = open_to_read(&self.rt, path.as_str())? else {
            return Ok(None);
        };
        let mut bytes = [0u8; 256];
        let count = fill(&mut file, &mut bytes)?;
        let head = read_head(self.rt.alloc(), &bytes[..count])?;
        Ok(Some(head))
    }

    /// Sets the head. A new record begins without a fragment and names that were left.
    pub fn put_head(&self, g: Gfid, h: &Head) -> Result<(), Fault> {
        let path = self.path(Part::Heads, g)?;
        let text = head_text(self.rt.alloc(), h)?;
        if self.head(g)?.is_none() {
            self.clear(g)?;
        }
        replace_file(&self.rt, path.as_str(), text.as_bytes())
    }

    /// Removes the fragment and the names of a record.
    pub fn clear(&self, g: Gfid) -> Result<(), Fault> {
        let fragment = self.path(Part::Fragments, g)?;
        let names = self.path(Part::Names, g)?;
        remove_if_there(&self.rt, fragment.as_str())?;
        remove_if_there(&self.rt, names.as_str())?;
        Ok(())
    }

    /// Removes the head: what is left of the record is then not looked at.
    pub fn remove_head(&self, g: Gfid) -> Result<(), Fault> {
        let path = self.path(Part::Heads, g)?;
        remove_if_there(&self.rt, path.as_str())?;
        Ok(())
    }

    /// A chunk of a fragment, zeros past its end.
    pub fn chunk(&self, g: Gfid, at: u64) -> Result<[u8; 512], Fault>
        requires { at < 2 ^ 30 }
    {
        let path = self.path(Part::Fragments, g)?;
        let mut bytes = [0u8; 512];
        let Some(mut file) = open_to_read(&self.rt, path.as_str())? else {
            return Ok(bytes);
        };
        file.seek(SeekFrom::Start(512 * at))?;
        fill(&mut file, &mut bytes)?;
        Ok(bytes)
    }

    /// Writes bytes of a fragment. Once it has begun it never ends for want of memory, since a part may be written.
    pub fn write(&self, g: Gfid, at: u64, bytes: &[u8]) -> Result<(), Fault> {
        let path = self.path(Part::Fragments, g)?;
        let mut file = open_to_write(&self.rt, path.as_str())?;
        match write_at(&mut file, at, bytes) {
            Ok(()) => Ok(()),
            Err(_) => Err(Fault::Failed),
        }
    }

    /// Sets the length of a fragment in chunks, those from `keep` on being zeros.
    pub fn set_length(&self, g: Gfid, keep: u64, length: u64) -> Result<(), Fault>
        requires keep { keep ≤ 2 ^ 30 }
        requires length { length ≤ 2 ^ 30 }
    {
        let path = self.path(Part::Fragments, g)?;
        let file = open_to_write(&self.rt, path.as_str())?;
        match resize(&file, keep, length) {
            Ok(()) => Ok(()),
            Err(_) => Err(Fault::Failed),
        }
    }

    /// All names of a directory.
    fn names(&self, g: Gfid) -> Result<BTreeMap<Name, Child>, Fault> {
        let path = self.path(Part::Names, g)?;
        let mut bytes = Vec::new(self.rt.alloc());
        if let Some(mut file) = open_to_read(&self.rt, path.as_str())? {
            file.read_to_end(&mut bytes)?;
        }
        read_names(self.rt.alloc(), bytes.as_slice())
    }

    fn put_all_names(&self, g: Gfid, names: &BTreeMap<Name, Child>) -> Result<(), Fault> {
        let path = self.path(Part::Names, g)?;
        let text = names_text(self.rt.alloc(), names)?;
        replace_file(&self.rt, path.as_str(), text.as_bytes())
    }

    /// What a name leads to.
    pub fn name(&self, g: Gfid, n: &Name) -> Result<Option<Child>, Fault> {
        let names = self.names(g)?;
        Ok(names.get(n).copied())
    }

    /// Sets or removes a name.
    pub fn set_name(&self, g: Gfid, n: &Name, c: Option<Child>) -> Result<(), Fault> {
        let mut names = self.names(g)?;
        set_name(&mut names, n, c)?;
        self.put_all_names(g, &names)
    }

    /// Replaces the names past `after` and not past `upto`.
    pub fn put_names(
        &self,
        g: Gfid,
        after: Option<&Name>,
        upto: Option<&Name>,
        list: &NameList,
    ) -> Result<(), Fault> {
        let mut names = self.names(g)?;
        put_names(&mut names, after, upto, list)?;
        self.put_all_names(g, &names)
    }

    /// The first 64 names past `after`.
    pub fn names_after(&self, g: Gfid, after: Option<&Name>) -> Result<NameList, Fault>
        ensures rising { IfOk result (λ l. is_rising (option_copied after.entry) l ≡ true) }
        ensures few { IfOk result (λ l. length l ≤ 64) }
    {
        let names = self.names(g)?;
        Ok(page(self.rt.alloc(), &names, after)?)
    }

    /// The least id above `after` that has a head. A head that is being written is passed over.
    pub fn heads_after(&self, after: Option<Gfid>) -> Result<Option<Gfid>, Fault>
        ensures above { IfOk result (λ n. IfSome n (λ n. IsAbove after n.0)) }
    {
        let path = self.part(Part::Heads)?;
        let mut least = None;
        for entry in fs::read_dir(&self.rt, path.as_str())? {
            let entry = entry?;
            let name = entry.file_name();
            if !name.ends_with(".new") {
                let g = read_id(self.rt.alloc(), name)?;
                if is_above(after, g) {
                    least = Some(lower(least, g));
                }
            }
        }
        Ok(least)
    }
}
