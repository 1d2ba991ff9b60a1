// The gfids that a walk over the stores has found.
ghost use Rattle.std.specs.Prelude.{◌≡◌, ◌||◌, ◌==◌, ℕ, true, false, IfOk, IfSome, OnOk};
ghost use Rattle.std.specs.List.{list_any};
ghost use Rattle.ec_brick.specs.Gfids.{IsNextGfid};
ghost use Rattle.ec_index.specs.Members.{members};
ghost use Rattle.ec_store.specs.Reads.{IsAbove};
ghost use Rattle.ec_report.specs.Records.{IsListOf};

use ec_attr::{Child, Gfid, Name};
use ec_index::Index;
use std::alloc::{AllocError, Global};

/// The gfids that have a record, and those to which a name in a directory leads.
#[derive(Drop)]
pub struct Found {
    pub kept: Index,
    pub named: Index,
}

impl Found {
    /// No gfids.
    pub fn new(alloc: Global) -> Found
        ensures kept { (g : ℕ) → members result.kept g ≡ false }
        ensures named { (g : ℕ) → members result.named g ≡ false }
    {
        Found {
            kept: Index::new(alloc),
            named: Index::new(alloc),
        }
    }
}

/// Puts the gfids in to which the names of a page lead.
pub fn put_children(named: &mut Index, page: &[(Name, Child)]) -> Result<(), AllocError>
    ensures { OnOk result ((g : ℕ) → members named.new g ≡ (members named.old g || list_any (λ e. e.1.gfid.0 == g) page.now)) }
{
    for (_, child) in page {
        named.set(child.gfid, true)?;
    }
    Ok(())
}

/// The least gfid of an index above `after`.
fn next_in(index: &Index, after: Option<Gfid>) -> Option<Gfid>
    ensures next { IsNextGfid (members index.now) after result }
    ensures above { IfSome result (λ n. IsAbove after n.0) }
{
    let least = Gfid(0);
    match after {
        Some(g) => index.after(g),
        None if index.has(least) => Some(least),
        None => index.after(least),
    }
}

/// The gfids of an index, rising.
pub fn list_of(alloc: Global, index: &Index) -> Result<Vec<Gfid>, AllocError>
    ensures { IfOk result (λ l. IsListOf (λ g. members index.now g ≡ true) l.items) }
{
    let mut list = Vec::new(alloc);
    let first = next_in(index, None);
    let mut next = first;
    while let Some(g) = next {
        list.push(g)?;
        next = next_in(index, Some(g));
    }
    Ok(list)
}
