// The new stripes, coded for each brick.
ghost use Rattle.std.specs.Prelude.{◌≡◌, ◌-◌, ◌*◌, ◌<◌, ℕ, length, IfOk};
ghost use Rattle.ec_write.specs.Filled.{AreListed};
ghost use Rattle.ec_write.specs.Stripes.{AreCoded, list_at};

use crate::fill::new_chunks;
use crate::place::count_stripes;
use ec_attr::Geometry;
use ec_bank::RowTimes;
use ec_field::Chunk;
use ec_stripe::encode;
use ec_wire::{ChunkList, ItemList};
use std::alloc::{AllocError, Global};

/// The chunks of a brick: one of each new stripe.
fn code_list<T: RowTimes>(
    rows: &T,
    alloc: Global,
    geometry: &Geometry,
    brick: u8,
    chunks: &[Chunk],
    count: usize,
) -> Result<ChunkList, AllocError>
    requires brick { brick < geometry.now.n }
    requires chunks { length chunks.now ≡ (geometry.now.n - geometry.now.r) * count }
    ensures { IfOk result (λ list. AreListed geometry.now brick chunks.now count list) }
{
    let k = usize::from(geometry.k());
    let mut list = ChunkList::new(alloc);
    for i in 0..count {
        let from = k * i;
        list.push(encode(rows, geometry, brick, &chunks[from..from + k]))?;
    }
    Ok(list)
}

/// The same of every brick.
fn code_lists<T: RowTimes>(
    rows: &T,
    alloc: Global,
    geometry: &Geometry,
    chunks: &[Chunk],
    count: usize,
) -> Result<ItemList<ChunkList>, AllocError>
    requires { length chunks.now ≡ (geometry.now.n - geometry.now.r) * count }
    ensures { IfOk result (λ lists. (x : ℕ) → x < geometry.now.n → AreListed geometry.now x chunks.now count (list_at lists x)) }
{
    let mut lists = ItemList::new(alloc);
    for brick in 0..geometry.n {
        let list = code_list(rows, alloc, geometry, brick, chunks, count)?;
        lists.push(list)?;
    }
    Ok(lists)
}

/// The chunks of each brick: the codes of the new stripes. `front` is the first stripe as it was, `back` the last one.
pub fn coded<T: RowTimes>(
    rows: &T,
    alloc: Global,
    geometry: &Geometry,
    off: u64,
    bytes: &[u8],
    size: u64,
    front: &[Chunk],
    back: &[Chunk],
) -> Result<ItemList<ChunkList>, AllocError>
    ensures { IfOk result (λ lists. AreCoded geometry.now off bytes.now size front.now back.now lists) }
{
    let k = geometry.k();
    let chunks = new_chunks(alloc, k, off, bytes, size, front, back)?;
    let count = count_stripes(k, off, bytes.len()) as usize;
    code_lists(rows, alloc, geometry, chunks.as_slice(), count)
}
