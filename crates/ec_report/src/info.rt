// What `info` writes.
ghost use Rattle.std.specs.Prelude.{◌≡◌, ◌≤◌, ◌++◌, ℕ, List, true, length, IfOk, OnOk, string_bytes};
ghost use Rattle.ec_attr.specs.declared.gfid.Gfid.{Gfid as GfidOf};
ghost use Rattle.ec_index.specs.Members.{members};
ghost use Rattle.ec_report.specs.Info.{IsInfoOf, info_lines};
ghost use Rattle.ec_report.specs.Lines.{info_line};
ghost use Rattle.ec_report.specs.Records.{IsListOf};

use crate::found::list_of;
use ec_attr::{Gfid, gfid_text};
use ec_brick::Brick;
use ec_wire::push_word;
use itoa::Buffer;
use std::alloc::{AllocError, Global};

/// The line of a brick and a gfid.
#[tactic(auto, unfolding(crate::specs::Lines::info_line, ec_wire::specs::Words::behind, ec_wire::specs::Words::divided))]
fn info_line(alloc: Global, b: usize, g: Gfid) -> Result<String, AllocError>
    ensures { IfOk result (λ line. string_bytes line ≡ info_line b g.0) }
{
    let mut buffer = Buffer::new();
    let mut line = String::from_str(alloc, buffer.format(b))?;
    let id = gfid_text(alloc, g)?;
    push_word(&mut line, id.as_str())?;
    line.push('\n')?;
    Ok(line)
}

/// Adds a line for each of these gfids of brick `b`.
#[tactic(auto, unfolding(crate::specs::Info::info_lines))]
fn push_info(text: &mut String, b: usize, gfids: &[Gfid]) -> Result<(), AllocError>
    ensures { OnOk result (string_bytes text.new ≡ string_bytes text.old ++ info_lines b gfids.now) }
{
    for g in gfids {
        let line = info_line(*text.allocator(), b, *g)?;
        text.push_str(line.as_str())?;
    }
    Ok(())
}

/// The report of `info` on the bricks of a volume: for each brick, brick 0 first, a line for each gfid of its index,
/// rising, with the number of the brick and the id.
pub fn info_text(alloc: Global, bricks: &[Brick]) -> Result<String, AllocError>
    ensures { IfOk result (λ text. IsInfoOf (length bricks.now) bricks.now (string_bytes text)) }
{
    let mut text = String::new(alloc);
    for b in 0..bricks.len() {
        let gfids = list_of(alloc, bricks[b].index())?;
        push_info(&mut text, b, gfids.as_slice())?;
    }
    Ok(text)
}
