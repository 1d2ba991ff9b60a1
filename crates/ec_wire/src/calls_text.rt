// The text of a call.
#![tactic(auto, unfolding(crate::specs::Words::behind))]

ghost use Rattle.std.specs.Prelude.{◌≡◌, [], ◌∷◌, ◌++◌, OnOk, string_bytes};
ghost use Rattle.hex.specs.Hex.{encode_lower};
ghost use Rattle.ec_wire.specs.Calls.{op_words, settle_words, via_words};
ghost use Rattle.ec_wire.specs.Words.{behind, gfid_word};

use crate::op::Op;
use crate::words::{
    either, push_about, push_attr, push_bricks, push_bytes, push_gfid, push_hex, push_word,
};
use ec_attr::{BrickSet, Gfid, Name};
use std::alloc::AllocError;

/// Adds a word, the id of a directory, and a name.
fn push_named(text: &mut String, word: &str, gfid: Gfid, name: &Name) -> Result<(), AllocError>
    ensures { OnOk result (string_bytes text.new ≡ string_bytes text.old ++ behind 32 (word.now ∷ gfid_word gfid ∷ encode_lower name.now ∷ [])) }
{
    push_word(text, word)?;
    push_gfid(text, gfid)?;
    push_hex(text, name.bytes())
}

/// Adds the bricks that a read is from alone, where they are given.
fn push_via(text: &mut String, via: &Option<BrickSet>) -> Result<(), AllocError>
    ensures { OnOk result (string_bytes text.new ≡ string_bytes text.old ++ behind 32 (via_words via.now)) }
{
    let Some(set) = via else {
        return Ok(());
    };
    push_word(text, "via")?;
    push_bricks(text, set)
}

/// Adds the word of a scrub that rewrites.
fn push_settle(text: &mut String, settle: bool) -> Result<(), AllocError>
    ensures { OnOk result (string_bytes text.new ≡ string_bytes text.old ++ behind 32 (settle_words settle)) }
{
    if settle {
        push_word(text, "settle")?;
    }
    Ok(())
}

/// Adds the words of a call, each behind a blank. Where there is no memory a part of them may stand there.
pub fn push_op(text: &mut String, op: &Op) -> Result<(), AllocError>
    ensures { OnOk result (string_bytes text.new ≡ string_bytes text.old ++ behind 32 (op_words op.now)) }
{
    match op {
        Op::Write { gfid, off, bytes } => {
            push_about(text, "write", *gfid, &[*off])?;
            push_bytes(text, bytes.items())
        }
        Op::Truncate { gfid, size } => push_about(text, "truncate", *gfid, &[*size]),
        Op::Read {
            gfid,
            off,
            len,
            via,
        } => {
            push_about(text, "read", *gfid, &[*off, *len])?;
            push_via(text, via)
        }
        Op::Stat { gfid } => push_about(text, "stat", *gfid, &[]),
        Op::Create { parent, name } => push_named(text, "create", *parent, name),
        Op::Mkdir { parent, name } => push_named(text, "mkdir", *parent, name),
        Op::Unlink { parent, name } => push_named(text, "unlink", *parent, name),
        Op::Lookup { parent, name } => push_named(text, "lookup", *parent, name),
        Op::Readdir { gfid } => push_about(text, "readdir", *gfid, &[]),
        Op::Heal { gfid } => push_about(text, "heal", *gfid, &[]),
        Op::SetAttr { gfid, attr } => {
            push_about(text, "setattr", *gfid, &[])?;
            push_attr(text, attr)
        }
        Op::GetAttr { gfid } => push_about(text, "getattr", *gfid, &[]),
        Op::Rename {
            from_dir,
            from_name,
            to_dir,
            to_name,
        } => {
            push_named(text, "rename", *from_dir, from_name)?;
            push_gfid(text, *to_dir)?;
            push_hex(text, to_name.bytes())
        }
        Op::Rmdir { parent, name } => push_named(text, "rmdir", *parent, name),
        Op::Scrub { gfid, settle } => {
            push_about(text, "scrub", *gfid, &[])?;
            push_settle(text, *settle)
        }
        Op::Sweep { full } => {
            push_word(text, "sweep")?;
            push_word(text, either(*full, "full", "index"))
        }
    }
}
