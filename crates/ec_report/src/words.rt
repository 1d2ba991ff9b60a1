// The words of reports, each put behind a blank.
#![tactic(auto, unfolding(ec_wire::specs::Words::behind))]

ghost use Rattle.std.specs.Prelude.{◌≡◌, [], ◌∷◌, ◌++◌, IfOk, OnOk, codes, decimal, map, string_bytes};
ghost use Rattle.ec_attr.specs.Bricks.{bricks};
ghost use Rattle.ec_attr.specs.Marks.{is_marked};
ghost use Rattle.ec_wire.specs.Words.{behind, either, kind_word, numbers_word};
ghost use Rattle.ec_report.specs.Lines.{lowest_kind, orphan_words, state_word};

use ec_attr::{BrickSet, Head, Kind, is_marked, stripped};
use ec_wire::{kind_word, push_bricks, push_word};
use itoa::Buffer;
use std::alloc::{AllocError, Global};

/// The word of the first head's kind.
pub fn lowest_kind(heads: &[Option<Head>]) -> &'static str
    ensures { result.now ≡ lowest_kind heads.now }
{
    for head in heads {
        if let Some(head) = head {
            return kind_word(head.kind);
        }
    }
    "-"
}

/// What stands before a version: an m where it is marked.
fn mark_word(version: u64) -> &'static str
    ensures { result.now ≡ either (is_marked version) (codes "m") [] }
{
    if is_marked(version) { "m" } else { "" }
}

/// Adds a word of the version, the size and the dirty number of a head, or a hyphen for none.
fn push_state(text: &mut String, head: &Option<Head>) -> Result<(), AllocError>
    ensures { OnOk result (string_bytes text.new ≡ string_bytes text.old ++ behind 32 (state_word head.now ∷ [])) }
{
    let Some(head) = head else {
        return push_word(text, "-");
    };
    let mut buffer = Buffer::new();
    push_word(text, mark_word(head.version.content))?;
    text.push_str(buffer.format(stripped(head.version.content)))?;
    text.push('/')?;
    text.push_str(buffer.format(head.size))?;
    text.push('/')?;
    text.push_str(buffer.format(head.dirty.content))
}

/// Adds such a word for each brick.
pub fn push_states(text: &mut String, heads: &[Option<Head>]) -> Result<(), AllocError>
    ensures { OnOk result (string_bytes text.new ≡ string_bytes text.old ++ behind 32 (map state_word heads.now)) }
{
    for head in heads {
        push_state(text, head)?;
    }
    Ok(())
}

/// Adds the bricks of a good group, and the word for an orphan.
pub fn push_group(text: &mut String, group: &BrickSet, orphan: bool) -> Result<(), AllocError>
    ensures { OnOk result (string_bytes text.new ≡ string_bytes text.old ++ behind 32 (codes "group" ∷ numbers_word (bricks group.now) ∷ orphan_words orphan)) }
{
    push_word(text, "group")?;
    push_bricks(text, group)?;
    if orphan {
        push_word(text, "orphan")?;
    }
    Ok(())
}
