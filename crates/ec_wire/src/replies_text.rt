// The text of a reply.
#![tactic(auto, unfolding(crate::specs::Words::behind))]

ghost use Rattle.std.specs.Prelude.{◌≡◌, [], ◌∷◌, ◌++◌, OnOk, decimal, string_bytes};
ghost use Rattle.ec_wire.specs.Requests.{reply_words};
ghost use Rattle.ec_wire.specs.Words.{behind};

use crate::reply::Reply;
use crate::words::{push_child_or, push_counted, push_head, push_word};
use std::alloc::AllocError;

/// Adds the words of a reply, each behind a blank.
pub(crate) fn push_reply(text: &mut String, reply: &Reply) -> Result<(), AllocError>
    ensures { OnOk result (string_bytes text.new ≡ string_bytes text.old ++ behind 32 (reply_words reply.now)) }
{
    match reply {
        Reply::Granted => push_word(text, "granted"),
        Reply::Head(head) => {
            push_word(text, "head")?;
            push_head(text, head)
        }
        Reply::Chunks(chunks) => push_counted(text, "chunks", chunks.len() as u64),
        Reply::Child(child) => {
            push_word(text, "child")?;
            push_child_or(text, "-", *child)
        }
        Reply::Names(list) => push_counted(text, "names", list.len() as u64),
        Reply::Done => push_word(text, "done"),
        Reply::NoGrant(grant) => push_counted(text, "nogrant", *grant),
        Reply::NoInode => push_word(text, "noinode"),
        Reply::IsInode => push_word(text, "isinode"),
        Reply::OtherKind => push_word(text, "otherkind"),
        Reply::NotAt(version) => push_counted(text, "notat", *version),
        Reply::Fault => push_word(text, "fault"),
        Reply::Gfids(list) => push_counted(text, "gfids", list.len() as u64),
    }
}
