// The text of a request.
#![tactic(auto, unfolding(crate::specs::Words::behind))]

ghost use Rattle.std.specs.Prelude.{◌≡◌, [], ◌∷◌, ◌++◌, OnOk, codes, decimal, string_bytes};
ghost use Rattle.hex.specs.Hex.{encode_lower};
ghost use Rattle.ec_wire.specs.Requests.{attr_or_dash, domain_word, lock_word, request_words};
ghost use Rattle.ec_wire.specs.Words.{behind, either, gfid_or_dash, gfid_word, name_or_dash};
ghost use Rattle.ec_wire.specs.declared.request.Request.TheVariants.{Ask, NameSet, NamesPut, Make};

use crate::request::Request;
use crate::words::{
    either, push_about, push_attr, push_child_or, push_gfid, push_gfid_or_dash, push_head,
    push_hex, push_name_or_dash, push_numbers, push_word,
};
use ec_attr::{Attr, Child, Domain, Gfid, LockKind, Name, NameList};
use std::alloc::AllocError;

/// The word of a domain.
fn domain_word(domain: Domain) -> &'static str
    ensures { result.now ≡ domain_word domain }
{
    match domain {
        Domain::Inode => "inode",
        Domain::Heal => "heal",
    }
}

/// The word of a kind of lock.
fn lock_word(kind: LockKind) -> &'static str
    ensures { result.now ≡ lock_word kind }
{
    match kind {
        LockKind::Shared => "shared",
        LockKind::Exclusive => "exclusive",
    }
}

/// Adds the three numbers of an attribute, or a hyphen for none.
fn push_attr_or_dash(text: &mut String, attr: &Option<Attr>) -> Result<(), AllocError>
    ensures { OnOk result (string_bytes text.new ≡ string_bytes text.old ++ behind 32 (attr_or_dash attr.now)) }
{
    match attr {
        Some(attr) => push_attr(text, attr),
        None => push_word(text, "-"),
    }
}

fn push_ask(text: &mut String, gfid: Gfid, domain: Domain, kind: LockKind) -> Result<(), AllocError>
    ensures { OnOk result (string_bytes text.new ≡ string_bytes text.old ++ behind 32 (request_words (Ask gfid domain kind))) }
{
    push_about(text, "ask", gfid, &[])?;
    push_word(text, domain_word(domain))?;
    push_word(text, lock_word(kind))
}

/// Adds a request of chunks, with the first of them and how many they are.
fn push_chunks(
    text: &mut String,
    word: &str,
    gfid: Gfid,
    grant: u64,
    first: u64,
    count: u64,
) -> Result<(), AllocError>
    ensures { OnOk result (string_bytes text.new ≡ string_bytes text.old ++ behind 32 (word.now ∷ gfid_word gfid ∷ decimal grant ∷ decimal first ∷ decimal count ∷ [])) }
{
    push_about(text, word, gfid, &[grant, first, count])
}

/// Adds a request about a name.
fn push_named(
    text: &mut String,
    word: &str,
    gfid: Gfid,
    grant: u64,
    name: &Name,
) -> Result<(), AllocError>
    ensures { OnOk result (string_bytes text.new ≡ string_bytes text.old ++ behind 32 (word.now ∷ gfid_word gfid ∷ decimal grant ∷ encode_lower name.now ∷ [])) }
{
    push_about(text, word, gfid, &[grant])?;
    push_hex(text, name.bytes())
}

/// Adds a request of the names past one.
fn push_past(
    text: &mut String,
    word: &str,
    gfid: Gfid,
    grant: u64,
    after: &Option<Name>,
) -> Result<(), AllocError>
    ensures { OnOk result (string_bytes text.new ≡ string_bytes text.old ++ behind 32 (word.now ∷ gfid_word gfid ∷ decimal grant ∷ name_or_dash after.now ∷ [])) }
{
    push_about(text, word, gfid, &[grant])?;
    push_name_or_dash(text, after)
}

fn push_name_set(
    text: &mut String,
    gfid: Gfid,
    grant: u64,
    name: &Name,
    child: Option<Child>,
) -> Result<(), AllocError>
    ensures { OnOk result (string_bytes text.new ≡ string_bytes text.old ++ behind 32 (request_words (NameSet gfid grant name.now child))) }
{
    push_named(text, "nameset", gfid, grant, name)?;
    push_child_or(text, "-", child)
}

fn push_names_put(
    text: &mut String,
    gfid: Gfid,
    grant: u64,
    after: &Option<Name>,
    upto: &Option<Name>,
    list: &NameList,
) -> Result<(), AllocError>
    ensures { OnOk result (string_bytes text.new ≡ string_bytes text.old ++ behind 32 (request_words (NamesPut gfid grant after.now upto.now list.now))) }
{
    push_past(text, "namesput", gfid, grant, after)?;
    push_name_or_dash(text, upto)?;
    push_numbers(text, &[list.len() as u64])
}

fn push_make(text: &mut String, gfid: Gfid, grant: u64, child: Child) -> Result<(), AllocError>
    ensures { OnOk result (string_bytes text.new ≡ string_bytes text.old ++ behind 32 (request_words (Make gfid grant child))) }
{
    push_about(text, "make", gfid, &[grant])?;
    push_child_or(text, "-", Some(child))
}

/// Adds a request about the record of a child.
fn push_of_child(
    text: &mut String,
    word: &str,
    gfid: Gfid,
    grant: u64,
    child: Gfid,
) -> Result<(), AllocError>
    ensures { OnOk result (string_bytes text.new ≡ string_bytes text.old ++ behind 32 (word.now ∷ gfid_word gfid ∷ decimal grant ∷ gfid_word child ∷ [])) }
{
    push_about(text, word, gfid, &[grant])?;
    push_gfid(text, child)
}

/// Adds a request of the ids past one.
fn push_gfids_past(
    text: &mut String,
    word: &str,
    after: Option<Gfid>,
    dirty: bool,
) -> Result<(), AllocError>
    ensures { OnOk result (string_bytes text.new ≡ string_bytes text.old ++ behind 32 (word.now ∷ gfid_or_dash after ∷ either dirty (codes "true") (codes "false") ∷ [])) }
{
    push_word(text, word)?;
    push_gfid_or_dash(text, after)?;
    push_word(text, either(dirty, "true", "false"))
}

/// Adds the words of a request, each behind a blank.
pub(crate) fn push_request(text: &mut String, request: &Request) -> Result<(), AllocError>
    ensures { OnOk result (string_bytes text.new ≡ string_bytes text.old ++ behind 32 (request_words request.now)) }
{
    match request {
        Request::Ask { gfid, domain, kind } => push_ask(text, *gfid, *domain, *kind),
        Request::Release { gfid, grant } => push_about(text, "release", *gfid, &[*grant]),
        Request::Query { gfid, grant } => push_about(text, "query", *gfid, &[*grant]),
        Request::PreOp {
            gfid,
            grant,
            at,
            dirty,
        } => push_about(text, "preop", *gfid, &[*grant, *at, *dirty]),
        Request::ReadChunks {
            gfid,
            grant,
            first,
            count,
        } => push_chunks(text, "readchunks", *gfid, *grant, *first, u64::from(*count)),
        Request::WriteChunks {
            gfid,
            grant,
            first,
            chunks,
        } => push_chunks(
            text,
            "writechunks",
            *gfid,
            *grant,
            *first,
            chunks.len() as u64,
        ),
        Request::SetLength {
            gfid,
            grant,
            keep,
            length,
        } => push_about(text, "setlength", *gfid, &[*grant, *keep, *length]),
        Request::PostOp {
            gfid,
            grant,
            at,
            version,
            size,
            attr,
        } => {
            push_about(text, "postop", *gfid, &[*grant, *at, *version, *size])?;
            push_attr_or_dash(text, attr)
        }
        Request::Clear { gfid, grant, at } => push_about(text, "clear", *gfid, &[*grant, *at]),
        Request::NameGet { gfid, grant, name } => push_named(text, "nameget", *gfid, *grant, name),
        Request::NamesAfter { gfid, grant, after } => push_past(
            text,
            "namesafter",
            *gfid,
            *grant,
            after,
        ),
        Request::NameSet {
            gfid,
            grant,
            name,
            child,
        } => push_name_set(text, *gfid, *grant, name, *child),
        Request::NamesPut {
            gfid,
            grant,
            after,
            upto,
            list,
        } => push_names_put(text, *gfid, *grant, after, upto, list),
        Request::Make { gfid, grant, child } => push_make(text, *gfid, *grant, *child),
        Request::Made { gfid, grant, child } => push_of_child(text, "made", *gfid, *grant, *child),
        Request::Unmake { gfid, grant, child } => push_of_child(
            text, "unmake", *gfid, *grant, *child,
        ),
        Request::Mark {
            gfid,
            grant,
            heal,
            head,
        } => {
            push_about(text, "mark", *gfid, &[*grant, *heal])?;
            push_head(text, head)
        }
        Request::Unmark {
            gfid,
            grant,
            at,
            dirty,
        } => push_about(text, "unmark", *gfid, &[*grant, *at, *dirty]),
        Request::GfidsAfter { after, dirty } => push_gfids_past(text, "gfidsafter", *after, *dirty),
    }
}
