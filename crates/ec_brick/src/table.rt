// The table's rows in code, and how they refuse a request.
ghost use Rattle.std.specs.Prelude.{◌≡◌, IfSome, Some, true};
ghost use Rattle.ec_brick.specs.Inner.{is_refusal};
ghost use Rattle.ec_brick.specs.Rows.{fence, heal_fence, is_writers, meets, other_kind, refusal, row_of};

use crate::row::{Check, Need, Row};
use ec_attr::{Domain, Gfid, Head, Kind, LockKind, is_marked, stripped};
use ec_locks::LockTable;
use ec_wire::{Reply, Request};

/// A row about the record of the gfid that the grant is for, or of its child.
fn row(gfid: &Gfid, grant: &u64, need: Need, subject: &Gfid, check: Check) -> Option<Row>
    ensures { result ≡ Rattle.ec_brick.specs.Rows.row gfid.now grant.now need subject.now check }
{
    Some(Row {
        gfid: *gfid,
        grant: *grant,
        need,
        heal: None,
        subject: *subject,
        check,
    })
}

/// The row of a request, if a grant guards it.
pub fn row_of(request: &Request) -> Option<Row>
    ensures { result ≡ row_of request.now }
{
    match request {
        Request::Ask { .. } | Request::Release { .. } | Request::GfidsAfter { .. } => None,
        Request::Query { gfid, grant } => row(gfid, grant, Need::Reading, gfid, Check::Present),
        Request::ReadChunks { gfid, grant, .. } => {
            row(gfid, grant, Need::Reading, gfid, Check::OfKind(Kind::File))
        }
        Request::NameGet { gfid, grant, .. } | Request::NamesAfter { gfid, grant, .. } => {
            row(gfid, grant, Need::Reading, gfid, Check::OfKind(Kind::Dir))
        }
        Request::PreOp {
            gfid,
            grant,
            at,
            ..
        }
        | Request::PostOp {
            gfid,
            grant,
            at,
            ..
        }
        | Request::Clear { gfid, grant, at } => {
            row(gfid, grant, Need::Writing, gfid, Check::At(*at))
        }
        Request::WriteChunks { gfid, grant, .. } | Request::SetLength { gfid, grant, .. } => {
            row(gfid, grant, Need::Either, gfid, Check::Content(Kind::File))
        }
        Request::NameSet { gfid, grant, .. } => {
            row(gfid, grant, Need::Writing, gfid, Check::OfKind(Kind::Dir))
        }
        Request::NamesPut { gfid, grant, .. } => {
            row(gfid, grant, Need::Healing, gfid, Check::Content(Kind::Dir))
        }
        Request::Make { gfid, grant, child } => {
            row(gfid, grant, Need::Writing, &child.gfid, Check::Absent)
        }
        Request::Made { gfid, grant, child } => {
            row(gfid, grant, Need::Writing, child, Check::Fresh)
        }
        Request::Unmake { gfid, grant, child } => {
            row(gfid, grant, Need::Writing, child, Check::Present)
        }
        Request::Mark {
            gfid,
            grant,
            heal,
            head,
        } => Some(Row {
            gfid: *gfid,
            grant: *grant,
            need: Need::Writing,
            heal: Some(*heal),
            subject: *gfid,
            check: Check::Markable(head.kind, head.version.content),
        }),
        Request::Unmark {
            gfid,
            grant,
            at,
            ..
        } => { row(gfid, grant, Need::Healing, gfid, Check::At(*at)) }
    }
}

/// Whether the lock table holds such a grant.
fn does_meet(need: Need, locks: &LockTable, grant: u64, gfid: Gfid) -> bool
    ensures { result ≡ meets need locks.now grant gfid }
{
    match need {
        Need::Reading => locks.holds(grant, gfid, Domain::Inode, LockKind::Shared),
        Need::Writing => locks.holds(grant, gfid, Domain::Inode, LockKind::Exclusive),
        Need::Healing => locks.holds(grant, gfid, Domain::Heal, LockKind::Exclusive),
        Need::Either => {
            locks.holds(grant, gfid, Domain::Inode, LockKind::Exclusive)
                || locks.holds(grant, gfid, Domain::Heal, LockKind::Exclusive)
        }
    }
}

/// Whether the grant lets a record be changed that isn't marked.
pub fn is_writers(row: &Row, locks: &LockTable) -> bool
    ensures { result ≡ is_writers row.now.need locks.now row.now.grant row.now.gfid }
{
    match row.need {
        Need::Reading | Need::Healing => false,
        Need::Writing => true,
        Need::Either => locks.holds(row.grant, row.gfid, Domain::Inode, LockKind::Exclusive),
    }
}

fn heal_fence(heal: Option<u64>, locks: &LockTable, gfid: Gfid) -> Option<Reply>
    ensures why { result ≡ heal_fence locks.now gfid heal }
    ensures refusal { IfSome result (λ y. is_refusal y ≡ true) }
{
    match heal {
        Some(n) if !locks.holds(n, gfid, Domain::Heal, LockKind::Exclusive) => {
            Some(Reply::NoGrant(n))
        }
        _ => None,
    }
}

/// Why the lock table refuses a request of this row.
pub fn fence(row: &Row, locks: &LockTable) -> Option<Reply>
    ensures why { result ≡ fence locks.now row.now }
    ensures refusal { IfSome result (λ y. is_refusal y ≡ true) }
{
    if !does_meet(row.need, locks, row.grant, row.gfid) {
        return Some(Reply::NoGrant(row.grant));
    }
    heal_fence(row.heal, locks, row.gfid)
}

fn other_kind(kind: Kind, head: &Head) -> Option<Reply>
    ensures why { result ≡ other_kind kind head.now }
    ensures refusal { IfSome result (λ y. is_refusal y ≡ true) }
{
    if head.kind == kind {
        None
    } else {
        Some(Reply::OtherKind)
    }
}

/// Why a record that is there refuses a request of this row.
fn refusal_at(check: Check, grant: u64, writer: bool, gone: bool, head: &Head) -> Option<Reply>
    ensures why { result ≡ refusal check grant writer gone (Some head.now) }
    ensures refusal { IfSome result (λ y. is_refusal y ≡ true) }
{
    let version = head.version.content;
    match check {
        Check::Present => None,
        Check::At(v) if version == v => None,
        Check::At(_) => Some(Reply::NotAt(version)),
        Check::OfKind(k) => other_kind(k, head),
        Check::Content(k) if writer || is_marked(version) => other_kind(k, head),
        Check::Content(_) => Some(Reply::NoGrant(grant)),
        Check::Absent => Some(Reply::IsInode),
        Check::Fresh if !gone && version == 0 && head.dirty.content == 1 => None,
        Check::Fresh => Some(Reply::NotAt(version)),
        Check::Markable(k, _) if head.kind != k => Some(Reply::OtherKind),
        Check::Markable(_, v) if !is_marked(version) && version == stripped(v) => {
            Some(Reply::IsInode)
        }
        Check::Markable(_, _) => None,
    }
}

/// Why the head refuses a request of this row. `writer` is whether the grant lets an unmarked record be changed, `gone`
/// whether the subject was removed since the brick started.
pub fn refusal(row: &Row, writer: bool, gone: bool, head: &Option<Head>) -> Option<Reply>
    ensures why { result ≡ refusal row.now.check row.now.grant writer gone head.now }
    ensures refusal { IfSome result (λ y. is_refusal y ≡ true) }
{
    match (row.check, head) {
        (check, Some(h)) => refusal_at(check, row.grant, writer, gone, h),
        (Check::Absent, None) if gone => Some(Reply::IsInode),
        (Check::Absent, None) | (Check::Markable(_, _), None) => None,
        (_, None) => Some(Reply::NoInode),
    }
}
