// The heads that requests put.
ghost use Rattle.std.specs.Prelude.{◌≡◌};
ghost use Rattle.ec_brick.specs.Index.{is_dirty};
ghost use Rattle.ec_brick.specs.Inner.{head_after};
ghost use Rattle.ec_brick.specs.Work.{committed, new_head, unmarked};
ghost use Rattle.ec_attr.specs.Head.{with_dirty};

use ec_attr::{Attr, Config, Dirty, Head, Kind, Version, stripped};
use ec_wire::Request;

/// Whether a record is to be in the index.
pub fn is_dirty(h: &Head) -> bool
    ensures { result ≡ is_dirty h.now }
{
    !(h.dirty.content == 0 && h.dirty.meta == 0)
}

fn with_dirty(h: &Head, dirty: u64) -> Head
    ensures { result ≡ with_dirty dirty h.now }
{
    let mut after = *h;
    after.dirty.content = dirty;
    after
}

fn committed(h: &Head, version: u64, size: u64, attr: &Option<Attr>) -> Head
    ensures { result ≡ committed version size attr.now h.now }
{
    let mut after = *h;
    after.version.content = version;
    after.size = size;
    after.dirty.content = 1;
    if let Some(a) = attr {
        after.attr = *a;
    }
    after
}

fn unmarked(h: &Head, dirty: u64) -> Head
    ensures { result ≡ unmarked dirty h.now }
{
    let mut after = *h;
    after.version.content = stripped(h.version.content);
    after.dirty.content = dirty;
    after
}

fn new_head(config: &Config, kind: Kind) -> Head
    ensures { result ≡ new_head config.now kind }
{
    Head {
        kind,
        config: *config,
        version: Version {
            content: 0,
            meta: 0,
        },
        size: 0,
        dirty: Dirty {
            content: 1,
            meta: 0,
        },
        attr: Attr::of_new(kind),
    }
}

/// The head that a request puts, if it puts one, by the head that is there.
pub fn head_after(config: &Config, request: &Request, head: &Option<Head>) -> Option<Head>
    ensures { result ≡ head_after config.now request.now head.now }
{
    match (request, head) {
        (Request::PreOp { dirty, .. }, Some(h)) => Some(with_dirty(h, *dirty)),
        (
            Request::PostOp {
                version,
                size,
                attr,
                ..
            },
            Some(h),
        ) => { Some(committed(h, *version, *size, attr)) }
        (Request::Clear { .. }, Some(h)) | (Request::Made { .. }, Some(h)) => {
            Some(with_dirty(h, 0))
        }
        (Request::Make { child, .. }, _) => Some(new_head(config, child.kind)),
        (Request::Mark { head, .. }, _) => Some(*head),
        (Request::Unmark { dirty, .. }, Some(h)) => Some(unmarked(h, *dirty)),
        _ => None,
    }
}
