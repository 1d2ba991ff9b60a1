// What a client calls for.
ghost use Rattle.std.specs.Prelude.{◌≡◌, IfOk};

use ec_attr::{Attr, Blob, BrickSet, Gfid, Name};
use std::alloc::AllocError;

/// What a client calls for. Offsets, lengths and sizes are in bytes.
#[derive(Debug, Drop)]
pub enum Op {
    Write {
        gfid: Gfid,
        off: u64,
        bytes: Blob,
    },
    Truncate {
        gfid: Gfid,
        size: u64,
    },
    /// From the bricks of `via` alone, where it is given.
    Read {
        gfid: Gfid,
        off: u64,
        len: u64,
        via: Option<BrickSet>,
    },
    Stat {
        gfid: Gfid,
    },
    Create {
        parent: Gfid,
        name: Name,
    },
    Mkdir {
        parent: Gfid,
        name: Name,
    },
    Unlink {
        parent: Gfid,
        name: Name,
    },
    Lookup {
        parent: Gfid,
        name: Name,
    },
    Readdir {
        gfid: Gfid,
    },
    Heal {
        gfid: Gfid,
    },
    SetAttr {
        gfid: Gfid,
        attr: Attr,
    },
    GetAttr {
        gfid: Gfid,
    },
    Rename {
        from_dir: Gfid,
        from_name: Name,
        to_dir: Gfid,
        to_name: Name,
    },
    Rmdir {
        parent: Gfid,
        name: Name,
    },
    /// Names the stripes whose bricks don't hold one codeword, and with `settle` rewrites them.
    Scrub {
        gfid: Gfid,
        settle: bool,
    },
    /// Heals every gfid that an index names, or with `full` every gfid that a brick has.
    Sweep {
        full: bool,
    },
}

impl Op {
    /// An equal value.
    pub fn copy(&self) -> Result<Op, AllocError>
        ensures { IfOk result (λ op. op ≡ self.now) }
    {
        Ok(match *self {
            Op::Write {
                gfid,
                off,
                ref bytes,
            } => Op::Write {
                gfid,
                off,
                bytes: bytes.copy()?,
            },
            Op::Truncate { gfid, size } => Op::Truncate { gfid, size },
            Op::Read {
                gfid,
                off,
                len,
                ref via,
            } => Op::Read {
                gfid,
                off,
                len,
                via: *via,
            },
            Op::Stat { gfid } => Op::Stat { gfid },
            Op::Create { parent, ref name } => Op::Create {
                parent,
                name: name.copy()?,
            },
            Op::Mkdir { parent, ref name } => Op::Mkdir {
                parent,
                name: name.copy()?,
            },
            Op::Unlink { parent, ref name } => Op::Unlink {
                parent,
                name: name.copy()?,
            },
            Op::Lookup { parent, ref name } => Op::Lookup {
                parent,
                name: name.copy()?,
            },
            Op::Readdir { gfid } => Op::Readdir { gfid },
            Op::Heal { gfid } => Op::Heal { gfid },
            Op::SetAttr { gfid, attr } => Op::SetAttr { gfid, attr },
            Op::GetAttr { gfid } => Op::GetAttr { gfid },
            Op::Rename {
                from_dir,
                ref from_name,
                to_dir,
                ref to_name,
            } => Op::Rename {
                from_dir,
                from_name: from_name.copy()?,
                to_dir,
                to_name: to_name.copy()?,
            },
            Op::Rmdir { parent, ref name } => Op::Rmdir {
                parent,
                name: name.copy()?,
            },
            Op::Scrub { gfid, settle } => Op::Scrub { gfid, settle },
            Op::Sweep { full } => Op::Sweep { full },
        })
    }
}
