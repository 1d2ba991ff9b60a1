// What describes a volume and its files: the geometry and the config, ids, names, heads and attributes of records,
// sets of bricks, bytes, the policy of a read.
//
// Promised: a geometry is one that the code serves, and `Geometry::new` refuses any other; a set of bricks has exactly
// the members that were put in, and its laws are stated once here, for every set. The bytes of an attribute are those
// of `specs/Attributes.antt`: what is read of them is what was written, exactly these bytes are read, and any others
// are refused with their first fault. A name is one that a directory can have. The texts and lists allocate, and
// a list is as before where there is no memory; nothing else does.
#![tactic(auto)]

mod attr;
mod blob;
mod bricks;
mod config;
mod counts;
mod fault;
mod geometry;
mod gfid;
mod head;
mod kind;
mod name;
mod names;
mod policy;
#[cfg(test)]
mod tests;
mod text;

pub use attr::{Attr, same_attr};
pub use blob::Blob;
pub use bricks::{BrickSet, brick_laws};
pub use config::{Config, same_config};
pub use counts::{Dirty, Version, is_marked, marked, size_from_bytes, size_to_bytes, stripped};
pub use fault::AttrFault;
pub use geometry::{BadGeometry, Geometry, same_geometry};
pub use gfid::{Gfid, gfid_text};
pub use head::{Head, same_head};
pub use kind::{Child, Domain, Kind, LockKind, same_child};
pub use name::{BadName, Name};
pub use names::NameList;
pub use policy::Policy;
pub use text::hex_text;
