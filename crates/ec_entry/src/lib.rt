// The calls on records and on the names of directories.
#![tactic(auto)]

mod asked;
mod children;
mod getattr;
mod lookup;
mod make;
#[cfg(test)]
mod make_tests;
mod members;
mod named;
mod paging;
mod readdir;
mod setattr;
#[cfg(test)]
mod tests;
mod unlink;

pub use children::Children;
pub use getattr::{GetAttr, GetAttrCall, begin_getattr};
pub use lookup::{Lookup, LookupCall, LookupStage, begin_lookup};
pub use make::{Make, MakeCall, MakeStage, begin_make};
pub use named::{Named, name_value};
pub use readdir::{Readdir, ReaddirCall, ReaddirStage, begin_readdir};
pub use setattr::{SetAttr, SetAttrCall, SetAttrStage, begin_setattr};
pub use unlink::{Unlink, UnlinkCall, UnlinkStage, begin_unlink};
