// A brick beside its store.
ghost use Rattle.std.specs.Prelude.{◌≡◌, None, false};
ghost use Rattle.ec_brick.specs.State.{fresh, indexed, state};

use ec_attr::Config;
use ec_index::Index;
use ec_locks::LockTable;
use std::alloc::Global;

/// What a brick is beside the records of its store, which is handed in at each call: the volume's config, whether it
/// is up, its locks, the index of its dirty records, and the gfids that it has removed since it last started.
#[derive(Drop)]
pub struct Brick {
    pub(crate) alloc: Global,
    pub(crate) config: Config,
    pub(crate) up: bool,
    pub(crate) locks: LockTable,
    pub(crate) index: Index,
    pub(crate) removed: Index,
}

impl Brick {
    /// A brick that is up, with no locks and an empty index.
    pub fn new(alloc: Global, config: Config) -> Brick
        ensures value { state result (λ g. None) ≡ fresh config }
        ensures index { indexed result ≡ (λ g. false) }
    {
        Brick {
            alloc,
            config,
            up: true,
            locks: LockTable::new(alloc),
            index: Index::new(alloc),
            removed: Index::new(alloc),
        }
    }
}
