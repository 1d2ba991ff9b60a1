// What a brick forgets where records were removed from its store.
ghost use Rattle.std.specs.Prelude.{◌≡◌, ◌&&◌, ℕ, not, false, Some};
ghost use Rattle.ec_index.specs.Members.{members};
ghost use Rattle.ec_store.specs.Records.{Records};
ghost use Rattle.ec_brick.specs.Forget.{is_upto};
ghost use Rattle.ec_brick.specs.State.{indexed, state};

use crate::brick::Brick;
use ec_attr::Gfid;
use ec_index::Index;

impl Brick {
    /// Drops the gfids up to this one from the index, or with none all of them. It takes no memory.
    pub fn forget(&mut self, upto: Option<Gfid>)
        ensures index { (g : ℕ) → indexed self.new g ≡ (indexed self.old g && not (is_upto upto g)) }
        ensures same { (m : Records) → state self.new m ≡ state self.old m }
    {
        match upto {
            None => self.index = Index::new(self.alloc),
            Some(last) => drop_upto(&mut self.index, last),
        }
    }
}

/// Takes the gfids up to this one out.
fn drop_upto(index: &mut Index, last: Gfid)
    ensures { (g : ℕ) → members index.new g ≡ (members index.old g && not (is_upto (Some last) g)) }
{
    let mut next = Some(Gfid(0));
    while let Some(g) = next {
        let _ = index.set(g, false);
        next = match index.after(g) {
            Some(above) if above.0 <= last.0 => Some(above),
            _ => None,
        };
    }
}
