// What the bricks replied last.
ghost use Rattle.std.specs.Prelude.{◌≡◌, ℕ, ◌<◌, IfOk, OnOk, None, Some, vec_len};
ghost use Rattle.ec_store.specs.Put.{put};
ghost use Rattle.ec_txn.specs.Replies.{reply_at};

use ec_wire::Reply;
use std::alloc::{AllocError, Global};

/// What each brick replied to the last request that it was sent, None where that was given up.
#[derive(Drop)]
pub struct Replies {
    pub items: Vec<Option<Reply>>,
}

impl Replies {
    /// No reply yet of so many bricks.
    pub fn new(alloc: Global, bricks: u8) -> Result<Replies, AllocError>
        ensures len { IfOk result (λ r. vec_len r.items ≡ bricks) }
        ensures none { IfOk result (λ r. (x : ℕ) → reply_at r.items.items x ≡ None) }
    {
        let mut items = Vec::with_capacity(alloc, usize::from(bricks))?;
        for _ in 0..bricks {
            items.push(None)?;
        }
        Ok(Replies { items })
    }

    /// Notes what a brick replied, None where its reply was given up.
    pub fn note(&mut self, brick: u8, reply: Option<Reply>)
        requires { brick < vec_len self.old.items }
        ensures at { reply_at self.new.items.items ≡ put (reply_at self.old.items.items) brick reply }
        ensures same { vec_len self.new.items ≡ vec_len self.old.items }
    {
        self.items[usize::from(brick)] = reply;
    }
}
