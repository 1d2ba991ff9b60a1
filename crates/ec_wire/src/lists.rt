// Lists of items.
ghost use Rattle.std.specs.Prelude.{◌≡◌, List, [], ◌∷◌, ◌++◌, length, IfOk, OnErr, OnOk};

use std::alloc::{AllocError, Global};
use std::marker::Model;

/// Items in order, seen as their list.
#[derive(Debug, Drop)]
pub struct ItemList<T> {
    items: Vec<T>,
}

impl<T> Model for ItemList<T> {
    ghost use Rattle.std.specs.Prelude.{List};

    ghost Value = { List T };

    ghost view = { λ l. l.items.items };
}

impl<T> ItemList<T> {
    /// No items.
    pub fn new(alloc: Global) -> ItemList<T>
        ensures { result ≡ [] }
    {
        ItemList {
            items: Vec::new(alloc),
        }
    }

    /// How many items there are.
    pub fn len(&self) -> usize
        ensures { result ≡ length self.now }
    {
        self.items.len()
    }

    /// The items in order.
    pub fn items(&self) -> &[T]
        ensures { result.now ≡ self.now }
    {
        self.items.as_slice()
    }
}

impl<T: Drop> ItemList<T> {
    /// Adds an item at the end.
    pub fn push(&mut self, x: T) -> Result<(), AllocError>
        ensures ok { OnOk result (self.new ≡ self.old ++ x ∷ []) }
        ensures err { OnErr result (self.new ≡ self.old) }
    {
        self.items.push(x)?;
        Ok(())
    }

    /// Puts an item in the place of the last one.
    pub fn set_last(&mut self, x: T)
        ensures { (front : List T) (y : T) → self.old ≡ front ++ y ∷ [] → self.new ≡ front ++ x ∷ [] }
    {
        let n = self.items.len();
        if n > 0 {
            self.items[n - 1] = x;
        }
    }

    /// Drops the last item, if there is one.
    pub fn drop_last(&mut self)
        ensures { (front : List T) (y : T) → self.old ≡ front ++ y ∷ [] → self.new ≡ front }
    {
        let _ = self.items.pop();
    }
}

impl<T: Copy> ItemList<T> {
    /// An equal value.
    pub fn copy(&self) -> Result<ItemList<T>, AllocError>
        ensures { IfOk result (λ l. l ≡ self.now) }
    {
        Ok(ItemList {
            items: Vec::from_slice(*self.items.allocator(), self.items.as_slice())?,
        })
    }
}
