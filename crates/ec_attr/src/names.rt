// Names with what they lead to.
ghost use Rattle.std.specs.Prelude.{◌≡◌, [], ◌∷◌, ◌++◌, length, IfOk, OnErr, OnOk};

use crate::kind::Child;
use crate::name::Name;
use std::alloc::{AllocError, Global};
use std::marker::Model;

/// Names with their children in order, seen as the list of these pairs.
#[derive(Debug, Drop)]
pub struct NameList {
    entries: Vec<(Name, Child)>,
}

impl Model for NameList {
    ghost use Rattle.std.specs.Prelude.{List, ℕ};
    ghost use Rattle.ec_attr.specs.declared.kind.Child.{Child};

    ghost Value = { List (List ℕ × Child) };

    ghost view = { λ l. l.entries.items };
}

impl NameList {
    /// No names.
    pub fn new(alloc: Global) -> NameList
        ensures { result ≡ [] }
    {
        NameList {
            entries: Vec::new(alloc),
        }
    }

    /// How many names there are.
    pub fn len(&self) -> usize
        ensures { result ≡ length self.now }
    {
        self.entries.len()
    }

    /// The names with their children in order.
    pub fn items(&self) -> &[(Name, Child)]
        ensures { result.now ≡ self.now }
    {
        self.entries.as_slice()
    }

    /// Adds a name with its child at the end.
    pub fn push(&mut self, x: (Name, Child)) -> Result<(), AllocError>
        ensures ok { OnOk result (self.new ≡ self.old ++ x ∷ []) }
        ensures err { OnErr result (self.new ≡ self.old) }
    {
        self.entries.push(x)?;
        Ok(())
    }

    /// An equal value.
    pub fn copy(&self) -> Result<NameList, AllocError>
        ensures { IfOk result (λ l. l ≡ self.now) }
    {
        let mut entries = Vec::with_capacity(*self.entries.allocator(), self.entries.len())?;
        for (name, child) in &self.entries {
            entries.push((name.copy()?, *child))?;
        }
        Ok(NameList { entries })
    }
}
