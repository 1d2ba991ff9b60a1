// The attribute that callers set.
ghost use Rattle.std.specs.Prelude.{◌≡◌, ◌↔◌, ◌≤◌, IfSome, IsSome, IsTrue};

/// The permission bits of a record, at most 4095 (octal 7777), with its owner and group.
#[derive(Clone, Copy, Debug, PartialEq, Eq)]
pub struct Attr {
    pub mode: u32,
    pub owner: u32,
    pub group: u32,
    pub ghost in_range: { mode ≤ 4095 },
}

impl Attr {
    /// The attribute of these three, where the mode can be one.
    pub fn new(mode: u32, owner: u32, group: u32) -> Option<Attr>
        ensures some { IsSome result ↔ (mode ≤ 4095) }
        ensures value { IfSome result (λ a. (a.mode ≡ mode) × (a.owner ≡ owner) × (a.group ≡ group)) }
    {
        if mode > 4095 {
            return None;
        }
        Some(Attr { mode, owner, group })
    }
}

/// Whether two attributes are equal. In a contract it says what `==` does.
pub fn same_attr(a: &Attr, b: &Attr) -> bool
    ensures { IsTrue result ↔ (a.now ≡ b.now) }
{
    *a == *b
}
