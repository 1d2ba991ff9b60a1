// Heads that agree.
ghost use Rattle.std.specs.Prelude.{◌≡◌};
ghost use Rattle.ec_attr.specs.GoodGroup.{agree, same_attr, same_config, same_kind, without_mark};

use ec_attr::{Attr, Config, Head, Kind, same_attr, same_config, stripped};

fn is_same_kind(a: Kind, b: Kind) -> bool
    ensures { result ≡ same_kind a b }
{
    a == b
}

fn is_same_config(a: &Config, b: &Config) -> bool
    ensures { result ≡ same_config a.now b.now }
{
    same_config(a, b)
}

fn is_same_attr(a: &Attr, b: &Attr) -> bool
    ensures { result ≡ same_attr a.now b.now }
{
    same_attr(a, b)
}

/// Whether heads agree in kind, config, version, size and attribute.
#[tactic(auto, unfolding(ec_attr::specs::GoodGroup::agree))]
pub fn do_agree(a: &Head, b: &Head) -> bool
    ensures { result ≡ agree a.now b.now }
{
    is_same_kind(a.kind, b.kind)
        && is_same_config(&a.config, &b.config)
        && a.version.content == b.version.content
        && a.size == b.size
        && is_same_attr(&a.attr, &b.attr)
}

/// The same head with its version stripped of the mark.
pub fn without_mark(head: &Head) -> Head
    ensures { result ≡ without_mark head.now }
{
    let mut unmarked = *head;
    unmarked.version.content = stripped(head.version.content);
    unmarked
}
