// The words of kinds.
ghost use Rattle.std.specs.Prelude.{◌≡◌};
ghost use Rattle.ec_folder.specs.Texts.{kind_word};

use ec_attr::Kind;

/// The word of a kind.
pub fn kind_word(kind: Kind) -> &'static str
    ensures { result.now ≡ kind_word kind }
{
    match kind {
        Kind::File => "file",
        Kind::Dir => "dir",
    }
}

/// The kind of a word.
pub fn kind_of(word: &str) -> Option<Kind> {
    match word {
        "file" => Some(Kind::File),
        "dir" => Some(Kind::Dir),
        _ => None,
    }
}
