// The forms of calls in a script.
ghost use Rattle.std.specs.Prelude.{◌≡◌, ◌<◌, IfSome, IsTrue, length, map};
ghost use Rattle.ec_script.specs.Forms.{entry_form, form_len, form_of, is_call, is_call_with, plain_form, plain_len};
ghost use Rattle.ec_script.specs.Words.{seen};

use crate::word::Word;
use crate::words::has_word;

/// A call on a directory and a name.
#[derive(Clone, Copy, Debug)]
pub(crate) enum EntryForm {
    Create,
    Mkdir,
    Unlink,
    Lookup,
    Rmdir,
}

/// A call on a file or directory whose further words are numbers and fixed words.
#[derive(Clone, Copy, Debug)]
pub(crate) enum PlainForm {
    Truncate,
    Read,
    ReadVia,
    Stat,
    Readdir,
    Heal,
    SetAttr,
    GetAttr,
    Scrub,
    ScrubSettle,
}

#[derive(Clone, Copy, Debug)]
pub(crate) enum Form {
    Write,
    Rename,
    /// `sweep index` or `sweep full`.
    Sweep(bool),
    Entry(EntryForm),
    Plain(PlainForm),
}

/// Whether the words are `call C WORD ..`, as many as `n`.
fn is_call(words: &[Word], n: usize, word: &str) -> bool
    requires { 2 < n }
    ensures value { result ≡ is_call (map seen words.now) n word.now }
    ensures words { IsTrue result → length words.now ≡ n }
{
    has_word(words, n, 2, word)
}

/// The same with another word at place `i`.
#[tactic(auto, using(crate::proofs::WordLemmas::seen_words))]
fn is_call_with(words: &[Word], n: usize, word: &str, i: usize, other: &str) -> bool
    requires call { 2 < n }
    requires place { i < n }
    ensures value { result ≡ is_call_with (map seen words.now) n word.now i other.now }
    ensures words { IsTrue result → length words.now ≡ n }
{
    is_call(words, n, word) && has_word(words, n, i, other)
}

#[tactic(auto, unfolding(crate::specs::Forms::entry_form))]
fn entry_form(words: &[Word]) -> Option<EntryForm>
    ensures value { result ≡ entry_form (map seen words.now) }
    ensures words { IfSome result (λ f. length words.now ≡ 5) }
{
    if is_call(words, 5, "create") {
        Some(EntryForm::Create)
    } else if is_call(words, 5, "mkdir") {
        Some(EntryForm::Mkdir)
    } else if is_call(words, 5, "unlink") {
        Some(EntryForm::Unlink)
    } else if is_call(words, 5, "lookup") {
        Some(EntryForm::Lookup)
    } else if is_call(words, 5, "rmdir") {
        Some(EntryForm::Rmdir)
    } else {
        None
    }
}

#[tactic(auto, unfolding(crate::specs::Forms::plain_form))]
fn plain_form(words: &[Word]) -> Option<PlainForm>
    ensures value { result ≡ plain_form (map seen words.now) }
    ensures words { IfSome result (λ f. plain_len f ≡ length words.now) }
{
    if is_call(words, 5, "truncate") {
        Some(PlainForm::Truncate)
    } else if is_call(words, 6, "read") {
        Some(PlainForm::Read)
    } else if is_call_with(words, 8, "read", 6, "via") {
        Some(PlainForm::ReadVia)
    } else if is_call(words, 4, "stat") {
        Some(PlainForm::Stat)
    } else if is_call(words, 4, "readdir") {
        Some(PlainForm::Readdir)
    } else if is_call(words, 4, "heal") {
        Some(PlainForm::Heal)
    } else if is_call(words, 7, "setattr") {
        Some(PlainForm::SetAttr)
    } else if is_call(words, 4, "getattr") {
        Some(PlainForm::GetAttr)
    } else if is_call(words, 4, "scrub") {
        Some(PlainForm::Scrub)
    } else if is_call_with(words, 5, "scrub", 4, "settle") {
        Some(PlainForm::ScrubSettle)
    } else {
        None
    }
}

/// The form of a call by its word and by how many words the line has.
#[tactic(auto, unfolding(crate::specs::Forms::form_of))]
pub(crate) fn form_of(words: &[Word]) -> Option<Form>
    ensures value { result ≡ form_of (map seen words.now) }
    ensures words { IfSome result (λ f. form_len f ≡ length words.now) }
{
    if is_call(words, 6, "write") {
        Some(Form::Write)
    } else if is_call(words, 7, "rename") {
        Some(Form::Rename)
    } else if is_call_with(words, 4, "sweep", 3, "index") {
        Some(Form::Sweep(false))
    } else if is_call_with(words, 4, "sweep", 3, "full") {
        Some(Form::Sweep(true))
    } else if let Some(entry) = entry_form(words) {
        Some(Form::Entry(entry))
    } else {
        Some(Form::Plain(plain_form(words)?))
    }
}
