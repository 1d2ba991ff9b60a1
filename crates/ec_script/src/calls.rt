// The calls of a script.
ghost use Rattle.std.specs.Prelude.{◌≡◌, ◌<◌, ◌+◌, length, map, IfOk};
ghost use Rattle.ec_script.specs.Forms.{form_len};
ghost use Rattle.ec_script.specs.Lines.{call_by, entry_call, entry_of, rename_of, write_of};
ghost use Rattle.ec_script.specs.Printed.{IsId, IsName, IsOp};
ghost use Rattle.ec_script.specs.Results.{Finds};
ghost use Rattle.ec_script.specs.Words.{seen};

use crate::data::{data, name};
use crate::fault::LineFault;
use crate::form::{EntryForm, Form};
use crate::numbers::{gfid, number};
use crate::orders::plain_call;
use crate::word::Word;
use ec_attr::{Gfid, Name};
use ec_wire::Op;
use std::alloc::Global;

/// `GFID NAME`
fn entry_of(alloc: Global, gfid_word: &Word, name_word: &Word) -> Result<(Gfid, Name), LineFault>
    ensures found { Finds (λ e. e) result (entry_of (seen gfid_word.now) (seen name_word.now)) }
    ensures range { IfOk result (λ e. IsId e.0 × IsName e.1) }
{
    let Some(gfid) = gfid(gfid_word.text) else {
        return Err(LineFault::BadNumber);
    };
    match name(alloc, name_word) {
        Ok(name) => Ok((gfid, name)),
        Err(fault) => Err(fault),
    }
}

fn entry_call(form: EntryForm, parent: Gfid, name: Name) -> Op
    requires id { IsId parent }
    requires name { IsName name }
    ensures value { result ≡ entry_call form parent name }
    ensures range { IsOp result }
{
    match form {
        EntryForm::Create => Op::Create { parent, name },
        EntryForm::Mkdir => Op::Mkdir { parent, name },
        EntryForm::Unlink => Op::Unlink { parent, name },
        EntryForm::Lookup => Op::Lookup { parent, name },
        EntryForm::Rmdir => Op::Rmdir { parent, name },
    }
}

/// `GFID OFF DATA`
fn write_of(
    alloc: Global,
    gfid_word: &Word,
    off_word: &Word,
    data_word: &Word,
) -> Result<Op, LineFault>
    ensures found { Finds (λ o. o) result (write_of (seen gfid_word.now) (seen off_word.now) (seen data_word.now)) }
    ensures range { IfOk result IsOp }
{
    let Some(gfid) = gfid(gfid_word.text) else {
        return Err(LineFault::BadNumber);
    };
    let Some(off) = number(off_word.text) else {
        return Err(LineFault::BadNumber);
    };
    match data(alloc, data_word) {
        Ok(bytes) => Ok(Op::Write { gfid, off, bytes }),
        Err(fault) => Err(fault),
    }
}

/// `GFID NAME GFID NAME`
fn rename_of(alloc: Global, words: &[Word]) -> Result<Op, LineFault>
    requires { length words.now ≡ 7 }
    ensures found { Finds (λ o. o) result (rename_of (map seen words.now)) }
    ensures range { IfOk result IsOp }
{
    let (from_dir, from_name) = match entry_of(alloc, &words[3], &words[4]) {
        Ok(entry) => entry,
        Err(fault) => return Err(fault),
    };
    match entry_of(alloc, &words[5], &words[6]) {
        Ok((to_dir, to_name)) => Ok(Op::Rename {
            from_dir,
            from_name,
            to_dir,
            to_name,
        }),
        Err(fault) => Err(fault),
    }
}

/// The call of a line that has its form.
#[tactic(auto, using(crate::proofs::WordLemmas::seen_words), unfolding(crate::specs::Lines::call_by))]
pub(crate) fn call_by(alloc: Global, form: Form, words: &[Word]) -> Result<Op, LineFault>
    requires { form_len form ≡ length words.now }
    ensures found { Finds (λ o. o) result (call_by form (map seen words.now)) }
    ensures range { IfOk result IsOp }
{
    match form {
        Form::Write => write_of(alloc, &words[3], &words[4], &words[5]),
        Form::Rename => rename_of(alloc, words),
        Form::Sweep(full) => Ok(Op::Sweep { full }),
        Form::Entry(form) => match entry_of(alloc, &words[3], &words[4]) {
            Ok((parent, name)) => Ok(entry_call(form, parent, name)),
            Err(fault) => Err(fault),
        },
        Form::Plain(form) => match plain_call(form, words) {
            Some(op) => Ok(op),
            None => Err(LineFault::BadNumber),
        },
    }
}
