// The program: the volume file and the brick folders of the current folder, the script on standard input, the text of its
// run on standard output.
//
// It hands the top call the stores of the brick folders and two kernels, and tells on standard error how a run that isn't
// done ended. What the file system and standard input give and standard output takes no clause says.
#![tactic(auto)]

ghost use Rattle.std.specs.Prelude.{◌≡◌, map, string_bytes, IfOk};

mod bricks;

use crate::bricks::bricks_of_folders;
use ec_bank::{Bank, Combine, Multiply, RowBank};
use ec_bitslice::{dot, mul_plain};
use ec_field::Chunk;
use ec_folder::{FileSink, FileSource, open};
use ec_run::{Status, run};
use ec_wire::Log;
use std::alloc::{AllocError, Global};
use std::env::Env;
use std::io::ErrorKind;
use std::process::ExitCode;
use std::rt::Files;
use std::{env, io};

fn main(rt: HostRuntime) -> ExitCode {
    let status = run_program(
        &rt,
        |a: u8, c: &Chunk| mul_plain(a, c),
        |a: &[u8], c: &[Chunk]| dot(a, c),
    );
    if status != Status::Done {
        let _ = eprintln!(rt; "ecrun: {status}");
    }
    ExitCode::from(status.number())
}

/// Runs the words of the command line over the brick folders, with a kernel for each kind of bank.
fn run_program<F: Multiply, G: Combine>(
    rt: &(impl Env + Files + Input + Print + AllocGlobal),
    plain: F,
    fused: G,
) -> Status
    requires plain { F.multiplies plain }
    requires fused { G.combines fused }
{
    let Ok(mut bricks) = bricks_of_folders(rt) else {
        return Status::NoMemory;
    };
    let words = match words(rt) {
        Ok(words) => words,
        Err(status) => return status,
    };
    let Ok(words) = lent(rt.alloc(), &words) else {
        return Status::NoMemory;
    };
    let mut volume = open(rt, "ec.vol");
    let mut script = FileSource::new(rt.reader());
    let mut out = FileSink::new(io::writer(rt));
    let mut log = Log::new(rt.alloc());
    run(
        rt.alloc(),
        words.as_slice(),
        &mut volume,
        &mut script,
        &mut out,
        &mut bricks,
        &Bank::new(plain),
        &RowBank::new(fused),
        &mut log,
    )
}

/// The words after the program's name. A word that isn't UTF-8 stands in no command line.
fn words(rt: &(impl Env + AllocGlobal)) -> Result<Vec<String>, Status> {
    let all = match env::args(rt) {
        Ok(all) => all,
        Err(error) if error.kind() == ErrorKind::InvalidData => return Err(Status::BadWords),
        Err(_) => return Err(Status::NoMemory),
    };
    let mut words = Vec::new(rt.alloc());
    for word in all.skip(1) {
        if words.push(word).is_err() {
            return Err(Status::NoMemory);
        }
    }
    Ok(words)
}

/// The same words, as `run` takes them.
fn lent(alloc: Global, words: &Vec<String>) -> Result<Vec<&str>, AllocError>
    ensures { IfOk result (λ texts. map (λ text. text.now) texts.items ≡ map string_bytes words.now.items) }
{
    let mut texts = Vec::with_capacity(alloc, words.len())?;
    for word in words {
        texts.push(word.as_str())?;
    }
    Ok(texts)
}
