// Printing a volume file.
ghost use Rattle.std.specs.Prelude.{◌≡◌, ◌++◌, ◌≤◌, ◌^◌, codes, length, IfOk, OnOk};
ghost use Rattle.ec_volfile.specs.Grammar.{IsVolumeFile};
ghost use Rattle.ec_volfile.specs.Printed.{ended_line, eager_text, kernel_text, option_line, policy_text, rows_text, spaced_names, text_of};
ghost use Rattle.ec_volfile.specs.Outline.{outline};
ghost use Rattle.ec_volfile.specs.Volumes.{HasWords, IsVolume};

use crate::volume::{BlobList, Kernel, Volume};
use ec_attr::{Blob, Policy};
use itoa::Buffer;
use std::alloc::{AllocError, Global};

fn policy_text(policy: Policy) -> &'static [u8]
    ensures { result.now ≡ policy_text policy }
{
    match policy {
        Policy::RoundRobin => b"round-robin",
        Policy::GfidHash => b"gfid-hash",
    }
}

fn eager_text(eager: bool) -> &'static [u8]
    ensures { result.now ≡ eager_text eager }
{
    if eager { b"on" } else { b"off" }
}

fn kernel_text(kernel: Kernel) -> &'static [u8]
    ensures { result.now ≡ kernel_text kernel }
{
    match kernel {
        Kernel::Plain => b"none",
        Kernel::Fused => b"auto",
    }
}

fn rows_text(algorithm: u8) -> &'static [u8]
    ensures { result.now ≡ rows_text algorithm }
{
    if algorithm == 1 {
        b"systematic"
    } else {
        b"plain"
    }
}

/// Adds a line of two parts.
fn put_line(text: &mut Blob, front: &[u8], rest: &[u8]) -> Result<(), AllocError>
    ensures { OnOk result (text.new ≡ text.old ++ ended_line (front.now ++ rest.now)) }
{
    text.extend(front)?;
    text.extend(rest)?;
    text.push(b'\n')
}

/// Adds the line of an option.
fn put_option(text: &mut Blob, key: &[u8], value: &[u8]) -> Result<(), AllocError>
    ensures { OnOk result (text.new ≡ text.old ++ ended_line (option_line key.now value.now)) }
{
    text.extend(b"    option ")?;
    text.extend(key)?;
    text.push(b' ')?;
    text.extend(value)?;
    text.push(b'\n')
}

/// Adds the names, each behind a space.
fn put_names(text: &mut Blob, names: &BlobList) -> Result<(), AllocError>
    ensures { OnOk result (text.new ≡ text.old ++ spaced_names names.now) }
{
    for name in names.items() {
        text.push(b' ')?;
        text.extend(name.items())?;
    }
    Ok(())
}

/// Adds the line of the subvolumes.
fn put_subvolumes(text: &mut Blob, names: &BlobList) -> Result<(), AllocError>
    ensures { OnOk result (text.new ≡ text.old ++ ended_line (codes "    subvolumes" ++ spaced_names names.now)) }
{
    text.extend(b"    subvolumes")?;
    put_names(text, names)?;
    text.push(b'\n')
}

/// The text of the volume: one disperse section with every option.
fn text_of(alloc: Global, v: &Volume) -> Result<Blob, AllocError>
    ensures { IfOk result (λ t. t ≡ text_of (outline v.now)) }
{
    let mut numbers = Buffer::new();
    let mut text = Blob::new(alloc);
    put_line(&mut text, b"volume ", v.name.items())?;
    put_line(&mut text, b"    type cluster/disperse", b"")?;
    put_option(
        &mut text,
        b"redundancy",
        numbers.format(v.geometry.r).as_bytes(),
    )?;
    put_option(&mut text, b"read-policy", policy_text(v.policy))?;
    put_option(&mut text, b"eager-lock", eager_text(v.eager))?;
    put_option(
        &mut text,
        b"stripe-cache",
        numbers.format(v.cache).as_bytes(),
    )?;
    put_option(
        &mut text,
        b"self-heal-window-size",
        numbers.format(v.window).as_bytes(),
    )?;
    put_option(&mut text, b"cpu-extensions", kernel_text(v.kernel))?;
    put_option(&mut text, b"code-rows", rows_text(v.geometry.algorithm))?;
    put_subvolumes(&mut text, &v.bricks)?;
    put_line(&mut text, b"end-volume", b"")?;
    Ok(text)
}

/// The volume file of a volume: one disperse section with every option.
pub fn print(alloc: Global, v: &Volume) -> Result<Blob, AllocError>
    ensures text { IfOk result (λ t. t ≡ text_of (outline v.now)) }

    // The text is in the grammar and means this volume, so `read` gives it back.
    ensures meaning { IfOk result (λ t. IsVolume (outline v.now) → HasWords (outline v.now) → length t ≤ 2 ^ 20 → IsVolumeFile t (outline v.now)) }
{
    text_of(alloc, v)
}
