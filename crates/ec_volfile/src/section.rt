// The lines of one section.
ghost use Rattle.std.specs.Prelude.{◌≡◌, ◌^◌, ◌≤◌, ◌||◌, ℕ, List, not, length, bytes_eq, IfOk, OnOk, Ok};
ghost use Rattle.std.specs.Option.{option_copied};
ghost use Rattle.ec_volfile.specs.Reading.{Gives};
ghost use Rattle.ec_volfile.specs.Sections.{is_among, keyword_of, one_word, repeats, subvolumes_of, section_of_type};
ghost use Rattle.ec_volfile.specs.Lines.{words};

use crate::fault::VolumeFault;
use crate::lines::{next_word, skip_blanks, split_word, trim_end};
use crate::options::{Options, key_of};
use crate::volume::BlobList;
use ec_attr::Blob;
use std::alloc::{AllocError, Global};
use std::collections::BTreeSet;

/// No volume has more bricks.
const MOST_BRICKS: u32 = 31;

/// What the first word of a line says.
#[derive(Clone, Copy, Debug, PartialEq, Eq)]
pub(crate) enum Keyword {
    /// A blank line or a comment.
    Nothing,
    Volume,
    Type,
    Option,
    Subvolumes,
    EndVolume,
    Other,
}

/// The subvolumes of a section: how many there are, and the names of the first 31, of which no volume has more.
#[derive(Debug, Drop)]
pub(crate) struct Subvolumes {
    pub count: u32,
    pub names: BlobList,
}

/// A section whose type is known.
#[derive(Debug, Drop)]
pub(crate) struct OpenSection {
    pub name: Blob,
    pub disperse: bool,
    pub subvolumes: Option<Subvolumes>,
    pub options: Options,
}

#[tactic(auto, unfolding(crate::specs::Sections::keyword_of))]
pub(crate) fn keyword_of(word: &[u8]) -> Keyword
    ensures { result ≡ keyword_of word.now }
{
    if word.is_empty() || word[0] == b'#' {
        Keyword::Nothing
    } else if word == b"volume".as_slice() {
        Keyword::Volume
    } else if word == b"type".as_slice() {
        Keyword::Type
    } else if word == b"option".as_slice() {
        Keyword::Option
    } else if word == b"subvolumes".as_slice() {
        Keyword::Subvolumes
    } else if word == b"end-volume".as_slice() {
        Keyword::EndVolume
    } else {
        Keyword::Other
    }
}

/// The one word that the arguments of a keyword are.
#[tactic(auto, unfolding(crate::specs::Sections::one_word))]
pub(crate) fn one_word(args: &[u8]) -> Option<&[u8]>
    ensures { option_copied result ≡ one_word args.now }
{
    if args.is_empty() {
        return None;
    }
    let (word, after) = split_word(args);
    if skip_blanks(after).is_empty() {
        Some(word)
    } else {
        None
    }
}

/// The first 31 of the names, and how many there are.
fn subvolumes_of(alloc: Global, args: &[u8]) -> Result<Subvolumes, VolumeFault>
    requires { length args.now ≤ 2 ^ 20 }
    ensures { Gives (λ s. s) result (Ok (subvolumes_of (words args.now))) }
{
    let mut count = 0u32;
    let mut names = BlobList::new(alloc);
    let mut rest = skip_blanks(args);
    while !rest.is_empty() {
        let (word, after) = next_word(rest);
        if count < MOST_BRICKS {
            names.push(Blob::from_slice(alloc, word)?)?;
        }
        count += 1;
        rest = after;
    }
    Ok(Subvolumes { count, names })
}

/// Adds a word to the words that were seen, and says whether it is new.
fn is_new<'a>(seen: &mut BTreeSet<&'a [u8]>, word: &'a [u8]) -> Result<bool, AllocError>
    ensures new { IfOk result (λ b. b ≡ not (is_among seen.old.keys word.now)) }
    ensures added { OnOk result ((q : List ℕ) → is_among seen.new.keys q ≡ (bytes_eq q word.now || is_among seen.old.keys q)) }
{
    Ok(seen.insert(word)?)
}

/// Whether a name comes twice.
fn repeats(alloc: Global, args: &[u8]) -> Result<bool, AllocError>
    ensures { IfOk result (λ b. b ≡ repeats (words args.now)) }
{
    let mut seen = BTreeSet::new(alloc);
    let mut rest = skip_blanks(args);
    while !rest.is_empty() {
        let (word, after) = next_word(rest);
        if !is_new(&mut seen, word)? {
            return Ok(true);
        }
        rest = after;
    }
    Ok(false)
}

impl OpenSection {
    ghost use Rattle.std.specs.Prelude.{◌≡◌, ◌^◌, ◌≤◌, length, Ok};
    ghost use Rattle.ec_volfile.specs.Reading.{Gives};
    ghost use Rattle.ec_volfile.specs.Sections.{head, item, set_named, new_section, option, subvolumes, section_of_type};

    /// The section with this name and type.
    fn new(name: Blob, disperse: bool) -> OpenSection
        ensures { result ≡ new_section name disperse }
    {
        OpenSection {
            name,
            disperse,
            subvolumes: None,
            options: Options::new(),
        }
    }

    /// The section that the line `type T` begins. The flag says whether a section has the type `cluster/disperse`.
    pub fn of_type(
        name: Blob,
        seen: bool,
        keyword: Keyword,
        args: &[u8],
    ) -> Result<OpenSection, VolumeFault>
        ensures { result ≡ head seen name keyword args.now }
    {
        if keyword != Keyword::Type {
            return Err(VolumeFault::BadLine);
        }
        match one_word(args) {
            None => Err(VolumeFault::BadLine),
            Some(kind) => {
                if kind != b"cluster/disperse".as_slice() {
                    return Ok(OpenSection::new(name, false));
                }
                if seen {
                    return Err(VolumeFault::TwoDisperse);
                }
                Ok(OpenSection::new(name, true))
            }
        }
    }

    /// The section with an option more.
    fn option(self, key: &[u8], value: &[u8]) -> Result<OpenSection, VolumeFault>
        ensures { result ≡ option self key.now value.now }
    {
        if value.is_empty() {
            return Err(VolumeFault::BadLine);
        }
        match key_of(key) {
            Some(key) if self.disperse => {
                let options = self.options.set(key, value)?;
                let mut section = self;
                section.options = options;
                Ok(section)
            }
            _ => Ok(self),
        }
    }

    /// The section with its subvolumes.
    fn subvolumes(self, alloc: Global, args: &[u8]) -> Result<OpenSection, VolumeFault>
        requires { length args.now ≤ 2 ^ 20 }
        ensures { Gives (λ s. s) result (subvolumes self args.now self.subvolumes) }
    {
        if self.subvolumes.is_some() {
            return Err(VolumeFault::Twice);
        }
        let mut section = self;
        if !section.disperse {
            section.subvolumes = Some(Subvolumes {
                count: 0,
                names: BlobList::new(alloc),
            });
            return Ok(section);
        }
        if repeats(alloc, args)? {
            return Err(VolumeFault::Twice);
        }
        section.subvolumes = Some(subvolumes_of(alloc, args)?);
        Ok(section)
    }

    /// The section with a line more, which isn't its end.
    pub fn item(
        self,
        alloc: Global,
        keyword: Keyword,
        args: &[u8],
    ) -> Result<OpenSection, VolumeFault>
        requires { length args.now ≤ 2 ^ 20 }
        ensures { Gives (λ s. s) result (item self keyword args.now) }
    {
        match keyword {
            Keyword::Option => {
                let (key, after) = split_word(args);
                self.option(key, trim_end(skip_blanks(after)))
            }
            Keyword::Subvolumes => {
                if args.is_empty() {
                    return Err(VolumeFault::BadLine);
                }
                self.subvolumes(alloc, args)
            }
            _ => Err(VolumeFault::BadLine),
        }
    }
}
