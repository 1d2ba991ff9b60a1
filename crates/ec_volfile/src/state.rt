// What stands after the first lines of a file.
ghost use Rattle.std.specs.Prelude.{◌≡◌, true, false, IfOk, IfErr, if◌then◌else◌};
ghost use Rattle.ec_volfile.specs.Outline.{outline};
ghost use Rattle.ec_volfile.specs.Reading.{Gives};
ghost use Rattle.ec_volfile.specs.Sections.{outside, is_geometry, volume_of};

use crate::fault::VolumeFault;
use crate::lines::{skip_blanks, split_word};
use crate::section::{Keyword, OpenSection, Subvolumes, keyword_of, one_word};
use crate::volume::{BlobList, Kernel, Volume};
use ec_attr::{Blob, Geometry, Policy};
use std::alloc::Global;

/// Where in a section the next line stands.
#[derive(Debug, Drop)]
pub(crate) enum Place {
    Outside,

    /// After `volume NAME`.
    Head(Blob),

    /// After `type T`.
    Body(OpenSection),
}

/// What stands after the first lines.
#[derive(Debug, Drop)]
pub(crate) struct State {
    pub place: Place,

    /// Whether a section has the type `cluster/disperse`.
    pub disperse: bool,

    /// The volume of that section, once it is over.
    pub volume: Option<Volume>,
}

/// The section that the line `volume NAME` begins.
fn head_of(alloc: Global, keyword: Keyword, args: &[u8]) -> Result<Place, VolumeFault>
    ensures { Gives (λ p. p) result (outside keyword args.now) }
{
    if keyword != Keyword::Volume {
        return Err(VolumeFault::BadLine);
    }
    match one_word(args) {
        None => Err(VolumeFault::BadLine),
        Some(name) => Ok(Place::Head(Blob::from_slice(alloc, name)?)),
    }
}

fn geometry_of(n: u32, r: u32, systematic: bool) -> Result<Geometry, VolumeFault>
    ensures ok { IfOk result (λ g. (is_geometry n r ≡ true) × (g.n ≡ n) × (g.r ≡ r) × (g.algorithm ≡ (if systematic then 1 else 0))) }
    ensures refused { IfErr result (λ e. (is_geometry n r ≡ false) × (e ≡ VolumeFault.BadGeometry n r)) }
{
    match Geometry::new(n, r) {
        Ok(geometry) if systematic => Ok(geometry.systematic()),
        Ok(geometry) => Ok(geometry),
        Err(bad) => Err(VolumeFault::BadGeometry { n: bad.n, r: bad.r }),
    }
}

/// The volume of a disperse section that is over.
fn volume_of(alloc: Global, section: OpenSection) -> Result<Volume, VolumeFault>
    ensures { Gives outline result (volume_of section) }
{
    let OpenSection {
        name,
        disperse: _,
        subvolumes,
        options,
    } = section;
    let Some(r) = options.redundancy else {
        return Err(VolumeFault::NoRedundancy);
    };
    let bricks = match subvolumes {
        Some(bricks) => bricks,
        None => Subvolumes {
            count: 0,
            names: BlobList::new(alloc),
        },
    };
    let geometry = geometry_of(bricks.count, r, options.systematic.unwrap_or(false))?;
    Ok(Volume {
        name,
        bricks: bricks.names,
        geometry,
        policy: options.policy.unwrap_or(Policy::RoundRobin),
        eager: options.eager.unwrap_or(false),
        cache: options.cache.unwrap_or(4),
        window: options.window.unwrap_or(16),
        kernel: options.kernel.unwrap_or(Kernel::Fused),
    })
}

impl State {
    ghost use Rattle.std.specs.Prelude.{◌≡◌, ◌^◌, ◌≤◌, length};
    ghost use Rattle.ec_volfile.specs.Outline.{outline};
    ghost use Rattle.ec_volfile.specs.Reading.{Gives};
    ghost use Rattle.ec_volfile.specs.Sections.{at_place, finish, front_of, start, step};

    /// Before the first line.
    pub fn start() -> State
        ensures { front_of result ≡ start }
    {
        State {
            place: Place::Outside,
            disperse: false,
            volume: None,
        }
    }

    /// What stands after a line more.
    #[tactic(auto, unfolding(crate::specs::Sections::step))]
    pub fn step(self, alloc: Global, line: &[u8]) -> Result<State, VolumeFault>
        requires { length line.now ≤ 2 ^ 20 }
        ensures { Gives front_of result (step (front_of self) line.now) }
    {
        let (word, after) = split_word(skip_blanks(line));
        let keyword = keyword_of(word);
        if keyword == Keyword::Nothing {
            return Ok(self);
        }
        self.obey(alloc, keyword, skip_blanks(after))
    }

    /// What stands after a line that says something.
    fn obey(self, alloc: Global, keyword: Keyword, args: &[u8]) -> Result<State, VolumeFault>
        requires { length args.now ≤ 2 ^ 20 }
        ensures { Gives front_of result (at_place (front_of self) self.place keyword args.now) }
    {
        let State {
            place,
            disperse,
            volume,
        } = self;
        match place {
            Place::Outside => {
                let place = head_of(alloc, keyword, args)?;
                Ok(State {
                    place,
                    disperse,
                    volume,
                })
            }
            Place::Head(name) => {
                let section = OpenSection::of_type(name, disperse, keyword, args)?;
                let disperse = disperse || section.disperse;
                Ok(State {
                    place: Place::Body(section),
                    disperse,
                    volume,
                })
            }
            Place::Body(section) => {
                if keyword != Keyword::EndVolume {
                    let section = section.item(alloc, keyword, args)?;
                    return Ok(State {
                        place: Place::Body(section),
                        disperse,
                        volume,
                    });
                }
                if !args.is_empty() {
                    return Err(VolumeFault::BadLine);
                }
                let volume = if section.disperse {
                    Some(volume_of(alloc, section)?)
                } else {
                    volume
                };
                Ok(State {
                    place: Place::Outside,
                    disperse,
                    volume,
                })
            }
        }
    }

    /// The volume, at the end of the file.
    pub fn finish(self) -> Result<Volume, VolumeFault>
        ensures { Gives outline result (finish (front_of self)) }
    {
        match self.place {
            Place::Outside => self.volume.ok_or(VolumeFault::NoDisperse),
            _ => Err(VolumeFault::NoEnd),
        }
    }
}
