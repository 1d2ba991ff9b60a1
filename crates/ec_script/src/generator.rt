// The generator of a script.
ghost use Rattle.std.specs.Prelude.{◌≡◌, ◌+◌, ◌^◌, ◌≤◌, ◌<◌, ◌∷◌, ◌++◌, false, IfNone, IfOk, OnErr, option_to_list};
ghost use Rattle.ec_script.specs.Generator.{Gives, events, left};

use crate::draws::draw_round;
use crate::remaining::Remaining;
use crate::rounds::{call_of, client_of, file_name, kind_of, turn};
use ec_attr::{BrickSet, Geometry, Gfid};
use ec_wire::{Event, Op};
use std::alloc::{AllocError, Global};
use std::marker::Model;

/// How many files are made before the first round.
const FILES: u8 = 4;

/// The kind of a round that turns a brick off or on; all others call.
const TURN: u64 = 14;

const ROOT: Gfid = Gfid(1);

/// The events of a generated script that are still to come, seen as their list.
#[derive(Drop)]
pub struct Generator {
    rest: Remaining,
}

impl Model for Generator {
    ghost use Rattle.std.specs.Prelude.{List};
    ghost use Rattle.ec_script.specs.Generator.{left};
    ghost use Rattle.ec_wire.specs.declared.event.Event.{Event};

    ghost Value = { List Event };

    ghost view = { λ g. left g.rest };
}

impl Generator {
    /// The script of `count` rounds that are drawn from `start` on, all bricks being up at first. `first` is the next
    /// gfid, which the first file that is made gets.
    pub fn new(alloc: Global, start: u64, count: u64, geometry: Geometry, first: u128) -> Generator
        requires { first ≤ 2 ^ 96 + 1 }
        ensures { result ≡ events start count geometry first }
    {
        Generator {
            rest: Remaining {
                alloc,
                geometry,
                first,
                settles: false,
                creates: FILES,
                rounds: count,
                state: start,
                stopped: BrickSet::empty(),
            },
        }
    }

    /// The next event, or None after the last. Where there is no memory the script stays where it is.
    pub fn next(&mut self) -> Result<Option<Event>, AllocError>
        ensures ok { IfOk result (Gives self.old self.new) }
        ensures err { OnErr result (self.new ≡ self.old) }
    {
        if self.rest.settles {
            self.rest.settles = false;
            return Ok(Some(Event::Settle));
        }
        if self.rest.creates > 0 {
            let event = self.rest.create()?;
            return Ok(Some(event));
        }
        while self.rest.rounds > 0 {
            if let Some(event) = self.rest.round()? {
                return Ok(Some(event));
            }
        }
        Ok(None)
    }
}

impl Remaining {
    /// Makes the next file.
    fn create(&mut self) -> Result<Event, AllocError>
        requires files { 0 < self.old.creates }
        requires settled { self.old.settles ≡ false }
        ensures ok { IfOk result (λ e. left self.old ≡ e ∷ left self.new) }
        ensures err { OnErr result (self.new ≡ self.old) }
    {
        let gfid = self.first + u128::from(FILES - self.creates);
        let name = file_name(self.alloc, gfid)?;
        self.creates -= 1;
        self.settles = true;
        Ok(Event::Call {
            client: 1,
            op: Op::Create { parent: ROOT, name },
        })
    }

    /// The next round's first event, or None where it has none.
    fn round(&mut self) -> Result<Option<Event>, AllocError>
        requires rounds { 0 < self.old.rounds }
        requires files { self.old.creates ≡ 0 }
        requires settled { self.old.settles ≡ false }
        ensures ok { IfOk result (λ e. left self.old ≡ option_to_list e ++ left self.new) }
        ensures passed { IfOk result (λ e. IfNone e ((self.new.creates ≡ 0) × (self.new.settles ≡ false) × (self.new.rounds + 1 ≡ self.old.rounds))) }
        ensures err { OnErr result (self.new ≡ self.old) }
    {
        let mut state = self.state;
        let draws = draw_round(&mut state);
        if kind_of(&draws) == TURN {
            self.state = state;
            self.rounds -= 1;
            return Ok(turn(&self.geometry, &mut self.stopped, &draws));
        }
        let op = call_of(self.alloc, self.first, &draws)?;
        self.state = state;
        self.rounds -= 1;
        self.settles = true;
        let client = client_of(&draws);
        Ok(Some(Event::Call { client, op }))
    }
}
