// What an observer saw of a run.

ghost use Rattle.std.specs.Prelude.{◌≡◌, ◌≤◌, ◌<◌, ◌++◌, ◌∷◌, [], length, nat_lt, nat_le, IfOk, Ok};
ghost use Rattle.x64_evaluator.specs.inner.Moves.{shown};

use crate::end::End;
use std::alloc::{AllocError as NoMemory, Global};
use std::marker::Model;
use x64_meaning::Obs;

/// The observations of a run, and room for so many of them.
#[derive(Debug, Drop)]
pub struct Trace {
    room: usize,
    seen: Vec<Obs>,
}

impl Model for Trace {
    ghost use Rattle.std.specs.Prelude.{◌≤◌, length, vec_capacity};
    ghost use Rattle.x64_evaluator.specs.Evaluated.{Traced};

    ghost Value = { Traced };

    ghost view = { λ t. record { room = t.room; seen = t.seen.items } };

    ghost invariant = { λ t. (t.room ≤ vec_capacity t.seen) × (length t.seen.items ≤ t.room) };
}

impl Trace {
    /// An empty trace with room for so many observations.
    pub fn with_room(alloc: Global, room: usize) -> Result<Self, NoMemory>
        ensures { IfOk result (λ t. t ≡ record { room = room; seen = [] }) }
    {
        let seen = Vec::with_capacity(alloc, room)?;
        Ok(Trace { room, seen })
    }

    /// The observations, in their order.
    pub fn list(&self) -> &[Obs]
        ensures { result.now ≡ self.now.seen }
    {
        &self.seen
    }

    // There are as many observations as there is room for, or fewer.
    pub(crate) fn has_room(&self) -> bool
        ensures tells { result ≡ nat_lt (length self.now.seen) self.now.room }
        ensures fits { length self.now.seen ≤ self.now.room }
    {
        self.seen.len() < self.room
    }

    // Adds an observation, where there is room for it.
    pub(crate) fn see(&mut self, obs: Obs) -> Result<(), End>
        ensures seen { (result, self.new.seen) ≡ shown self.old.room self.old.seen obs }
        ensures room { self.new.room ≡ self.old.room }
    {
        if self.seen.len() < self.room {
            self.seen.push_reserved(obs);
            return Ok(());
        }
        Err(End::TraceFull)
    }
}
