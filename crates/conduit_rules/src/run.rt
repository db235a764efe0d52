// A list that is read forwards in rising ids.
ghost use Rattle.std.specs.Prelude.{◌≡◌, ◌+◌, ◌<◌, ◌≤◌, true, if◌then◌else◌, IfOk, List, drop, length, map, slice_get};
ghost use Rattle.std.specs.Option.{option_map};
ghost use Rattle.conduit_rules.specs.Runs.{IsRunOf, placed};

use crate::has_id::HasId;
use crate::steps::Steps;
use std::alloc::{AllocError, Global};
use std::marker::Model;
use std::sync::ledger::Ledger;

/// A list that can only be read forwards, in rising ids; entries of one id come in the order of the list.
#[derive(Drop)]
pub struct Run<'a, T: HasId> {
    list: &'a [T],
    entries: Vec<(usize, &'a T)>,
    passed: usize,
}

impl<'a, T: HasId> Model for Run<'a, T> {
    ghost use Rattle.std.specs.Prelude.{◌≤◌, drop, length, map};
    ghost use Rattle.conduit_rules.specs.Runs.{RunValue};

    ghost Value = { RunValue T };

    ghost view = { λ run. record {
      list = run.list.now;
      ahead = map (λ e. (e.0, e.1.now)) (drop run.passed run.entries.items);
    } };

    ghost invariant = { λ run. run.passed ≤ length run.entries.items };
}

impl<'a, T: HasId> Run<'a, T> {
    /// The list from its start.
    pub fn new(alloc: Global, list: &'a [T]) -> Result<Self, AllocError>
        ensures { IfOk result (λ run. (run.list ≡ list.now) × IsRunOf T.id_of run.list run.ahead) }
    {
        let mut entries = with_places(alloc, list)?;
        entries.sort_by_key(|entry| entry.1.id().number())?;
        Ok(Run {
            list,
            entries,
            passed: 0,
        })
    }

    // How many entries the whole list has.
    pub(crate) fn len(&self) -> usize
        ensures { result ≡ length self.now.list }
    {
        self.list.len()
    }

    /// The entry in front with its place in the list; None exactly at the end.
    pub fn head<L: Ledger>(&self, steps: &mut Steps<L>) -> Option<(usize, &'a T)>
        ensures entry { option_map (λ e. (e.0, e.1.now)) result ≡ slice_get self.now.ahead 0 }
        ensures step { steps.new ≡ steps.old + 1 }
    {
        steps.tick();
        self.entries.get(self.passed).copied()
    }

    /// Passes the entry in front.
    pub fn advance<L: Ledger>(&mut self, steps: &mut Steps<L>)
        requires { 0 < length self.old.ahead }
        ensures list { self.new.list ≡ self.old.list }
        ensures ahead { self.new.ahead ≡ drop 1 self.old.ahead }
        ensures step { steps.new ≡ steps.old + 1 }
    {
        steps.tick();
        self.passed += 1;
    }

    // Passes the entry in front, where it is to be passed.
    pub(crate) fn pass<L: Ledger>(&mut self, passes: bool, steps: &mut Steps<L>)
        requires { passes ≡ true → 0 < length self.old.ahead }
        ensures list { self.new.list ≡ self.old.list }
        ensures ahead { self.new.ahead ≡ drop (if passes then 1 else 0) self.old.ahead }
        ensures step { steps.new ≡ steps.old + (if passes then 1 else 0) }
    {
        if passes {
            self.advance(steps);
        }
    }
}

// The entries of a list with their places.
fn with_places<'a, T>(alloc: Global, list: &'a [T]) -> Result<Vec<(usize, &'a T)>, AllocError>
    ensures { IfOk result (λ entries. map (λ e. (e.0, e.1.now)) entries.items ≡ placed list.now) }
{
    let mut entries = Vec::new(alloc);
    for (place, item) in list.iter().enumerate() {
        entries.push((place, item))?;
    }
    Ok(entries)
}
