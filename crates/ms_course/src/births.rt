//! Since when each loader is there.
ghost use Rattle.std.specs.Prelude.{◌≡◌, ℕ, OnOk, OnErr, []};
ghost use Rattle.ms_course.specs.Gathering.{birth_in, birth_with, change_of};

use crate::moment::{Asked, Moment};
use ms_base::{Reply, Step};
use std::alloc::{AllocError, Global};
use std::collections::HashMap;
use std::marker::Model;

/// The line that made a loader. This project's choice.
#[derive(Clone, Copy, Debug, PartialEq, Eq)]
pub struct Birth {
    /// Its position among the command lines, from 0 on.
    pub position: u32,
    /// Its number, from 1 on.
    pub line: u32,
}

/// What a line did to the loaders that there are.
#[derive(Clone, Copy)]
enum Change {
    /// It made the loader of this name.
    Made(u16),
    /// It unloaded the loader of this name.
    Unloaded(u16),
    /// Nothing.
    Nothing,
}

impl Change {
    /// Names what a line did that asked this, by its reply.
    fn of_reply(asked: &Asked, reply: &Reply) -> Change
        ensures { result ≡ change_of asked.now reply.now }
    {
        match (asked, reply) {
            (_, Reply::Refused(_)) => Change::Nothing,
            (Asked::Step(Step::New { loader, .. }), _) => Change::Made(*loader),
            (Asked::Step(Step::Unload { loader }), _) => Change::Unloaded(*loader),
            _ => Change::Nothing,
        }
    }
}

/// The births of the loaders that are there, which contracts see as a list of names with them.
#[derive(Drop)]
pub(crate) struct Births {
    by_name: HashMap<u16, Birth>,
}

impl Model for Births {
    ghost use Rattle.std.specs.Prelude.{ℕ, List};
    ghost use Rattle.ms_course.specs.declared.births.Birth.{Birth};

    ghost Value = { List (ℕ × Birth) };

    ghost view = { λ births. births.by_name.entries };
}

impl Births {
    /// Makes those of no loader. Takes no memory.
    pub(crate) fn new(alloc: Global) -> Births
        ensures { result ≡ [] }
    {
        Births {
            by_name: HashMap::new(alloc),
        }
    }

    /// Notes what the line at a position did to a loader. Takes memory where it made one; an error
    /// means that it was refused.
    pub(crate) fn note(&mut self, position: u32, moment: &Moment) -> Result<(), AllocError>
        ensures noted { OnOk result ((name : ℕ) → birth_in self.new name
            ≡ birth_with name position moment.now (birth_in self.old name)) }
        ensures unchanged { OnErr result (self.new ≡ self.old) }
    {
        let line = moment.line;
        match Change::of_reply(&moment.asked, &moment.reply) {
            Change::Made(loader) => {
                self.by_name.insert(loader, Birth { position, line })?;
                Ok(())
            }
            Change::Unloaded(loader) => {
                self.by_name.remove(&loader);
                Ok(())
            }
            Change::Nothing => Ok(()),
        }
    }

    /// Returns the birth of a loader, where it is there.
    pub(crate) fn of_loader(&self, name: u16) -> Option<Birth>
        ensures { result ≡ birth_in self.now name }
    {
        self.by_name.get(&name).copied()
    }
}
