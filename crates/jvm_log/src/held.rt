//! Lines of a trace that are held back, in their order, until what stands before them is known.
//!
//!     new 3 ?    alloc 1 7 20    ?    calloc 3 0 65      a line goes out only from the front,
//!     ---------------------------------------------      and only once it is whole
ghost use Rattle.std.specs.Prelude.{◌≡◌, ◌≢◌, ◌≤◌, ◌<◌, ◌-◌, ◌+◌, ◌%◌, ◌^◌, ◌++◌, ◌∷◌, [], List, true, false, length, IfOk, OnOk, IfSome, IfNone, Some, None, slice_set, slice_get, IsTrue, IsFalse, map};
ghost use Rattle.jvm_log.specs.Held.{is_open as more_of, known_of, opening, settled as settled_as};

use crate::placed::Placed;
use ms_base::{Kind, Step};
use ms_trace::Command;
use std::alloc::{AllocError, Global};
use std::collections::VecDeque;

/// A line that is held back.
#[derive(Clone, Copy, Debug, PartialEq, Eq)]
pub(crate) enum Entry {
    /// It is whole.
    Whole(Placed),
    /// It opens the loader of that name, which is standard until its kind is known.
    Born(u16),
    /// It is a request's, and gives no line unless the JVM answers that.
    Asked,
    /// It gives no line.
    Void,
}

/// Lines that are held back, each under a number of its own.
#[derive(Drop)]
pub(crate) struct Held {
    /// The number of the first entry.
    pub(crate) first: u64,
    pub(crate) entries: VecDeque<Entry>,
    /// Whether nothing more will be known.
    pub(crate) closed: bool,
}

impl Held {
    ghost use Rattle.ms_base.specs.declared.step.Step.TheVariants.{New};
    ghost use Rattle.ms_trace.specs.declared.trace.Command.TheVariants.{Step as Asks};
    ghost use Rattle.jvm_log.specs.declared.held.Entry.{Entry as EntryOf};
    ghost use Rattle.jvm_log.specs.declared.held.Entry.TheVariants.{Whole, Born, Asked, Void};
    ghost use Rattle.jvm_log.specs.Held.{Goes, asks_at, name_acts_of, none_may_go, settled_first, waiting, with_line, without_line};
    ghost use Rattle.jvm_log.specs.NameActs.{name_acts};
    ghost use Rattle.jvm_log.specs.Giving.{bare};

    /// Makes an empty list.
    pub(crate) fn new(alloc: Global) -> Held
        ensures lines { result.entries.items ≡ [] }
        ensures first { result.first ≡ 0 }
        ensures closed { result.closed ≡ false }
    {
        Held {
            first: 0,
            entries: VecDeque::new(alloc),
            closed: false,
        }
    }

    /// Returns how many lines are held back.
    pub(crate) fn len(&self) -> usize
        ensures { result ≡ length self.now.entries.items }
    {
        self.entries.len()
    }

    /// Adds an entry, and returns its number.
    pub(crate) fn open(&mut self, entry: Entry) -> Result<u64, AllocError>
        ensures added { OnOk result (self.new.entries.items ≡ self.old.entries.items ++ entry ∷ []) }
        ensures number { IfOk result
            (λ number. number ≡ (self.old.first + length self.old.entries.items) % 2 ^ 64) }
        ensures rest { self.new ≡ record self.old { entries = self.new.entries } }
    {
        let number = self.first.wrapping_add(self.entries.len() as u64);
        self.entries.push_back(entry)?;
        Ok(number)
    }

    /// Adds a whole line.
    pub(crate) fn add(&mut self, line: Placed) -> Result<(), AllocError>
        ensures added { OnOk result (self.new.entries.items ≡ self.old.entries.items ++ Whole line ∷ []) }
        ensures rest { self.new ≡ record self.old { entries = self.new.entries } }
    {
        self.entries.push_back(Entry::Whole(line))?;
        Ok(())
    }

    /// Makes a request's line of that number whole. Adds the line where that number is gone, or there
    /// is none.
    pub(crate) fn put(&mut self, number: Option<u64>, line: Placed) -> Result<(), AllocError>
        ensures in_place { OnOk result (self.new.entries.items ≡ with_line number line self.old) }
        ensures names { OnOk result (name_acts line.command ≡ []
            → name_acts_of self.new.entries.items ≡ name_acts_of self.old.entries.items) }
        ensures rest { self.new ≡ record self.old { entries = self.new.entries } }
    {
        match number {
            Some(number) => self.put_at(number, line),
            None => self.add(line),
        }
    }

    /// Makes a request's line of that number whole, or adds the line where that number is gone.
    fn put_at(&mut self, number: u64, line: Placed) -> Result<(), AllocError>
        ensures in_place { OnOk result (self.new.entries.items ≡ with_line (Some number) line self.old) }
        ensures names { OnOk result (name_acts line.command ≡ []
            → name_acts_of self.new.entries.items ≡ name_acts_of self.old.entries.items) }
        ensures rest { self.new ≡ record self.old { entries = self.new.entries } }
    {
        if !self.is_asked(number) {
            return self.add(line);
        }
        if let Some(entry) = self.entries.get_mut((number - self.first) as usize) {
            *entry = Entry::Whole(line);
        }
        Ok(())
    }

    /// Checks whether the entry of that number is a request's without an answer so
    /// far.
    fn is_asked(&self, number: u64) -> bool
        ensures later { IsTrue result → self.now.first ≤ number }
        ensures asked { IsTrue result → slice_get self.now.entries.items (number - self.now.first) ≡ Some Asked }
        ensures exactly { result ≡ asks_at number self.now }
    {
        if number < self.first {
            return false;
        }
        match self.entries.get((number - self.first) as usize) {
            Some(Entry::Asked) => true,
            Some(Entry::Whole(_)) | Some(Entry::Born(_)) | Some(Entry::Void) => false,
            None => false,
        }
    }

    /// Gives the line of that number the loader's kind, where it opens one and is still held back.
    pub(crate) fn tell_kind(&mut self, number: u64, kind: Kind)
        ensures acts { name_acts_of self.new.entries.items ≡ name_acts_of self.old.entries.items }
        ensures lines { map bare self.new.entries.items ≡ map bare self.old.entries.items }
        ensures rest { self.new ≡ record self.old { entries = self.new.entries } }
    {
        if number >= self.first
            && let Some(entry) = self.entries.get_mut((number - self.first) as usize)
            && let Entry::Born(loader) = *entry
        {
            *entry = Entry::Whole(opening(loader, kind));
        }
    }

    /// Takes back a request's line of that number, where it isn't whole yet.
    pub(crate) fn cancel(&mut self, number: u64)
        ensures lines { self.new.entries.items ≡ without_line (Some number) self.old }
        ensures rest { self.new ≡ record self.old { entries = self.new.entries } }
    {
        if !self.is_asked(number) {
            return;
        }
        if let Some(entry) = self.entries.get_mut((number - self.first) as usize) {
            *entry = Entry::Void;
        }
    }

    /// Takes the first line, where it is whole, or nothing more will be known.
    pub(crate) fn next(&mut self) -> Option<Placed>
        ensures first { IfSome result (λ line. (gone : List EntryOf) × Goes gone self.old self.new
            × (waiting gone ≡ line.command ∷ [])) }
        ensures none { IfNone result ((gone : List EntryOf) × Goes gone self.old self.new × (waiting gone ≡ [])) }
        ensures all { self.old.closed ≡ true → IfNone result (waiting self.new.entries.items ≡ []) }
        ensures stops { IfNone result (none_may_go self.new.entries.items ≡ true) }
        ensures closed { self.new.closed ≡ self.old.closed }
    {
        for _passed in 0..self.entries.len() {
            let line = known(self.pass()?);
            if line.is_some() {
                return line;
            }
        }
        None
    }

    /// Takes the first entry, unless more may be known of it.
    fn pass(&mut self) -> Option<Entry>
        ensures goes { IfSome result (λ entry. Goes (entry ∷ []) self.old self.new) }
        ensures stays { IfNone result (self.new ≡ self.old) }
        ensures all { self.old.closed ≡ true → IfNone result (self.old.entries.items ≡ []) }
        ensures stops { IfNone result (none_may_go self.old.entries.items ≡ true) }
    {
        let entry = *self.entries.front()?;
        if !self.closed && is_open(entry) {
            return None;
        }
        let _ = self.entries.pop_front();
        self.first = self.first.wrapping_add(1);
        Some(entry)
    }

    /// Gives up waiting for the first line.
    pub(crate) fn settle_first(&mut self)
        ensures lines { self.new.entries.items ≡ settled_first self.old.entries.items }
        ensures rest { self.new ≡ record self.old { entries = self.new.entries } }
    {
        if let Some(entry) = self.entries.front_mut() {
            *entry = settled(*entry);
        }
    }

    /// Gives up waiting for any line.
    pub(crate) fn close(&mut self)
        ensures { self.new ≡ record self.old { closed = true } }
    {
        self.closed = true;
    }
}

/// Returns the line that opens a loader.
fn opening(loader: u16, kind: Kind) -> Placed
    ensures { result ≡ opening loader kind }
{
    Placed {
        command: Command::Step(Step::New { loader, kind }),
        address: 0,
    }
}

/// Returns the line of an entry, as far as it is known.
fn known(entry: Entry) -> Option<Placed>
    ensures some { IfSome result (λ line. known_of entry ≡ line.command ∷ []) }
    ensures none { IfNone result (known_of entry ≡ []) }
{
    match entry {
        Entry::Whole(line) => Some(line),
        Entry::Born(loader) => Some(opening(loader, Kind::Standard)),
        Entry::Asked | Entry::Void => None,
    }
}

/// Checks whether more may be known of an entry later.
fn is_open(entry: Entry) -> bool
    ensures { result ≡ more_of entry }
{
    match entry {
        Entry::Born(_) | Entry::Asked => true,
        Entry::Whole(_) | Entry::Void => false,
    }
}

/// Returns what stands for an entry of which nothing more will be known.
fn settled(entry: Entry) -> Entry
    ensures { result ≡ settled_as entry }
{
    match entry {
        Entry::Born(loader) => Entry::Whole(opening(loader, Kind::Standard)),
        Entry::Asked => Entry::Void,
        Entry::Whole(_) | Entry::Void => entry,
    }
}
