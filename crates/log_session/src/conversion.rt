//! A log on its way to a trace: the machine that hears it, and where its lines go.
//!
//!     heard    machine (held back)  ->  kept (to be joined)  ->  text (a piece)  ->  output
//!
//! Kept true: what went out and the text are lines of commands, after which the others come.
ghost use Rattle.std.specs.Prelude.{◌≡◌, Option, List, [], true, ℕ, IfOk, OnOk};
ghost use Rattle.jvm_log.specs.declared.event.Said.{Said as SaidOf};
ghost use Rattle.jvm_log.specs.Held.{none_may_go};
ghost use Rattle.jvm_log.specs.Known.{known_in, waits};
ghost use Rattle.jvm_log.specs.Waits.{is_closed};
ghost use Rattle.log_session.specs.Trace.{WritesTrace, last_report};
ghost use Rattle.log_session.specs.UnderWay.{Begins, GoesOn, HandsOn, HasEnded, IsUnderWay, held_in};

use crate::failure::Failure;
use crate::joining::join;
use crate::naming::Naming;
use crate::options::Options;
use crate::output::Output;
use crate::warnings::Warnings;
use jvm_log::{Event, Listener, Machine, Placed, Said, Stop, Trouble};
use ms_base::Step;
use ms_trace::Command;
use std::alloc::{AllocError, Global};
use std::io::Write;

/// A log on its way to a trace.
#[derive(Drop)]
pub struct Conversion<'a, E: Write> {
    alloc: Global,
    options: Options<'a>,
    machine: Machine,
    warnings: Warnings,
    naming: Naming,
    /// The lines of the trace so far, where blocks are to be joined.
    kept: Vec<Placed>,
    text: Output,
    errors: &'a mut E,
}

impl<'a, E: Write> Listener for Conversion<'a, E> {
    ghost use Rattle.log_session.specs.UnderWay.{Hears};

    ghost hears = { λ old _ _ said new. Hears old said new };

    /// A line of another release ends the log: what the machine makes of the others is then no trace
    /// of that JVM.
    fn hear<W: Write>(
        &mut self,
        output: &mut W,
        number: u64,
        line: &[u8],
        said: Said,
    ) -> Result<(), Stop> {
        if said.event == Event::OtherRelease {
            return Err(Stop::OtherRelease(number));
        }
        let trouble = self.machine.take_in(said)?;
        self.warn(trouble, number)?;
        self.learn(line, said.event)?;
        self.hand_on(output)
    }
}

impl<'a, E: Write> Conversion<'a, E> {
    /// Makes one that has heard nothing.
    pub fn new(
        alloc: Global,
        options: Options<'a>,
        errors: &'a mut E,
    ) -> Result<Conversion<'a, E>, AllocError>
        ensures { IfOk result (Begins options.entry) }
    {
        Ok(Conversion {
            alloc,
            options,
            machine: Machine::new(alloc, options.reports.are_after_collections())?,
            warnings: Warnings::new(alloc),
            naming: Naming::new(alloc),
            kept: Vec::new(alloc),
            text: Output::new(alloc),
            errors,
        })
    }

    /// Warns of what is wrong at a line.
    fn warn(&mut self, trouble: Option<Trouble>, line: u64) -> Result<(), AllocError>
        ensures { self.new ≡ record self.old { warnings = self.new.warnings; errors = self.new.errors } }
    {
        match trouble {
            Some(trouble) => self.warnings.tell(trouble, line, self.errors),
            None => Ok(()),
        }
    }

    /// Keeps what a line says of a loader, where names are asked for.
    fn learn(&mut self, line: &[u8], event: Event) -> Result<(), AllocError>
        ensures { self.new ≡ record self.old { naming = self.new.naming } }
    {
        if self.options.names.is_none() {
            return Ok(());
        }
        match event {
            Event::ClassAdded { address, .. } => match self.machine.birth_at(address) {
                Some(birth) => self.naming.describe(birth, line),
                None => Ok(()),
            },
            Event::LoaderNamed { .. } => self.naming.name(line),
            _ => Ok(()),
        }
    }

    /// Hands on the lines that are known so far.
    fn hand_on<W: Write>(&mut self, output: &mut W) -> Result<(), Stop>
        ensures comes { OnOk result (GoesOn [] (self.old, W.contents output.old) (self.new, W.contents output.new)) }
        ensures all { OnOk result (is_closed self.old.machine ≡ true → waits (known_in self.new.machine) ≡ []) }
        ensures closed { OnOk result (is_closed self.new.machine ≡ is_closed self.old.machine) }
        ensures stops { OnOk result (none_may_go (held_in self.new).entries.items ≡ true) }
    {
        for _given in 0..self.machine.held_back() {
            let Some(line) = self.machine.next_line() else {
                break;
            };
            self.hand_on_line(line, output)?;
        }
        Ok(())
    }

    /// Hands on the line that the machine gave last.
    fn hand_on_line<W: Write>(&mut self, line: Placed, output: &mut W) -> Result<(), Stop>
        ensures { OnOk result (HandsOn line.command (self.old, W.contents output.old)
            (self.new, W.contents output.new)) }
    {
        self.number(line.command)?;
        if self.options.merge.is_none() {
            return self.text.add(line.command, output);
        }
        match self.kept.push(line) {
            Ok(()) => Ok(()),
            Err(_) => Err(Stop::OutOfMemory),
        }
    }

    /// Keeps the number of the loader that a command opens, where names are asked for.
    fn number(&mut self, command: Command) -> Result<(), AllocError>
        ensures { self.new ≡ record self.old { naming = self.new.naming } }
    {
        match command {
            Command::Step(Step::New { loader, .. }) if self.options.names.is_some() => {
                self.naming.open(loader)
            }
            _ => Ok(()),
        }
    }

    /// Hands on the lines that are kept, joined.
    fn hand_on_kept<W: Write>(&mut self, output: &mut W) -> Result<(), Stop>
        ensures ended { OnOk result ((start : Option (List ℕ)) (said : List SaidOf)
            → IsUnderWay start said (self.old, W.contents output.old) → waits (known_in self.old.machine) ≡ []
            → HasEnded self.old.options said [] start (W.contents output.new) self.new.text.text.items) }
        ensures options { self.new.options ≡ self.old.options }
    {
        let Some(most) = self.options.merge else {
            return Ok(());
        };
        join(self.alloc, &mut self.kept, most)?;
        self.text.add_all(&self.kept, output)
    }

    /// Asks for a report at the end, unless none is wanted.
    fn report<W: Write>(&mut self, output: &mut W) -> Result<(), Stop>
        ensures { OnOk result ((start : Option (List ℕ)) (said : List SaidOf)
            → HasEnded self.old.options said [] start (W.contents output.old) self.old.text.text.items
            → HasEnded self.old.options said (last_report self.old.options.reports) start (W.contents output.new)
            self.new.text.text.items) }
    {
        if !self.options.reports.are_at_end() {
            return Ok(());
        }
        self.text.add(Command::Report, output)
    }

    /// Ends a log of so many lines: writes what is left, and returns the text of the file of names.
    pub fn finish<W: Write>(&mut self, lines: u64, output: &mut W) -> Result<Vec<u8>, Failure>
        ensures { OnOk result ((start : Option (List ℕ)) (said : List SaidOf)
            → IsUnderWay start said (self.old, W.contents output.old)
            → WritesTrace self.old.options said start (W.contents output.new)) }
    {
        let trouble = self.machine.finish();
        self.warn(trouble, lines)?;
        self.hand_on(output)?;
        self.warnings.sum_up(self.errors);
        if self.machine.births() == 0 {
            return Err(Failure::NoLoader);
        }
        self.hand_on_kept(output)?;
        self.report(output)?;
        self.text.write(output)?;
        Ok(self.naming.text()?)
    }
}
