//! The lines of a trace, written in large pieces.
ghost use Rattle.std.specs.Prelude.{◌≡◌, ◌++◌, ◌∷◌, [], ℕ, List, Option, OnOk};
ghost use Rattle.std.specs.Io.KnownBytes.{Appends};
ghost use Rattle.ms_trace.specs.declared.trace.Command.{Command as CommandOf};
ghost use Rattle.ms_trace.specs.Spelling.{IsValid};
ghost use Rattle.log_session.specs.Output.{GoesOut, ReadsBack, line_of};
ghost use Rattle.log_session.specs.Trace.{WritesLines, commands_of};

use jvm_log::{Placed, Stop};
use ms_trace::{Command, print_command};
use std::alloc::{AllocError, Global};
use std::io::Write;

/// The bytes that are kept until they are written.
const PIECE: usize = 65_536;

/// A text that is written in pieces.
#[derive(Drop)]
pub struct Output {
    /// What isn't written yet.
    pub(crate) text: Vec<u8>,
}

impl Output {
    /// Makes an empty text.
    pub fn new(alloc: Global) -> Output
        ensures { result.text.items ≡ [] }
    {
        Output {
            text: Vec::new(alloc),
        }
    }

    /// Adds the line of a command. What is written is what was kept longest.
    pub fn add<W: Write>(&mut self, command: Command, output: &mut W) -> Result<(), Stop>
        ensures in_order { OnOk result (GoesOut (W.contents output.old) self.old.text.items (line_of command)
            (W.contents output.new) self.new.text.items) }
        ensures lines { OnOk result ((start : Option (List ℕ)) (commands : List CommandOf)
            → WritesLines start (W.contents output.old) self.old.text.items commands
            → WritesLines start (W.contents output.new) self.new.text.items (commands ++ command ∷ [])) }
        ensures reads { ReadsBack command }
    {
        self.keep(command)?;
        if self.text.len() >= PIECE {
            return self.write(output);
        }
        Ok(())
    }

    /// Adds those of so many.
    pub fn add_all<W: Write>(&mut self, lines: &[Placed], output: &mut W) -> Result<(), Stop>
        ensures { OnOk result ((start : Option (List ℕ)) (commands : List CommandOf)
            → WritesLines start (W.contents output.old) self.old.text.items commands
            → WritesLines start (W.contents output.new) self.new.text.items (commands ++ commands_of lines.now)) }
    {
        for at in 0..lines.len() {
            self.add(lines[at].command, output)?;
        }
        Ok(())
    }

    /// Keeps the line of a command.
    fn keep(&mut self, command: Command) -> Result<(), AllocError>
        ensures text { OnOk result (self.new.text.items ≡ self.old.text.items ++ line_of command) }
        ensures reads { ReadsBack command }
        ensures valid { IsValid command }
    {
        print_command(&mut self.text, command)?;
        self.text.extend_from_slice(b"\n".as_slice())
    }

    /// Writes what was kept.
    pub fn write<W: Write>(&mut self, output: &mut W) -> Result<(), Stop>
        ensures written { OnOk result (Appends (W.contents output.old) (W.contents output.new) self.old.text.items) }
        ensures emptied { self.new.text.items ≡ [] }
    {
        let written = output.write_all(self.text.as_slice());
        self.text.clear();
        match written {
            Ok(()) => Ok(()),
            Err(_) => Err(Stop::Output),
        }
    }
}
