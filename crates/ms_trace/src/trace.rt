//! A trace: commands under the numbers of their lines.
ghost use Rattle.std.specs.Prelude.{◌≡◌, IsTrue};
ghost use Rattle.ms_trace.specs.Grammar.{any_line, most_lines};
ghost use Rattle.ms_trace.specs.Spelling.{rises_above};

use ms_base::Step;
use std::marker::Model;

/// The greatest number of a line where nothing else is asked.
pub(crate) const MOST_LINES: u32 = 100_000;

/// What a line asks: a step of the machine, a point where all workers meet, or a report. This
/// project's choice.
#[derive(Clone, Copy, Debug, PartialEq, Eq)]
pub enum Command {
    Step(Step),
    Sync,
    Report,
}

/// What a line asks, apart from the step.
#[derive(Clone, Copy, Debug, PartialEq, Eq)]
enum Asks {
    Step,
    Sync,
    Report,
}

/// A command and the number of its line, which counts from 1, blank lines and comments included. Takes
/// 32 bytes.
#[derive(Clone, Copy, Debug, PartialEq, Eq)]
pub struct Line {
    number: u32,
    asks: Asks,
    /// The step that is asked, and a purge where none is.
    step: Step,
}

impl Model for Line {
    ghost use Rattle.ms_trace.specs.Line.{Line};

    ghost Value = { Line };

    ghost use Rattle.ms_trace.specs.Packing.{HasStep, line_in, packed_of};

    ghost view = { line_in };

    ghost invariant = { λ line. HasStep line.asks line.step };

    ghost inverse = { packed_of };
}

const _: () = prove!(size_of::<Line>() == 32);

impl Line {
    /// Makes the line of that number. Takes no memory.
    pub fn new(number: u32, command: Command) -> Line
        ensures number { result.number ≡ number }
        ensures command { result.command ≡ command }
    {
        let (asks, step) = match command {
            Command::Step(step) => (Asks::Step, step),
            Command::Sync => (Asks::Sync, Step::Purge),
            Command::Report => (Asks::Report, Step::Purge),
        };
        Line { number, asks, step }
    }

    /// Returns the line's number.
    pub fn number(&self) -> u32
        ensures { result ≡ self.now.number }
    {
        self.number
    }

    /// Returns what the line asks.
    pub fn command(&self) -> Command
        ensures { result ≡ self.now.command }
    {
        match self.asks {
            Asks::Step => Command::Step(self.step),
            Asks::Sync => Command::Sync,
            Asks::Report => Command::Report,
        }
    }
}

/// A list of lines in memory, which contracts see as that list.
#[derive(Drop)]
pub struct Lines {
    items: Vec<Line>,
}

impl Model for Lines {
    ghost use Rattle.std.specs.Prelude.{List};
    ghost use Rattle.ms_trace.specs.declared.trace.Line.{Line};

    ghost Value = { List Line };

    ghost view = { λ lines. lines.items.items };
}

impl Lines {
    /// Makes a list of the lines of a vector. Takes no memory.
    pub fn from_vec(items: Vec<Line>) -> Lines
        ensures { result ≡ items.items }
    {
        Lines { items }
    }

    /// Gives the lines back as a vector. Takes no memory.
    pub fn into_vec(self) -> Vec<Line>
        ensures { result.items ≡ self }
    {
        let Lines { items } = self;
        items
    }

    /// Lends the lines as a slice.
    pub fn as_slice(&self) -> &[Line]
        ensures { result.now ≡ self.now }
    {
        self.items.as_slice()
    }
}

/// The command lines of a text, in the order of their numbers where a text was read.
#[derive(Drop)]
pub struct Trace {
    /// A line for each command; blank lines and comments leave gaps in the numbers.
    pub lines: Lines,
}

impl Trace {
    /// Returns whether the line numbers rise from 1 to 100000.
    pub fn rises(&self) -> bool
        ensures rises { result ≡ rises_above most_lines 0 self.now.lines }
        ensures printable { IsTrue result → IsTrue (rises_above any_line 0 self.now.lines) }
    {
        self.rises_within(MOST_LINES)
    }

    /// Returns whether the line numbers rise from 1 to `most`. A trace whose numbers rise may be printed.
    pub fn rises_within(&self, most: u32) -> bool
        ensures rises { result ≡ rises_above most 0 self.now.lines }
        ensures printable { IsTrue result → IsTrue (rises_above any_line 0 self.now.lines) }
    {
        let mut last: u32 = 0;
        for line in self.lines.as_slice() {
            let number = line.number();
            if number <= last || number > most {
                return false;
            }
            last = number;
        }
        true
    }
}
