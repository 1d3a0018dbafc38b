//! A command of the trace, with what joining blocks asks about it.
use ms_trace::Command;

/// A command, and where the block lies that it allocates: its address in the JVM, or 0.
#[derive(Clone, Copy, Debug, PartialEq, Eq)]
pub struct Placed {
    pub command: Command,
    pub address: u64,
}

impl From<Command> for Placed {
    ghost use Rattle.std.specs.Prelude.{◌≡◌};

    ghost from_gives = { λ command placed. placed.command ≡ command };

    fn from(command: Command) -> Placed {
        Placed {
            command,
            address: 0,
        }
    }
}
