//! Why a session ends without an answer to each line.
ghost use Rattle.std.specs.Prelude.{◌≡◌};
ghost use Rattle.ms_session.specs.Failure.{status_of};

use crate::devices::ReadFault;
use ms_run::RunFault;
use ms_trace::{ParseFault, TraceFault};
use std::alloc::AllocError;
use std::io::Write;
use thiserror::Error;

/// Why a session ends without an answer to each line. Its text is the line on standard error.
#[derive(Debug, Drop, Error)]
pub enum Failure {
    /// The trace has a fault.
    #[error("metarun: {0}")]
    Fault(TraceFault),
    /// A growth was refused.
    #[error("metarun: out of memory")]
    OutOfMemory,
    /// A thread could not be started.
    #[error("metarun: no thread")]
    NoThread,
    /// At a phase's end more accounts were open than the loaders have. It never comes.
    #[error("metarun: unsettled: open {opened}, gathered {gathered}")]
    Unsettled { opened: u64, gathered: u64 },
    /// The input's device answered an error.
    #[error("metarun: input failed")]
    Input,
    /// The file of names can't be read, or isn't UTF-8.
    #[error("metarun: the file of names can't be read")]
    NamesFile,
    /// The file of names doesn't fit the trace from this line of it on.
    #[error("metarun: names line {line}: not the next loader of the trace")]
    Misnamed { line: u32 },
    /// The output's device answered an error, or took nothing.
    #[error("metarun: output failed")]
    Output,
}

impl Failure {
    /// Returns the exit status.
    pub fn status(&self) -> u8
        ensures { result ≡ status_of self.now }
    {
        match self {
            Failure::Fault(_) => 1,
            Failure::OutOfMemory | Failure::NoThread => 3,
            Failure::Unsettled { .. } => 4,
            Failure::Input | Failure::NamesFile | Failure::Misnamed { .. } | Failure::Output => 5,
        }
    }

    /// Writes its line on `errors`, and returns the exit status. Whether the line comes out changes
    /// no status.
    pub fn tell<E: Write>(&self, errors: &mut E) -> u8
        ensures { result ≡ status_of self.now }
    {
        let _ = writeln!(errors, "{self}");
        self.status()
    }
}

impl From<AllocError> for Failure {
    ghost use Rattle.std.specs.Prelude.{◌≡◌};
    ghost use Rattle.ms_session.specs.declared.failure.Failure.TheVariants.{OutOfMemory};

    ghost from_gives = { λ _ failure. failure ≡ OutOfMemory };

    fn from(_error: AllocError) -> Failure {
        Failure::OutOfMemory
    }
}

impl From<RunFault> for Failure {
    ghost use Rattle.std.specs.Prelude.{◌≡◌};
    ghost use Rattle.ms_session.specs.Failure.{failure_of_running};

    ghost from_gives = { λ fault failure. failure ≡ failure_of_running fault };

    fn from(fault: RunFault) -> Failure {
        match fault {
            RunFault::OutOfMemory => Failure::OutOfMemory,
            RunFault::NoThread => Failure::NoThread,
            RunFault::Unsettled { opened, gathered } => Failure::Unsettled { opened, gathered },
        }
    }
}

impl From<ReadFault> for Failure {
    ghost use Rattle.std.specs.Prelude.{◌≡◌};
    ghost use Rattle.ms_session.specs.Failure.{failure_of_reading};

    ghost from_gives = { λ fault failure. failure ≡ failure_of_reading fault };

    fn from(fault: ReadFault) -> Failure {
        match fault {
            ReadFault::Device => Failure::Input,
            ReadFault::OutOfMemory => Failure::OutOfMemory,
        }
    }
}

impl From<ParseFault> for Failure {
    ghost use Rattle.std.specs.Prelude.{◌≡◌};
    ghost use Rattle.ms_session.specs.Failure.{failure_of_parsing};

    ghost from_gives = { λ fault failure. failure ≡ failure_of_parsing fault };

    fn from(fault: ParseFault) -> Failure {
        match fault {
            ParseFault::Trace(fault) => Failure::Fault(fault),
            ParseFault::OutOfMemory => Failure::OutOfMemory,
        }
    }
}
