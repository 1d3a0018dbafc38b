//! Why no trace comes out.
ghost use Rattle.std.specs.Prelude.{◌≡◌};
ghost use Rattle.log_session.specs.Failure.{status_of};

use jvm_log::Stop;
use std::alloc::AllocError;
use std::io::Write;
use thiserror::Error;

/// Why no trace comes out, or only a beginning of it. Its text is the line on standard error.
#[derive(Debug, Drop, Error)]
pub enum Failure {
    /// The line of that number is of another release than JDK 17.
    #[error("metalog: line {0}: the log is of another release than JDK 17")]
    OtherRelease(u64),
    /// The log has no line that a trace can be made of.
    #[error("metalog: no line tells of a loader: the log is to be one of -Xlog:metaspace*=trace with uptime,tid,level,tags")]
    NoLoader,
    /// A growth was refused.
    #[error("metalog: out of memory")]
    OutOfMemory,
    /// The input's device failed.
    #[error("metalog: input failed")]
    Input,
    /// The output's device failed, or took nothing.
    #[error("metalog: output failed")]
    Output,
    /// The file of names could not be written.
    #[error("metalog: the file of names could not be written")]
    Names,
}

impl Failure {
    /// Returns the exit status.
    pub fn status(&self) -> u8
        ensures { result ≡ status_of self.now }
    {
        match self {
            Failure::OtherRelease(_) | Failure::NoLoader => 1,
            Failure::OutOfMemory => 3,
            Failure::Input | Failure::Output | Failure::Names => 5,
        }
    }

    /// Writes its line on `errors`, and returns the exit status. Whether the line comes out changes
    /// no status.
    pub fn tell<E: Write>(&self, errors: &mut E) -> u8
        ensures { result ≡ status_of self.now }
    {
        let _ = writeln!(errors, "{self}");
        self.status()
    }
}

impl From<AllocError> for Failure {
    fn from(_error: AllocError) -> Failure {
        Failure::OutOfMemory
    }
}

impl From<Stop> for Failure {
    fn from(stop: Stop) -> Failure {
        match stop {
            Stop::Input => Failure::Input,
            Stop::Output => Failure::Output,
            Stop::OtherRelease(line) => Failure::OtherRelease(line),
            Stop::OutOfMemory => Failure::OutOfMemory,
        }
    }
}
