//! How much a report tells.

/// How much a report tells. This project's choice.
#[derive(Clone, Copy, Debug, PartialEq, Eq)]
pub enum Verbosity {
    /// The fixed text.
    Basic,
    /// The fixed text, and then the parts Settings, Usage, Kinds, Loaders, Refused, Peaks and Map.
    Full,
}
