//! What a run is asked to be, apart from how the command line says it.
ghost use Rattle.std.specs.Prelude.{◌≤◌};

use ms_answers::Verbosity;
use ms_base::Settings;

/// In which form the answers to a trace are written. This project's choice.
#[derive(Clone, Copy)]
pub enum Form {
    /// A line for each reply, and reports.
    Text,
    /// One HTML page.
    Html,
    /// One JSON document.
    Json,
}

/// The options of a run: its settings, whether the reply to an accepted `alloc` has its block's start, how
/// much a report shows, in which form answers are written, how many lines a trace may have, and which
/// file names its loaders. This project's choice.
#[derive(Clone, Copy)]
pub struct Options<'a> {
    /// The workers, limits and policy.
    pub settings: Settings,
    /// Whether the reply to an accepted `alloc` has its block's start, a word number.
    pub addresses: bool,
    /// How much a report tells.
    pub verbosity: Verbosity,
    /// The form of the answers.
    pub form: Form,
    /// The most lines that a trace may have, 1 to 10000000.
    pub max_lines: u32,
    /// The file that says what the loaders are, for a page, a document or full reports.
    pub names: Option<&'a str>,
    pub ghost lines_some: { 1 ≤ max_lines },
    pub ghost lines_few: { max_lines ≤ 10000000 },
}

impl Options<'_> {
    /// What `metarun` runs with where no option is given: the default settings, no addresses, basic
    /// reports, text, traces of at most 100000 lines, and no names.
    pub const DEFAULT: Options<'static> = Options {
        settings: Settings::DEFAULT,
        addresses: false,
        verbosity: Verbosity::Basic,
        form: Form::Text,
        max_lines: 100_000,
        names: None,
    };
}
