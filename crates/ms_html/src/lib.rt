//! The page of a replay: one HTML file that a browser shows by itself.
//!
//!     settings, course, totals of the end ── Picture ──> values ── page ──> a text
//!
//!     Is there a problem?   six tiles
//!     When?                 charts over the columns of the course, and the usage
//!     Who?                  kinds and loaders
//!     Where?                a map of each node, and chunks by size
//!     With what, next?      settings, advice, the command
//!
//! `ms_page` has each value, and is where they are proved; the template here decides nothing but
//! where a number stands, so it has no definition of its own. Kept true: the page has no script and
//! asks nothing of a network; a browser that knows no style still reads every number. Of the input
//! only names of loaders stand in it, escaped by `ms_page`. Apart because no value of a page needs
//! its text. Stands on `ms_course`, `ms_loaders`, `ms_page`, `ms_pool` and `ms_report`. Memory is
//! that of the text, of the picture's lists and of one name; nothing waits. The page is this
//! project's choice.
#![tactic(auto)]

mod charts;
mod frame;
mod lanes;
mod levels;
mod loaders;
mod maps;
mod numbers;
mod plots;
mod replay;
mod series;
mod settings;
mod style;
mod tiles;
mod usage;
mod writer;

pub use frame::page;
