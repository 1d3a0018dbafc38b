//! What the page is written by: a text that grows, and the answer of its growths.
//!
//!     page.text("limit ").size(words).text(", ").count(nodes, "node", "nodes");
//!
//! Kept true: from the first growth that is refused on nothing is appended, and the answer of the
//! end tells it. So a template is a chain of parts, and the end alone asks. Memory is the text's.
use ms_page::push_name;
use std::alloc::{AllocError, Global};

/// A text that is being written.
#[derive(Drop)]
pub(crate) struct Writer {
    text: String,
    /// An error from the first growth on that was refused.
    answer: Result<(), AllocError>,
}

impl Writer {
    /// Makes a writer in the room of a text that is done with, which is emptied.
    pub(crate) fn new(room: String) -> Writer {
        let mut text = room;
        text.clear();
        Writer {
            text,
            answer: Ok(()),
        }
    }

    /// Returns the text; an error means that a growth was refused.
    pub(crate) fn finish(self) -> Result<String, AllocError> {
        self.answer?;
        Ok(self.text)
    }

    /// Appends a text as it is.
    pub(crate) fn text(&mut self, its: &str) -> &mut Self {
        if self.answer.is_ok() {
            self.answer = self.text.push_str(its);
        }
        self
    }

    /// Appends the digits of a number.
    pub(crate) fn digits(&mut self, number: u64) -> &mut Self {
        if self.answer.is_ok() {
            self.answer = write!(self.text, "{number}");
        }
        self
    }

    /// Appends the digits of a number, with zeros before them where they are fewer than three.
    pub(crate) fn three_digits(&mut self, number: u64) -> &mut Self {
        if self.answer.is_ok() {
            self.answer = write!(self.text, "{number:03}");
        }
        self
    }

    /// Appends the digits of a number, after a minus where it is below 0.
    pub(crate) fn signed(&mut self, number: i64) -> &mut Self {
        if self.answer.is_ok() {
            self.answer = write!(self.text, "{number}");
        }
        self
    }

    /// Appends a loader's name, escaped.
    pub(crate) fn name(&mut self, alloc: Global, name: &str) -> &mut Self {
        if self.answer.is_ok() {
            self.answer = push_name(alloc, &mut self.text, name);
        }
        self
    }
}
