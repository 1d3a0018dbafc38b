//! Numbers as the page writes them.
//!
//!     words    100        8192       1310720
//!     size     0.7 KB     64.0 KB    10.0 MB
//!     number   100        8,192      1,310,720
//!
//! A size is in KB of 1024 bytes below a MB, and else in MB, cut off after one digit, as in the
//! full report. Each is a part that a writer appends.
use crate::writer::Writer;
use ms_page::scaled;

/// The words of a KB.
const KB: u64 = 128;

/// The words of a MB.
const MB: u64 = 131_072;

/// The units of a track.
const TRACK: u64 = 240;

impl Writer {
    /// Appends a number with a comma before each group of three digits, up to four groups.
    pub(crate) fn number(&mut self, number: u64) -> &mut Self {
        let mut later = false;
        for unit in [1_000_000_000_u64, 1_000_000, 1_000] {
            let group = number / unit;
            if later {
                self.three_digits(group % 1000).text(",");
            } else if group > 0 {
                self.digits(group).text(",");
                later = true;
            }
        }
        if later {
            self.three_digits(number % 1000)
        } else {
            self.digits(number)
        }
    }

    /// Appends tenths, as a number with one digit after its point.
    fn tenths(&mut self, tenths: u64) -> &mut Self {
        self.number(tenths / 10).text(".").digits(tenths % 10)
    }

    /// Appends a number of words as a size for people.
    pub(crate) fn size(&mut self, words: u64) -> &mut Self {
        let tenfold = words.saturating_mul(10);
        if words < MB {
            self.tenths(tenfold / KB).text(" KB")
        } else {
            self.tenths(tenfold / MB).text(" MB")
        }
    }

    /// Appends a share in tenths of a per cent, or a dash where there is none.
    pub(crate) fn share(&mut self, tenths: Option<u128>) -> &mut Self {
        match tenths {
            Some(tenths) => self.tenths(narrow(tenths)).text(" %"),
            None => self.text("-"),
        }
    }

    /// Appends the share that a part is of a whole, in the same unit; a dash for one of nothing.
    pub(crate) fn share_of(&mut self, part: u64, whole: u64) -> &mut Self {
        self.share((u128::from(part) * 1000).checked_div(u128::from(whole)))
    }

    /// Appends a size, and the words that take its place where the reader asks for words.
    pub(crate) fn both(&mut self, words: u64) -> &mut Self {
        self.text("<b>")
            .size(words)
            .text("</b><i>")
            .number(words)
            .text("</i>")
    }

    /// Appends a table's cell with a number of words, or a faint 0.
    pub(crate) fn words_cell(&mut self, words: u64) -> &mut Self {
        match words {
            0 => self.text(r#"<td class="z">0</td>"#),
            _ => self.text("<td>").both(words).text("</td>"),
        }
    }

    /// Appends a table's cell with a number, or a faint 0.
    pub(crate) fn number_cell(&mut self, number: u64) -> &mut Self {
        match number {
            0 => self.text(r#"<td class="z">0</td>"#),
            _ => self.text("<td>").number(number).text("</td>"),
        }
    }

    /// Appends a number with the word for one or for more.
    pub(crate) fn count(&mut self, number: u64, one: &str, more: &str) -> &mut Self {
        let word = if number == 1 { one } else { more };
        self.number(number).text(" ").text(word)
    }

    /// Appends the end of a tile's value, and a track with a part of a whole and a mark for a peak
    /// where there is one; all in the same unit.
    pub(crate) fn track(&mut self, part: u64, whole: u64, peak: u64) -> &mut Self {
        self.text(
            "</small></p>\n<svg class=\"meter\" viewBox=\"0 0 240 6\" preserveAspectRatio=\"none\" aria-hidden=\"true\"><path class=\"now\" d=\"M0 0H",
        ).digits(scaled(part, whole, TRACK))
            .text(r#"V6H0Z"/>"#);
        if peak > 0 {
            self.text(r#"<path class="peak" d="M"#)
                .digits(scaled(peak, whole, TRACK))
                .text(r#" 0V6"/>"#);
        }
        self.text("</svg>\n")
    }
}

/// Returns a number in 64 bits, or the greatest that there is.
pub(crate) fn narrow(number: u128) -> u64 {
    u64::try_from(number).unwrap_or(u64::MAX)
}
