//! The document of a run, put together as answers come.
ghost use Rattle.std.specs.Prelude.{◌≡◌, ◌++◌, ◌∷◌, [], true, List, IfOk, OnOk, codes, string_bytes};
ghost use Rattle.serde_json.specs.Written.{compact_text};
ghost use Rattle.ms_answers.specs.declared.replies.Answer.{Answer as AnswerOf};
ghost use Rattle.ms_json.specs.Document.{DocumentView, Tells, document, last_rows, middle_rows};
ghost use Rattle.ms_json.specs.Document.{no_answer, reported, told_by};
ghost use Rattle.ms_json.specs.Rows.{elements_run, is_later, rows_then};

use crate::naming::{Named, push_names};
use crate::run::{Run, push_closed, push_told};
use crate::series::push_course;
use crate::state::{push_settings, push_state};
use crate::writing::{push_comma, push_label, push_number, push_word};
use ms_answers::{Answer, AnswerSink, Totals};
use ms_base::Settings;
use ms_course::Column;
use ms_report::{Refusals, count, tally};
use std::alloc::{AllocError, Global};
use std::marker::Model;

/// The document of a run while its answers come, which are put in their order. This project's
/// choice.
#[derive(Drop)]
pub struct Document {
    // Its beginning: the elements of `answers` so far.
    text: String,
    // Whether there is one.
    later: bool,
    // The lines so far that are told as `ok`, and may be followed by another.
    pending: Option<Run>,
    // The states of `reports` so far.
    reports: String,
    // Whether there is one.
    more: bool,
    // The refusals so far.
    refusals: Refusals,
    // Whether a reply tells where a block starts.
    addresses: bool,
}

impl Model for Document {
    ghost use Rattle.std.specs.Prelude.{◌+◌, length, string_bytes};
    ghost use Rattle.ms_report.specs.Refused.{AreFew};
    ghost use Rattle.ms_json.specs.Document.{DocumentView};

    ghost Value = { DocumentView };

    ghost view = { λ d. record {
      text = string_bytes d.text;
      later = d.later;
      pending = d.pending;
      reports = string_bytes d.reports;
      more = d.more;
      refusals = d.refusals;
      addresses = d.addresses;
    } };

    ghost invariant = { λ d. AreFew (length (string_bytes d.text) + 1) d.refusals };
}

impl Document {
    /// Makes the document of no answer, in the room of a text that is done with, which is emptied.
    /// Where a block starts, a word number, stands in it only if addresses are asked for. Takes memory
    /// for a few bytes; an error means that it was refused.
    pub fn new(alloc: Global, mut room: String, addresses: bool) -> Result<Document, AllocError>
        ensures { IfOk result (λ document. document ≡ no_answer addresses) }
    {
        room.clear();
        room.push_str("{\"answers\":[")?;
        Ok(Document {
            text: room,
            later: false,
            pending: None,
            reports: String::new(alloc),
            more: false,
            refusals: tally(&[]),
            addresses,
        })
    }

    /// Adds one answer more, and the state that its report shows. An error means that a growth was
    /// refused; then the document is that of no answer. Takes memory.
    pub fn push(&mut self, answer: &Answer) -> Result<(), AllocError>
        ensures { OnOk result ((first : DocumentView) (before : List AnswerOf) → Tells first self.old before
            → Tells first self.new (before ++ answer.now ∷ [])) }
    {
        let told = push_told(
            &mut self.text,
            &mut self.later,
            &mut self.pending,
            self.addresses,
            answer,
        );
        let pushed = match told {
            Ok(()) => push_reported(&mut self.reports, &mut self.more, &self.refusals, answer),
            Err(error) => Err(error),
        };
        match pushed {
            Ok(()) => {
                count(&mut self.refusals, answer.reply);
                Ok(())
            }
            Err(error) => {
                self.text.clear();
                self.refusals = tally(&[]);
                Err(error)
            }
        }
    }
}

impl Document {
    /// Returns the whole document: beside the answers that were put, the settings of the run, how many
    /// command lines its trace has, the columns of its course, the totals of its end, and what a file
    /// says of its loaders, if any. Its text is what serde_json's `to_string` writes of it, and a
    /// newline. Takes memory for the text; an error means that a growth was refused. This project's
    /// choice.
    pub fn finish(
        self,
        alloc: Global,
        settings: &Settings,
        lines: u32,
        columns: &[Column],
        end: &Totals,
        names: &[Named],
    ) -> Result<String, AllocError>
        ensures { IfOk result (λ text. (answers : List AnswerOf)
            → Tells (no_answer self.addresses) self answers → string_bytes text
            ≡ compact_text (document self.addresses settings.now lines answers columns.now end.now names.now)
            ++ codes "\n") }
    {
        let mut text = self.text;
        let mut later = self.later;
        push_closed(&mut text, &mut later, self.pending)?;
        push_middle(alloc, &mut text, lines, columns, &self.refusals, end, names)?;
        push_rest(&mut text, &self.reports, settings)?;
        Ok(text)
    }
}

/// Appends the end of `answers`, and the members between them and `reports`.
fn push_middle(
    alloc: Global,
    text: &mut String,
    lines: u32,
    columns: &[Column],
    refusals: &Refusals,
    end: &Totals,
    names: &[Named],
) -> Result<(), AllocError>
    ensures { OnOk result (string_bytes text.new ≡ string_bytes text.old
        ++ (93 ∷ rows_then (middle_rows lines columns.now refusals.now end.now names.now) [])) }
{
    text.push_str("]")?;
    push_label(text, true, "command lines")?;
    push_number(text, u128::from(lines))?;
    push_label(text, true, "course")?;
    push_course(text, columns)?;
    push_label(text, true, "end")?;
    push_state(text, None, refusals, end)?;
    push_label(text, true, "form")?;
    push_word(text, "metarun 1")?;
    push_names(alloc, text, names)
}

/// Appends the states of reports, the settings, the bytes of a word, and the document's end.
fn push_rest(text: &mut String, reports: &str, settings: &Settings) -> Result<(), AllocError>
    ensures { OnOk result (string_bytes text.new ≡ string_bytes text.old
        ++ (codes ",\"reports\":["
        ++ (reports.now ++ (93 ∷ rows_then (last_rows settings.now) (codes "}\n"))))) }
{
    text.push_str(",\"reports\":[")?;
    text.push_str(reports)?;
    text.push_str("]")?;
    push_label(text, true, "settings")?;
    push_settings(text, settings)?;
    push_label(text, true, "word bytes")?;
    push_number(text, 8)?;
    text.push_str("}\n")
}

/// Appends the state that an answer's report shows, where it has one.
fn push_reported(
    reports: &mut String,
    more: &mut bool,
    refusals: &Refusals,
    answer: &Answer,
) -> Result<(), AllocError>
    ensures reports { OnOk result (string_bytes reports.new
        ≡ string_bytes reports.old
        ++ elements_run more.old (reported refusals.now answer.now.line answer.now.report)) }
    ensures more { OnOk result (more.new
        ≡ is_later more.old (reported refusals.now answer.now.line answer.now.report)) }
{
    let Some(totals) = &answer.report else {
        return Ok(());
    };
    push_comma(reports, *more)?;
    *more = true;
    push_state(reports, Some(answer.line), refusals, totals)
}

impl AnswerSink for Document {
    ghost took = { Tells };

    fn put(&mut self, answer: Answer) -> Result<(), AllocError> {
        self.push(&answer)
    }
}
