//! The text of the answers to a trace, put together as they come.
//!
//!     Answer ── push ──> its line, its report ──> the text
//!                  `──> refusals so far, for the reports after it
//!
//! No answer has to be kept until all are there. Kept true: no more answers are counted than the
//! text has bytes, so no count wraps. Stands on `reply_lines`. Takes memory for the text alone.
ghost use Rattle.std.specs.Prelude.{◌≡◌, ◌++◌, ◌∷◌, [], List, IfOk, OnErr, OnOk, string_bytes};
ghost use Rattle.ms_base.specs.declared.settings.Settings.{Settings as SettingsOf};
ghost use Rattle.ms_answers.specs.declared.replies.Answer.{Answer as AnswerOf};
ghost use Rattle.ms_report.specs.AnswerText.{AnswerTextView, Tells, no_answer};
ghost use Rattle.ms_report.specs.ReplyLines.{answers_text};

use crate::done_line::DoneLine;
use crate::refused::{NONE, Refusals, count};
use crate::reply_lines::push_answer;
use ms_answers::{Answer, AnswerSink, Replies, Verbosity};
use ms_base::Settings;
use std::alloc::{AllocError, Global};
use std::marker::Model;

/// A line for each answer that was put, in their order: the number of the trace's line, a space,
/// the reply; after an answer with totals comes their report. This project's choice.
#[derive(Drop)]
pub struct AnswerText {
    // The lines and reports so far.
    text: String,
    // The line of the last command that was done, for the next one.
    done: DoneLine,
    // The refusals so far, which full reports tell.
    refusals: Refusals,
    // Whether a line tells where a block starts.
    addresses: bool,
    // How much reports tell.
    verbosity: Verbosity,
    // The settings of the run.
    settings: Settings,
}

impl Model for AnswerText {
    ghost use Rattle.std.specs.Prelude.{◌+◌, length, string_bytes};
    ghost use Rattle.ms_report.specs.AnswerText.{AnswerTextView};
    ghost use Rattle.ms_report.specs.Refused.{AreFew};

    ghost Value = { AnswerTextView };

    ghost view = { λ a. record {
      text = string_bytes a.text;
      refusals = a.refusals;
      addresses = a.addresses;
      verbosity = a.verbosity;
      settings = a.settings;
    } };

    ghost invariant = { λ a. AreFew (length (string_bytes a.text) + 1) a.refusals };
}

impl AnswerText {
    /// Makes the text of no answer, in the room of a text that is done with, which is emptied.
    /// Where a block starts, a word number, is written only if addresses are asked for, and reports
    /// are of the verbosity asked for; the settings are those of the run. Takes no memory yet.
    pub fn new(
        mut room: String,
        addresses: bool,
        verbosity: Verbosity,
        settings: Settings,
    ) -> AnswerText
        ensures { result ≡ no_answer addresses verbosity settings }
    {
        room.clear();
        AnswerText {
            text: room,
            done: DoneLine::first(),
            refusals: NONE,
            addresses,
            verbosity,
            settings,
        }
    }

    /// Appends the line of one answer more, and its report, with the refusals of the answers before
    /// it. An error means that a growth was refused; then the text is that of no answer. Takes
    /// memory.
    #[inline(always)]
    pub fn push(&mut self, answer: &Answer) -> Result<(), AllocError>
        ensures told { OnOk result ((first : AnswerTextView) (before : List AnswerOf) → Tells first self.old before
            → Tells first self.new (before ++ answer.now ∷ [])) }
        ensures emptied { OnErr result
            (self.new ≡ no_answer self.old.addresses self.old.verbosity self.old.settings) }
    {
        let pushed = push_answer(
            &mut self.text,
            &mut self.done,
            self.addresses,
            self.verbosity,
            &self.settings,
            &self.refusals,
            answer,
        );
        match pushed {
            Ok(()) => {
                count(&mut self.refusals, answer.reply);
                Ok(())
            }
            Err(error) => {
                self.text.clear();
                self.refusals = NONE;
                Err(error)
            }
        }
    }

    /// Gives the text. Takes no memory.
    pub fn into_text(self) -> String
        ensures { string_bytes result ≡ self.text }
    {
        self.text
    }
}

impl AnswerSink for AnswerText {
    ghost took = { Tells };

    #[inline(always)]
    fn put(&mut self, answer: Answer) -> Result<(), AllocError> {
        self.push(&answer)
    }
}

/// Writes a line for each answer, in their order: the number of the trace's line, a space, the
/// reply. Where a block starts, a word number, is written only if addresses are asked for. After an
/// answer with totals comes their basic report, which no setting changes. Takes memory for the
/// text; an error means that a growth was refused. This project's choice.
pub fn lines(alloc: Global, replies: &Replies, addresses: bool) -> Result<String, AllocError>
    ensures { IfOk result (λ text. (settings : SettingsOf) → string_bytes text
        ≡ answers_text addresses Verbosity.Basic settings replies.now.answers.items) }
{
    basic_lines(alloc, replies, addresses, &Settings::DEFAULT)
}

/// Writes lines with basic reports, which are the same whatever the settings.
fn basic_lines(
    alloc: Global,
    replies: &Replies,
    addresses: bool,
    settings: &Settings,
) -> Result<String, AllocError>
    ensures { IfOk result (λ text. (any : SettingsOf) → string_bytes text
        ≡ answers_text addresses Verbosity.Basic any replies.now.answers.items) }
{
    lines_detailed(alloc, replies, addresses, Verbosity::Basic, settings)
}

/// Writes lines as `lines` does, with reports of the verbosity asked for. The settings are
/// those of the run, which a full report has; the answers before it are those in which it counts
/// refused lines. Takes memory for the text; an error means that a growth was refused. This
/// project's choice.
pub fn lines_detailed(
    alloc: Global,
    replies: &Replies,
    addresses: bool,
    verbosity: Verbosity,
    settings: &Settings,
) -> Result<String, AllocError>
    ensures { IfOk result (λ text. string_bytes text
        ≡ answers_text addresses verbosity settings.now replies.now.answers.items) }
{
    let mut text = AnswerText::new(String::new(alloc), addresses, verbosity, *settings);
    for answer in &replies.answers {
        text.push(answer)?;
    }
    Ok(text.into_text())
}
