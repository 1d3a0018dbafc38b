//! What a run of a trace answers: a reply to each command line, and totals where a report was
//! asked; and what takes these answers as they come.
//!
//! Apart from the run because few who have answers keep them: what only tells them as a text needs
//! one at a time, and 100,000 of them are 6 MB. Takes memory where a sink does; nothing waits.
ghost use Rattle.std.specs.Prelude.{◌≡◌, ◌++◌, ◌∷◌, [], List, OnOk};
ghost use Rattle.ms_answers.specs.declared.replies.Answer.{Answer as AnswerOf};

use crate::totals::Totals;
use ms_base::Reply;
use std::alloc::AllocError;

/// The answer to one command line. This project's choice.
#[derive(Drop)]
pub struct Answer {
    /// The number of the line, from 1 on.
    pub line: u32,
    /// What the command was answered with.
    pub reply: Reply,
    /// The totals, where the command asked for a report; in a box, since few answers have them.
    pub report: Option<Box<Totals>>,
}

/// The answers to a trace, one for each command line, in order of line. This project's choice.
#[derive(Drop)]
pub struct Replies {
    /// The answers, in rising order of line.
    pub answers: Vec<Answer>,
}

/// What takes the answers of a run one by one: a list of them, or a text that tells them. This
/// project's choice.
pub trait AnswerSink {
    /// These answers were put between a first state and a second, in their order.
    ghost took: { Self → Self → List AnswerOf → Type 0 };

    /// Takes one answer more, after those that it was given before. An error means that a growth
    /// was refused; what the sink has then is left open. Takes memory.
    fn put(&mut self, answer: Answer) -> Result<(), AllocError>
        ensures { OnOk result ((first : Self) (before : List AnswerOf) → took first self.old before
            → took first self.new (before ++ answer ∷ [])) };
}

impl AnswerSink for Vec<Answer> {
    ghost took = { λ first now answers. now.items ≡ first.items ++ answers };

    fn put(&mut self, answer: Answer) -> Result<(), AllocError> {
        self.push(answer)?;
        Ok(())
    }
}
