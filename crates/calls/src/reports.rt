//! The rows of reports: the sums of a system and its maps are written as texts, and so are replies;
//! what is told beside sums is counted from them, and refusals from replies.
use crate::pools::SETTINGS;
use crate::row::{Answer, Row, gave, line, mark, tell};
use crate::systems::filled::{FREED, HIDDEN, filled_totals, tell_totals};
use ms_answers::{LoaderDetails, Verbosity};
use ms_base::{Refusal, Reply, Settings};
use ms_loaders::{Answer as Answered, Replies, Totals};
use ms_pool::RootMap;
use ms_report::{
    Kinds, Refusals, Usages, full_text, lines_detailed, map_text, sum_kinds, tally, text, weigh,
};
use std::alloc::{AllocError, Global};
use std::io;

/// Prints the row.
pub(crate) fn tell_all(rt: &HostRuntime) -> io::Result<()> {
    let totals = filled_totals(rt.alloc(), &HIDDEN)?;
    mark(rt, "report");
    tell_usages(rt, &weigh(&totals, &SETTINGS));
    tell_kinds(rt, &sum_kinds(loaders_of(&totals)));
    drop(totals);
    tell_refusals(rt);
    Ok(())
}

/// Prints how many of some replies are refusals, by name.
fn tell_refusals(rt: &HostRuntime) {
    let answers = [
        plain(1, Reply::Ok),
        plain(1, Reply::Refused(Refusal::NoBlock)),
        plain(1, Reply::Refused(Refusal::OutOfRange { words: 4 })),
        plain(1, Reply::Refused(Refusal::NoBlock)),
    ];
    line(rt, "report refusals", &tally(&answers));
}

/// A reply to a line, without sums.
fn plain(number: u32, reply: Reply) -> Answered {
    Answered {
        line: number,
        reply,
        report: None,
    }
}

/// Prints how much of the memory is what.
fn tell_usages(rt: &HostRuntime, usages: &Usages) {
    line(rt, "report usage", &usages.space);
    line(rt, "report class usage", &usages.class_space);
    line(rt, "report usage of both", &usages.both);
}

/// Prints how much the loaders of each kind hold.
fn tell_kinds(rt: &HostRuntime, kinds: &Kinds) {
    line(rt, "report boot", &kinds.boot);
    line(rt, "report standard", &kinds.standard);
    line(rt, "report hidden", &kinds.hidden);
    line(rt, "report reflection", &kinds.reflection);
}

/// How many lines were refused, by name.
const REFUSALS: Refusals = Refusals {
    loader_exists: 0,
    ids_used_up: 0,
    no_loader: 2,
    block_exists: 0,
    zero_words: 0,
    too_large: 0,
    out_of_memory: 0,
    reserve_limit: 0,
    commit_limit: 0,
    no_block: 1,
    out_of_range: 0,
};

/// What is to be written.
#[derive(Clone, Copy)]
pub(crate) enum Written {
    /// A report.
    Text,
    /// A full report.
    FullText,
    /// The maps of roots.
    Maps,
}

/// Sums of which something is to be written.
#[derive(Drop)]
pub(crate) struct Reporting {
    alloc: Global,
    totals: Totals,
    written: Written,
}

impl Reporting {
    /// Prepares the sums of a system with loaders and blocks.
    pub(crate) fn prepared(alloc: Global, written: Written) -> io::Result<Reporting> {
        let totals = filled_totals(alloc, &FREED)?;
        Ok(Reporting {
            alloc,
            totals,
            written,
        })
    }

    /// Writes what is to be written.
    fn write(&self) -> Result<String, AllocError> {
        match self.written {
            Written::Text => text(self.alloc, &self.totals),
            Written::FullText => {
                full_text(self.alloc, &self.totals, &Settings::DEFAULT, &REFUSALS)
            }
            Written::Maps => map_text(self.alloc, roots_of(&self.totals)),
        }
    }
}

/// Lends the maps of roots among sums, where there are some.
fn roots_of(totals: &Totals) -> &[RootMap] {
    match &totals.details {
        Some(details) => details.roots.as_slice(),
        None => &[],
    }
}

/// Lends the sums of each loader among sums, where there are some.
fn loaders_of(totals: &Totals) -> &[LoaderDetails] {
    match &totals.details {
        Some(details) => details.loaders.as_slice(),
        None => &[],
    }
}

impl Row for Reporting {
    fn tell_state(&mut self, rt: &HostRuntime) -> io::Result<()> {
        tell_totals(rt, &self.totals);
        Ok(())
    }

    fn call(&mut self, rt: &HostRuntime) -> Answer {
        tell_text(rt, self.write())
    }
}

/// Prints a text that was to be made.
fn tell_text(rt: &HostRuntime, made: Result<String, AllocError>) -> Answer {
    match made {
        Ok(text) => gave(rt, &text),
        Err(_) => Answer::Refused,
    }
}

/// Replies that are to be written.
#[derive(Drop)]
pub(crate) struct Replying {
    alloc: Global,
    replies: Replies,
}

impl Replying {
    /// Prepares a reply of each sort, the last with the sums of a system.
    pub(crate) fn prepared(alloc: Global) -> io::Result<Replying> {
        let report = Box::new(alloc, filled_totals(alloc, &FREED)?)?;
        let answers = answers_with(alloc, report)?;
        let replies = Replies { answers };
        Ok(Replying { alloc, replies })
    }
}

/// Lists a reply of each sort, the last with sums.
fn answers_with(alloc: Global, report: Box<Totals>) -> Result<Vec<Answered>, AllocError> {
    let mut answers = plain_answers(alloc)?;
    answers.push(Answered {
        line: 6,
        reply: Reply::Ok,
        report: Some(report),
    })?;
    Ok(answers)
}

/// Lists a reply of each sort without sums.
fn plain_answers(alloc: Global) -> Result<Vec<Answered>, AllocError> {
    let mut answers = Vec::with_capacity(alloc, 5)?;
    let replies = [
        (1, Reply::Ok),
        (2, Reply::At(4096)),
        (3, Reply::Value(7)),
        (4, Reply::Refused(Refusal::NoBlock)),
    ];
    for (number, reply) in replies {
        answers.push(plain(number, reply))?;
    }
    Ok(answers)
}

impl Row for Replying {
    fn tell_state(&mut self, rt: &HostRuntime) -> io::Result<()> {
        for answer in &self.replies.answers {
            tell(rt, &(answer.line, answer.reply));
            if let Some(totals) = &answer.report {
                tell_totals(rt, totals);
            }
        }
        Ok(())
    }

    fn call(&mut self, rt: &HostRuntime) -> Answer {
        tell_text(
            rt,
            lines_detailed(
                self.alloc,
                &self.replies,
                true,
                Verbosity::Full,
                &Settings::DEFAULT,
            ),
        )
    }
}
