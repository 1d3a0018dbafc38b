//! How many lines were refused for each reason, and the first of them.
ghost use Rattle.std.specs.Prelude.{◌≡◌, ◌≤◌, ◌+◌, ◌-◌, ◌^◌, ◌++◌, ◌∷◌, [], ℕ, List, IfOk, slice_get, Some};
ghost use Rattle.std.specs.List.{All};
ghost use Rattle.ms_course.specs.Gathering.{Counts, IsCounted, number_of, refused_with, reason_of};
ghost use Rattle.ms_course.specs.declared.moment.Moment.{Moment as MomentOf};

use crate::moment::Moment;
use crate::reason::Reason;
use std::alloc::{AllocError, Global};
use std::marker::Model;

/// How many reasons there are.
const REASONS: usize = 12;

/// Lines that were refused for one reason. This project's choice.
#[derive(Clone, Copy, Debug, PartialEq, Eq)]
pub struct Refused {
    /// How many.
    pub lines: u32,
    /// The number of the first one, from 1 on; 0 where there is none.
    pub first_line: u32,
}

impl Refused {
    /// No line.
    pub const NONE: Refused = Refused {
        lines: 0,
        first_line: 0,
    };
}

/// The refused lines by their reasons, which contracts see as a list by the reasons' numbers.
#[derive(Drop)]
pub(crate) struct Refusals {
    by_number: Vec<Refused>,
}

impl Model for Refusals {
    ghost use Rattle.std.specs.Prelude.{◌≡◌, List, length};
    ghost use Rattle.ms_course.specs.declared.refusals.Refused.{Refused};

    ghost Value = { List Refused };

    ghost view = { λ refusals. refusals.by_number.items };

    ghost invariant = { λ refusals. length refusals.by_number.items ≡ 12 };
}

impl Refusals {
    /// Makes those of no line. Takes memory for them; an error means that it was refused.
    pub(crate) fn new(alloc: Global) -> Result<Refusals, AllocError>
        ensures none { IfOk result (λ refusals. Counts refusals []) }
        ensures few { IfOk result (λ refusals. IsCounted 0 refusals) }
    {
        let mut by_number = Vec::new(alloc);
        by_number.resize(REASONS, Refused::NONE)?;
        Ok(Refusals { by_number })
    }

    /// Counts a line where it was refused. Takes no memory.
    pub(crate) fn note(&mut self, moment: &Moment)
        requires { IsCounted (2 ^ 32 - 2) self.old }
        ensures counts { (moments : List MomentOf) → Counts self.old moments
            → Counts self.new (moments ++ moment.now ∷ []) }
        ensures few { (most : ℕ) → IsCounted most self.old → IsCounted (most + 1) self.new }
    {
        let Some(reason) = Reason::of_reply(&moment.asked, &moment.reply) else {
            return;
        };
        add(&mut self.by_number[reason.number()], moment.line);
    }

    /// Returns the lines that were refused for a reason.
    pub(crate) fn of_reason(&self, reason: Reason) -> Refused
        ensures { slice_get self.now (number_of reason) ≡ Some result }
    {
        self.by_number[reason.number()]
    }
}

/// Adds one more line.
fn add(refused: &mut Refused, line: u32)
    requires { refused.old.lines ≤ 2 ^ 32 - 2 }
    ensures { refused.new ≡ refused_with refused.old line }
{
    if refused.lines == 0 {
        refused.first_line = line;
    }
    refused.lines += 1;
}
