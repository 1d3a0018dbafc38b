//! The part Refused of a full report: how many command lines were refused so far, by name.
//!
//!     replies   ok, NoLoader, ok, NoBlock, NoLoader   -->   NoLoader 2, NoBlock 1, others 0
//!
//! Kept true: each number is exactly that of the replies which are refused by the name. Only the
//! text takes memory.
ghost use Rattle.std.specs.Prelude.{◌≡◌, ◌<◌, ◌^◌, ◌++◌, OnOk, string_bytes};
ghost use Rattle.ms_base.specs.declared.step.Reply.TheVariants.{Refused as IsRefused};
ghost use Rattle.ms_report.specs.Layout.{number_lines};
ghost use Rattle.ms_report.specs.Refused.{AreFew, refusals_of, refused_part, refused_rows};
ghost use Rattle.ms_report.specs.Refused.{with_reply};
ghost use Rattle.ms_report.specs.ReplyLines.{replies_in};

use crate::layout::push_number_lines;
use ms_answers::Answer;
use ms_base::{Refusal, Reply};
use std::alloc::AllocError;

/// How many command lines were refused, by the name of the refusal, for each name that a line can
/// be refused by. This project's choice.
#[derive(Clone, Copy, Debug)]
pub struct Refusals {
    /// A loader had the name.
    pub loader_exists: u64,
    /// Fewer than two owner numbers were left.
    pub ids_used_up: u64,
    /// No loader had the name.
    pub no_loader: u64,
    /// The loader had a block of the name.
    pub block_exists: u64,
    /// No words were asked for.
    pub zero_words: u64,
    /// More words were asked for than a root chunk has.
    pub too_large: u64,
    /// The allocator refused a growth.
    pub out_of_memory: u64,
    /// As many nodes as may be were reserved, and none had room.
    pub reserve_limit: u64,
    /// The granules needed would have passed the limit.
    pub commit_limit: u64,
    /// The loader had no block of the name.
    pub no_block: u64,
    /// The index was past the end of the block.
    pub out_of_range: u64,
}

/// Of no line.
pub const NONE: Refusals = Refusals {
    loader_exists: 0,
    ids_used_up: 0,
    no_loader: 0,
    block_exists: 0,
    zero_words: 0,
    too_large: 0,
    out_of_memory: 0,
    reserve_limit: 0,
    commit_limit: 0,
    no_block: 0,
    out_of_range: 0,
};

/// Counts how many of the answers are refusals, by name. Takes no memory.
pub fn tally(answers: &[Answer]) -> Refusals
    ensures { result ≡ refusals_of (replies_in answers.now) }
{
    let mut refusals = NONE;
    for answer in answers {
        count(&mut refusals, answer.reply);
    }
    refusals
}

/// Counts one more reply; a count has room for 2^63 more. Takes no memory. This project's choice.
pub fn count(counts: &mut Refusals, reply: Reply)
    requires { AreFew (2 ^ 63) counts.old }
    ensures { counts.new ≡ with_reply counts.old reply }
{
    let Reply::Refused(refusal) = reply else {
        return;
    };
    count_refusal(counts, refusal);
}

/// Counts one more refusal.
fn count_refusal(counts: &mut Refusals, refusal: Refusal)
    requires { AreFew (2 ^ 63) counts.old }
    ensures { counts.new ≡ with_reply counts.old (IsRefused refusal) }
{
    match refusal {
        Refusal::LoaderExists => counts.loader_exists += 1,
        Refusal::IdsUsedUp => counts.ids_used_up += 1,
        Refusal::NoLoader => counts.no_loader += 1,
        Refusal::BlockExists => counts.block_exists += 1,
        Refusal::ZeroWords => counts.zero_words += 1,
        Refusal::TooLarge => counts.too_large += 1,
        Refusal::OutOfMemory => counts.out_of_memory += 1,
        Refusal::ReserveLimit { .. } => counts.reserve_limit += 1,
        Refusal::CommitLimit { .. } => counts.commit_limit += 1,
        Refusal::NoBlock => counts.no_block += 1,
        Refusal::OutOfRange { .. } => counts.out_of_range += 1,
        Refusal::NotLive | Refusal::Unsettled { .. } | Refusal::NoRoom { .. } => {}
    }
}

/// Appends the numbers of refused lines.
pub(crate) fn push_refused(text: &mut String, counts: &Refusals) -> Result<(), AllocError>
    ensures { OnOk result (string_bytes text.new
        ≡ string_bytes text.old ++ refused_part counts.now) }
{
    text.push_str("Refused\n")?;
    push_refused_rows(text, counts)
}

/// Appends the line of each name.
fn push_refused_rows(text: &mut String, counts: &Refusals) -> Result<(), AllocError>
    ensures { OnOk result (string_bytes text.new
        ≡ string_bytes text.old ++ number_lines (refused_rows counts.now)) }
{
    let rows = [
        ("LoaderExists", counts.loader_exists),
        ("IdsUsedUp", counts.ids_used_up),
        ("NoLoader", counts.no_loader),
        ("BlockExists", counts.block_exists),
        ("ZeroWords", counts.zero_words),
        ("TooLarge", counts.too_large),
        ("OutOfMemory", counts.out_of_memory),
        ("ReserveLimit", counts.reserve_limit),
        ("CommitLimit", counts.commit_limit),
        ("NoBlock", counts.no_block),
        ("OutOfRange", counts.out_of_range),
    ];
    push_number_lines(text, &rows)
}
