//! One step of the machine, over any source of accounts: the pool itself, or the pool behind a
//! lock.
//!
//!     step ── serve ──> the loader that it names ── its arena ──> take, grow
//!                 ╰───────────────────────────────────────────>  open_both, close_both, purge
//!
//! So a step has one body, whether one thread runs it or many do; what it says is said of the
//! source's own relations. A refusal changes no loader. Takes memory for a new loader, a block and
//! its chunk; waits as the source does.
ghost use Rattle.std.specs.Prelude.{IfOk, IfErr};
ghost use Rattle.ms_loaders.specs.Serving.{MayServe, Served, calls_of, AllocatesAt, AllocatesNone};
ghost use Rattle.ms_loaders.specs.Serving.{AnswersNew, AnswersAlloc, AnswersWrite, AnswersRead, AnswersFree, AnswersUnload};

use ms_base::{Kind, Refusal, Reply, Space, Step};
use ms_loader::Loader;
use ms_loader_map::Loaders;
use ms_pool::AccountSource;
use std::alloc::Global;

/// Takes one step of the machine: answers what it is done with, or why it is refused. A refusal
/// changes no loader; what it leaves of the source, the source's own relations say. Words and
/// indices are in words of 8 bytes. Takes memory for a new loader, a block and its chunk; waits as
/// the source does. This project's choice.
#[inline(always)]
pub fn serve<S: AccountSource>(
    alloc: Global,
    source: &mut S,
    loaders: &mut Loaders,
    step: Step,
) -> Reply
    requires { MayServe S.serves S.opened source.old loaders.old }
    ensures { Served (calls_of S.serves S.opened S.limits S.grew S.took S.opened_both S.closed_both
        S.purged)
        loaders.old step result source.old loaders.new source.new }
{
    match step {
        Step::New { loader, kind } => new_loader(alloc, source, loaders, loader, kind),
        Step::Alloc {
            loader,
            block,
            words,
        } => make_block(source, loaders, Space::NonClass, loader, block, words),
        Step::Calloc {
            loader,
            block,
            words,
        } => make_block(source, loaders, Space::Class, loader, block, words),
        Step::Write {
            loader,
            block,
            index,
            value,
        } => write(loaders, loader, block, index, value),
        Step::Read {
            loader,
            block,
            index,
        } => read(loaders, loader, block, index),
        Step::Free { loader, block } => free(loaders, loader, block),
        Step::Unload { loader } => unload(source, loaders, loader),
        Step::Purge => {
            let _ = source.purge();
            Reply::Ok
        }
    }
}

/// Makes a loader with two accounts of its own. The accounts that were opened are closed again
/// where memory for the loader is wanting.
fn new_loader<S: AccountSource>(
    alloc: Global,
    source: &mut S,
    loaders: &mut Loaders,
    name: u16,
    kind: Kind,
) -> Reply
    ensures { AnswersNew (calls_of S.serves S.opened S.limits S.grew S.took S.opened_both S.closed_both
        S.purged)
        loaders.old name kind source.old result loaders.new source.new }
{
    if loaders.contains(name) {
        return Reply::Refused(Refusal::LoaderExists);
    }
    let (account, class_account) = match source.open_both() {
        Ok(accounts) => accounts,
        Err(refusal) => return Reply::Refused(refusal),
    };
    match loaders.open(alloc, name, account, class_account, kind) {
        Ok(()) => Reply::Ok,
        Err((account, class_account)) => {
            source.close_both(account, class_account);
            Reply::Refused(Refusal::OutOfMemory)
        }
    }
}

/// Allocates a block in a space for a step, which is answered where it starts.
fn make_block<S: AccountSource>(
    source: &mut S,
    loaders: &mut Loaders,
    space: Space,
    name: u16,
    block: u32,
    words: u64,
) -> Reply
    requires { MayServe S.serves S.opened source.old loaders.old }
    ensures { AnswersAlloc (calls_of S.serves S.opened S.limits S.grew S.took S.opened_both S.closed_both
        S.purged)
        space loaders.old name block words source.old result loaders.new source.new }
{
    match allocate(source, loaders, space, name, block, words) {
        Ok(start) => Reply::At(start),
        Err(refusal) => Reply::Refused(refusal),
    }
}

/// Allocates a block of zeros in a space: for a step, and for a call that returns granules too.
pub(crate) fn allocate<S: AccountSource>(
    source: &mut S,
    loaders: &mut Loaders,
    space: Space,
    name: u16,
    block: u32,
    words: u64,
) -> Result<u64, Refusal>
    requires { MayServe S.serves S.opened source.old loaders.old }
    ensures served { IfOk result (λ start. AllocatesAt (calls_of S.serves S.opened S.limits S.grew S.took S.opened_both S.closed_both
        S.purged)
        space loaders.old name block words source.old start loaders.new source.new) }
    ensures refused { IfErr result (λ refusal. AllocatesNone (calls_of S.serves S.opened S.limits S.grew S.took S.opened_both S.closed_both
        S.purged)
        space loaders.old name block words source.old refusal loaders.new source.new) }
{
    let Some(loader) = loaders.get_mut(name) else {
        return Err(Refusal::NoLoader);
    };
    match loader.allocate(source, space, block, words) {
        Ok(made) => Ok(made.start),
        Err(refusal) => Err(refusal),
    }
}

/// Writes a word of a block; the others stay.
fn write(loaders: &mut Loaders, name: u16, block: u32, index: u64, value: u64) -> Reply
    ensures { AnswersWrite loaders.old name block index value result loaders.new }
{
    match loaders.get_mut(name) {
        None => Reply::Refused(Refusal::NoLoader),
        Some(loader) => match loader.write(block, index, value) {
            Ok(()) => Reply::Ok,
            Err(refusal) => Reply::Refused(refusal),
        },
    }
}

/// Reads a word of a block.
fn read(loaders: &Loaders, name: u16, block: u32, index: u64) -> Reply
    ensures { AnswersRead loaders.now name block index result loaders.now }
{
    match loaders.get(name) {
        None => Reply::Refused(Refusal::NoLoader),
        Some(loader) => match loader.read(block, index) {
            Ok(value) => Reply::Value(value),
            Err(refusal) => Reply::Refused(refusal),
        },
    }
}

/// Frees a block: its words become a free block of its arena.
fn free(loaders: &mut Loaders, name: u16, block: u32) -> Reply
    ensures { AnswersFree loaders.old name block result loaders.new }
{
    match loaders.get_mut(name) {
        None => Reply::Refused(Refusal::NoLoader),
        Some(loader) => match loader.free(block) {
            Ok(()) => Reply::Ok,
            Err(refusal) => Reply::Refused(refusal),
        },
    }
}

/// Unloads a loader, with both its accounts.
fn unload<S: AccountSource>(source: &mut S, loaders: &mut Loaders, name: u16) -> Reply
    requires { MayServe S.serves S.opened source.old loaders.old }
    ensures { AnswersUnload (calls_of S.serves S.opened S.limits S.grew S.took S.opened_both S.closed_both
        S.purged)
        loaders.old name source.old result loaders.new source.new }
{
    match loaders.close(name) {
        Some((account, class_account)) => {
            source.close_both(account, class_account);
            Reply::Ok
        }
        None => Reply::Refused(Refusal::NoLoader),
    }
}
