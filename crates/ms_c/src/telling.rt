//! The exports that return what a system has, and change nothing.
ghost use Rattle.std.specs.Prelude.{◌≡◌, ◌≢◌, ◌↔◌, ◌⊎◌, ◌++◌, false, None, IfSome, IfNone, length};
ghost use Rattle.std.specs.Prelude.{map};
ghost use Rattle.std.specs.List.{range_with_len};
ghost use Rattle.ms_base.specs.Committed.{is_among};
ghost use Rattle.ms_base.specs.Names.{named};
ghost use Rattle.ms_base.specs.Transition.{LacksLoader};
ghost use Rattle.ms_loader_map.specs.Used.{used_if};
ghost use Rattle.ms_c.specs.Answers.{numbers};
ghost use Rattle.ms_c.specs.Holder.{TellsHolder};
ghost use Rattle.ms_c.specs.Sums.{AreTotals, AreBits, bit_at, counts_of, TellsLoader};

use crate::answer::{Answer, DONE, NO_LOADER, NO_SYSTEM, OUT_OF_MEMORY};
use crate::holding::Handle;
use crate::totals::{Counts, LoaderSums, Totals, counts_in, loader_sums, space_sums};
use ms_loaders::System;
use std::alloc::Global;

/// Writes to `out` how many granules are committed in both spaces and how many may be, and the same
/// of nodes outside the class space. Returns DONE, or NO_SYSTEM, which leaves `out` as it was.
/// Takes no memory, and visits no loader and no chunk.
#[unsafe(no_mangle)]
pub extern "C" fn nizgrabul_counts(alloc: Global, handle: &mut Handle, out: &mut Counts) -> u32
    ensures counts { IfSome handle.old.slot.held (λ m. (result ≡ DONE) × (out.new ≡ counts_of m)) }
    ensures no_system { handle.old.slot.held ≡ None → (result ≡ NO_SYSTEM) × (out.new ≡ out.old) }
    ensures unchanged { handle.new.slot.held ≡ handle.old.slot.held }
{
    match handle.take(alloc) {
        None => NO_SYSTEM,
        Some(system) => {
            *out = counts_in(system.counts());
            handle.put(system);
            DONE
        }
    }
}

/// Returns the words in use of one loader, in both spaces, and 0 where none has the number. Takes
/// no memory.
#[unsafe(no_mangle)]
pub extern "C" fn nizgrabul_used_by(alloc: Global, handle: &mut Handle, loader: u16) -> u64
    ensures words { IfSome handle.old.slot.held (λ m. result ≡ used_if (named m.loaders loader)) }
    ensures no_system { handle.old.slot.held ≡ None → result ≡ 0 }
    ensures unchanged { handle.new.slot.held ≡ handle.old.slot.held }
{
    match handle.take(alloc) {
        None => 0,
        Some(system) => {
            let words = system.used_by(loader);
            handle.put(system);
            words
        }
    }
}

/// Returns whose a word is: `value` is the number of the loader in whose chunk the word lies, in
/// use or not. Returns NO_LOADER where it lies in nobody's. Takes no memory, and visits the depth
/// of a tree and one entry of a table.
#[unsafe(no_mangle)]
pub extern "C" fn nizgrabul_holder(alloc: Global, handle: &mut Handle, word: u64) -> Answer
    ensures holder { TellsHolder handle.old.slot.held word result }
    ensures unchanged { handle.new.slot.held ≡ handle.old.slot.held }
{
    match handle.take(alloc) {
        None => Answer::NO_SYSTEM,
        Some(system) => {
            let holder = system.holder(word);
            handle.put(system);
            holder_answer(holder)
        }
    }
}

/// Returns a loader's name, where there is one.
fn holder_answer(holder: Option<u16>) -> Answer
    ensures some { IfSome holder (λ name. result ≡ numbers 0 name 0 0) }
    ensures none { IfNone holder (result ≡ numbers 8 0 0 0) }
{
    match holder {
        Some(name) => Answer::of(u64::from(name)),
        None => Answer::NO_LOADER,
    }
}

/// Returns whether a granule is committed: the words from its number times a granule's words on,
/// which are 8192, or 2048 under the policy aggressive. With no system none is. Takes no memory.
#[unsafe(no_mangle)]
pub extern "C" fn nizgrabul_is_committed(alloc: Global, handle: &mut Handle, granule: u64) -> bool
    ensures answer { IfSome handle.old.slot.held
        (λ m. result ≡ is_among (m.committed ++ m.class_committed) granule) }
    ensures no_system { handle.old.slot.held ≡ None → result ≡ false }
    ensures unchanged { handle.new.slot.held ≡ handle.old.slot.held }
{
    match handle.take(alloc) {
        None => false,
        Some(system) => {
            let is_committed = system.is_committed(granule);
            handle.put(system);
            is_committed
        }
    }
}

/// Writes to `out` of each granule from `first` on, as many as it has elements, whether it is
/// committed; with no system none is. So a program compares before and after in one call. Takes no
/// memory.
#[unsafe(no_mangle)]
pub extern "C" fn nizgrabul_granules(
    alloc: Global,
    handle: &mut Handle,
    first: u32,
    out: &mut [bool],
)
    ensures told { AreBits handle.old.slot.held first (length out.old) out.new }
    ensures unchanged { handle.new.slot.held ≡ handle.old.slot.held }
{
    match handle.take(alloc) {
        None => out.fill(false),
        Some(system) => {
            write_bits(&system, first, out);
            handle.put(system);
        }
    }
}

/// Writes of each granule from the first on whether it is committed.
fn write_bits(system: &System, first: u32, out: &mut [bool])
    ensures { out.new ≡ map (bit_at system.now first) (range_with_len 0 (length out.old)) }
{
    for index in 0..out.len() {
        out[index] = system.is_committed(u64::from(first) + index as u64);
    }
}

/// Writes all sums over the system to `out`. Returns DONE, NO_SYSTEM or OUT_OF_MEMORY; all but DONE
/// leave `out` as it was. Takes memory while it runs; visits each node, loader and chunk, and no
/// block.
#[unsafe(no_mangle)]
pub extern "C" fn nizgrabul_totals(alloc: Global, handle: &mut Handle, out: &mut Totals) -> u32
    ensures totals { IfSome handle.old.slot.held (λ m. result ≡ DONE → AreTotals m out.new) }
    ensures no_system { (result ≡ NO_SYSTEM) ↔ (handle.old.slot.held ≡ None) }
    ensures statuses { (result ≡ DONE) ⊎ (result ≡ OUT_OF_MEMORY) ⊎ (result ≡ NO_SYSTEM) }
    ensures refused { result ≢ DONE → out.new ≡ out.old }
    ensures unchanged { handle.new.slot.held ≡ handle.old.slot.held }
{
    let Some(system) = handle.take(alloc) else {
        return NO_SYSTEM;
    };
    let answer = system.totals();
    handle.put(system);
    match answer {
        Ok(totals) => {
            *out = Totals {
                loaders: totals.loaders as u64,
                space: space_sums(totals.space),
                class_space: space_sums(totals.class_space),
            };
            DONE
        }
        Err(_) => OUT_OF_MEMORY,
    }
}

/// Writes the sums of one loader to `out`. Returns DONE, NO_SYSTEM, or NO_LOADER where none has the
/// number; all but DONE leave `out` as it was. Takes no memory; visits each chunk of that loader,
/// no block, and no other loader.
#[unsafe(no_mangle)]
pub extern "C" fn nizgrabul_loader_totals(
    alloc: Global,
    handle: &mut Handle,
    loader: u16,
    out: &mut LoaderSums,
) -> u32
    ensures totals { IfSome handle.old.slot.held
        (λ m. result ≡ DONE → TellsLoader m loader out.new) }
    ensures no_loader { IfSome handle.old.slot.held
        (λ m. (result ≡ NO_LOADER) ↔ LacksLoader m loader) }
    ensures no_system { (result ≡ NO_SYSTEM) ↔ (handle.old.slot.held ≡ None) }
    ensures statuses { (result ≡ DONE) ⊎ (result ≡ NO_LOADER) ⊎ (result ≡ NO_SYSTEM) }
    ensures refused { result ≢ DONE → out.new ≡ out.old }
    ensures unchanged { handle.new.slot.held ≡ handle.old.slot.held }
{
    let Some(system) = handle.take(alloc) else {
        return NO_SYSTEM;
    };
    let answer = system.loader_totals(loader);
    handle.put(system);
    match answer {
        Some(totals) => {
            *out = loader_sums(totals);
            DONE
        }
        None => NO_LOADER,
    }
}
