//! A list of words of which most are 0: the words of one arena's blocks.
//!
//!     words    0        512       1024      1536            512 * room
//!              | page 0  | page 1  | page 2  |        ..        |
//!     pages      at 2      nowhere   at 1      (nowhere further on)
//!     store    | page 2  | page 0  |        room        |
//!
//! A page comes into the store when a word of it is first written, and its other words are made 0
//! then. So a page that was never written takes no memory but its room, which nothing touches. A
//! page that is cleared as a whole keeps its position and is only marked: it is zeroed when it is
//! next written. A long list counts the written pages of each 64, so that to clear what was never
//! written looks at no page. Kept true: the store has the pages with a position and no others, each
//! at its own, and no more pages are written than are counted. Only `reserve` takes memory.
//! HotSpot's arenas are memory themselves; this list stands for it.
ghost use Rattle.std.specs.Prelude.{◌≡◌, ◌≢◌, ℕ, ◌+◌, ◌-◌, ◌*◌, ◌/◌, ◌^◌, ◌<◌, ◌≤◌, OnOk, OnErr, length};
ghost use Rattle.std.specs.Prelude.{true, false, IfOk, IsTrue, List, slice_index, slice_set, vec_capacity};
ghost use Rattle.ms_arena.specs.declared.words.pages.Page.{Page as PageOf};
ghost use Rattle.ms_arena.specs.Pages.{word_at, page_at, AreCounted, Clears, HasNoneWritten};

use std::alloc::{AllocError, Global};
use std::marker::Model;

/// The words of a page.
const PAGE: usize = 512;

/// The pages of a group.
const GROUP: usize = 64;

/// For how many pages there is room at least in a list that counts them by groups.
const MANY: usize = 128;

/// A page of the list.
#[derive(Clone, Copy)]
pub struct Page {
    /// Which page of the store it is, counted from 1; 0 where it has no position.
    position: usize,
    /// Whether it was written since it was last cleared; else its words are 0.
    written: bool,
}

/// A list of words, of which most are 0.
#[derive(Drop)]
pub struct Pages {
    /// The pages by their number; those further on have no position.
    pages: Vec<Page>,
    /// The words of the pages that have a position.
    store: Vec<u64>,
    /// How many pages there is room for.
    room: usize,
    /// For each group how many of its pages may be written; of groups further on nothing is known.
    counts: Vec<usize>,
}

impl Model for Pages {
    ghost use Rattle.std.specs.Prelude.{vec_capacity};
    ghost use Rattle.ms_arena.specs.Pages.{PagesView, ArePages, AreCounted};

    ghost Value = { PagesView };

    ghost view = { λ p. record { pages = p.pages.items; store = p.store.items; room = p.room } };

    ghost invariant = { λ p. ArePages
        (record { pages = p.pages.items; store = p.store.items; room = p.room })
        (vec_capacity p.pages) (vec_capacity p.store)
        × AreCounted p.pages.items p.counts.items };
}

impl Pages {
    /// Makes a list with no room. Takes no memory yet.
    pub(crate) fn new(alloc: Global) -> Pages
        ensures room { result.room ≡ 0 }
    {
        Pages {
            pages: Vec::new(alloc),
            store: Vec::new(alloc),
            room: 0,
            counts: Vec::new(alloc),
        }
    }

    /// Makes room for so many words; the words stay.
    pub(crate) fn reserve(&mut self, alloc: Global, words: usize) -> Result<(), AllocError>
        ensures room { OnOk result (words ≤ 512 * self.new.room) }
        ensures fits { OnOk result (512 * self.new.room < 2 ^ 63) }
        ensures more { self.old.room ≤ self.new.room }
        ensures words { (at : ℕ) → word_at self.new at ≡ word_at self.old at }
        ensures unchanged { OnErr result (self.new ≡ self.old) }
    {
        let pages = words.div_ceil(PAGE);
        if pages <= self.room {
            return Ok(());
        }
        self.grow(alloc, pages.max(self.room.saturating_mul(2)))
    }

    /// Makes room for so many pages.
    fn grow(&mut self, alloc: Global, room: usize) -> Result<(), AllocError>
        requires { self.old.room ≤ room }
        ensures room { OnOk result (self.new.room ≡ room) }
        ensures fits { OnOk result (512 * self.new.room < 2 ^ 63) }
        ensures words { (at : ℕ) → word_at self.new at ≡ word_at self.old at }
        ensures unchanged { OnErr result (self.new ≡ self.old) }
    {
        let Some(words) = room.checked_mul(PAGE) else {
            return Err(AllocError);
        };
        let pages = copied(alloc, self.pages.as_slice(), room)?;
        make_longer(alloc, &mut self.store, words)?;
        make_counts(&mut self.counts, pages.as_slice(), room);
        self.pages = pages;
        self.room = room;
        Ok(())
    }

    /// Returns for how many words there is room.
    pub(crate) fn words(&self) -> usize
        requires { 512 * self.now.room < 2 ^ 63 }
        ensures { result ≡ 512 * self.now.room }
    {
        PAGE * self.room
    }

    /// Returns how many pages there are in memory.
    pub(crate) fn stored(&self) -> usize {
        self.store.len() / PAGE
    }

    /// Returns whether no word was ever written.
    pub(crate) fn is_blank(&self) -> bool
        ensures { IsTrue result → (at : ℕ) → word_at self.now at ≡ 0 }
    {
        self.store.is_empty()
    }

    /// Reads a word.
    pub(crate) fn read(&self, at: usize) -> u64
        ensures { result ≡ word_at self.now at }
    {
        let number = at / PAGE;
        if !self.is_written(number) {
            return 0;
        }
        self.store[base_of(self.pages[number]) + at % PAGE]
    }

    /// Writes a word; the others stay.
    pub(crate) fn write(&mut self, at: usize, value: u64)
        requires within { at < 512 * self.old.room }
        ensures written { word_at self.new at ≡ value }
        ensures others { (other : ℕ) → other ≢ at → word_at self.new other ≡ word_at self.old other }
        ensures room { self.new.room ≡ self.old.room }
    {
        let number = at / PAGE;
        self.touch(number);
        let base = base_of(self.pages[number]);
        self.store[base + at % PAGE] = value;
    }

    /// Clears the words from one on up to an end.
    #[inline(always)]
    pub(crate) fn clear(&mut self, from: usize, end: usize)
        requires { from ≤ end }
        ensures { Clears self.old from end self.new }
    {
        if self.is_blank() {
            return;
        }
        let first = from / PAGE;
        let past = self.pages.len().min(end.div_ceil(PAGE));
        if self.has_none_written(first, past) {
            return;
        }
        for number in first..past {
            self.clear_in(number, from, end);
        }
    }

    /// Returns whether pages from one up to another are of one group, of which none is written.
    fn has_none_written(&self, first: usize, past: usize) -> bool
        ensures { IsTrue result → HasNoneWritten self.now.pages first past }
    {
        let group = first / GROUP;
        if group >= self.counts.len() || past.saturating_sub(1) / GROUP > group {
            return false;
        }
        self.counts[group] == 0
    }

    /// Returns whether a page was written since it was last cleared.
    fn is_written(&self, number: usize) -> bool
        ensures written { result ≡ (page_at self.now.pages number).written }
        ensures there { IsTrue result → number < length self.now.pages }
    {
        number < self.pages.len() && self.pages[number].written
    }

    /// Makes a page ready to be written, where it isn't; the words stay.
    fn touch(&mut self, number: usize)
        requires { number < self.old.room }
        ensures written { (page_at self.new.pages number).written ≡ true }
        ensures words { (at : ℕ) → word_at self.new at ≡ word_at self.old at }
        ensures room { self.new.room ≡ self.old.room }
    {
        if self.is_written(number) {
            return;
        }
        if number >= self.pages.len() {
            self.lengthen(number);
        }
        if self.pages[number].position == 0 {
            self.append(number);
        } else {
            self.renew(number);
        }
    }

    /// Lengthens the table up to a page.
    fn lengthen(&mut self, number: usize)
        requires within { number < self.old.room }
        requires past { length self.old.pages ≤ number }
        ensures there { number < length self.new.pages }
        ensures pages { (other : ℕ) → page_at self.new.pages other ≡ page_at self.old.pages other }
        ensures store { self.new.store ≡ self.old.store }
        ensures room { self.new.room ≡ self.old.room }
    {
        let page = Page {
            position: 0,
            written: false,
        };
        match self.pages.resize(number + 1, page) {
            Ok(()) => {}
            Err(_) => unreachable!(),
        }
    }

    /// Gives a page its position, whose words are 0.
    fn append(&mut self, number: usize)
        requires there { number < length self.old.pages }
        requires unstored { (page_at self.old.pages number).position ≡ 0 }
        ensures written { (page_at self.new.pages number).written ≡ true }
        ensures words { (at : ℕ) → word_at self.new at ≡ word_at self.old at }
        ensures room { self.new.room ≡ self.old.room }
    {
        let len = self.store.len();
        match self.store.resize(len + PAGE, 0) {
            Ok(()) => {}
            Err(_) => unreachable!(),
        }
        self.pages[number] = Page {
            position: len / PAGE + 1,
            written: true,
        };
        count_up(&mut self.counts, number);
    }

    /// Zeroes the words of a page that was cleared.
    fn renew(&mut self, number: usize)
        requires there { number < length self.old.pages }
        requires placed { 0 < (page_at self.old.pages number).position }
        requires unwritten { (page_at self.old.pages number).written ≡ false }
        ensures written { (page_at self.new.pages number).written ≡ true }
        ensures words { (at : ℕ) → word_at self.new at ≡ word_at self.old at }
        ensures room { self.new.room ≡ self.old.room }
    {
        let page = self.pages[number];
        let base = base_of(page);
        wipe(&mut self.store, base, base + PAGE);
        self.pages[number] = Page {
            position: page.position,
            written: true,
        };
        count_up(&mut self.counts, number);
    }

    /// Clears the words of a page that lie between two.
    #[inline(never)]
    fn clear_in(&mut self, number: usize, from: usize, end: usize)
        requires there { number < length self.old.pages }
        requires order { from ≤ end }
        requires meets { (from < 512 * number + 512) × (512 * number < end) }
        ensures zero { (at : ℕ) → at / 512 ≡ number → from ≤ at → at < end → word_at self.new at ≡ 0 }
        ensures others { (at : ℕ) → at / 512 ≢ number → word_at self.new at ≡ word_at self.old at }
        ensures before { (at : ℕ) → at < from → word_at self.new at ≡ word_at self.old at }
        ensures after { (at : ℕ) → end ≤ at → word_at self.new at ≡ word_at self.old at }
        ensures same { (length self.new.pages ≡ length self.old.pages) × (self.new.room ≡ self.old.room) }
    {
        let page = self.pages[number];
        if !page.written {
            return;
        }
        let first = from.saturating_sub(PAGE * number);
        let last = (end - PAGE * number).min(PAGE);
        if first == 0 && last == PAGE {
            self.pages[number] = Page {
                position: page.position,
                written: false,
            };
            count_down(&mut self.counts, number);
        } else {
            let base = base_of(page);
            wipe(&mut self.store, base + first, base + last);
        }
    }
}

/// Makes room for so many words in a store. One of which an eighth was written stays one piece,
/// which the system may move by its pages; else what was written is copied, and no room that was
/// not.
fn make_longer(alloc: Global, store: &mut Vec<u64>, words: usize) -> Result<(), AllocError>
    ensures room { OnOk result (words ≤ vec_capacity store.new) }
    ensures words { store.new.items ≡ store.old.items }
    ensures unchanged { OnErr result (vec_capacity store.new ≡ vec_capacity store.old) }
{
    if store.capacity() / 8 <= store.len() {
        return store.reserve_exact(words.saturating_sub(store.len()));
    }
    *store = copied(alloc, store.as_slice(), words)?;
    Ok(())
}

/// Makes a count for each group of so many pages, where these are many; a group that has pages
/// already may have all of them written. Where the allocator refuses, groups further on stay
/// unknown.
fn make_counts(counts: &mut Vec<usize>, pages: &[Page], room: usize)
    requires { AreCounted pages.now counts.old.items }
    ensures { AreCounted pages.now counts.new.items }
{
    if room < MANY {
        return;
    }
    if lengthen_counts(counts, pages.len().div_ceil(GROUP), GROUP).is_ok() {
        let _ = lengthen_counts(counts, room.div_ceil(GROUP), 0);
    }
}

/// Lengthens the counts up to so many groups by that count: that of all pages, or of groups past
/// the pages that there are.
fn lengthen_counts(counts: &mut Vec<usize>, groups: usize, count: usize) -> Result<(), AllocError>
    ensures long { OnOk result (groups ≤ length counts.new.items) }
    ensures all { (pages : List PageOf) → count ≡ 64 → AreCounted pages counts.old.items
        → AreCounted pages counts.new.items }
    ensures none { (pages : List PageOf) → length pages ≤ 64 * length counts.old.items
        → AreCounted pages counts.old.items → AreCounted pages counts.new.items }
{
    if groups <= counts.len() {
        return Ok(());
    }
    counts.resize(groups, count)?;
    Ok(())
}

/// Counts a page that becomes written.
fn count_up(counts: &mut Vec<usize>, number: usize)
    ensures { (pages : List PageOf) (page : PageOf) → AreCounted pages counts.old.items
        → AreCounted (slice_set pages number page) counts.new.items }
{
    let group = number / GROUP;
    if group >= counts.len() {
        return;
    }
    let count = counts[group];
    if count >= GROUP {
        return;
    }
    counts[group] = count + 1;
}

/// Counts a page that was written and is cleared.
fn count_down(counts: &mut Vec<usize>, number: usize)
    ensures { (pages : List PageOf) (page : PageOf) → AreCounted pages counts.old.items
        → (page_at pages number).written ≡ true → page.written ≡ false
        → AreCounted (slice_set pages number page) counts.new.items }
{
    let group = number / GROUP;
    if group >= counts.len() {
        return;
    }
    let count = counts[group];
    counts[group] = count.saturating_sub(1);
}

/// Copies a list into one with room for so many.
fn copied<T: Copy>(alloc: Global, list: &[T], room: usize) -> Result<Vec<T>, AllocError>
    ensures items { IfOk result (λ copy. copy.items ≡ list.now) }
    ensures room { IfOk result (λ copy. room ≤ vec_capacity copy) }
{
    let mut copy = Vec::with_capacity(alloc, room)?;
    copy.extend_from_slice(list)?;
    Ok(copy)
}

/// Returns where the words of a page begin in the store.
fn base_of(page: Page) -> usize
    requires placed { 0 < page.position }
    requires fits { 512 * page.position < 2 ^ 64 }
    ensures { result ≡ 512 * (page.position - 1) }
{
    PAGE * (page.position - 1)
}

/// Makes the words of the store from one up to an end 0.
fn wipe(store: &mut Vec<u64>, from: usize, end: usize)
    requires order { from ≤ end }
    requires within { end ≤ length store.old.items }
    ensures zero { (k : ℕ) → from ≤ k → k < end → slice_index store.new.items k ≡ 0 }
    ensures before { (k : ℕ) → k < from → slice_index store.new.items k ≡ slice_index store.old.items k }
    ensures after { (k : ℕ) → end ≤ k → slice_index store.new.items k ≡ slice_index store.old.items k }
    ensures stays { length store.new.items ≡ length store.old.items }
    ensures capacity { vec_capacity store.new ≡ vec_capacity store.old }
{
    store[from..end].fill(0);
}
