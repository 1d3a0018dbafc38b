//! Lending, growing and taking back: the calls that change which chunks are lent.

ghost use Rattle.std.specs.Prelude.{◌≡◌, ◌+◌, ◌<◌, ◌≤◌, ◌^◌, true, false, length, IsSome, IfSome, OnSome, IfNone, IfOk};
ghost use Rattle.std.specs.Prelude.{OnErr, Some, ◌-◌, ◌*◌, ◌/◌, ◌%◌, IsTrue, IsFalse, slice_get, ◌↔◌};
ghost use Rattle.ms_base.specs.declared.kind.Space.TheVariants.{NonClass, Class};
ghost use Rattle.ms_base.specs.Part.{is_reserved, slot_of};
ghost use Rattle.ms_base.specs.Level.{highest_level, root_words, size_of};
ghost use Rattle.ms_pool.specs.Growing.{has_room, reached};
ghost use Rattle.ms_pool.specs.Releasing.{is_lent_in, with_released};
ghost use Rattle.ms_base.specs.Spaces.{by_space, first_class_slot};
ghost use Rattle.ms_base.specs.Front.{front_for};
ghost use Rattle.ms_base.specs.PoolSteps.Pick.{lowest_unreserved};
ghost use Rattle.ms_commit.specs.Nodes.{AreInReserved, AreSound, all_slots, granules_with, slots_of, with_granules};
ghost use Rattle.ms_commit.specs.NumberSet.{count_missing};
ghost use Rattle.ms_pool.specs.Account.{AreChunks, has_chunk_at};
ghost use Rattle.ms_pool.specs.Lending.{Adds, Grows, MayTake, span_of};
ghost use Rattle.ms_pool.specs.Source.{ServesBoth};
ghost use Rattle.ms_pool.specs.Ledger.{Serves, opened_in, state_in, with_lent, with_grown};
ghost use Rattle.ms_pool.specs.Calls.{Closed, ClosedBoth, Grew, Took};
ghost use Rattle.ms_pool.specs.Keeping.{IsCounted, IsKept, IsOpen, IsReady, IsRunOf, ledger_of, with_reserved};
ghost use Rattle.ms_pool.specs.Placing.{IsLentThere, MayBeLent, MayBeReplaced};
ghost use Rattle.ms_pool.specs.Searching.{least_granule, is_full, lacking, part_picked};

use crate::account::Account;
use crate::lender::Lender;
use crate::search::{granules_meeting, missing_among};
use crate::trees::{carve, put_back, raise};
use ms_base::{Chunk, Level, NODE_WORDS, Policy, ROOT_WORDS, Refusal, SLOTS, Space, Span, granule};
use ms_commit::Nodes;
use std::alloc::Global;

impl Lender {
    /// Lends the account a chunk.
    pub(crate) fn take(
        &mut self,
        account: &mut Account,
        wanted: Level,
        most: Level,
        words: u64,
    ) -> Result<Span, Refusal>
        requires ready { IsReady self.old }
        requires served { Serves (ledger_of self.old) account.old }
        requires asks { MayTake wanted most words }
        ensures ready { IsReady self.new }
        ensures added { IfOk result
            (λ span. Adds self.old.policy wanted most words account.old span account.new) }
        ensures unchanged { OnErr result (account.new ≡ account.old) }
        ensures took { Took (ledger_of self.old) account.old wanted most words result (ledger_of self.new) }
        ensures chunks { AreChunks account.old.space account.old.chunks × AreChunks account.new.space account.new.chunks
            × (most ≤ highest_level) }
    {
        let space = account.space;
        let owner = account.owner;
        let Some(span) = self.pick(space, wanted, most, words) else {
            self.counts.take_reserve = self.counts.take_reserve.wrapping_add(1);
            return Err(self.reserve_limit(space));
        };
        let chunk = chunk_at(self.policy, span.start, span.level, words);
        let need = self.missing(space, &chunk);
        if let Some(refusal) = self.commit_limit(need) {
            self.counts.take_commit = self.counts.take_commit.wrapping_add(1);
            return Err(refusal);
        }
        // All memory is taken before anything changes: room in the list here, the table in `lend`.
        if account.chunks.reserve(1).is_err() {
            return Err(Refusal::OutOfMemory);
        }
        if !self.lend(space, owner, &chunk, need) {
            return Err(Refusal::OutOfMemory);
        }
        account.chunks.push_reserved(chunk);
        Ok(span)
    }

    /// Picks the part for a chunk; `None` where the reserve limit is met.
    fn pick(&self, space: Space, wanted: Level, most: Level, words: u64) -> Option<Span>
        requires kept { IsKept self.now }
        requires asks { MayTake wanted most words }
        ensures picked { IfSome result
            (λ span. span ≡ part_picked (state_in space (ledger_of self.now)) wanted most words) }
        ensures slot { IfSome result (λ span. IsOpen space self.now.nodes (slot_of span.start)) }
        ensures level { most ≤ highest_level }
        ensures room { OnSome result
            (is_full (state_in space (ledger_of self.now)) most ≡ false) }
        ensures full { IfNone result
            (is_full (state_in space (ledger_of self.now)) most ≡ true) }
    {
        match self.found(space, wanted, most, words) {
            Some(part) => Some(Span {
                start: part.start,
                level: Level::new(part.level.number().max(wanted.number())),
            }),
            None => match self.new_slot(space) {
                Some(slot) => Some(Span {
                    start: u64::from(slot) * NODE_WORDS,
                    level: wanted,
                }),
                None => None,
            },
        }
    }

    /// The lowest slot that isn't reserved, where one more may be.
    fn new_slot(&self, space: Space) -> Option<u32>
        requires { IsKept self.now }
        ensures lowest { IfSome result (λ slot. slot ≡ lowest_unreserved self.now.nodes.slots) }
        ensures low { IfSome result (λ slot. slot < first_class_slot) }
        ensures space { OnSome result (space ≡ NonClass) }
        ensures granted { OnSome result
            (length self.now.nodes.slots < self.now.nodes.limits.nodes) }
        ensures full { IfNone result
            (length (slots_of space self.now.nodes)
            ≡ by_space space self.now.nodes.limits.nodes self.now.nodes.class_slots) }
    {
        match space {
            Space::Class => None,
            Space::NonClass => {
                if self.nodes.reserved() == self.nodes.node_limit() {
                    return None;
                }
                lowest_missing(&self.nodes)
            }
        }
    }

    /// The refusal where no part is free and no node may be reserved.
    fn reserve_limit(&self, space: Space) -> Refusal
        requires { IsKept self.now }
        ensures { result
            ≡ Refusal.ReserveLimit (length (slots_of space self.now.nodes))
            (by_space space self.now.nodes.limits.nodes self.now.nodes.class_slots) }
    {
        match space {
            Space::NonClass => Refusal::ReserveLimit {
                nodes: self.nodes.reserved(),
                limit: self.nodes.node_limit(),
            },
            Space::Class => Refusal::ReserveLimit {
                nodes: self.nodes.class_slots(),
                limit: self.nodes.class_slots(),
            },
        }
    }

    /// How many granules of a chunk's front are missing.
    fn missing(&self, space: Space, chunk: &Chunk) -> u64
        requires kept { IsKept self.now }
        requires some { 1 ≤ chunk.now.front }
        requires inside { IsRunOf space chunk.now.start chunk.now.front }
        requires fits { chunk.now.start + chunk.now.front < 2 ^ 63 }
        ensures { result ≡ lacking (state_in space (ledger_of self.now)) chunk.now }
    {
        let (first, count) = granules_meeting(granule(self.policy), chunk.start, chunk.front);
        missing_among(&self.nodes, first, count)
    }

    /// The refusal where so many granules more would pass the limit.
    fn commit_limit(&self, need: u64) -> Option<Refusal>
        requires kept { IsKept self.now }
        ensures refusal { IfSome result (λ refusal.
            refusal
            ≡ Refusal.CommitLimit (length self.now.nodes.granules) self.now.nodes.limits.granules need) }
        ensures met { OnSome result
            (self.now.nodes.limits.granules < length self.now.nodes.granules + need) }
        ensures within { IfNone result
            (length self.now.nodes.granules + need ≤ self.now.nodes.limits.granules) }
    {
        let committed = self.nodes.committed();
        let limit = self.nodes.granule_limit();
        if need > limit - committed {
            return Some(Refusal::CommitLimit {
                committed,
                limit,
                need,
            });
        }
        None
    }

    /// Lends a part that is free, or that is of a node which isn't reserved yet, and commits what
    /// its front needs; `false` where memory is wanting.
    fn lend(&mut self, space: Space, owner: u32, chunk: &Chunk, need: u64) -> bool
        requires kept { IsKept self.old }
        requires counted { IsCounted self.old }
        requires may { MayBeLent self.old space owner chunk.now }
        requires need { need ≡ lacking (state_in space (ledger_of self.old)) chunk.now }
        ensures lent { IsTrue result
            → ledger_of self.new ≡ with_lent (ledger_of self.old) space owner chunk.now }
        ensures unchanged { IsFalse result → ledger_of self.new ≡ ledger_of self.old }
        ensures kept { IsKept self.new }
        ensures counted { IsCounted self.new }
    {
        if !carve(&mut self.trees, self.alloc, owner, chunk) {
            return false;
        }
        reserve(&mut self.nodes, (chunk.start / NODE_WORDS) as u32);
        commit(&mut self.nodes, granule(self.policy), chunk, need);
        self.lent.add(space, chunk);
        true
    }

    /// Makes the front of the account's chunk that starts there reach so many words.
    pub(crate) fn grow(
        &mut self,
        account: &mut Account,
        start: u64,
        total: u64,
        may_enlarge: bool,
    ) -> Result<Span, Refusal>
        requires ready { IsReady self.old }
        requires served { Serves (ledger_of self.old) account.old }
        requires held { IsTrue (has_chunk_at account.old.chunks start) }
        ensures ready { IsReady self.new }
        ensures grown { IfOk result
            (λ span. Grows self.old.policy start total may_enlarge account.old span account.new) }
        ensures unchanged { OnErr result (account.new ≡ account.old) }
        ensures grew { Grew (ledger_of self.old) account.old start total may_enlarge result (ledger_of self.new) }
        ensures chunks { AreChunks account.old.space account.old.chunks × AreChunks account.new.space account.new.chunks }
    {
        let space = account.space;
        let index = index_of(&account.chunks, start);
        let chunk = account.chunks[index];
        if total <= chunk.front {
            return Ok(span_of(&chunk));
        }
        let Some(greater) = self.reaching(space, &chunk, total, may_enlarge) else {
            self.counts.grow_room = self.counts.grow_room.wrapping_add(1);
            return Err(Refusal::NoRoom { level: chunk.level });
        };
        let need = self.missing(space, &greater);
        if let Some(refusal) = self.commit_limit(need) {
            self.counts.grow_commit = self.counts.grow_commit.wrapping_add(1);
            return Err(refusal);
        }
        self.replace(space, &chunk, &greater, need);
        self.lent.replace(space, &chunk, &greater);
        let span = span_of(&greater);
        account.chunks[index] = greater;
        Ok(span)
    }

    /// The chunk once it reaches so many words: with a greater front, or as its parent.
    fn reaching(&self, space: Space, chunk: &Chunk, total: u64, may_enlarge: bool) -> Option<Chunk>
        requires kept { IsKept self.now }
        requires own { IsLentThere self.now space chunk.now }
        ensures { result
            ≡ reached (state_in space (ledger_of self.now)) chunk.now total may_enlarge }
    {
        let size = chunk.level.words();
        if total <= size {
            return Some(chunk_at(self.policy, chunk.start, chunk.level, total));
        }
        if total <= 2 * size && may_enlarge && self.may_become_parent(space, chunk) {
            let level = Level::new(chunk.level.number() - 1);
            return Some(chunk_at(self.policy, chunk.start, level, total));
        }
        None
    }

    /// Returns whether a chunk is no root, the leader, and its buddy one free part.
    fn may_become_parent(&self, space: Space, chunk: &Chunk) -> bool
        requires kept { IsKept self.now }
        requires own { IsLentThere self.now space chunk.now }
        ensures room { result ≡ has_room (state_in space (ledger_of self.now)) chunk.now }
        ensures no_root { IsTrue result → 0 < chunk.now.level }
    {
        let root = (chunk.start / ROOT_WORDS) as usize;
        self.trees.tree(root).can_enlarge(Span {
            start: chunk.start % ROOT_WORDS,
            level: chunk.level,
        })
    }

    /// Puts the grown chunk in the place of the chunk, and commits what its front needs.
    fn replace(&mut self, space: Space, chunk: &Chunk, greater: &Chunk, need: u64)
        requires kept { IsKept self.old }
        requires own { IsLentThere self.old space chunk.now }
        requires may { MayBeReplaced self.old space chunk.now greater.now }
        requires need { need ≡ lacking (state_in space (ledger_of self.old)) greater.now }
        ensures grown { ledger_of self.new ≡ with_grown (ledger_of self.old) greater.now }
        ensures kept { IsKept self.new }
        ensures lent { self.new.lent ≡ self.old.lent }
    {
        raise(&mut self.trees, chunk, greater);
        commit(&mut self.nodes, granule(self.policy), greater, need);
    }

    /// Takes all chunks of the account back.
    pub(crate) fn close(&mut self, account: &Account)
        requires kept { IsKept self.old }
        requires served { Serves (ledger_of self.old) account.now }
        requires opened { 0 < opened_in (ledger_of self.old) account.now.space }
        requires counted { IsCounted self.old }
        ensures closed { Closed (ledger_of self.old) account.now (ledger_of self.new) }
        ensures kept { IsKept self.new }
        ensures counted { IsCounted self.new }
    {
        for index in 0..account.held() {
            self.release(account.chunk(index));
        }
        self.lent.take_out(account);
        match account.space() {
            Space::NonClass => self.opened -= 1,
            Space::Class => self.class_opened -= 1,
        }
    }

    /// Takes all chunks of the accounts of both spaces back; the first is not the class space's.
    pub(crate) fn close_both(&mut self, account: &Account, class_account: &Account)
        requires kept { IsKept self.old }
        requires both { ServesBoth Serves (ledger_of self.old) account.now class_account.now }
        requires opened { 0 < (ledger_of self.old).opened }
        requires class_opened { 0 < (ledger_of self.old).class_opened }
        requires counted { IsCounted self.old }
        ensures closed { ClosedBoth (ledger_of self.old) account.now class_account.now (ledger_of self.new) }
        ensures kept { IsKept self.new }
        ensures counted { IsCounted self.new }
    {
        // What holds of the chunks of every account is learnt here.
        let _ = account.held();
        let _ = class_account.held();
        self.close(account);
        self.close(class_account);
    }

    /// Takes a chunk back, and uncommits what no front meets any more.
    fn release(&mut self, chunk: Chunk)
        requires kept { IsKept self.old }
        requires lent { IsTrue (is_lent_in (ledger_of self.old).loans chunk) }
        ensures released { ledger_of self.new ≡ with_released (ledger_of self.old) chunk }
        ensures kept { IsKept self.new }
        ensures lent { self.new.lent ≡ self.old.lent }
    {
        let root = chunk.start / ROOT_WORDS;
        let part = put_back(&mut self.trees, &chunk);
        let granule = granule(self.policy);
        let size = part.level.words();
        if self.policy != Policy::None && granule <= size {
            self.nodes
                .uncommit((part.start + root * ROOT_WORDS) / granule, size / granule);
        }
    }
}

/// The index of the chunk that starts there, looked for from the last one on: an arena grows that.
fn index_of(chunks: &[Chunk], start: u64) -> usize
    requires { IsTrue (has_chunk_at chunks.now start) }
    ensures there { result < length chunks.now }
    ensures starts { IfSome (slice_get chunks.now result) (λ chunk. chunk.start ≡ start) }
{
    for later in 0..chunks.len() {
        let index = chunks.len() - 1 - later;
        if chunks[index].start == start {
            return index;
        }
    }
    unreachable!()
}

/// Where a chunk lies.
fn span_of(chunk: &Chunk) -> Span
    ensures { result ≡ span_of chunk.now }
{
    Span {
        start: chunk.start,
        level: chunk.level,
    }
}

/// The chunk of an index, with a front for so many words.
fn chunk_at(policy: Policy, start: u64, level: Level, words: u64) -> Chunk
    requires { words ≤ root_words }
    ensures { result
        ≡ record { start = start; level = level; front = front_for policy (size_of level) words } }
{
    let size = level.words();
    let granule = granule(policy);
    let front = if policy == Policy::None || size < granule {
        size
    } else {
        words.div_ceil(granule) * granule
    };
    Chunk {
        start,
        level,
        front,
    }
}

/// The lowest slot that isn't reserved, where one below the class space's isn't.
fn lowest_missing(nodes: &Nodes) -> Option<u32>
    requires sound { AreSound nodes.now }
    requires few { nodes.now.limits.nodes ≤ first_class_slot }
    requires left { length nodes.now.slots < nodes.now.limits.nodes }
    ensures lowest { IfSome result (λ slot. slot ≡ lowest_unreserved nodes.now.slots) }
    ensures low { IfSome result (λ slot. slot < first_class_slot) }
    ensures some { IsSome result }
{
    for slot in 0..SLOTS {
        if !nodes.is_reserved(slot) {
            return Some(slot);
        }
    }
    None
}

/// Reserves a slot where it isn't reserved; then it is the lowest, and one more may be.
fn reserve(nodes: &mut Nodes, slot: u32)
    requires sound { AreSound nodes.old }
    requires lowest { is_reserved (all_slots nodes.old) slot ≡ false → slot ≡ lowest_unreserved nodes.old.slots }
    requires left { is_reserved (all_slots nodes.old) slot ≡ false → length nodes.old.slots < nodes.old.limits.nodes }
    ensures reserved { nodes.new ≡ with_reserved nodes.old slot }
    ensures sound { AreSound nodes.new }
{
    if !nodes.is_reserved(slot) {
        match nodes.reserve() {
            Ok(_) => {}
            Err(_) => unreachable!(),
        }
    }
}

/// Commits the granules of a front, of which so many are missing; they lie in reserved slots and
/// are within the limit. Most fronts miss none, and then the mask isn't looked at again.
fn commit(nodes: &mut Nodes, granule: u64, chunk: &Chunk, need: u64)
    requires sound { AreSound nodes.old }
    requires granule { least_granule ≤ granule }
    requires front { (1 ≤ chunk.now.front) × (chunk.now.start + chunk.now.front < 2 ^ 63) }
    requires reserved { AreInReserved nodes.old (chunk.now.start / granule)
        ((chunk.now.start + chunk.now.front - 1) / granule + 1 - chunk.now.start / granule) }
    requires limit { granules_with nodes.old (chunk.now.start / granule)
        ((chunk.now.start + chunk.now.front - 1) / granule + 1 - chunk.now.start / granule)
        ≤ nodes.old.limits.granules }
    requires need { need
        ≡ count_missing nodes.old.granules (chunk.now.start / granule)
        ((chunk.now.start + chunk.now.front - 1) / granule + 1 - chunk.now.start / granule) }
    ensures committed { nodes.new
        ≡ with_granules nodes.old (chunk.now.start / granule)
        ((chunk.now.start + chunk.now.front - 1) / granule + 1 - chunk.now.start / granule) }
    ensures sound { AreSound nodes.new }
{
    if need == 0 {
        return;
    }
    let (first, count) = granules_meeting(granule, chunk.start, chunk.front);
    match nodes.commit(first, count) {
        Ok(_) => {}
        Err(_) => unreachable!(),
    }
}
