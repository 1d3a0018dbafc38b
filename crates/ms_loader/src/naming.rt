//! The names of a loader's blocks, and how an allocation enters one.
//!
//!     allocate_in ── room for the name ── is it new? ──> the arena ──> the name enters the room
//!
//! A name is found, entered and taken out in about the same time, however many there are (`table`).
//! Making room for a name takes memory, so it is done before the arena is asked. Where the arena
//! refuses, no name was ever entered, and the room stays for a later one.
ghost use Rattle.std.specs.Prelude.{◌≡◌, IfNone, IfErr, []};
ghost use Rattle.ms_base.specs.Names.{AreNamed, named, without};
ghost use Rattle.ms_arena.specs.Raw.{raw_account};
ghost use Rattle.ms_pool.specs.Source.{LeavesRest};
ghost use Rattle.ms_base.specs.Hashed.{by_name};
ghost use Rattle.ms_loader.specs.Naming.{AllocatesNamed, NamedRefused};
ghost use Rattle.ms_loader.specs.Table.{HasSlot, entries_of};

mod finding;
mod small_block;
mod table;

use ms_arena::{RawArena, wanting_room};
use ms_base::{Block, Refusal};
use ms_pool::ChunkSource;
use small_block::SmallBlock;
use std::alloc::Global;
use std::collections::HashMap;
use std::collections::hash_map::Entry;
use std::marker::Model;
use table::Table;

/// Blocks by name, 0 to 2^32 - 1.
#[derive(Drop)]
pub struct Names {
    /// The block of each name.
    table: Table,
}

impl Model for Names {
    ghost use Rattle.ms_loader.specs.Naming.{BlockNames, names_of};

    ghost Value = { BlockNames };

    ghost view = { λ names. names_of names.table };
}

impl Names {
    /// Makes a list of no names, which takes its memory from the allocator. Takes none yet.
    pub fn new(alloc: Global) -> Names
        ensures empty { result.entries ≡ [] }
    {
        Names {
            table: Table::new(alloc),
        }
    }

    /// Takes all names out, and keeps the memory that they had.
    pub fn clear(&mut self)
        ensures empty { self.new.entries ≡ [] }
    {
        self.table.clear();
    }

    /// Returns for how many names there is memory.
    pub fn capacity(&self) -> usize {
        self.table.capacity()
    }

    /// Returns which block has a name, if one has. Takes no memory.
    #[inline(always)]
    pub fn get(&self, name: u32) -> Option<Block>
        ensures block { result ≡ named self.now.entries name }
        ensures names { AreNamed self.now.entries }
    {
        self.table.get(name)
    }

    /// Takes a name out, and returns which block had it, if one had. Takes no memory.
    pub fn remove(&mut self, name: u32) -> Option<Block>
        ensures block { result ≡ named self.old.entries name }
        ensures entries { self.new.entries ≡ without self.old.entries name }
        ensures unchanged { IfNone result (self.new.entries ≡ self.old.entries) }
    {
        self.table.remove(name)
    }
}

/// Allocates a block of so many words in the arena, under a new name. Refused with `BlockExists`
/// where the name is used, then with `ZeroWords` and `TooLarge`, with `OutOfMemory` where the name
/// finds no room, and as the arena refuses; then nothing changes. Takes memory.
pub fn allocate_in<S: ChunkSource>(
    names: &mut Names,
    arena: &mut RawArena,
    source: &mut S,
    name: u32,
    words: u64,
) -> Result<Block, Refusal>
    requires { S.serves source.old (raw_account arena.old) }
    ensures served { S.serves source.new (raw_account arena.new) }
    ensures rest { LeavesRest S.serves S.opened S.limits arena.old.owner source.old source.new }
    ensures allocates { AllocatesNamed S.grew S.took (S.limits source.old).policy names.old.entries
        arena.old name words source.old result names.new.entries arena.new source.new }
    ensures refused { IfErr result (NamedRefused names.old.entries name words) }
{
    let many = arena.expects_many();
    let mut refused = false;
    if names.table.make_slot(name, many, &mut refused) {
        return allocate_in_row(&mut names.table, arena, source, name, words);
    }
    allocate_beside(&mut names.table.others, arena, source, name, words, refused)
}

/// Allocates a block whose name has a slot in the row.
#[inline(always)]
fn allocate_in_row<S: ChunkSource>(
    table: &mut Table,
    arena: &mut RawArena,
    source: &mut S,
    name: u32,
    words: u64,
) -> Result<Block, Refusal>
    requires served { S.serves source.old (raw_account arena.old) }
    requires slot { HasSlot table.old.first table.old.row name }
    ensures served { S.serves source.new (raw_account arena.new) }
    ensures rest { LeavesRest S.serves S.opened S.limits arena.old.owner source.old source.new }
    ensures allocates { AllocatesNamed S.grew S.took (S.limits source.old).policy (by_name (entries_of table.old))
        arena.old name words source.old result (by_name (entries_of table.new)) arena.new source.new }
    ensures refused { IfErr result (NamedRefused (by_name (entries_of table.old)) name words) }
{
    if table.get(name).is_some() {
        return Err(Refusal::BlockExists);
    }
    let block = arena.alloc(source, words)?;
    table.put(name, block);
    Ok(block)
}

/// Allocates a block whose name is beside the row. The room for it is held until the block is
/// known, and the name enters it with no second look. Where memory was refused already a new name
/// is refused.
#[inline(never)]
fn allocate_beside<S: ChunkSource>(
    others: &mut HashMap<u32, SmallBlock>,
    arena: &mut RawArena,
    source: &mut S,
    name: u32,
    words: u64,
    refused: bool,
) -> Result<Block, Refusal>
    requires { S.serves source.old (raw_account arena.old) }
    ensures served { S.serves source.new (raw_account arena.new) }
    ensures rest { LeavesRest S.serves S.opened S.limits arena.old.owner source.old source.new }
    ensures allocates { AllocatesNamed S.grew S.took (S.limits source.old).policy (by_name others.old.entries)
        arena.old name words source.old result (by_name others.new.entries) arena.new source.new }
    ensures refused { IfErr result (NamedRefused (by_name others.old.entries) name words) }
{
    match others.entry(name) {
        Ok(Entry::Vacant(slot)) => {
            if refused {
                return Err(wanting_room(words));
            }
            let block = arena.alloc(source, words)?;
            let _ = slot.insert(SmallBlock::new(block));
            Ok(block)
        }
        Ok(Entry::Occupied(_found)) => Err(Refusal::BlockExists),
        Err(_) => Err(wanting_room(words)),
    }
}
