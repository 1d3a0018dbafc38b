//! The machine that makes a trace of what a log says.
//!
//!     Requested, ChunkHandedOut, Returned   ->   alloc 3 17 40
//!
//! A request's line stands where its first step in the pool stood, which is under one lock for all
//! threads, or else where its answer stood: so lines are held back until what stands before them is
//! known. Takes memory for what lives, and for the lines held back.
ghost use Rattle.std.specs.Prelude.{◌≡◌, ◌∷◌, [], ℕ, true, false, None, Some, All, IfOk, IfSome, IfNone, OnOk, length, ◌≤◌, map, nat_eq};
ghost use Rattle.std.specs.Map.{lookup, update};
ghost use Rattle.std.specs.Option.{option_map};
ghost use Rattle.jvm_log.specs.Asking.{Asking, asked, passed};
ghost use Rattle.jvm_log.specs.Following.{Ends, HandsOut, KnowsNothing};
ghost use Rattle.jvm_log.specs.Giving.{Adds, Answers, Bears, Gives, GivesUp, Opens, Passes, Takes, bare, freeing, given, reporting, unloading};
ghost use Rattle.jvm_log.specs.Held.{none_may_go, shortened, without_line};
ghost use Rattle.jvm_log.specs.Known.{blocks_in, known_in, loaders_in, owner_of, request_of, waits};
ghost use Rattle.jvm_log.specs.Living.{Comes, Counts, Dies, IsBorn, Living, Same};
ghost use Rattle.jvm_log.specs.Lying.{Clears, IsTaken, Lays, Lying, Tells, answer_as, laid_in};
ghost use Rattle.jvm_log.specs.Waits.{UsesNames, acts_in, fixed_in, is_closed, lines_in, names_in, waiting_in};

use crate::event::{Event, Said};
use crate::held::{Entry, Held};
use crate::kinds::kind_by_level;
use crate::loader::{Block, Loader, Request};
use crate::names::Names;
use crate::placed::Placed;
use crate::trouble::Trouble;
use ms_base::{Kind, Space, Step};
use ms_trace::Command;
use std::alloc::{AllocError, Global};
use std::collections::HashMap;

/// The most lines that are held back: past that the first goes out as far as it is known.
const MOST_HELD: usize = 100_000;

/// The answer to a thread's last request, before the JVM logs its address.
#[derive(Clone, Copy, Debug, PartialEq, Eq)]
enum Answer {
    /// A block at that address.
    At(u64),
    /// This block, whose address comes with `Told`.
    FromFreeBlocks(Block),
}

/// What is known of the JVM at a line of its log.
#[derive(Drop)]
pub struct Machine {
    names: Names,
    /// The loaders that live, by their addresses.
    loaders: HashMap<u64, Loader>,
    /// The loaders' addresses, by those of their arenas.
    arenas: HashMap<u64, u64>,
    /// The open requests, by their threads.
    requests: HashMap<u64, Request>,
    /// The last answers, by their threads.
    answers: HashMap<u64, Answer>,
    /// The blocks that live, by their addresses.
    blocks: HashMap<u64, Block>,
    held: Held,
    births: u64,
    /// Whether any line about the metaspace came.
    began: bool,
    /// Whether any line had a request.
    asked: bool,
    reports: bool,
}

impl Machine {
    /// Makes a machine that knows nothing. With `reports` it asks for a report after each collection.
    pub fn new(alloc: Global, reports: bool) -> Result<Machine, AllocError>
        ensures { IfOk result (λ machine. KnowsNothing reports (known_in machine)) }
    {
        Ok(Machine {
            names: Names::new(alloc)?,
            loaders: HashMap::new(alloc),
            arenas: HashMap::new(alloc),
            requests: HashMap::new(alloc),
            answers: HashMap::new(alloc),
            blocks: HashMap::new(alloc),
            held: Held::new(alloc),
            births: 0,
            began: false,
            asked: false,
            reports,
        })
    }

    /// Returns how many loaders were born so far, each of which has a line in the trace.
    pub fn births(&self) -> u64 {
        self.births
    }

    /// Checks whether any line had a request.
    pub fn has_requests(&self) -> bool {
        self.asked
    }

    /// Returns how many loaders were born before the one whose block lies at that address.
    pub fn birth_at(&self, address: u64) -> Option<u64> {
        Some(self.blocks.get(&address)?.birth)
    }

    /// Takes in what a line says. What is wrong with it is no error.
    pub fn take_in(&mut self, said: Said) -> Result<Option<Trouble>, AllocError>
        ensures lines { OnOk result (Takes said.thread said.event (known_in self.old) (names_in self.new)
            (known_in self.new).held) }
        ensures requests { OnOk result (Asking said.thread said.event (known_in self.old) (request_of self.new)) }
        ensures loaders { OnOk result (Living said.thread said.event (known_in self.old) (loaders_in self.new)) }
        ensures blocks { OnOk result (Lying said.thread said.event (known_in self.old) (blocks_in self.new)) }
        ensures names { OnOk result (UsesNames self.old self.new) }
        ensures reports { OnOk result ((known_in self.new).reports ≡ (known_in self.old).reports) }
    {
        let late = self.begin(said.event);
        let trouble = self.heed(said)?;
        self.shorten();
        Ok(late.or(trouble))
    }

    /// Takes in that the log has begun, and returns what the first event of the metaspace shows to
    /// be wrong.
    fn begin(&mut self, event: Event) -> Option<Trouble>
        ensures names { names_in self.new ≡ names_in self.old }
        ensures rest { self.new ≡ record self.old { began = self.new.began } }
    {
        if self.began || !is_of_the_metaspace(event) {
            return None;
        }
        self.began = true;
        match event {
            Event::Begun => None,
            _ => Some(Trouble::BeginsLate),
        }
    }

    /// Gives up waiting for the first line, where too many are held back.
    fn shorten(&mut self)
        ensures lines { lines_in self.new ≡ shortened (lines_in self.old) }
        ensures names { names_in self.new ≡ names_in self.old }
        ensures rest { self.new ≡ record self.old { held = self.new.held } }
        ensures fixed { fixed_in self.new ≡ fixed_in self.old }
    {
        if self.held.len() > MOST_HELD {
            self.held.settle_first();
        }
    }

    /// Does what an event asks.
    #[tactic(auto, using(crate::proofs::NameLemmas::uses_passing, crate::proofs::NameLemmas::uses_quiet, crate::proofs::NameLemmas::uses_same, crate::proofs::GivingLemmas::adds_none, crate::proofs::GivingLemmas::adds_quiet, crate::proofs::KnownLemmas::asks_none, crate::proofs::KnownLemmas::same_is, crate::proofs::KnownLemmas::keeps_is))]
    fn heed(&mut self, said: Said) -> Result<Option<Trouble>, AllocError>
        ensures lines { OnOk result (Gives said.thread said.event (known_in self.old) (names_in self.new)
            (lines_in self.new)) }
        ensures requests { OnOk result (Asking said.thread said.event (known_in self.old) (request_of self.new)) }
        ensures loaders { OnOk result (Living said.thread said.event (known_in self.old) (loaders_in self.new)) }
        ensures blocks { OnOk result (Lying said.thread said.event (known_in self.old) (blocks_in self.new)) }
        ensures names { OnOk result (UsesNames self.old self.new) }
        ensures fixed { fixed_in self.new ≡ fixed_in self.old }
    {
        let thread = said.thread;
        match said.event {
            Event::LoaderBorn {
                loader,
                arena,
                class_arena,
            } => self.bear(loader, arena, class_arena),
            Event::LoaderDies { loader } => self.bury(loader),
            Event::Requested { arena, words, .. } => self.ask(thread, arena, words),
            Event::Returned {
                arena,
                space,
                address,
            } => self.answer(thread, arena, space, Some(address)),
            Event::TakenFromFreeBlocks { arena, space } => self.answer(thread, arena, space, None),
            Event::Failed { .. } => self.refuse(thread),
            Event::Deallocated { arena, address, .. } => self.free(arena, address),
            Event::ChunkRequested { space, level } => self.ask_for_chunk(thread, space, level),
            Event::ChunkHandedOut { .. } | Event::Enlarged { .. } | Event::Committed { .. } => {
                self.pass_the_pool(thread)
            }
            Event::Told { address } => self.tell(thread, address),
            Event::ClassAdded { address, kind } => self.add_class(address, kind),
            Event::Collection => self.collect(),
            Event::Begun | Event::LoaderNamed { .. } | Event::OtherRelease => Ok(None),
            Event::Dropped => Ok(Some(Trouble::Dropped)),
        }
    }

    /// Adds a loader that is born. Where one lives at its address, the log lacks that one's death.
    fn bear(
        &mut self,
        loader: u64,
        arena: u64,
        class_arena: u64,
    ) -> Result<Option<Trouble>, AllocError>
        ensures lines { OnOk result (Bears loader (known_in self.old) (names_in self.new) (lines_in self.new)) }
        ensures loaders { OnOk result (IsBorn loader arena class_arena (loaders_in self.old) (loaders_in self.new)) }
        ensures requests { self.new.requests ≡ self.old.requests }
        ensures blocks { blocks_in self.new ≡ blocks_in self.old }
        ensures names { OnOk result (UsesNames self.old self.new) }
        ensures fixed { fixed_in self.new ≡ fixed_in self.old }
    {
        if !self.loaders.contains_key(&loader) {
            return self.open(loader, arena, class_arena);
        }
        let _ = self.bury(loader)?;
        let _ = self.open(loader, arena, class_arena)?;
        Ok(Some(Trouble::UnknownLoader))
    }

    /// Opens a loader under a name that none has.
    #[tactic(auto, using(crate::proofs::NameLemmas::uses_quiet, crate::proofs::NameLemmas::uses_same))]
    fn open(
        &mut self,
        loader: u64,
        arena: u64,
        class_arena: u64,
    ) -> Result<Option<Trouble>, AllocError>
        ensures lines { OnOk result (Opens (names_in self.new) (lines_in self.old) (lines_in self.new)) }
        ensures loaders { OnOk result (Comes loader arena class_arena (loaders_in self.old) (loaders_in self.new)) }
        ensures requests { self.new.requests ≡ self.old.requests }
        ensures blocks { blocks_in self.new ≡ blocks_in self.old }
        ensures names { OnOk result (UsesNames self.old self.new) }
        ensures fixed { fixed_in self.new ≡ fixed_in self.old }
    {
        let Some(name) = self.names.take() else {
            return Ok(Some(Trouble::NoName));
        };
        let line = self.held.open(Entry::Born(name))?;
        let birth = self.births;
        self.births = birth.wrapping_add(1);
        self.loaders.insert(
            loader,
            Loader {
                birth,
                name,
                kind: None,
                line,
                next: 0,
                arena,
                class_arena,
            },
        )?;
        self.arenas.insert(arena, loader)?;
        self.arenas.insert(class_arena, loader)?;
        if birth == 0 {
            self.set_kind(loader, Kind::Boot);
        }
        Ok(None)
    }

    /// Sets the kind of a loader that has none.
    fn set_kind(&mut self, loader: u64, kind: Kind)
        ensures acts { acts_in self.new ≡ acts_in self.old }
        ensures lines { map bare (lines_in self.new) ≡ map bare (lines_in self.old) }
        ensures loaders { (address : ℕ)
            → (loaders_in self.new).loader_at address ≡ (loaders_in self.old).loader_at address }
        ensures rest { self.new ≡ record self.old { loaders = self.new.loaders; held = self.new.held } }
        ensures names { names_in self.new ≡ names_in self.old }
        ensures fixed { fixed_in self.new ≡ fixed_in self.old }
    {
        let Some(known) = self.loaders.get_mut(&loader) else {
            return;
        };
        if known.kind.is_some() {
            return;
        }
        known.kind = Some(kind);
        let line = known.line;
        self.held.tell_kind(line, kind);
    }

    /// Removes a loader that dies.
    #[tactic(auto, using(crate::proofs::NameLemmas::uses_quiet, crate::proofs::NameLemmas::uses_same))]
    fn bury(&mut self, loader: u64) -> Result<Option<Trouble>, AllocError>
        ensures lines { OnOk result (Adds (unloading ((loaders_in self.old).loader_at loader))
            (lines_in self.old) (lines_in self.new)) }
        ensures loaders { OnOk result (Dies loader (loaders_in self.old) (loaders_in self.new)) }
        ensures requests { self.new.requests ≡ self.old.requests }
        ensures blocks { blocks_in self.new ≡ blocks_in self.old }
        ensures names { OnOk result (UsesNames self.old self.new) }
        ensures fixed { fixed_in self.new ≡ fixed_in self.old }
    {
        let untold = self.untold(loader);
        self.set_kind(loader, Kind::Standard);
        let Some(dead) = self.loaders.remove(&loader) else {
            return Ok(Some(Trouble::UnknownLoader));
        };
        let _ = self.arenas.remove(&dead.arena);
        let _ = self.arenas.remove(&dead.class_arena);
        self.held.add(Placed::from(Command::Step(Step::Unload { loader: dead.name })))?;
        self.names.give_back(dead.name);
        Ok(untold)
    }

    /// Returns what is wrong with a loader that has blocks, and whose kind isn't known.
    fn untold(&self, loader: u64) -> Option<Trouble> {
        match self.loaders.get(&loader) {
            Some(known) if known.kind.is_none() && known.next != 0 => Some(Trouble::UnknownKind),
            _ => None,
        }
    }

    /// Opens a thread's request to an arena for words.
    fn ask(&mut self, thread: u64, arena: u64, words: u64) -> Result<Option<Trouble>, AllocError>
        ensures blocks { blocks_in self.new ≡ blocks_in self.old }
        ensures requests { OnOk result ((q : ℕ) → request_of self.new q ≡ update nat_eq (request_of self.old) thread
            (asked ((loaders_in self.old).owner_at arena) arena words) q) }
        ensures loaders { loaders_in self.new ≡ loaders_in self.old }
        ensures lines { OnOk result (GivesUp thread (known_in self.old) (lines_in self.new)) }
        ensures names { names_in self.new ≡ names_in self.old }
        ensures fixed { fixed_in self.new ≡ fixed_in self.old }
    {
        self.asked = true;
        let trouble = self.forget(thread);
        if !self.arenas.contains_key(&arena) {
            return Ok(Some(Trouble::UnknownArena));
        }
        self.requests.insert(
            thread,
            Request {
                arena,
                words,
                line: None,
            },
        )?;
        Ok(trouble)
    }

    /// Forgets a request that a thread has open.
    fn forget(&mut self, thread: u64) -> Option<Trouble>
        ensures requests { (q : ℕ) → request_of self.new q ≡ update nat_eq (request_of self.old) thread None q }
        ensures rest { self.new ≡ record self.old { requests = self.new.requests; held = self.new.held } }
        ensures lines { GivesUp thread (known_in self.old) (lines_in self.new) }
        ensures names { names_in self.new ≡ names_in self.old }
        ensures fixed { fixed_in self.new ≡ fixed_in self.old }
    {
        let request = self.requests.remove(&thread)?;
        self.abandon(request);
        Some(Trouble::Unanswered)
    }

    /// Makes nothing of a request.
    fn abandon(&mut self, request: Request)
        ensures rest { self.new ≡ record self.old { held = self.new.held } }
        ensures lines { lines_in self.new ≡ without_line request.line (known_in self.old).held }
        ensures names { names_in self.new ≡ names_in self.old }
        ensures fixed { fixed_in self.new ≡ fixed_in self.old }
    {
        if let Some(line) = request.line {
            self.held.cancel(line);
        }
    }

    /// Takes back a request that is refused: HotSpot asks again.
    fn refuse(&mut self, thread: u64) -> Result<Option<Trouble>, AllocError>
        ensures blocks { blocks_in self.new ≡ blocks_in self.old }
        ensures loaders { loaders_in self.new ≡ loaders_in self.old }
        ensures requests { OnOk result ((q : ℕ)
            → request_of self.new q ≡ update nat_eq (request_of self.old) thread None q) }
        ensures lines { OnOk result (GivesUp thread (known_in self.old) (lines_in self.new)) }
        ensures names { names_in self.new ≡ names_in self.old }
        ensures fixed { fixed_in self.new ≡ fixed_in self.old }
    {
        Ok(match self.forget(thread) {
            Some(_) => None,
            None => Some(Trouble::Unasked),
        })
    }

    /// Notes a step of a thread's request in the pool: the first decides where its line stands.
    fn pass_the_pool(&mut self, thread: u64) -> Result<Option<Trouble>, AllocError>
        ensures blocks { blocks_in self.new ≡ blocks_in self.old }
        ensures loaders { loaders_in self.new ≡ loaders_in self.old }
        ensures requests { OnOk result ((q : ℕ) → request_of self.new q ≡ update nat_eq (request_of self.old) thread
            (option_map (passed self.old.held) (request_of self.old thread)) q) }
        ensures lines { OnOk result (Passes thread (known_in self.old) (lines_in self.new)) }
        ensures names { names_in self.new ≡ names_in self.old }
        ensures fixed { fixed_in self.new ≡ fixed_in self.old }
    {
        if let Some(request) = self.requests.get_mut(&thread)
            && request.line.is_none()
        {
            *request = request.placed_at(self.held.open(Entry::Asked)?);
        }
        Ok(None)
    }

    /// Notes the level of the chunk that a thread's request asks for, which may show a loader's kind.
    fn ask_for_chunk(
        &mut self,
        thread: u64,
        space: Space,
        level: u64,
    ) -> Result<Option<Trouble>, AllocError>
        ensures loaders { Same (loaders_in self.old) (loaders_in self.new) }
        ensures lines { map bare (lines_in self.new) ≡ map bare (lines_in self.old) }
        ensures requests { self.new.requests ≡ self.old.requests }
        ensures blocks { blocks_in self.new ≡ blocks_in self.old }
        ensures acts { acts_in self.new ≡ acts_in self.old }
        ensures names { names_in self.new ≡ names_in self.old }
        ensures fixed { fixed_in self.new ≡ fixed_in self.old }
    {
        if let Some(request) = self.requests.get(&thread)
            && let Some(loader) = self.arenas.get(&request.arena)
            && let Some(kind) = kind_by_level(space, level, request.words)
        {
            let loader = *loader;
            self.set_kind(loader, kind);
        }
        Ok(None)
    }

    /// Answers a request, by a block at that address or by a free block.
    fn answer(
        &mut self,
        thread: u64,
        arena: u64,
        space: Space,
        address: Option<u64>,
    ) -> Result<Option<Trouble>, AllocError>
        ensures lines { OnOk result (Answers thread arena space (known_in self.old) (lines_in self.new)) }
        ensures loaders { OnOk result (Counts arena (given thread arena space (known_in self.old))
            (loaders_in self.old) (loaders_in self.new)) }
        ensures blocks { OnOk result (Lays thread arena address (given thread arena space (known_in self.old))
            (known_in self.old) (blocks_in self.new)) }
        ensures requests { OnOk result ((q : ℕ)
            → request_of self.new q ≡ update nat_eq (request_of self.old) thread None q) }
        ensures acts { OnOk result (acts_in self.new ≡ acts_in self.old) }
        ensures names { names_in self.new ≡ names_in self.old }
        ensures fixed { fixed_in self.new ≡ fixed_in self.old }
    {
        let Some(request) = self.requests.remove(&thread) else {
            return Ok(Some(Trouble::Unasked));
        };
        let Some(loader) = self.arenas.get(&arena).copied() else {
            self.abandon(request);
            return Ok(Some(Trouble::UnknownArena));
        };
        let Some(owner) = self.loaders.get_mut(&loader) else {
            self.abandon(request);
            return Ok(Some(Trouble::UnknownLoader));
        };
        let line = Placed {
            command: Command::Step(owner.allocating(space, request.words)),
            address: address.unwrap_or(0),
        };
        let Some(block) = owner.next_block(loader) else {
            self.abandon(request);
            return Ok(Some(Trouble::NoName));
        };
        keep(&mut self.blocks, &mut self.answers, thread, block, address)?;
        self.held.put(request.line, line)?;
        Ok(None)
    }

    /// Notes the address of a thread's block. After a collection the answer was another thread's.
    fn tell(&mut self, thread: u64, address: u64) -> Result<Option<Trouble>, AllocError>
        ensures loaders { loaders_in self.new ≡ loaders_in self.old }
        ensures requests { self.new.requests ≡ self.old.requests }
        ensures blocks { OnOk result (Tells thread address (blocks_in self.old) (blocks_in self.new)) }
        ensures lines { lines_in self.new ≡ lines_in self.old }
        ensures names { names_in self.new ≡ names_in self.old }
        ensures fixed { fixed_in self.new ≡ fixed_in self.old }
    {
        if let Some(Answer::FromFreeBlocks(block)) = self.take_answer(thread, address) {
            self.blocks.insert(address, block)?;
        }
        Ok(None)
    }

    /// Takes a thread's last answer, or where it has none another's that may be the block at that
    /// address.
    fn take_answer(&mut self, thread: u64, address: u64) -> Option<Answer>
        ensures answer { IsTaken thread result (blocks_in self.old) (blocks_in self.new) }
        ensures rest { self.new ≡ record self.old { answers = self.new.answers } }
    {
        if let Some(answer) = self.answers.remove(&thread) {
            return Some(answer);
        }
        let other = self.answerer(address)?;
        self.answers.remove(&other)
    }

    /// Finds the thread whose last answer may be the block at that address.
    fn answerer(&self, address: u64) -> Option<u64> {
        let mut found = None;
        for (thread, answer) in self.answers.iter() {
            match answer {
                Answer::At(at) => {
                    if *at == address {
                        return Some(*thread);
                    }
                }
                Answer::FromFreeBlocks(_) => found = Some(*thread),
            }
        }
        found
    }

    /// Frees an arena's block at that address.
    fn free(&mut self, arena: u64, address: u64) -> Result<Option<Trouble>, AllocError>
        ensures lines { OnOk result (Adds (freeing (owner_of (loaders_in self.old) arena)
            ((blocks_in self.old).block_at address)) (lines_in self.old) (lines_in self.new)) }
        ensures loaders { loaders_in self.new ≡ loaders_in self.old }
        ensures requests { self.new.requests ≡ self.old.requests }
        ensures blocks { OnOk result (Clears (owner_of (loaders_in self.old) arena) address
            (blocks_in self.old) (blocks_in self.new)) }
        ensures acts { OnOk result (acts_in self.new ≡ acts_in self.old) }
        ensures names { names_in self.new ≡ names_in self.old }
        ensures fixed { fixed_in self.new ≡ fixed_in self.old }
    {
        let Some(loader) = self.arenas.get(&arena) else {
            return Ok(Some(Trouble::UnknownArena));
        };
        let Some(owner) = self.loaders.get(loader) else {
            return Ok(Some(Trouble::UnknownLoader));
        };
        let Some(block) = self.blocks.remove(&address) else {
            return Ok(Some(Trouble::UnknownBlock));
        };
        let Some(step) = owner.freeing(&block) else {
            return Ok(Some(Trouble::UnknownBlock));
        };
        self.held.add(Placed::from(Command::Step(step)))?;
        Ok(None)
    }

    /// Notes the kind of the loader whose class has its block at that address.
    fn add_class(&mut self, address: u64, kind: Kind) -> Result<Option<Trouble>, AllocError>
        ensures loaders { Same (loaders_in self.old) (loaders_in self.new) }
        ensures lines { map bare (lines_in self.new) ≡ map bare (lines_in self.old) }
        ensures requests { self.new.requests ≡ self.old.requests }
        ensures blocks { blocks_in self.new ≡ blocks_in self.old }
        ensures acts { acts_in self.new ≡ acts_in self.old }
        ensures names { names_in self.new ≡ names_in self.old }
        ensures fixed { fixed_in self.new ≡ fixed_in self.old }
    {
        if let Some(block) = self.blocks.get(&address) {
            let loader = block.loader;
            self.set_kind(loader, kind);
        }
        Ok(None)
    }

    /// Adds a report after a collection, where those are asked for.
    fn collect(&mut self) -> Result<Option<Trouble>, AllocError>
        ensures loaders { loaders_in self.new ≡ loaders_in self.old }
        ensures lines { OnOk result (Adds (reporting self.old.reports) (lines_in self.old) (lines_in self.new)) }
        ensures requests { self.new.requests ≡ self.old.requests }
        ensures blocks { blocks_in self.new ≡ blocks_in self.old }
        ensures acts { OnOk result (acts_in self.new ≡ acts_in self.old) }
        ensures names { names_in self.new ≡ names_in self.old }
        ensures fixed { fixed_in self.new ≡ fixed_in self.old }
    {
        if self.reports {
            self.held.add(Placed::from(Command::Report))?;
        }
        Ok(None)
    }

    /// Takes in that the log is over: what is not known by now never will be. Returns what the end
    /// shows to be wrong.
    pub fn finish(&mut self) -> Option<Trouble>
        ensures closed { is_closed self.new ≡ true }
        ensures keeps { Ends (known_in self.old) (known_in self.new) }
    {
        self.held.close();
        if !self.requests.is_empty() {
            return Some(Trouble::EndsEarly);
        }
        if !self.asked {
            return Some(Trouble::NoRequest);
        }
        if self.has_untold() {
            return Some(Trouble::UnknownKind);
        }
        None
    }

    /// Checks whether a loader with blocks lives whose kind isn't known.
    fn has_untold(&self) -> bool {
        for loader in self.loaders.values() {
            if loader.kind.is_none() && loader.next != 0 {
                return true;
            }
        }
        false
    }

    /// Returns how many lines are held back: those that wait, and those that may give nothing.
    pub fn held_back(&self) -> usize
        ensures waiting { length (waits (known_in self.now)) ≤ result }
        ensures lines { result ≡ length (lines_in self.now) }
    {
        self.held.len()
    }

    /// Takes the next line of the trace, if it is known so far.
    pub fn next_line(&mut self) -> Option<Placed>
        ensures gives { IfSome result (λ line. HandsOut (line.command ∷ []) (known_in self.old) (known_in self.new)) }
        ensures none { IfNone result (HandsOut [] (known_in self.old) (known_in self.new)) }
        ensures all { is_closed self.old ≡ true → IfNone result (waiting_in self.new ≡ []) }
        ensures stops { IfNone result (none_may_go (lines_in self.new) ≡ true) }
        ensures closed { is_closed self.new ≡ is_closed self.old }
    {
        self.held.next()
    }
}

/// Keeps a block at its address, or until `Told` has that, as the answer to a thread.
fn keep(
    blocks: &mut HashMap<u64, Block>,
    answers: &mut HashMap<u64, Answer>,
    thread: u64,
    block: Block,
    address: Option<u64>,
) -> Result<(), AllocError>
    ensures blocks { OnOk result ((q : ℕ) → lookup (nat_eq q) blocks.new.entries
        ≡ laid_in (λ at. lookup (nat_eq at) blocks.old.entries) address block q) }
    ensures answers { OnOk result ((q : ℕ) → lookup (nat_eq q) answers.new.entries
        ≡ update nat_eq (λ of. lookup (nat_eq of) answers.old.entries) thread (Some (answer_as address block)) q) }
{
    match address {
        Some(address) => {
            blocks.insert(address, block)?;
            answers.insert(thread, Answer::At(address))?;
        }
        None => {
            answers.insert(thread, Answer::FromFreeBlocks(block))?;
        }
    }
    Ok(())
}

/// Checks whether an event is the metaspace's own: those of classes may come before its first line.
fn is_of_the_metaspace(event: Event) -> bool {
    !matches!(
        event,
        Event::ClassAdded { .. } | Event::LoaderNamed { .. } | Event::Dropped
    )
}
