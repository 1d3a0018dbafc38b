//! Reading a line: what it says, if anything.
ghost use Rattle.std.specs.Prelude.{◌≡◌};
ghost use Rattle.std.specs.Option.{option_copied, option_map};
ghost use Rattle.jvm_log.specs.Reading.{arena_line, arena_name, arena_named, arena_saying, bearing, other_name, begun_line, change_at, chunk_at};
ghost use Rattle.jvm_log.specs.Reading.{chunk_requested, class_line, collection_line, committed_line, deallocated, dropped_line};
ghost use Rattle.jvm_log.specs.Reading.{dying, enlarged_line, event_in, failed, handed_out, head_of};
ghost use Rattle.jvm_log.specs.Reading.{kind_in, loader_line, named_line, manager_line, requested, returned, said_in};
ghost use Rattle.jvm_log.specs.Reading.{change_after, sizes, taken, told_line};

use crate::event::{Event, Said};
use crate::parts::{
    address_after, address_at, after, level_after, level_at, number_after, number_at, only, past,
    space_at,
};
use ms_base::{Kind, Space};

/// Reads what a line says, without its newline.
#[tactic(auto, unfolding(crate::specs::Reading::said_in))]
pub fn said_in(line: &[u8]) -> Option<Said>
    ensures { result ≡ said_in line.now }
{
    let (thread, message) = head_of(line)?;
    Some(Said {
        thread,
        event: event_in(message)?,
    })
}

/// Reads the head of a line, `[uptime][thread][level][tags] `: the thread, and what stands after the
/// head. The JVM pads a short thread's number with spaces.
#[tactic(auto, unfolding(crate::specs::Reading::head_of))]
fn head_of(line: &[u8]) -> Option<(u64, &[u8])>
    ensures { option_map (λ read. (read.0, read.1.now)) result ≡ head_of line.now }
{
    let rest = past(b']', after(b"[".as_slice(), line)?)?;
    let (thread, rest) = number_at(after(b"[".as_slice(), rest)?)?;
    let rest = past(b']', rest)?;
    let rest = past(b']', after(b"[".as_slice(), rest)?)?;
    let rest = past(b']', after(b"[".as_slice(), rest)?)?;
    Some((thread, after(b" ".as_slice(), rest)?))
}

/// Reads what a message says.
#[tactic(auto, unfolding(crate::specs::Reading::event_in))]
fn event_in(message: &[u8]) -> Option<Event>
    ensures { result ≡ event_in message.now }
{
    arena_line(message)
        .or(told_line(message))
        .or(manager_line(message))
        .or(loader_line(message))
        .or(enlarged_line(message))
        .or(committed_line(message))
        .or(class_line(message))
        .or(named_line(message))
        .or(collection_line(message))
        .or(begun_line(message))
        .or(dropped_line(message))
}

/// Reads `Initialized with strategy: NAME reclaim.`.
#[tactic(auto, unfolding(crate::specs::Reading::begun_line))]
fn begun_line(message: &[u8]) -> Option<Event>
    ensures { result ≡ begun_line message.now }
{
    let _ = after(b"Initialized with strategy: ".as_slice(), message)?;
    Some(Event::Begun)
}

/// Reads `N messages dropped due to async logging`, before which spaces may stand.
#[tactic(auto, unfolding(crate::specs::Reading::dropped_line))]
fn dropped_line(message: &[u8]) -> Option<Event>
    ensures { result ≡ dropped_line message.now }
{
    if !message.ends_with(b" messages dropped due to async logging".as_slice()) {
        return None;
    }
    Some(Event::Dropped)
}

/// Reads `CLMS @P ..`.
#[tactic(auto, unfolding(crate::specs::Reading::loader_line))]
fn loader_line(message: &[u8]) -> Option<Event>
    ensures { result ≡ loader_line message.now }
{
    let (loader, rest) = address_at(after(b"CLMS @".as_slice(), message)?)?;
    dying(loader, rest).or(bearing(loader, rest))
}

/// Reads ` : dies.`.
#[tactic(auto, unfolding(crate::specs::Reading::dying))]
fn dying(loader: u64, saying: &[u8]) -> Option<Event>
    ensures { result ≡ dying loader saying.now }
{
    only(b" : dies.".as_slice(), saying)?;
    Some(Event::LoaderDies { loader })
}

/// Reads ` : born (nonclass arena: A, class arena: A.`.
#[tactic(auto, unfolding(crate::specs::Reading::bearing))]
fn bearing(loader: u64, saying: &[u8]) -> Option<Event>
    ensures { result ≡ bearing loader saying.now }
{
    let (arena, rest) = address_after(b" : born (nonclass arena: ".as_slice(), saying)?;
    let (class_arena, rest) = address_after(b", class arena: ".as_slice(), rest)?;
    only(b".".as_slice(), rest)?;
    Some(Event::LoaderBorn {
        loader,
        arena,
        class_arena,
    })
}

/// Reads `Arena @A (SPACE sm): ..`.
#[tactic(auto, unfolding(crate::specs::Reading::arena_line))]
fn arena_line(message: &[u8]) -> Option<Event>
    ensures { result ≡ arena_line message.now }
{
    let (arena, rest) = address_at(after(b"Arena @".as_slice(), message)?)?;
    arena_named(arena, after(b" (".as_slice(), rest)?)
}

/// Reads what an arena of that name does.
#[tactic(auto, unfolding(crate::specs::Reading::arena_named))]
fn arena_named(arena: u64, name: &[u8]) -> Option<Event>
    ensures { result ≡ arena_named arena name.now }
{
    match arena_name(name) {
        Some((space, saying)) => arena_saying(arena, space, saying),
        None => other_name(name),
    }
}

/// Reads the name of an arena, `SPACE sm): `.
#[tactic(auto, unfolding(crate::specs::Reading::arena_name))]
fn arena_name(name: &[u8]) -> Option<(Space, &[u8])>
    ensures { option_map (λ read. (read.0, read.1.now)) result ≡ arena_name name.now }
{
    let (space, rest) = space_at(name)?;
    Some((space, after(b" sm): ".as_slice(), rest)?))
}

/// Reads a name that no arena of JDK 17 has, `NAME): `.
#[tactic(auto, unfolding(crate::specs::Reading::other_name))]
fn other_name(name: &[u8]) -> Option<Event>
    ensures { result ≡ other_name name.now }
{
    let _ = after(b": ".as_slice(), past(b')', name)?)?;
    Some(Event::OtherRelease)
}

/// Reads what an arena does.
#[tactic(auto, unfolding(crate::specs::Reading::arena_saying))]
fn arena_saying(arena: u64, space: Space, saying: &[u8]) -> Option<Event>
    ensures { result ≡ arena_saying arena space saying.now }
{
    requested(arena, space, saying)
        .or(returned(arena, space, saying))
        .or(taken(arena, space, saying))
        .or(deallocated(arena, space, saying))
        .or(failed(arena, space, saying))
}

/// Reads `allocation failed, returned NULL.`.
#[tactic(auto, unfolding(crate::specs::Reading::failed))]
fn failed(arena: u64, space: Space, saying: &[u8]) -> Option<Event>
    ensures { result ≡ failed arena space saying.now }
{
    only(b"allocation failed, returned NULL.".as_slice(), saying)?;
    Some(Event::Failed { arena, space })
}

/// Reads `requested N words.`.
#[tactic(auto, unfolding(crate::specs::Reading::requested))]
fn requested(arena: u64, space: Space, saying: &[u8]) -> Option<Event>
    ensures { result ≡ requested arena space saying.now }
{
    let (words, rest) = number_at(after(b"requested ".as_slice(), saying)?)?;
    only(b" words.".as_slice(), rest)?;
    Some(Event::Requested {
        arena,
        space,
        words,
    })
}

/// Reads `returning P.`.
#[tactic(auto, unfolding(crate::specs::Reading::returned))]
fn returned(arena: u64, space: Space, saying: &[u8]) -> Option<Event>
    ensures { result ≡ returned arena space saying.now }
{
    let (address, rest) = address_at(after(b"returning ".as_slice(), saying)?)?;
    only(b".".as_slice(), rest)?;
    Some(Event::Returned {
        arena,
        space,
        address,
    })
}

/// Reads `taken from fbl (now: N, N).`.
#[tactic(auto, unfolding(crate::specs::Reading::taken))]
fn taken(arena: u64, space: Space, saying: &[u8]) -> Option<Event>
    ensures { result ≡ taken arena space saying.now }
{
    let (_, rest) = number_at(after(b"taken from fbl (now: ".as_slice(), saying)?)?;
    let (_, rest) = number_at(after(b", ".as_slice(), rest)?)?;
    only(b").".as_slice(), rest)?;
    Some(Event::TakenFromFreeBlocks { arena, space })
}

/// Reads `deallocating P, word size: N.`.
#[tactic(auto, unfolding(crate::specs::Reading::deallocated))]
fn deallocated(arena: u64, space: Space, saying: &[u8]) -> Option<Event>
    ensures { result ≡ deallocated arena space saying.now }
{
    let (address, rest) = address_at(after(b"deallocating ".as_slice(), saying)?)?;
    let (words, rest) = number_at(after(b", word size: ".as_slice(), rest)?)?;
    only(b".".as_slice(), rest)?;
    Some(Event::Deallocated {
        arena,
        space,
        address,
        words,
    })
}

/// Reads `Metaspace::allocate: type T return P.`.
#[tactic(auto, unfolding(crate::specs::Reading::told_line))]
fn told_line(message: &[u8]) -> Option<Event>
    ensures { result ≡ told_line message.now }
{
    let (_, rest) = number_at(after(b"Metaspace::allocate: type ".as_slice(), message)?)?;
    let (address, rest) = address_at(after(b" return ".as_slice(), rest)?)?;
    only(b".".as_slice(), rest)?;
    Some(Event::Told { address })
}

/// Reads `ChkMgr @P (SPACE-space): ..`.
#[tactic(auto, unfolding(crate::specs::Reading::manager_line))]
fn manager_line(message: &[u8]) -> Option<Event>
    ensures { result ≡ manager_line message.now }
{
    let (_, rest) = address_at(after(b"ChkMgr @".as_slice(), message)?)?;
    let (space, rest) = space_at(after(b" (".as_slice(), rest)?)?;
    let saying = after(b"-space): ".as_slice(), rest)?;
    chunk_requested(space, saying).or(handed_out(space, saying))
}

/// Reads `requested chunk: pref_level: L, max_level: L, min committed size: N.`.
#[tactic(auto, unfolding(crate::specs::Reading::chunk_requested))]
fn chunk_requested(space: Space, saying: &[u8]) -> Option<Event>
    ensures { result ≡ chunk_requested space saying.now }
{
    let (level, rest) = level_after(b"requested chunk: pref_level: ".as_slice(), saying)?;
    let (_, rest) = level_after(b", max_level: ".as_slice(), rest)?;
    let (_, rest) = number_after(b", min committed size: ".as_slice(), rest)?;
    only(b".".as_slice(), rest)?;
    Some(Event::ChunkRequested { space, level })
}

/// Reads `handing out chunk @P, u, base B, level L.`.
#[tactic(auto, unfolding(crate::specs::Reading::handed_out))]
fn handed_out(space: Space, saying: &[u8]) -> Option<Event>
    ensures { result ≡ handed_out space saying.now }
{
    let (base, rest) = chunk_at(after(b"handing out chunk ".as_slice(), saying)?)?;
    only(b".".as_slice(), rest)?;
    Some(Event::ChunkHandedOut { space, base })
}

/// Reads a chunk in use, `@P, u, base B, level L`: where it lies.
#[tactic(auto, unfolding(crate::specs::Reading::chunk_at))]
fn chunk_at(text: &[u8]) -> Option<(u64, &[u8])>
    ensures { option_map (λ read. (read.0, read.1.now)) result ≡ chunk_at text.now }
{
    let (_, rest) = address_at(after(b"@".as_slice(), text)?)?;
    let (base, rest) = address_at(after(b", u, base ".as_slice(), rest)?)?;
    let (_, rest) = level_at(after(b", level ".as_slice(), rest)?)?;
    Some((base, rest))
}

/// Reads `Enlarged chunk @P, u, base B, level L (N), used: N, committed: N, committed-free: N.`.
#[tactic(auto, unfolding(crate::specs::Reading::enlarged_line))]
fn enlarged_line(message: &[u8]) -> Option<Event>
    ensures { result ≡ enlarged_line message.now }
{
    let (base, rest) = chunk_at(after(b"Enlarged chunk ".as_slice(), message)?)?;
    let (_, rest) = number_after(b" (".as_slice(), rest)?;
    sizes(rest)?;
    Some(Event::Enlarged { base })
}

/// Reads `), used: N, committed: N, committed-free: N.`.
#[tactic(auto, unfolding(crate::specs::Reading::sizes))]
fn sizes(text: &[u8]) -> Option<()>
    ensures { result ≡ sizes text.now }
{
    let (_, rest) = number_after(b"), used: ".as_slice(), text)?;
    let (_, rest) = number_after(b", committed: ".as_slice(), rest)?;
    let (_, rest) = number_after(b", committed-free: ".as_slice(), rest)?;
    only(b".".as_slice(), rest)
}

/// Reads `VsListNode @P base B : ... committed N additional words.`.
#[tactic(auto, unfolding(crate::specs::Reading::committed_line))]
fn committed_line(message: &[u8]) -> Option<Event>
    ensures { result ≡ committed_line message.now }
{
    let (_, rest) = address_after(b"VsListNode @".as_slice(), message)?;
    let (_, rest) = address_after(b" base ".as_slice(), rest)?;
    let (words, rest) = number_after(b" : ... committed ".as_slice(), rest)?;
    only(b" additional words.".as_slice(), rest)?;
    Some(Event::Committed { words })
}

/// Reads `Adding k: P CLASS to loader data: P ..`.
#[tactic(auto, unfolding(crate::specs::Reading::class_line))]
fn class_line(message: &[u8]) -> Option<Event>
    ensures { result ≡ class_line message.now }
{
    let (address, rest) = address_after(b"Adding k: ".as_slice(), message)?;
    let rest = past(b' ', after(b" ".as_slice(), rest)?)?;
    let (_, rest) = address_after(b"to loader data: ".as_slice(), rest)?;
    let owner = after(b" ".as_slice(), rest)?;
    Some(Event::ClassAdded {
        address,
        kind: kind_in(owner),
    })
}

/// Reads `unloadloader data: P of ..`.
#[tactic(auto, unfolding(crate::specs::Reading::named_line))]
fn named_line(message: &[u8]) -> Option<Event>
    ensures { result ≡ named_line message.now }
{
    let (data, rest) = address_at(after(b"unloadloader data: ".as_slice(), message)?)?;
    let _ = after(b" of ".as_slice(), rest)?;
    Some(Event::LoaderNamed { data })
}

/// Returns the kind of a loader that a line describes so.
#[tactic(auto, unfolding(crate::specs::Reading::kind_in))]
fn kind_in(owner: &[u8]) -> Kind
    ensures { result ≡ kind_in owner.now }
{
    if owner.ends_with(b" has a class holder".as_slice()) {
        return Kind::Hidden;
    }
    let delegating = b"for instance a 'jdk/internal/reflect/DelegatingClassLoader'".as_slice();
    if owner.starts_with(delegating) {
        return Kind::Reflection;
    }
    Kind::Standard
}

/// Reads `GC(n) Metaspace: ..` with what is used and committed before and after, in KB.
#[tactic(auto, unfolding(crate::specs::Reading::collection_line))]
fn collection_line(message: &[u8]) -> Option<Event>
    ensures { result ≡ collection_line message.now }
{
    let (_, rest) = number_after(b"GC(".as_slice(), message)?;
    let rest = change_after(b") Metaspace: ".as_slice(), rest)?;
    let rest = change_after(b" NonClass: ".as_slice(), rest)?;
    let rest = change_after(b" Class: ".as_slice(), rest)?;
    only(b"".as_slice(), rest)?;
    Some(Event::Collection)
}

/// Reads a word and a change after it, and returns what stands after that.
#[tactic(auto, unfolding(crate::specs::Reading::change_after))]
fn change_after<'a>(word: &[u8], text: &'a [u8]) -> Option<&'a [u8]>
    ensures { option_copied result ≡ change_after word.now text.now }
{
    change_at(after(word, text)?)
}

/// Reads `aK(bK)->cK(dK)`, and returns what stands after it.
#[tactic(auto, unfolding(crate::specs::Reading::change_at))]
fn change_at(text: &[u8]) -> Option<&[u8]>
    ensures { option_copied result ≡ change_at text.now }
{
    let (_, rest) = number_at(text)?;
    let (_, rest) = number_at(after(b"K(".as_slice(), rest)?)?;
    let (_, rest) = number_at(after(b"K)->".as_slice(), rest)?)?;
    let (_, rest) = number_at(after(b"K(".as_slice(), rest)?)?;
    after(b"K)".as_slice(), rest)
}
