//! What the log says of the names of loaders, for people: no clause speaks of these texts.
use crate::parts::{address_at, after, past};
use memchr::memchr;

/// Whose class a line adds.
#[derive(Clone, Copy, Debug, PartialEq, Eq)]
pub struct Owner<'a> {
    /// The address of the loader's data in the JVM.
    pub data: u64,
    /// The class of the loader, or its name where it has no class.
    pub class: &'a [u8],
    /// Whether the class has a holder of its own, as hidden ones have.
    pub is_holder: bool,
}

/// Reads whose class a line adds.
pub fn owner_in(line: &[u8]) -> Option<Owner<'_>> {
    let rest = message_after(b"] Adding k: ".as_slice(), line)?;
    let (_, rest) = address_at(rest)?;
    let rest = past(b' ', after(b" ".as_slice(), rest)?)?;
    let (data, rest) = address_at(after(b"to loader data: ".as_slice(), rest)?)?;
    let name = past(b'\'', rest)?;
    let end = memchr(b'\'', name)?;
    Some(Owner {
        data,
        class: name.get(..end)?,
        is_holder: rest.ends_with(b" has a class holder".as_slice()),
    })
}

/// Reads the address of a loader's data, and the loader's own name, where a line has them.
pub fn name_in(line: &[u8]) -> Option<(u64, &[u8])> {
    let rest = message_after(b"] unloadloader data: ".as_slice(), line)?;
    let (data, rest) = address_at(rest)?;
    Some((data, after(b" of ".as_slice(), rest)?))
}

/// Finds what stands after that word, which ends the head of a line.
fn message_after<'a>(word: &[u8], line: &'a [u8]) -> Option<&'a [u8]> {
    let mut rest = line;
    for _ in 0..4 {
        let at = memchr(b']', rest)?;
        let tail = rest.get(at..)?;
        if let Some(message) = after(word, tail) {
            return Some(message);
        }
        rest = tail.get(1..)?;
    }
    None
}
