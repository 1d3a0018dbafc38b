//! A pool that two seats share: each has a class loader, and holds the pool only where that needs
//! another chunk. One at a time has it, and who finds it busy doesn't wait.
use ms_base::{Kind, Settings, Space};
use ms_member::Member;
use std::io;

/// Shares a pool between two seats, and prints what their calls return.
pub(crate) fn show(rt: &HostRuntime) -> io::Result<()> {
    let Some(mut one) = Member::share(rt.alloc(), Settings::DEFAULT, 2) else {
        return println!(rt; "memory is wanting");
    };
    let Some(mut other) = one.split(rt.alloc())? else {
        return println!(rt; "no seat is left");
    };
    println!(rt; "one seat holds the pool: {}", one.hold())?;
    println!(rt; "the other as well: {}", other.hold())?;
    allocate(rt, &mut one)?;
    println!(rt; "the other holds the pool: {}", other.hold())
}

/// Has a seat that holds the pool make a loader, and fill its first chunk of 512 words.
fn allocate(rt: &HostRuntime, member: &mut Member) -> io::Result<()> {
    let made = member.new_loader(rt.alloc(), Kind::Standard);
    println!(rt; "its loader: {made:?}")?;
    let block = member.allocate(Space::NonClass, 1, 100);
    println!(rt; "100 words: {block:?}")?;
    println!(rt; "it lets the pool go: {}", member.let_go())?;
    let block = member.allocate(Space::NonClass, 2, 412);
    println!(rt; "412 words without the pool: {block:?}")?;
    let block = member.allocate(Space::NonClass, 3, 2);
    println!(rt; "2 words more: {block:?}")
}
