//! What differs is told.
use crate::escapes::escaped;
use std::io;

/// Tells where what came differs from what is due, and both from there on.
pub fn tell_difference(
    rt: &HostRuntime,
    name: &[u8],
    piece: u64,
    part: &str,
    came: &[u8],
    due: &[u8],
) -> io::Result<()> {
    let at = came.iter().zip(due).take_while(|(a, b)| a == b).count();
    let name = escaped(rt.alloc(), name)?;
    let came = escaped(rt.alloc(), excerpt(came, at))?;
    let due = escaped(rt.alloc(), excerpt(due, at))?;
    println!(rt; "row {name}, in pieces of {piece}: the {part} differ at {at}")?;
    println!(rt; "  came {came}")?;
    println!(rt; "  due  {due}")
}

/// A part of some bytes: 80 before the place, and 240 from it on.
fn excerpt(bytes: &[u8], at: usize) -> &[u8] {
    let from = at.saturating_sub(80).min(bytes.len());
    let to = at.saturating_add(240).min(bytes.len());
    bytes.get(from..to).unwrap_or(bytes)
}

/// Tells the line of a row that isn't read.
pub fn tell_unread(rt: &HostRuntime, name: &[u8], line: &[u8]) -> io::Result<()> {
    let name = escaped(rt.alloc(), name)?;
    let line = escaped(rt.alloc(), line)?;
    println!(rt; "row {name}: this line isn't read: {line}")
}

/// Tells how many bytes were read where others had to be.
pub fn tell_read(
    rt: &HostRuntime,
    name: &[u8],
    piece: u64,
    came: usize,
    due: u64,
) -> io::Result<()> {
    let name = escaped(rt.alloc(), name)?;
    println!(rt; "row {name}, in pieces of {piece}: {came} bytes were read, and {due} had to be")
}

/// Tells how many looks hit where others had to.
pub fn tell_hits(rt: &HostRuntime, name: &[u8], piece: u64, came: u64, due: u64) -> io::Result<()> {
    let name = escaped(rt.alloc(), name)?;
    println!(rt; "row {name}, in pieces of {piece}: {came} looks hit, and {due} had to")
}

/// Tells that a row isn't run for want of memory.
pub fn tell_no_memory(rt: &HostRuntime, name: &[u8], piece: u64) -> io::Result<()> {
    let name = escaped(rt.alloc(), name)?;
    println!(rt; "row {name}, in pieces of {piece}: out of memory")
}
