//! What a chance draws.
use crate::escapes::digit_of;
use crate::fault::Fault;
use es_base::{NoMemory, Seq};
use es_edge::{Draw, Draws, ListedChance};
use std::alloc::Global;

/// So many draws there are where a row names none.
const ZEROS: u64 = 64;

/// Draws with a blank between each two: `failed`, or the 32 hexadecimal digits of sixteen bytes.
pub fn draws(alloc: Global, text: &[u8]) -> Result<Vec<Draw>, Fault> {
    let mut draws = Vec::new(alloc);
    for word in text.split(|byte| *byte == b' ') {
        draws.push(draw(word)?)?;
    }
    Ok(draws)
}

fn draw(word: &[u8]) -> Result<Draw, Fault> {
    if word == b"failed".as_slice() {
        return Ok(Draw::Failed);
    }
    if word.len() != 32 {
        return Err(Fault::Line);
    }
    let mut bytes = [0u8; 16];
    for i in 0..16 {
        let high = digit_of(word[2 * i])?;
        let low = digit_of(word[2 * i + 1])?;
        bytes[i] = high.wrapping_mul(16).wrapping_add(low);
    }
    Ok(Draw::Bytes(bytes))
}

/// The chance that draws these, or zero bytes where there are none.
pub fn chance_of(alloc: Global, draws: &[Draw]) -> Result<ListedChance, NoMemory> {
    let mut list: Draws = Seq::empty(alloc);
    for draw in draws {
        list.push(*draw)?;
    }
    if draws.is_empty() {
        for _ in 0..ZEROS {
            list.push(Draw::Bytes([0; 16]))?;
        }
    }
    Ok(ListedChance::new(list))
}
