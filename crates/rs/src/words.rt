//! The words of the command line.

use rs_path::NoMemory;
use std::alloc::Global;
use std::env::{Env, FillError};

/// The first try gives a word 2 to this power bytes, each further try twice as many as the one before.
const FIRST_ROOM: u32 = 8;

/// The words after the program's name. In a word that isn't UTF-8 the wrong bytes are replaced by U+FFFD, which no word of
/// a command has.
pub fn read_words<E: Env>(env: &E, alloc: Global) -> Result<Vec<String>, NoMemory> {
    let mut words = Vec::new(alloc);
    for index in 1..usize::MAX {
        match read_word(env, alloc, index)? {
            Some(word) => words.push(word)?,
            None => break,
        }
    }
    Ok(words)
}

/// The word with this index, or None behind the last one.
fn read_word<E: Env>(env: &E, alloc: Global, index: usize) -> Result<Option<String>, NoMemory> {
    for bits in FIRST_ROOM..usize::BITS {
        let mut room = vec![in alloc; 0; 1usize << bits]?;
        match env.arg(index, &mut room) {
            Ok(count) => return Ok(Some(String::from_utf8_lossy(alloc, &room[..count])?)),
            Err(FillError::NotPresent) => return Ok(None),
            Err(FillError::TooLong) => {}
        }
    }
    Err(NoMemory)
}
