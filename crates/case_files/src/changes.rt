// Changes of the words and the keys of a KTX file.
use std::alloc::{AllocError, Global};

// The word at a place, low byte first.
fn word_at(file: &[u8], at: usize) -> usize {
    let mut word = 0;
    for k in 0..4 {
        let place = at.saturating_add(k);
        if place < file.len() {
            word |= usize::from(file[place]) << (8 * k);
        }
    }
    word
}

// Turns round the bytes of the word at a place.
fn turn(file: &mut [u8], at: usize) {
    if at < file.len() && file.len() - at >= 4 {
        let (_, rest) = file.split_at_mut(at);
        let (word, _) = rest.split_at_mut(4);
        word.reverse();
    }
}

/// Puts as many bytes AB instead of the keys.
pub fn put_keys(alloc: Global, file: &mut Vec<u8>, count: u32) -> Result<(), AllocError> {
    let behind = 64usize.saturating_add(word_at(file, 60)).min(file.len());
    let mut changed = file[..60.min(behind)].to_vec(alloc)?;
    changed.extend_from_slice(&count.to_le_bytes())?;
    let size = changed.len().saturating_add(count as usize);
    changed.resize(size, 0xAB)?;
    changed.extend_from_slice(&file[behind..])?;
    *file = changed;
    Ok(())
}

/// Turns round the bytes of all words of the header, and of the sizes.
pub fn turn_words(file: &mut [u8]) {
    let mut size_at = 64usize.saturating_add(word_at(file, 60));
    for _ in 0..word_at(file, 56).clamp(1, 14) {
        let size = word_at(file, size_at);
        turn(file, size_at);
        size_at = size_at.saturating_add(4).saturating_add(size);
    }
    for word in 3..16 {
        turn(file, 4 * word);
    }
}
