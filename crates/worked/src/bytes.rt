// Bytes and numbers, read from the lines of a document.
use hex::decode;
use std::alloc::{AllocError, Global};

/// Adds a number. False where the text is none.
pub fn add_number(numbers: &mut Vec<u64>, text: &str) -> Result<bool, AllocError> {
    match text.parse::<u64>() {
        Ok(number) => {
            numbers.push(number)?;
            Ok(true)
        }
        Err(_) => Ok(false),
    }
}

/// Adds the bytes that a text gives in hex, where spaces don't count. False where it isn't hex.
pub fn add_hex(alloc: Global, bytes: &mut Vec<u8>, text: &str) -> Result<bool, AllocError> {
    let mut is_read = true;
    for piece in text.split(' ') {
        match decode(alloc, piece) {
            Ok(more) => bytes.extend_from_slice(&more)?,
            Err(_) => is_read = false,
        }
    }
    Ok(is_read)
}

/// Adds a text so many times: the number and the text stand in one. False where there is no number.
pub fn fill(bytes: &mut Vec<u8>, text: &str) -> Result<bool, AllocError> {
    let Some((count, text)) = text.split_once(' ') else {
        return Ok(false);
    };
    let Ok(count) = count.parse::<u32>() else {
        return Ok(false);
    };
    for _ in 0..count {
        bytes.extend_from_slice(text.as_bytes())?;
    }
    Ok(true)
}
