// The words of a case.

use crate::unreplayed::{Tried, Unreplayed};
use std::alloc::Global;

/// The words between the spaces of a part of a case, of which `""` is an empty one.
/// [`Unreplayed::NoCase`] where one of them is no UTF-8.
pub fn words_of(alloc: Global, part: &[u8]) -> Tried<Vec<String>> {
    let mut words = Vec::new(alloc);
    for word in part.split(|byte| *byte == b' ') {
        if !word.is_empty() {
            let word = if word == b"\"\"".as_slice() {
                &[]
            } else {
                word
            };
            words.push(text_of(alloc, word)?)?;
        }
    }
    Ok(words)
}

/// The bytes as text. [`Unreplayed::NoCase`] where they are no UTF-8.
pub fn text_of(alloc: Global, bytes: &[u8]) -> Tried<String> {
    String::from_utf8(Vec::from_slice(alloc, bytes)?).map_err(|_refused| Unreplayed::NoCase)
}
