// Parts of texts.
use vk_cases::{Text, before, cut};

/// What stands from the line of that number on, from 1.
pub fn from_line(file: &[u8], number: u64) -> &[u8] {
    let mut rest = file;
    for _ in 1..number {
        if rest.is_empty() {
            return rest;
        }
        let (_line, behind) = cut(rest, b'\n');
        rest = behind;
    }
    rest
}

/// The lines from that number up to this one, from 1.
pub fn lines_between(file: &[u8], from: u64, to: u64) -> &[u8] {
    let front = from_line(file, from);
    let rest = from_line(front, to.saturating_add(2).saturating_sub(from));
    before(front, front.len().saturating_sub(rest.len()))
}

/// Appends the file with this text in place of the line of that number, from 1.
pub fn push_with_line(changed: &mut Text, file: &[u8], number: u64, text: &[u8]) {
    changed.put(lines_between(file, 1, number.saturating_sub(1)));
    changed.put(text);
    changed.put(from_line(file, number.saturating_add(1)));
}
