// Parts of texts.
use vk_cases::{before, cut};

/// The words of a line before `u`, behind which the openings stand.
pub fn before_openings(line: &[u8]) -> &[u8] {
    let mut rest = line;
    for _ in 0..line.len() {
        let (word, behind) = cut(rest, b' ');
        if word == b"u".as_slice() {
            let place = line.len().saturating_sub(rest.len()).saturating_sub(1);
            return before(line, place);
        }
        rest = behind;
    }
    line
}
