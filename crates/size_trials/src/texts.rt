// Texts with places that are filled.
use crate::numbers::Numbers;
use crate::parts::from_line;
use crate::watched::WatchedFiles;
use vk_cases::{Text, Tried, cut, number_at, word_at};

/// What stands in the places of a text.
pub trait Filling {
    /// The bytes that stand before and behind a place.
    const MARKS: (u8, u8);

    /// Appends what stands in the place of these bytes.
    fn fill(&self, made: &mut Text, place: &[u8]) -> Tried<()>;
}

/// Numbers stand in pairs of braces, as expressions.
impl Filling for Numbers {
    const MARKS: (u8, u8) = (b'{', b'}');

    fn fill(&self, made: &mut Text, place: &[u8]) -> Tried<()> {
        made.put_number(b"", self.value(place)?);
        Ok(())
    }
}

/// Fields of files stand in pairs of brackets, as `[NAME LINE FIELD]`, the line counted from 1 and
/// the field from 0.
impl Filling for WatchedFiles {
    const MARKS: (u8, u8) = (b'[', b']');

    fn fill(&self, made: &mut Text, place: &[u8]) -> Tried<()> {
        push_field(made, self, place)
    }
}

/// Appends the text with its places filled.
pub fn push_filled<F: Filling>(made: &mut Text, filling: &F, text: &[u8]) -> Tried<()> {
    let mut rest = text;
    for _ in 0..=text.len() {
        let (plain, place) = cut(rest, F::MARKS.0);
        made.put(plain);
        if place.is_empty() {
            return Ok(());
        }
        let (place, behind) = cut(place, F::MARKS.1);
        filling.fill(made, place)?;
        rest = behind;
    }
    Ok(())
}

/// Appends the field of that place.
fn push_field(made: &mut Text, files: &WatchedFiles, place: &[u8]) -> Tried<()> {
    let number = number_at(place, 1, u64::MAX)?;
    let index = number_at(place, 2, 255)?;
    let (line, _behind) = cut(from_line(files.file(word_at(place, 0)?)?, number), b'\n');
    made.put(word_at(line, index as usize)?);
    Ok(())
}
