//! The lines of a script, each of which is the words of a command of the house.

ghost use Rattle.std.specs.Prelude.{◌≡◌, IfOk, IfSome, map, option_map, string_bytes};
ghost use Rattle.vk_lines.specs.Tokens.{fields_of};
ghost use Rattle.vk_words.specs.Orders.{IsHouseOrder, house_seen};
ghost use Rattle.vk_words.specs.Scripts.{line_words, script_words, written_name_of};

use crate::command::house_order_of;
use crate::orders::HouseOrder;
use std::alloc::Global;
use vk_residue::NoMemory;

/// The name of the file that the command writes: the board of a `prove`, the reply of an `answer`.
pub fn written_name<'a>(order: &HouseOrder<'a>) -> Option<&'a str>
    ensures { option_map (λ x. x.now) result ≡ written_name_of (house_seen order.now) }
{
    match order {
        HouseOrder::Prove { board, .. } => Some(board),
        HouseOrder::Answer { reply, .. } => Some(reply),
        _ => None,
    }
}

/// The command that the words of a line are in the script of that name, which no line writes.
#[tactic(auto, unfolding(crate::specs::Scripts::script_words))]
pub fn script_order<'a>(words: &'a [String], script: &str) -> Option<HouseOrder<'a>>
    ensures value { option_map house_seen result
        ≡ script_words script.now (map string_bytes words.now) }
    ensures limits { IfSome result IsHouseOrder }
{
    let order = house_order_of(words)?;
    match written_name(&order) {
        Some(name) if name == script => None,
        _ => Some(order),
    }
}

/// The words of a line: its pieces between single spaces, some of which may be empty. `None` where
/// the line isn't UTF-8. Errs for want of memory alone.
pub fn words_of_line(alloc: Global, line: &[u8]) -> Result<Option<Vec<String>>, NoMemory>
    ensures { IfOk result (λ words. option_map (λ found. map string_bytes found.items) words
        ≡ line_words line.now) }
{
    match str::from_utf8(line) {
        Ok(text) => {
            let words = pieces_of(alloc, text)?;
            Ok(Some(words))
        }
        Err(_) => Ok(None),
    }
}

/// The pieces of a text between single spaces.
fn pieces_of(alloc: Global, text: &str) -> Result<Vec<String>, NoMemory>
    ensures { IfOk result (λ pieces. map string_bytes pieces.items ≡ fields_of text.now) }
{
    let mut pieces = Vec::new(alloc);
    for piece in text.split(' ') {
        let piece = String::from_str(alloc, piece)?;
        pieces.push(piece)?;
    }
    Ok(pieces)
}
