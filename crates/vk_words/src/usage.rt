//! What words of no form are answered with.

ghost use Rattle.std.specs.Prelude.{◌≡◌};
ghost use Rattle.vk_words.specs.Usage.{usage_text};

use crate::table::command_rows;
use vk_text::ShortText;

/// The line that says which commands there are.
pub fn usage_line() -> ShortText
    ensures { result ≡ usage_text }
{
    let mut text = ShortText::new();
    let mut before = "usage: vickrey ";
    for row in command_rows() {
        text = text.word(before).word(row.0);
        before = "|";
    }
    text.word("\n")
}
