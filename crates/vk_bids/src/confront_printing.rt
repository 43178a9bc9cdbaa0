//! What is printed of a confrontation. It takes no memory.

ghost use Rattle.std.specs.Prelude.{◌≡◌, ◌≤◌, ◌++◌, decimal, length};
ghost use Rattle.vk_lines.specs.Forms.{line};
ghost use Rattle.vk_bids.specs.ConfrontTexts.{confrontation_text};

use crate::clash_printing::clash_line;
use crate::confrontation::Confrontation;
use vk_seal::with_mismatch;
use vk_text::ShortText;

/// The line of a confrontation for which both replies are accepted, the challenges differ and the
/// file is a secret; and of a clash. It is empty for the others, which name files.
pub fn confrontation_line(confrontation: &Confrontation) -> ShortText
    ensures { result ≡ confrontation_text confrontation.now }
{
    match confrontation {
        Confrontation::Refused {
            second: _,
            verdict: _,
        }
        | Confrontation::Same
        | Confrontation::Malformed { line: _ } => ShortText::new(),
        Confrontation::NoSeal { seat } => seat_line("confront no seal ", *seat),
        Confrontation::Mismatch(mismatch) => {
            let start = ShortText::new().word("confront mismatch ");
            with_mismatch(start, mismatch).word("\n")
        }
        Confrontation::Clash(two) => clash_line(two),
        Confrontation::Held { seat } => seat_line("held seat ", *seat),
    }
}

/// The line of a word and a seat.
fn seat_line(word: &str, seat: u16) -> ShortText
    requires { length word.now ≤ 100 }
    ensures { result ≡ word.now ++ line (decimal seat) }
{
    ShortText::new()
        .word(word)
        .number(u64::from(seat))
        .word("\n")
}
