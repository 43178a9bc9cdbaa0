//! A line of two numbers, which takes no memory.

ghost use Rattle.std.specs.Prelude.{◌≡◌, ◌≤◌, ◌+◌, decimal, length};
ghost use Rattle.vk_effect.specs.Texts.{◌+++◌, line_feed};

use vk_text::ShortText;

/// Each number behind its words.
pub fn numbers_line(first: &str, one: u32, second: &str, other: u32) -> ShortText
    requires { length first.now + length second.now ≤ 300 }
    ensures { result ≡ first.now +++ decimal one +++ second.now +++ decimal other +++ line_feed }
{
    ShortText::new()
        .word(first)
        .number(u64::from(one))
        .word(second)
        .number(u64::from(other))
        .word("\n")
}
