ghost use Rattle.std.specs.Prelude.{◌≡◌, ◌+◌, ◌≤◌, ◌++◌, [], decimal, length};
ghost use Rattle.hex.specs.Hex.{encode_lower};

use arrayvec::ArrayVec;
use std::marker::Model;

/// A text of at most 400 bytes, which lie in the value itself. No call of it takes memory.
#[derive(Drop)]
pub struct ShortText {
    bytes: ArrayVec<u8, 400>,
}

impl Model for ShortText {
    ghost use Rattle.std.specs.Prelude.{List, ℕ};

    ghost Value = { List ℕ };

    ghost view = { λ t. t.bytes.items };
}

impl ShortText {
    /// The empty text.
    pub fn new() -> ShortText
        ensures { result ≡ [] }
    {
        ShortText {
            bytes: ArrayVec::new(),
        }
    }

    /// The text, and then this one.
    pub fn word(self, word: &str) -> ShortText
        requires room { length self + length word.now ≤ 400 }
        ensures text { result ≡ self ++ word.now }
        ensures long { length result ≡ length self + length word.now }
    {
        self.put(word.as_bytes())
    }

    /// The text, and then the number in decimal: at most 20 digits.
    pub fn number(self, number: u64) -> ShortText
        requires room { length self ≤ 380 }
        ensures text { result ≡ self ++ decimal number }
        ensures long { length result ≤ length self + 20 }
    {
        let mut digits = itoa::Buffer::new();
        self.put(digits.format(number).as_bytes())
    }

    /// The text, and then at most 32 bytes in lower-case hexadecimal, two digits a byte.
    pub fn hex(self, bytes: &[u8]) -> ShortText
        requires few { length bytes.now ≤ 32 }
        requires room { length self ≤ 336 }
        ensures text { result ≡ self ++ encode_lower bytes.now }
        ensures long { length result ≤ length self + 64 }
    {
        let mut digits = [0; 64];
        let digits = &mut digits[..2 * bytes.len()];
        if hex::encode_to_slice(bytes, digits).is_err() {
            unreachable!();
        }
        self.put(digits)
    }

    /// The text, and then these bytes.
    fn put(self, bytes: &[u8]) -> ShortText
        requires room { length self + length bytes.now ≤ 400 }
        ensures text { result ≡ self ++ bytes.now }
        ensures long { length result ≡ length self + length bytes.now }
    {
        let mut text = self.bytes;
        if text.try_extend_from_slice(bytes).is_err() {
            unreachable!();
        }
        ShortText { bytes: text }
    }

    /// The text as bytes.
    pub fn as_bytes(&self) -> &[u8]
        ensures { result.now ≡ self.now }
    {
        self.bytes.as_slice()
    }
}
