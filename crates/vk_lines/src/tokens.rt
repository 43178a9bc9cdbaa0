//! Numbers as text, and the lines that several forms have.

ghost use Rattle.std.specs.Prelude.{◌≡◌, ◌+◌, ◌*◌, ◌^◌, ◌++◌, decimal, length, drop, option_map, IfSome, IsNone, OnErr, OnOk, ◌≤◌};
ghost use Rattle.hex.specs.Hex.{IsBytes};
ghost use Rattle.vk_residue.specs.Residue.{IsResidue};
ghost use Rattle.vk_lines.specs.Tokens.{fields_of, first_by, alone_by, hex_of, number_line, id_line, digests_line, HasDigests, decimal_of, residue_of, ReadsDecimal, next_number, starts_canonical};

use crate::cutting::{behind_word, one_field};
use crate::digits::{read_hex16, read_hex32};
use vk_digests::TwoDigests;
use vk_residue::{MODULUS, NoMemory, Residue};

/// The number whose canonical decimal the text is: digits alone, and no zero before others.
/// `None` where the text is no such decimal or the number is above `most`.
pub fn read_decimal(text: &[u8], most: u64) -> Option<u64>
    ensures value { result ≡ decimal_of most text.now }
    ensures exact { ReadsDecimal most text.now result }
    ensures within { IfSome result (λ number. number ≤ most) }
{
    let number = number_of(text, most);
    number
}

/// The number of a canonical decimal of at most `most`. `None` for every other text.
fn number_of(text: &[u8], most: u64) -> Option<u64>
    ensures { result ≡ decimal_of most text.now }
{
    if !starts_canonical(text) {
        return None;
    }
    let mut number: u64 = 0;
    for digit in text {
        number = next_number(number, *digit, most)?;
    }
    Some(number)
}

/// The residue whose canonical decimal the text is. `None` where it is that of none.
pub fn read_residue(text: &[u8]) -> Option<Residue>
    ensures value { result ≡ residue_of text.now }
    ensures right { IfSome result IsResidue }
{
    let number = read_decimal(text, MODULUS - 1)?;
    let residue = Residue::new(number);
    residue
}

/// Whether a text is not empty and has no zero before another character.
fn starts_canonical(text: &[u8]) -> bool
    ensures { result ≡ starts_canonical text.now }
{
    text.len() == 1 || (text.len() > 1 && text[0] != b'0')
}

/// The number whose digits are those of `number` and then this one, where that is at most `most`.
fn next_number(number: u64, digit: u8, most: u64) -> Option<u64>
    ensures { result ≡ next_number most number digit }
{
    if !digit.is_ascii_digit() {
        return None;
    }
    // One comparison tells of most digits that neither the most nor a u64 is passed.
    if number < most / 10 {
        return Some(10 * number + u64::from(digit - b'0'));
    }
    let longer = with_digit(number, digit - b'0')?;
    if longer <= most { Some(longer) } else { None }
}

/// Ten times the number and a digit's value more. None where that is no u64.
fn with_digit(number: u64, value: u8) -> Option<u64>
    requires { value ≤ 9 }
    ensures exact { IfSome result (λ longer. longer ≡ 10 * number + value) }
    ensures none { IsNone result → 2 ^ 64 ≤ 10 * number + value }
{
    number.checked_mul(10)?.checked_add(u64::from(value))
}

/// The number of a line of this word and a number from `least` to `most`.
pub fn read_number(text: &[u8], word: &[u8], least: u64, most: u64) -> Option<u64>
    ensures value { result ≡ number_line word.now least most text.now }
    ensures within { IfSome result (λ number. (least ≤ number) × (number ≤ most)) }
{
    let field = one_field(behind_word(text, word)?)?;
    let number = read_decimal(field, most)?;
    if least <= number { Some(number) } else { None }
}

/// The id of a line of this word and 16 bytes in hexadecimal.
pub fn read_id(text: &[u8], word: &[u8]) -> Option<[u8; 16]>
    ensures value { result ≡ id_line word.now text.now }
    ensures bytes { IfSome result (λ id. (length id ≡ 16) × IsBytes id) }
{
    let field = one_field(behind_word(text, word)?)?;
    let id = read_hex16(field);
    id
}

/// The 32 bytes that the first field writes in hexadecimal, and the text behind the space after it.
/// `None` where no other field follows, too.
// No space is looked for: among 64 digits there is none.
pub fn next_hex32(text: &[u8]) -> Option<([u8; 32], &[u8])>
    ensures value { option_map (λ x. (x.0, fields_of x.1.now)) result
        ≡ first_by (hex_of 32) (fields_of text.now) }
    ensures bytes { IfSome result (λ x. (length x.0 ≡ 32) × IsBytes x.0) }
{
    if text.len() <= 64 {
        return None;
    }
    let (digits, more) = text.split_at(64);
    if more[0] != b' ' {
        return None;
    }
    let bytes = read_hex32(digits)?;
    Some((bytes, &more[1..]))
}

/// The 32 bytes that the only field writes in hexadecimal; `None` where there are more fields, too.
#[tactic(auto, using(crate::proofs::Successive::hex_alone))]
pub fn last_hex32(text: &[u8]) -> Option<[u8; 32]>
    ensures value { result ≡ alone_by (hex_of 32) (fields_of text.now) }
    ensures bytes { IfSome result (λ bytes. (length bytes ≡ 32) × IsBytes bytes) }
{
    let bytes = read_hex32(text);
    bytes
}

/// The residue whose canonical decimal the only field is; `None` where there are more fields, too.
#[tactic(auto, using(crate::proofs::Successive::residue_alone))]
pub fn last_residue(text: &[u8]) -> Option<Residue>
    ensures value { result ≡ alone_by residue_of (fields_of text.now) }
    ensures right { IfSome result IsResidue }
{
    let residue = read_residue(text);
    residue
}

/// What the digests make of a line of this word and twice 32 bytes in hexadecimal.
pub fn read_digests<C: TwoDigests + Drop>(text: &[u8], word: &[u8]) -> Option<C>
    ensures value { result ≡ digests_line C.made word.now text.now }
    ensures bytes { IfSome result (λ item. HasDigests (C.first_of item) (C.second_of item)) }
{
    let (first, rest) = next_hex32(behind_word(text, word)?)?;
    let second = last_hex32(rest)?;
    Some(C::of_two(first, second))
}

/// Appends the canonical decimal of a number. After `NoMemory`, `out` is as before.
pub fn push_decimal(out: &mut Vec<u8>, number: u64) -> Result<(), NoMemory>
    ensures ok { OnOk result (out.new.items ≡ out.old.items ++ decimal number) }
    ensures err { OnErr result (out.new.items ≡ out.old.items) }
{
    let mut digits = [b'0'; 20];
    let start = write_digits(number, &mut digits);
    out.extend_from_slice(&digits[start..])?;
    Ok(())
}

/// Writes the decimal of a number at the end of the digits, and answers where it starts.
fn write_digits(number: u64, digits: &mut [u8; 20]) -> usize
    ensures within { result ≤ 20 }
    ensures written { drop result digits.new ≡ decimal number }
{
    let mut start = 20;
    let mut rest = number;
    while rest >= 10 {
        start -= 1;
        digits[start] = b'0' + (rest % 10) as u8;
        rest /= 10;
    }
    start -= 1;
    digits[start] = b'0' + rest as u8;
    start
}
