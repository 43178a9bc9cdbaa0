//! The fields of the lines of a challenge and a reply.

ghost use Rattle.std.specs.Prelude.{◌≡◌, ◌++◌, codes, option_map, IfErr, IfOk, IfSome, OnOk};
ghost use Rattle.std.specs.List.{list_all};
ghost use Rattle.vk_commit.specs.Values.{IsOpening};
ghost use Rattle.vk_lines.specs.Tokens.{fields_of, one_field};
ghost use Rattle.vk_lines.specs.declared.errors.ReadErr.TheVariants.{NoMemory};
ghost use Rattle.vk_reply.specs.Tokens.{are_bits, bits_line, bits_of, entry_of, is_bit, last_opening};
ghost use Rattle.vk_reply.specs.Texts.{bit_character, bits_text};

use std::alloc::Global;
use vk_commit::Opening;
use vk_lines::{ReadErr, behind_word, last_residue, next_hex32, one_field, read_word};
use vk_residue::NoMemory;
use vk_seq::Seq;

/// The most bits that a challenge has.
const MOST_BITS: usize = 64;

/// The bits of a challenge's line, `None` where it is no such line. Errs for want of memory alone.
pub(crate) fn bits_line(alloc: Global, text: &[u8]) -> Result<Option<Seq<bool>>, ReadErr>
    ensures value { IfOk result (λ bits. bits ≡ bits_line text.now) }
    ensures memory { IfErr result (λ e. e ≡ ReadErr.NoMemory) }
{
    match bits_field(text) {
        None => Ok(None),
        Some(word) => bits_of(alloc, word),
    }
}

/// The field of a line of the word `bits` and one field.
fn bits_field(text: &[u8]) -> Option<&[u8]>
    ensures { option_map (λ x. x.now) result ≡ one_field (codes "bits") Some text.now }
{
    let field = one_field(behind_word(text, b"bits")?)?;
    Some(field)
}

/// The bits that a text is, `None` where it isn't 1 to 64 of the characters `0` and `1`. Errs for
/// want of memory alone.
pub fn bits_of(alloc: Global, text: &[u8]) -> Result<Option<Seq<bool>>, ReadErr>
    ensures value { IfOk result (λ bits. bits ≡ bits_of text.now) }
    ensures memory { IfErr result (λ e. e ≡ ReadErr.NoMemory) }
{
    if !are_bits(text) {
        return Ok(None);
    }
    let mut bits = Seq::new(alloc);
    for character in text {
        bits.push(*character == b'1')?;
    }
    Ok(Some(bits))
}

/// Whether a text is 1 to 64 of the characters `0` and `1`.
fn are_bits(text: &[u8]) -> bool
    ensures { result ≡ are_bits text.now }
{
    1 <= text.len() && text.len() <= MOST_BITS && each_is_bit(text)
}

/// Whether each character of a text is `0` or `1`.
fn each_is_bit(text: &[u8]) -> bool
    ensures { result ≡ list_all is_bit text.now }
{
    text.iter().all(|character| is_bit(*character))
}

/// Whether a character is `0` or `1`.
fn is_bit(character: u8) -> bool
    ensures { result ≡ is_bit character }
{
    character == b'0' || character == b'1'
}

/// The entry of a pair that the text names: false for `0`, the first, and true for `1`, the second.
pub(crate) fn entry_of(text: &[u8]) -> Option<bool>
    ensures { result ≡ entry_of text.now }
{
    if read_word(text, b"0").is_some() {
        Some(false)
    } else if read_word(text, b"1").is_some() {
        Some(true)
    } else {
        None
    }
}

/// The opening whose key and value are the only fields of a text.
pub(crate) fn last_opening(text: &[u8]) -> Option<Opening>
    ensures value { result ≡ last_opening (fields_of text.now) }
    ensures right { IfSome result IsOpening }
{
    let (key, rest) = next_hex32(text)?;
    let value = last_residue(rest)?;
    Some(Opening { key, value })
}

/// The character `0` or `1`.
pub(crate) fn bit_character(bit: bool) -> u8
    ensures { result ≡ bit_character bit }
{
    if bit { b'1' } else { b'0' }
}

/// Appends the characters of bits. Errs for want of memory alone.
pub fn push_bits(out: &mut Vec<u8>, bits: &[bool]) -> Result<(), NoMemory>
    ensures { OnOk result (out.new.items ≡ out.old.items ++ bits_text bits.now) }
{
    for bit in bits {
        out.push(bit_character(*bit))?;
    }
    Ok(())
}
