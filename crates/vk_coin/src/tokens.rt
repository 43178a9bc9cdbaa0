//! The fields of the lines of a share and a coin.

ghost use Rattle.std.specs.Prelude.{◌≡◌, ℕ, List, codes, length, option_map, Some, IfErr, IfOk, IfSome};
ghost use Rattle.vk_commit.specs.Values.{AreBytes};
ghost use Rattle.vk_residue.specs.Steps.{◌>>?◌};
ghost use Rattle.vk_lines.specs.Tokens.{behind_word, fields_of, hex_of, three_of, two_of};
ghost use Rattle.vk_lines.specs.declared.errors.ReadErr.TheVariants.{NoMemory};
ghost use Rattle.vk_coin.specs.Reading.{auditor_of, bits_within, part_line, show_by, show_line, shown_line};

use std::alloc::Global;
use vk_lines::{ReadErr, behind_word, read_decimal, read_hex32, three_fields, two_fields};
use vk_reply::bits_of;
use vk_seq::Seq;

/// What a line shows of a share.
#[derive(Drop)]
pub(crate) struct Show {
    pub(crate) key: [u8; 32],
    pub(crate) bits: Seq<bool>,
}

/// The part that a line of that auditor tells.
pub(crate) fn part_line(auditor: u16, text: &[u8]) -> Option<[u8; 32]>
    ensures value { result ≡ part_line auditor text.now }
    ensures bytes { IfSome result (AreBytes 32) }
{
    let (number, part) = two_fields(behind_word(text, b"part")?)?;
    auditor_of(auditor, number)?;
    let part = read_hex32(part);
    part
}

/// Whether a text is the number of that auditor.
fn auditor_of(auditor: u16, text: &[u8]) -> Option<()>
    ensures { result ≡ auditor_of auditor text.now }
{
    let number = read_decimal(text, u64::from(auditor))?;
    if u64::from(auditor) <= number {
        Some(())
    } else {
        None
    }
}

/// What a share's line shows, `None` where it is no such line. Errs for want of memory alone.
pub(crate) fn show_line(alloc: Global, text: &[u8]) -> Result<Option<Show>, ReadErr>
    ensures value { IfOk result (λ show. show ≡ show_line text.now) }
    ensures memory { IfErr result (λ e. e ≡ ReadErr.NoMemory) }
{
    match show_fields(text) {
        None => Ok(None),
        Some((key, word)) => {
            let bits = bits_of(alloc, word)?;
            Ok(show_of(key, bits))
        }
    }
}

/// The texts of the key and of the bits in a share's line.
fn show_fields(text: &[u8]) -> Option<(&[u8], &[u8])>
    ensures { option_map (λ x. (x.0.now, x.1.now)) result
        ≡ (behind_word (codes "show") (fields_of text.now) >>? two_of) }
{
    let fields = two_fields(behind_word(text, b"show")?)?;
    Some(fields)
}

/// What is shown by the text of a key, and by bits where these are some.
fn show_of(key: &[u8], bits: Option<Seq<bool>>) -> Option<Show>
    ensures { result ≡ (hex_of 32 key.now >>? λ bytes. bits >>? λ shown.
        Some (show_by bytes shown)) }
{
    let key = read_hex32(key)?;
    let bits = bits?;
    Some(Show { key, bits })
}

/// What the line of that auditor shows in a coin of so many bits, `None` where it is no such line.
/// Errs for want of memory alone.
pub(crate) fn shown_line(
    alloc: Global,
    bits: u32,
    auditor: u16,
    text: &[u8],
) -> Result<Option<Show>, ReadErr>
    ensures value { IfOk result (λ show. show ≡ shown_line bits auditor text.now) }
    ensures memory { IfErr result (λ e. e ≡ ReadErr.NoMemory) }
{
    match shown_fields(auditor, text) {
        None => Ok(None),
        Some((key, word)) => {
            let bits = bits_within(alloc, bits, word)?;
            Ok(show_of(key, bits))
        }
    }
}

/// The texts of the key and of the bits in the line of that auditor.
fn shown_fields(auditor: u16, text: &[u8]) -> Option<(&[u8], &[u8])>
    ensures { option_map {U = List ℕ × List ℕ} (λ x. (x.0.now, x.1.now)) result
        ≡ (behind_word (codes "show") (fields_of text.now) >>? three_of >>? λ fields.
        auditor_of auditor fields.0 >>? λ _. Some (fields.1, fields.2)) }
{
    let (number, key, word) = three_fields(behind_word(text, b"show")?)?;
    auditor_of(auditor, number)?;
    Some((key, word))
}

/// So many bits, `None` where the text isn't that. Errs for want of memory alone.
fn bits_within(alloc: Global, count: u32, text: &[u8]) -> Result<Option<Seq<bool>>, ReadErr>
    ensures value { IfOk result (λ bits. bits ≡ bits_within count text.now) }
    ensures memory { IfErr result (λ e. e ≡ ReadErr.NoMemory) }
{
    if text.len() != count as usize {
        return Ok(None);
    }
    let bits = bits_of(alloc, text)?;
    Ok(bits)
}
