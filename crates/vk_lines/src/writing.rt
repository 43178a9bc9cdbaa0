//! Lines as they are written. After want of memory a vector may hold a part of the line.

ghost use Rattle.std.specs.Prelude.{◌≡◌, ◌++◌, ◌∷◌, [], decimal, OnOk};
ghost use Rattle.vk_lines.specs.Tokens.{hex_text};
ghost use Rattle.vk_lines.specs.Forms.{digests_text, line, spaced};

use crate::digits::push_hex;
use crate::tokens::push_decimal;
use vk_residue::NoMemory;

/// Appends a text as a line.
pub fn push_line(out: &mut Vec<u8>, text: &[u8]) -> Result<(), NoMemory>
    ensures { OnOk result (out.new.items ≡ out.old.items ++ line text.now) }
{
    out.extend_from_slice(text)?;
    end_line(out)?;
    Ok(())
}

/// Appends the line of a word and a number.
pub fn push_number_line(out: &mut Vec<u8>, word: &[u8], number: u64) -> Result<(), NoMemory>
    ensures { OnOk result (out.new.items
        ≡ out.old.items ++ line (spaced (word.now ∷ decimal number ∷ []))) }
{
    out.extend_from_slice(word)?;
    push_space(out)?;
    push_decimal(out, number)?;
    end_line(out)?;
    Ok(())
}

/// Appends the line of a word and bytes in hexadecimal.
pub fn push_hex_line(out: &mut Vec<u8>, word: &[u8], bytes: &[u8]) -> Result<(), NoMemory>
    ensures { OnOk result (out.new.items
        ≡ out.old.items ++ line (spaced (word.now ∷ hex_text bytes.now ∷ []))) }
{
    out.extend_from_slice(word)?;
    push_space(out)?;
    push_hex(out, bytes)?;
    end_line(out)?;
    Ok(())
}

/// Appends the line of a word and two digests.
pub fn push_digests_line(
    out: &mut Vec<u8>,
    word: &[u8],
    first: &[u8; 32],
    second: &[u8; 32],
) -> Result<(), NoMemory>
    ensures { OnOk result
        (out.new.items ≡ out.old.items ++ line (digests_text word.now first.now second.now)) }
{
    out.extend_from_slice(word)?;
    push_space(out)?;
    push_hex(out, first)?;
    push_space(out)?;
    push_hex(out, second)?;
    end_line(out)?;
    Ok(())
}

/// Appends the space between two fields.
pub fn push_space(out: &mut Vec<u8>) -> Result<(), NoMemory>
    ensures { OnOk result (out.new.items ≡ out.old.items ++ 32 ∷ []) }
{
    out.push(b' ')?;
    Ok(())
}

/// Appends the line feed that ends a line.
pub fn end_line(out: &mut Vec<u8>) -> Result<(), NoMemory>
    ensures { OnOk result (out.new.items ≡ out.old.items ++ 10 ∷ []) }
{
    out.push(b'\n')?;
    Ok(())
}
