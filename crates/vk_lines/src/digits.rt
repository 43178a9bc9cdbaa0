//! Bytes as lower-case hexadecimal.

ghost use Rattle.std.specs.Prelude.{◌≡◌, ◌*◌, ◌++◌, ◌<◌, ◌≤◌, ℕ, List, length, slice_index, Some, None, if◌then◌else◌, OnErr, OnOk};
ghost use Rattle.hex.specs.Hex.{lower_digits};
ghost use Rattle.vk_lines.specs.Tokens.{AreDigits, hex_of, hex_text, digit_value, ReadsHex};

use vk_residue::NoMemory;

/// The most digits that are read at once: those of 32 bytes.
const MOST_DIGITS: usize = 64;

/// The 16 bytes that 32 lower-case hexadecimal digits write; `None` for any other text.
pub fn read_hex16(text: &[u8]) -> Option<[u8; 16]>
    ensures value { result ≡ hex_of 16 text.now }
    ensures exact { ReadsHex 16 text.now result }
{
    let mut bytes = [0; 16];
    read_array(text, &mut bytes).then_some(bytes)
}

/// The 32 bytes that 64 lower-case hexadecimal digits write; `None` for any other text.
pub fn read_hex32(text: &[u8]) -> Option<[u8; 32]>
    ensures value { result ≡ hex_of 32 text.now }
    ensures exact { ReadsHex 32 text.now result }
{
    let mut bytes = [0; 32];
    read_array(text, &mut bytes).then_some(bytes)
}

/// Reads lower-case hexadecimal into the whole array; false where the text is anything else.
// The bytes are put together here, and not one by one with what the caller makes of them.
#[inline(never)]
fn read_array<const N: usize>(text: &[u8], bytes: &mut [u8; N]) -> bool
    requires { N ≤ 32 }
    ensures { hex_of N text.now ≡ (if result then Some bytes.new else None) }
{
    let is_read = read_hex(text, bytes);
    is_read
}

/// Reads lower-case hexadecimal into the whole of `bytes`; false where the text is anything else.
fn read_hex(text: &[u8], bytes: &mut [u8]) -> bool
    requires { length bytes.old ≤ 32 }
    ensures { hex_of (length bytes.old) text.now ≡ (if result then Some bytes.new else None) }
{
    let digits = 2 * bytes.len();
    if text.len() != digits {
        return false;
    }
    // All values first, and then the bytes of two each, so that the compiler can read many digits
    // at once.
    let mut values = [0; MOST_DIGITS];
    let (values, _) = values.split_at_mut(digits);
    let greatest = read_values(text, values);
    join_values(values, bytes);
    greatest <= 15
}

/// Puts the value of each digit in its place, and answers the greatest of them.
fn read_values(text: &[u8], values: &mut [u8]) -> u8
    requires { length values.old ≡ length text.now }
    ensures digits { result ≤ 15 → AreDigits text.now values.new }
    ensures none { 15 < result → (count : ℕ) → hex_of count text.now ≡ None }
{
    // No way out of the loop, for the same reason.
    let mut greatest: u8 = 0;
    for index in 0..text.len() {
        let value = digit_value(text[index]);
        greatest = greatest.max(value);
        values[index] = value;
    }
    greatest
}

/// Puts the byte of each two values in its place.
fn join_values(values: &[u8], bytes: &mut [u8])
    requires { length values.now ≡ 2 * length bytes.old }
    ensures { (text : List ℕ) → AreDigits text values.now → hex_text bytes.new ≡ text }
{
    for index in 0..bytes.len() {
        let high = values[2 * index];
        let low = values[2 * index + 1];
        bytes[index] = high % 16 * 16 + low % 16;
    }
}

/// The value of a lower-case hexadecimal digit; 255 for any other byte.
fn digit_value(byte: u8) -> u8
    ensures { result ≡ digit_value byte }
{
    if b'0' <= byte && byte <= b'9' {
        byte - b'0'
    } else if b'a' <= byte && byte <= b'f' {
        byte - b'a' + 10
    } else {
        255
    }
}

/// Appends bytes as lower-case hexadecimal. After `NoMemory`, `out` is as before.
pub fn push_hex(out: &mut Vec<u8>, bytes: &[u8]) -> Result<(), NoMemory>
    ensures ok { OnOk result (out.new.items ≡ out.old.items ++ hex_text bytes.now) }
    ensures err { OnErr result (out.new.items ≡ out.old.items) }
{
    let before = out.len();
    let mut written = 0;
    while written < bytes.len() {
        let (_, rest) = bytes.split_at(written);
        let (piece, _) = rest.split_at(at_most_32(rest.len()));
        if push_piece(out, piece).is_err() {
            out.truncate(before);
            return Err(NoMemory);
        }
        written += piece.len();
    }
    Ok(())
}

/// The length of a piece that is taken of so many bytes.
fn at_most_32(length: usize) -> usize
    ensures some { 0 < length → 0 < result }
    ensures within { result ≤ length }
    ensures short { result ≤ 32 }
{
    if length < 32 { length } else { 32 }
}

/// Appends the digits of at most 32 bytes, all at once. After `NoMemory`, `out` is as before.
fn push_piece(out: &mut Vec<u8>, bytes: &[u8]) -> Result<(), NoMemory>
    requires { length bytes.now ≤ 32 }
    ensures ok { OnOk result (out.new.items ≡ out.old.items ++ hex_text bytes.now) }
    ensures err { OnErr result (out.new.items ≡ out.old.items) }
{
    let mut digits = [0; 64];
    let (text, _) = digits.split_at_mut(2 * bytes.len());
    write_hex(bytes, text);
    if out.extend_from_slice(text).is_err() {
        return Err(NoMemory);
    }
    Ok(())
}

/// Writes two digits for each byte.
fn write_hex(bytes: &[u8], text: &mut [u8])
    requires { length text.old ≡ 2 * length bytes.now }
    ensures { text.new ≡ hex_text bytes.now }
{
    for index in 0..bytes.len() {
        text[2 * index] = hex_digit(bytes[index] / 16);
        text[2 * index + 1] = hex_digit(bytes[index] % 16);
    }
}

/// The character of a hexadecimal digit, in lower case.
fn hex_digit(digit: u8) -> u8
    requires { digit < 16 }
    ensures { result ≡ slice_index lower_digits digit }
{
    if digit < 10 {
        b'0' + digit
    } else {
        b'a' + (digit - 10)
    }
}
