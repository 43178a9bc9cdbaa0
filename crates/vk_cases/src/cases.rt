// A file of cases, and the fields of a case.
ghost use Rattle.std.specs.Prelude.{◌≤◌, IfOk};

use crate::unreplayed::{Tried, Unreplayed};
use std::alloc::Global;
use vk_io::{Content, Shelf, read_whole};
use vk_lines::{field, read_decimal, read_hex16, read_hex32};
use vk_residue::Residue;
use vk_seq::Seq;

/// The most bytes that a file of cases has.
const MOST_BYTES: u64 = 1 << 20;

/// The bytes of a file of cases.
pub fn read_cases<S: Shelf>(alloc: Global, shelf: &mut S, name: &str) -> Tried<Seq<u8>> {
    match read_whole(alloc, shelf, name, MOST_BYTES)? {
        Content::Held(bytes) => Ok(bytes),
        Content::Missing | Content::TooLong => Err(Unreplayed::NoCase),
    }
}

/// The word at that place of a case, from 0.
pub fn word_at(case: &[u8], place: usize) -> Tried<&[u8]> {
    field(case, place).ok_or(Unreplayed::NoCase)
}

/// The number at that place, at most `most`.
pub fn number_at(case: &[u8], place: usize, most: u64) -> Tried<u64>
    ensures { IfOk result (λ number. number ≤ most) }
{
    let word = word_at(case, place)?;
    let number = read_decimal(word, most).ok_or(Unreplayed::NoCase)?;
    Ok(number)
}

/// The residue at that place.
pub fn residue_at(case: &[u8], place: usize) -> Tried<Residue> {
    let number = number_at(case, place, u64::MAX)?;
    Residue::new(number).ok_or(Unreplayed::NoCase)
}

/// The 16 bytes at that place.
pub fn id_at(case: &[u8], place: usize) -> Tried<[u8; 16]> {
    let word = word_at(case, place)?;
    read_hex16(word).ok_or(Unreplayed::NoCase)
}

/// The 32 bytes at that place.
pub fn key_at(case: &[u8], place: usize) -> Tried<[u8; 32]> {
    let word = word_at(case, place)?;
    read_hex32(word).ok_or(Unreplayed::NoCase)
}

/// The numbers of a case, with commas between them.
pub fn numbers_in(alloc: Global, case: &[u8]) -> Tried<Vec<u64>> {
    let mut numbers = Vec::new(alloc);
    for number in case.split(|byte| *byte == b',') {
        let number = read_decimal(number, u64::MAX).ok_or(Unreplayed::NoCase)?;
        numbers.push(number)?;
    }
    Ok(numbers)
}

/// The bytes from that place on.
pub fn behind(bytes: &[u8], place: usize) -> &[u8] {
    if bytes.len() < place {
        return &[];
    }
    let (_before, behind) = bytes.split_at(place);
    behind
}
