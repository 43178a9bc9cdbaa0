// Files that another implementation made. Those that it refuses are replayed by the program
// `conformance`.
ghost use Rattle.std.specs.Prelude.{◌≤◌, IfOk};
ghost use Rattle.vk_seal.specs.Values.{IsSeal, IsSecret};

use super::files::Given;
use std::alloc::Global;
use std::panic::Expect;
use std::process::Abort;
use vk_dice::{ChaChaWords, ListWords, Words};
use vk_lines::ReadErr;
use vk_residue::NoMemory;
use vk_seal::{
    Mismatch, Seal, SealErr, Secret, make_seal, matches, read_seal, read_secret, seal_text,
    secret_text,
};

const ID: [u8; 16] = [0, 1, 2, 3, 4, 5, 6, 7, 8, 9, 10, 11, 12, 13, 14, 15];

const SEED: [u8; 32] = [
    0, 1, 2, 3, 4, 5, 6, 7, 8, 9, 10, 11, 12, 13, 14, 15, 16, 17, 18, 19, 20, 21, 22, 23, 24, 25,
    26, 27, 28, 29, 30, 31,
];

// Seat 7, the bid 15, two lanes, from the stream of that seat.
fn secret() -> &'static [u8] {
    b"vickrey-secret 1\n\
auction 000102030405060708090a0b0c0d0e0f\n\
seat 7\n\
bid 15\n\
lanes 2\n\
x 1570145141266064147 ac6bb193db24e3546590a579ac992f78d5bd5b6a4ae7a9da09b0e7ea12646bc3 da412dabb873d92db4b2bac4efade20b6f537c728d52a3f2ecddae391aecf615\n\
x 348017112954609804 b5dddd1508d24170d85580da8dbac02e9061d4938bdcbae08b8ea147a35c4f1a 8fca2fed5569cad0c54d1df2985b8e05e9dd0195dac69a21a7f832400e25d2d0\n\
end\n\
"
}

fn seal() -> &'static [u8] {
    b"vickrey-seal 1\n\
auction 000102030405060708090a0b0c0d0e0f\n\
seat 7\n\
lanes 2\n\
x b2079e5725d4cf5d48e1669a4691a93c831a1c5c5452c1ba82c26e98a45f063c 137758937b8dcccf06a55ab35985cf8cb4b1f8468a8c9e0474e604df75f5f756\n\
x 20a06f1a3323496729c1038259d91211b61848344387dafbe64812317568fb9b 03956c24c21e43fb35db1ae4e7f9107b2e932528192586c13c89d88b0fd0a291\n\
end\n\
"
}

/// A secret with its seal for that many lanes, from the stream of seat 7.
fn made(alloc: Global, lanes: u32) -> Result<(Secret, Seal), SealErr>
    requires some { 1 ≤ lanes }
    requires few { lanes ≤ 64 }
{
    let mut words = ChaChaWords::of(&SEED, &ID, 65543);
    let made = make_seal(alloc, 15, 7, &ID, 4, lanes, &mut words)?;
    Ok(made)
}

/// Their files.
fn texts_of(rt: &impl Abort, alloc: Global, lanes: u32) -> Result<(Vec<u8>, Vec<u8>), NoMemory>
    requires some { 1 ≤ lanes }
    requires few { lanes ≤ 64 }
{
    let (secret, seal) = made(alloc, lanes).expect(rt, "made");
    let first = secret_text(alloc, &secret)?;
    let second = seal_text(alloc, &seal)?;
    Ok((first, second))
}

#[test]
fn a_seal_is_made_and_written_as_elsewhere(rt: HostRuntime) {
    assert!(rt; try_texts(&rt, rt.alloc()).is_ok());
}

fn try_texts(rt: &impl Abort, alloc: Global) -> Result<(), NoMemory> {
    let (first, second) = texts_of(rt, alloc, 2)?;
    let same = first.as_slice() == secret() && second.as_slice() == seal();
    assert!(rt; same);
    Ok(())
}

/// The secret of the file.
fn secret_in(rt: &impl Abort, alloc: Global, bytes: &[u8]) -> Result<Secret, ReadErr>
    ensures { IfOk result IsSecret }
{
    let mut shelf = Given::of(bytes);
    let mut lines = shelf.lines(rt, alloc);
    let secret = read_secret(alloc, &mut shelf, &mut lines)?;
    Ok(secret)
}

/// The seal of the file, and how many lines were read.
fn seal_in(rt: &impl Abort, alloc: Global, bytes: &[u8]) -> Result<(Seal, u64), ReadErr>
    ensures { IfOk result (λ found. IsSeal found.0) }
{
    let mut shelf = Given::of(bytes);
    let mut lines = shelf.lines(rt, alloc);
    let seal = read_seal(alloc, &mut shelf, &mut lines)?;
    Ok((seal, lines.number()))
}

/// Both files are read and match, the second once so many lines were read.
fn try_match(
    rt: &impl Abort,
    alloc: Global,
    first: &[u8],
    second: &[u8],
    lines: u64,
) -> Result<(), ReadErr> {
    let secret = secret_in(rt, alloc, first)?;
    let (seal, read) = seal_in(rt, alloc, second)?;
    assert!(rt; secret.bid == 15);
    assert!(rt; read == lines);
    check_match(rt, &secret, seal);
    Ok(())
}

/// They match, and don't once the seal has another seat.
fn check_match(rt: &impl Abort, secret: &Secret, mut seal: Seal)
    requires secret { IsSecret secret.now }
    requires seal { IsSeal seal }
{
    let matched = matches(secret, &seal);
    seal.seat = 8;
    let moved = matches(secret, &seal);
    assert!(rt; matched == Ok(()));
    assert!(rt; moved == Err(Mismatch::Seat { kept: 8, given: 7 }));
}

#[test]
fn what_was_written_is_read_and_matches(rt: HostRuntime) {
    assert!(rt; try_match(&rt, rt.alloc(), secret(), seal(), 7).is_ok());
}

// A text of 64 lanes has more bytes than a reader takes ahead at once.
#[test]
fn a_seal_of_64_lanes_is_read_back(rt: HostRuntime) {
    let (first, second) = texts_of(&rt, rt.alloc(), 64).expect(&rt, "written");
    assert!(rt; try_match(&rt, rt.alloc(), first.as_slice(), second.as_slice(), 69).is_ok());
}

/// Why no seal of the bid for two lanes is made, if none is.
fn refusal<W: Words>(alloc: Global, bid: u64, lanes: u32, words: &mut W) -> Option<SealErr>
    requires some { 1 ≤ lanes }
    requires few { lanes ≤ 64 }
{
    make_seal(alloc, bid, 7, &ID, 4, lanes, words).err()
}

const MOST: u64 = 18446744073709551615;

#[test]
fn a_bid_or_a_seed_may_be_refused(rt: HostRuntime) {
    assert!(rt; try_refused(&rt, rt.alloc()).is_ok());
}

fn try_refused(rt: &impl Abort, alloc: Global) -> Result<(), NoMemory> {
    let ahead = [7, 0, 0, 0, 0, 0, 0, 0, 0, MOST, MOST, MOST, MOST];
    let mut words = ListWords::of(alloc, &ahead)?;
    let large = refusal(alloc, 16, 2, &mut words);
    let dry = refusal(alloc, 15, 2, &mut words);
    assert!(rt; large == Some(SealErr::BidTooLarge));
    assert!(rt; dry == Some(SealErr::DrySeed { lane: 2 }));
    Ok(())
}

#[test]
fn the_words_left_are_those_after_the_last_drawn(rt: HostRuntime) {
    assert!(rt; try_left(&rt, rt.alloc()).is_ok());
}

fn try_left(rt: &impl Abort, alloc: Global) -> Result<(), NoMemory> {
    let ahead = [7, 0, 0, 0, 0, 0, 0, 0, 0, 98, MOST, MOST, MOST, MOST, 99];
    let mut words = ListWords::of(alloc, &ahead)?;
    let made = refusal(alloc, 15, 1, &mut words);
    assert!(rt; made.is_none());
    assert!(rt; words.next() == 98);
    let dry = refusal(alloc, 15, 1, &mut words);
    assert!(rt; dry == Some(SealErr::DrySeed { lane: 1 }));
    assert!(rt; words.next() == 99);
    Ok(())
}
