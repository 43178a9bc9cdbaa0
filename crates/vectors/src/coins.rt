// The bits that auditors fix together, and those that one of them needs for the bits that it wants.
ghost use Rattle.std.specs.Prelude.{◌≡◌, ◌≤◌, IfOk, OnOk, length, map};
ghost use Rattle.vk_coin.specs.Bits.{HaveBits};
ghost use Rattle.vk_coin.specs.Coins.{IsCoin};

use crate::parts::{part_at, parts_of};
use crate::shares::bits_in;
use std::alloc::Global;
use vk_cases::{Text, Tried, Unreplayed, word_at};
use vk_coin::{Coin, JointErr, Share, joint, own_bits, read_coin, share_commit};
use vk_io::MemShelf;
use vk_lines::Lines;
use vk_reply::Challenge;

/// The auction that all coins are of.
const AUCTION: [u8; 16] = [0x42; 16];

/// The key of every share.
const KEY: [u8; 32] = [0x4b; 32];

/// The case, and the bits of all auditors together, or those of the one auditor.
pub fn put_coins(alloc: Global, text: &mut Text, case: &[u8]) -> Tried<()> {
    text.put(case);
    if word_at(case, 0)? == b"own".as_slice() {
        put_own(alloc, text, case)
    } else {
        put_joint(alloc, text, word_at(case, 1)?)
    }
}

/// The bits that an auditor needs for those that it wants, where the others' are those between the
/// commas, or there are none.
fn put_own(alloc: Global, text: &mut Text, case: &[u8]) -> Tried<()> {
    let lists = word_at(case, 2)?;
    let bits = bits_in(alloc, word_at(case, 1)?)?;
    put_wanted(alloc, text, &Challenge { bits }, lists)
}

/// The bits that an auditor needs for these.
fn put_wanted(alloc: Global, text: &mut Text, wanted: &Challenge, lists: &[u8]) -> Tried<()> {
    let others = challenges(alloc, lists, wanted.bits.len())?;
    let own = own_bits(alloc, wanted, others.as_slice())?;
    text.put_bits(b" | ", own.as_slice());
    text.put(b"\n");
    Ok(())
}

/// The lists of so many bits between the commas, none of `-`.
fn challenges(alloc: Global, lists: &[u8], count: usize) -> Tried<Vec<Challenge>>
    ensures { IfOk result (λ all. HaveBits count (map (λ one. one.bits) all.items)) }
{
    let mut all = Vec::new(alloc);
    put_challenges(alloc, &mut all, lists, count)?;
    Ok(all)
}

/// Appends the lists of so many bits between the commas, none of `-`.
fn put_challenges(alloc: Global, all: &mut Vec<Challenge>, lists: &[u8], count: usize) -> Tried<()>
    requires { HaveBits count (map (λ one. one.bits) all.old.items) }
    ensures { OnOk result (HaveBits count (map (λ one. one.bits) all.new.items)) }
{
    for place in 0..parts_of(lists, b',') {
        put_challenge(alloc, all, part_at(lists, b',', place)?, count)?;
    }
    Ok(())
}

/// Appends the list of so many bits, none of `-`.
fn put_challenge(alloc: Global, all: &mut Vec<Challenge>, list: &[u8], count: usize) -> Tried<()>
    requires { HaveBits count (map (λ one. one.bits) all.old.items) }
    ensures { OnOk result (HaveBits count (map (λ one. one.bits) all.new.items)) }
{
    if list != b"-".as_slice() {
        all.push(challenge_of(alloc, list, count)?)?;
    }
    Ok(())
}

/// The list of so many bits.
fn challenge_of(alloc: Global, list: &[u8], count: usize) -> Tried<Challenge>
    ensures { IfOk result (λ challenge. length challenge.bits ≡ count) }
{
    let bits = bits_in(alloc, list)?;
    if bits.len() != count {
        return Err(Unreplayed::NoCase);
    }
    Ok(Challenge { bits })
}

/// The bits that a coin has together, whose shares have those between the commas.
fn put_joint(alloc: Global, text: &mut Text, lists: &[u8]) -> Tried<()> {
    let mut shelf = MemShelf::new(alloc);
    put_on_shelf(alloc, text, &mut shelf, lists)
}

/// What the coin says, whose file is put on the shelf and read.
fn put_on_shelf(alloc: Global, text: &mut Text, shelf: &mut MemShelf, lists: &[u8]) -> Tried<()> {
    put_file(alloc, shelf, lists)?;
    let mut lines = Lines::start(alloc, shelf, "coin")?;
    put_read(alloc, text, shelf, &mut lines)
}

/// Puts the coin's file on the shelf.
fn put_file(alloc: Global, shelf: &mut MemShelf, lists: &[u8]) -> Tried<()> {
    let mut file = Text::new(alloc);
    put_written(alloc, shelf, &mut file, lists)
}

/// Puts the coin's file on the shelf, once its text is written.
fn put_written(alloc: Global, shelf: &mut MemShelf, file: &mut Text, lists: &[u8]) -> Tried<()> {
    write_coin(alloc, file, lists)?;
    shelf.put_file("coin", file.bytes()?)?;
    Ok(())
}

/// The bits that the coin of these lines has together.
fn put_read(alloc: Global, text: &mut Text, shelf: &mut MemShelf, lines: &mut Lines) -> Tried<()> {
    let coin = read_coin(alloc, shelf, lines)?;
    put_coin(alloc, text, &coin)
}

/// The bits that the coin has together.
fn put_coin(alloc: Global, text: &mut Text, coin: &Coin) -> Tried<()>
    requires { IsCoin coin.now }
{
    match joint(alloc, coin) {
        Ok(challenge) => {
            text.put_bits(b" | ", challenge.bits.as_slice());
            text.put(b"\n");
            Ok(())
        }
        Err(JointErr::Part { auditor: _ }) => Err(Unreplayed::NoCase),
        Err(JointErr::NoMemory) => Err(Unreplayed::NoMemory),
    }
}

/// The text of a coin whose shares have the bits between the commas.
fn write_coin(alloc: Global, text: &mut Text, lists: &[u8]) -> Tried<()> {
    let auditors = parts_of(lists, b',');
    let last = part_at(lists, b',', auditors.saturating_sub(1))?;
    text.put(b"vickrey-coin 1\n");
    text.put_hex(b"auction ", &AUCTION);
    text.put_number(b"\nbits ", last.len() as u64);
    text.put_number(b"\nauditors ", auditors as u64);
    write_auditors(alloc, text, lists, false)?;
    write_auditors(alloc, text, lists, true)?;
    text.put(b"\nend\n");
    Ok(())
}

/// Of each auditor the line of its part, or the line that shows its share.
fn write_auditors(alloc: Global, text: &mut Text, lists: &[u8], are_shown: bool) -> Tried<()> {
    let mut auditor = 0u16;
    for place in 0..parts_of(lists, b',') {
        auditor = auditor.saturating_add(1);
        let share = share_of(alloc, auditor, part_at(lists, b',', place)?)?;
        write_share(text, &share, are_shown);
    }
    Ok(())
}

/// The share of an auditor with these bits.
fn share_of(alloc: Global, auditor: u16, list: &[u8]) -> Tried<Share>
    ensures { IfOk result (λ share. length share.bits ≤ 64) }
{
    let bits = bits_in(alloc, list)?;
    Ok(Share {
        auction: AUCTION,
        auditor,
        bits,
        key: KEY,
    })
}

/// The line of an auditor's part, or the line that shows its share.
fn write_share(text: &mut Text, share: &Share, is_shown: bool)
    requires { length share.now.bits ≤ 64 }
{
    if is_shown {
        text.put_number(b"\nshow ", u64::from(share.auditor));
        text.put_hex(b" ", &share.key);
        text.put_bits(b" ", share.bits.as_slice());
    } else {
        text.put_number(b"\npart ", u64::from(share.auditor));
        text.put_hex(b" ", &share_commit(share));
    }
}
