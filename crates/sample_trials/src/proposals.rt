// Matchings that are proposed of ranks, against what it is to be blocked by a pair.
use std::alloc::Global;
use vk_cases::{Text, Tried, Unreplayed};
use vk_dice::{ChaChaWords, Words};
use vk_matching::propose;
use vk_residue::NoMemory;

/// From this seed come the ranks that are drawn.
const RANKS: [u8; 32] = [0x16; 32];

/// The id for which they are drawn.
const ID: [u8; 16] = [0, 1, 2, 3, 4, 5, 6, 7, 8, 9, 10, 11, 12, 13, 14, 15];

/// How many tables of eight ranks below 3 there are.
const TABLES: u64 = 6561;

/// Tells how many matchings that are proposed a pair blocks: of all ranks of two men and two women
/// that are below 3, and of some of three and of sixteen, among which there are many ties.
pub fn push_proposals(alloc: Global, text: &mut Text) -> Tried<()> {
    text.put(b"proposed");
    push_blocked(text, blocked_of_all(alloc)?, TABLES);
    push_blocked(text, blocked_of_drawn(alloc, 3, 1000)?, 1000);
    push_blocked(text, blocked_of_drawn(alloc, 16, 20)?, 20);
    text.put(b"\n");
    Ok(())
}

/// How many are blocked, and of how many.
fn push_blocked(text: &mut Text, blocked: u64, all: u64) {
    text.put_number(b" blocked ", blocked);
    text.put_number(b" of ", all);
}

/// How many matchings a pair blocks of all ranks of two men and two women that are below 3.
fn blocked_of_all(alloc: Global) -> Tried<u64> {
    let mut blocked = 0u64;
    for number in 0..TABLES {
        blocked = blocked.saturating_add(blocked_of_table(alloc, number)?);
    }
    Ok(blocked)
}

/// The same of the table of that number.
fn blocked_of_table(alloc: Global, number: u64) -> Tried<u64> {
    let ranks = digits(alloc, number)?;
    let blocked = blocked_count(alloc, 2, ranks.as_slice());
    blocked
}

/// The eight digits of a number to the base of three, the last first.
fn digits(alloc: Global, mut number: u64) -> Result<Vec<u64>, NoMemory> {
    let mut digits = Vec::new(alloc);
    for _digit in 0..8 {
        digits.push(number % 3)?;
        number /= 3;
    }
    Ok(digits)
}

/// The same of ranks below 8 that are drawn so many times.
fn blocked_of_drawn(alloc: Global, size: u32, times: u64) -> Tried<u64> {
    let mut words = ChaChaWords::of(&RANKS, &ID, 0);
    let mut blocked = 0u64;
    for _time in 0..times {
        blocked = blocked.saturating_add(blocked_of_next(alloc, size, &mut words)?);
    }
    Ok(blocked)
}

/// The same of those that are drawn next.
fn blocked_of_next(alloc: Global, size: u32, words: &mut ChaChaWords) -> Tried<u64> {
    let ranks = drawn_ranks(alloc, size, words)?;
    let blocked = blocked_count(alloc, size, ranks.as_slice());
    blocked
}

/// Ranks below 8 for so many men and women.
fn drawn_ranks(alloc: Global, size: u32, words: &mut ChaChaWords) -> Tried<Vec<u64>> {
    let mut ranks = Vec::new(alloc);
    for _rank in 0..size.saturating_mul(size).saturating_mul(2) {
        ranks.push(words.next() >> 61)?;
    }
    Ok(ranks)
}

/// 1 where what is proposed of the ranks is blocked by a pair or isn't a woman of his own for each
/// man, else 0.
fn blocked_count(alloc: Global, size: u32, ranks: &[u64]) -> Tried<u64> {
    if size == 0 || 16 < size || ranks.len() != (2 * size * size) as usize {
        return Err(Unreplayed::NoCase);
    }
    let matching = propose(alloc, size, ranks)?;
    Ok(u64::from(!are_content(size, ranks, matching.as_slice())))
}

/// Whether each man has a woman of his own, and blocks with none.
fn are_content(size: u32, ranks: &[u64], matching: &[u32]) -> bool {
    for man in 1..=size {
        if !is_content(size, ranks, matching, man) {
            return false;
        }
    }
    true
}

/// Whether a man has a woman of his own, and blocks with none.
fn is_content(size: u32, ranks: &[u64], matching: &[u32], man: u32) -> bool {
    for woman in 1..=size {
        let Some(husband) = husband_of(matching, woman) else {
            return false;
        };
        let Some(wife) = matching.get(man.saturating_sub(1) as usize) else {
            return false;
        };
        let he_prefers = his_rank(size, ranks, man, woman) < his_rank(size, ranks, man, *wife);
        if he_prefers && her_rank(size, ranks, woman, man) < her_rank(size, ranks, woman, husband) {
            return false;
        }
    }
    true
}

/// The man of a woman, from 1. None where she has no man, or more than one.
fn husband_of(matching: &[u32], woman: u32) -> Option<u32> {
    let mut husband = None;
    let mut man = 0u32;
    for wife in matching {
        man = man.saturating_add(1);
        if *wife == woman {
            if husband.is_some() {
                return None;
            }
            husband = Some(man);
        }
    }
    husband
}

/// A man's rank of a woman.
fn his_rank(size: u32, ranks: &[u64], man: u32, woman: u32) -> u64 {
    rank_at(size, ranks, man, woman)
}

/// A woman's rank of a man.
fn her_rank(size: u32, ranks: &[u64], woman: u32, man: u32) -> u64 {
    rank_at(size, ranks, size.saturating_add(woman), man)
}

/// The rank at a place of a row, both from 1. A row has as many as there are men.
fn rank_at(size: u32, ranks: &[u64], row: u32, place: u32) -> u64 {
    let before = row.saturating_sub(1).saturating_mul(size);
    match ranks.get(before.saturating_add(place).saturating_sub(1) as usize) {
        Some(rank) => *rank,
        None => u64::MAX,
    }
}
