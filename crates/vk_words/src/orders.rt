//! What a bidder's command and the house's commands are to do.

ghost use Rattle.std.specs.Prelude.{◌≡◌, ◌<◌, ◌≤◌, IfSome, length, map, option_map, string_bytes};
ghost use Rattle.vk_residue.specs.Limits.{IsSize};
ghost use Rattle.vk_words.specs.Orders.{IsHouseOrder, IsSealOrder, announced_on, house_by, house_seen, id_at, seal_in, seal_seen, seed_at};

use crate::table::Verb;
use crate::word::{count, name, word};
use vk_lines::{read_decimal, read_hex16, read_hex32};

/// What `seal` is to make, and the names of its files.
#[derive(Clone, Copy, Debug)]
pub struct SealOrder<'a> {
    pub auction: [u8; 16],
    /// The bidder's seat, at least 1.
    pub seat: u16,
    pub bid: u64,
    /// The bid has to be below 2^width. 1 to 40.
    pub width: u32,
    /// 1 to 64.
    pub lanes: u32,
    pub seed: [u8; 32],
    /// The name of the file that the secret is written to.
    pub secret: &'a str,
    /// The name of the file that the seal is written to, another one.
    pub seal: &'a str,
}

/// A command of the house, on the auction of that id.
#[derive(Clone, Copy, Debug)]
pub enum HouseOrder<'a> {
    /// Each bid has to be below 2^width, which is 1 to 40. The lanes are 1 to 64.
    Announce {
        id: [u8; 16],
        width: u32,
        lanes: u32,
    },
    /// The same, with a reserve below 2^width.
    AnnounceReserve {
        id: [u8; 16],
        width: u32,
        lanes: u32,
        reserve: u64,
    },
    /// The names of the files of a seal and its secret.
    Submit {
        id: [u8; 16],
        seal: &'a str,
        secret: &'a str,
    },
    /// The auctioneer's seed, and the name of the file that the board is written to.
    Prove {
        id: [u8; 16],
        seed: [u8; 32],
        board: &'a str,
    },
    /// The name of the challenge's file, and that of the file that the reply is written to, another
    /// one.
    Answer {
        id: [u8; 16],
        challenge: &'a str,
        reply: &'a str,
    },
    Show {
        id: [u8; 16],
    },
}

/// The id at that place.
pub fn id(words: &[String], place: usize) -> Option<[u8; 16]>
    ensures { result ≡ id_at (map string_bytes words.now) place }
{
    let id = read_hex16(word(words, place).as_bytes());
    id
}

/// The seed at that place.
pub fn seed(words: &[String], place: usize) -> Option<[u8; 32]>
    ensures { result ≡ seed_at (map string_bytes words.now) place }
{
    let seed = read_hex32(word(words, place).as_bytes());
    seed
}

/// The order of a `seal`.
#[tactic(auto, unfolding(crate::specs::Orders::seal_in))]
pub fn seal_order(words: &[String]) -> Option<SealOrder<'_>>
    ensures value { option_map seal_seen result ≡ seal_in (map string_bytes words.now) }
    ensures limits { IfSome result (λ order. IsSealOrder (seal_seen order)) }
{
    let auction = id(words, 1)?;
    let seat = count(word(words, 2), 65535)?;
    let bid = read_decimal(word(words, 3).as_bytes(), u64::MAX)?;
    let width = count(word(words, 4), 40)?;
    let lanes = count(word(words, 5), 64)?;
    let seed = seed(words, 6)?;
    let secret = name(words, 7)?;
    let seal = name(words, 8)?;
    if secret == seal {
        return None;
    }
    Some(SealOrder {
        auction,
        seat: seat as u16,
        bid,
        width: width as u32,
        lanes: lanes as u32,
        seed,
        secret,
        seal,
    })
}

/// The order of an `announce`, which has a reserve where there is a word more.
fn announce_order(id: [u8; 16], width: u32, lanes: u32, words: &[String]) -> Option<HouseOrder<'_>>
    requires { IsSize width lanes }
    ensures value { option_map house_seen result
        ≡ announced_on id width lanes (map string_bytes words.now) }
    ensures limits { IfSome result IsHouseOrder }
{
    if words.len() <= 4 {
        return Some(HouseOrder::Announce { id, width, lanes });
    }
    let reserve = read_decimal(word(words, 4).as_bytes(), (1 << width) - 1)?;
    Some(HouseOrder::AnnounceReserve {
        id,
        width,
        lanes,
        reserve,
    })
}

/// A command of the house. `None` of the others.
#[tactic(auto, unfolding(crate::specs::Names::attempt_at))]
pub fn house_order(verb: Verb, words: &[String]) -> Option<HouseOrder<'_>>
    ensures value { option_map house_seen result ≡ house_by verb (map string_bytes words.now) }
    ensures limits { IfSome result IsHouseOrder }
{
    let id = id(words, 1)?;
    match verb {
        Verb::Announce => {
            let width = count(word(words, 2), 40)? as u32;
            let lanes = count(word(words, 3), 64)? as u32;
            let order = announce_order(id, width, lanes, words);
            order
        }
        Verb::Submit => {
            let seal = name(words, 2)?;
            let secret = name(words, 3)?;
            Some(HouseOrder::Submit { id, seal, secret })
        }
        Verb::Prove => {
            let seed = seed(words, 2)?;
            let board = name(words, 3)?;
            Some(HouseOrder::Prove { id, seed, board })
        }
        Verb::Answer => {
            let challenge = name(words, 2)?;
            let reply = name(words, 3)?;
            if challenge == reply {
                return None;
            }
            Some(HouseOrder::Answer {
                id,
                challenge,
                reply,
            })
        }
        Verb::Show => Some(HouseOrder::Show { id }),
        _ => None,
    }
}
