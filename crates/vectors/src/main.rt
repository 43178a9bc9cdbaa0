//! Replays what independent implementations worked out of the parts: words and draws, wires,
//! outcomes, sales, matchings, shares of challenges, and what is seen of wires and lanes. What is
//! printed is to be, byte for byte, what those implementations wrote.
#![tactic(auto)]

mod bids;
mod coins;
mod couples;
mod fours;
mod lanes;
mod lists;
mod parts;
mod sales;
mod shares;
mod streams;
mod units;
mod views;
mod wires;

use std::alloc::Global;
use std::process::ExitCode;
use vk_cases::{Form, Text, Tried, Unreplayed, numbers_in, replay_forms, word_at};
use vk_io::Shelf;

/// What a file of cases has, one case a line.
enum Cases {
    /// `stream SEED AUCTION NUMBER`.
    Streams,
    /// At most four words, with commas between them. Zeros follow them.
    Lists,
    /// `wire KIND value NUMBER place AUCTION LANE SEAT SLOT tape MASK SWAP KEY KEY`, where a kind
    /// is `split` or `pair I`.
    Wires,
    /// Four wires, with bars between them.
    Fours,
    /// 1 to 64 bids, with commas between them.
    Bids,
    /// `BIDS RESERVE WIDTH`.
    Sales,
    /// `BIDS RESERVE WIDTH POSITION PRICE`, or `BIDS RESERVE WIDTH unsold`.
    Rows,
    /// `BIDS UNITS WIDTH`.
    Units,
    /// `SIZE RANKS`, the ranks with commas between them: those of each man and then those of each
    /// woman.
    Tables,
    /// `WIDTH FIRST SECOND THIRD FOURTH`: the values of the four wires of a relation.
    Eithers,
    /// `share AUCTION AUDITOR KEY BITS`, or `draw SEED AUCTION AUDITOR LANES`.
    Shares,
    /// `joint BITS,BITS ..`, or `own BITS BITS,BITS ..` with `-` for none.
    Coins,
    /// `wire KIND value NUMBER other NUMBER tape MASK SWAP KEY KEY`, where a kind is `split` or the
    /// `I` of a pair.
    Views,
    /// `plan seals N width T winner W price P|bids ..|others ..`, and behind it for each wire
    /// `|tape WIRE MASK SWAP KEY KEY`.
    Lanes,
}

impl Form for Cases {
    fn file(&self) -> &'static str {
        match self {
            Cases::Streams => "streams",
            Cases::Lists => "lists",
            Cases::Wires => "wires",
            Cases::Fours => "fours",
            Cases::Bids => "bids",
            Cases::Sales => "sales",
            Cases::Rows => "rows",
            Cases::Units => "units",
            Cases::Tables => "tables",
            Cases::Eithers => "eithers",
            Cases::Shares => "shares",
            Cases::Coins => "coins",
            Cases::Views => "views",
            Cases::Lanes => "lanes",
        }
    }

    fn text<S: Shelf>(&self, alloc: Global, _shelf: &mut S, case: &[u8]) -> Tried<Vec<u8>> {
        let mut text = Text::new(alloc);
        put_case(alloc, &mut text, self, case)?;
        let bytes = text.into_bytes()?;
        Ok(bytes)
    }
}

/// The case, and what comes of it.
fn put_case(alloc: Global, text: &mut Text, form: &Cases, case: &[u8]) -> Tried<()> {
    match form {
        Cases::Streams => streams::put_stream(text, case),
        Cases::Lists => lists::put_draw(alloc, text, case),
        Cases::Wires => wires::put_wire(text, case),
        Cases::Fours => fours::put_four(text, case),
        Cases::Eithers => couples::put_either(alloc, text, case),
        Cases::Shares => shares::put_share(alloc, text, case),
        Cases::Coins => coins::put_coins(alloc, text, case),
        Cases::Views => views::put_view(text, case),
        Cases::Lanes => lanes::put_lane(alloc, text, case),
        _ => put_listed(alloc, text, form, case),
    }
}

/// A case that has a list of numbers, and what comes of it.
fn put_listed(alloc: Global, text: &mut Text, form: &Cases, case: &[u8]) -> Tried<()> {
    text.put(case);
    let place = match form {
        Cases::Tables => 1,
        _ => 0,
    };
    let numbers = numbers_in(alloc, word_at(case, place)?)?;
    put_numbers(alloc, text, form, case, numbers.as_slice())
}

/// What comes of a case that has these numbers.
fn put_numbers(
    alloc: Global,
    text: &mut Text,
    form: &Cases,
    case: &[u8],
    numbers: &[u64],
) -> Tried<()> {
    match form {
        Cases::Bids => bids::put_outcome(text, numbers),
        Cases::Sales => sales::put_sale(alloc, text, case, numbers),
        Cases::Rows => sales::put_rows(alloc, text, case, numbers),
        Cases::Units => units::put_units(alloc, text, case, numbers),
        Cases::Tables => couples::put_table(alloc, text, case, numbers),
        _ => Err(Unreplayed::NoCase),
    }
}

/// All forms, in the order in which they are replayed.
const FORMS: [Cases; 14] = [
    Cases::Streams,
    Cases::Lists,
    Cases::Wires,
    Cases::Fours,
    Cases::Bids,
    Cases::Sales,
    Cases::Rows,
    Cases::Units,
    Cases::Tables,
    Cases::Eithers,
    Cases::Shares,
    Cases::Coins,
    Cases::Views,
    Cases::Lanes,
];

fn main(rt: HostRuntime) -> ExitCode {
    replay_forms(&rt, &FORMS)
}
