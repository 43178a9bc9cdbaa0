// Honest auctions as files, judged and extracted from by the program.
use crate::asked::{ALL, Asked};
use crate::bench::{Bench, Sizes, push_same, push_values, seat_at};
use crate::honest::{Terms, write_auction};
use vk_cases::{Text, Tried, number_at, numbers_in, word_at};
use vk_vickrey::Sale;

/// The bids of an auction, how it is held, and the sale that it is known to come to.
#[derive(Clone, Copy)]
struct Auction<'a> {
    bids: &'a [u64],
    terms: Terms,
    sale: Sale,
}

/// How large the files of a case's auction are, and what the program says of them. The case has the
/// position, from 1, of the seal that wins, or 0 where nothing is sold.
pub fn push_auction(bench: &mut Bench, text: &mut Text, case: &[u8]) -> Tried<()> {
    let terms = terms_of(case)?;
    let sale = known_sale(case)?;
    let bids = numbers_in(bench.alloc, word_at(case, 6)?)?;
    let auction = Auction {
        bids: bids.as_slice(),
        terms,
        sale,
    };
    let pushed = push_tried(bench, text, &auction);
    pushed
}

fn terms_of(case: &[u8]) -> Tried<Terms> {
    let version = number_at(case, 0, 2)? as u32;
    let width = number_at(case, 1, 40)? as u32;
    let lanes = number_at(case, 2, 64)? as u16;
    let reserve = number_at(case, 3, u64::MAX)?;
    Ok(Terms {
        version,
        width,
        lanes,
        reserve,
    })
}

fn known_sale(case: &[u8]) -> Tried<Sale> {
    let position = number_at(case, 4, 64)? as u32;
    let price = number_at(case, 5, u64::MAX)?;
    Ok(if position == 0 {
        Sale::Unsold
    } else {
        Sale::Sold { position, price }
    })
}

/// Writes the auction's files, and tells how large they are and what the program says of them.
fn push_tried(bench: &mut Bench, text: &mut Text, auction: &Auction<'_>) -> Tried<()> {
    let sizes = write_auction(bench.alloc, &mut bench.shelf, auction.bids, auction.terms)?;
    push_counts(text, auction);
    bench.push_lengths(text, sizes);
    for asked in &ALL {
        bench.run_asked(text, b"verify board", *asked)?;
        text.put(bench.said());
    }
    push_extracted(bench, text, auction, Asked::Ones)?;
    push_extracted(bench, text, auction, Asked::Last)?;
    bench.run(text, b"report board")?;
    bench.wanted.clear();
    push_report(&mut bench.wanted, auction, sizes);
    push_reported(bench, text)
}

/// The counts of the auction.
fn push_counts(text: &mut Text, auction: &Auction<'_>) {
    text.put(b"auction");
    text.put_number(b" bids ", auction.bids.len() as u64);
    text.put_number(b" width ", u64::from(auction.terms.width));
    text.put_number(b" lanes ", u64::from(auction.terms.lanes));
    if auction.terms.version == 2 {
        text.put_number(b" reserve ", auction.terms.reserve);
    }
}

/// What `extract` says of the reply to zeros and that to another challenge: its text without the
/// openings, or, where this is as it has to be, that the bids are as given, the line of the
/// sale, and that the bids of every seat are the same in all lanes.
fn push_extracted(
    bench: &mut Bench,
    text: &mut Text,
    auction: &Auction<'_>,
    asked: Asked,
) -> Tried<()> {
    bench.run_asked(text, b"extract board zeros reply-zeros", asked)?;
    bench.wanted.clear();
    push_expected(&mut bench.wanted, auction, asked);
    bench.strip();
    match bench.other_than_wanted()? {
        None => {
            text.put(b"bids as given\n");
            push_sale(text, auction);
            text.put(b"all seats same\n");
        }
        Some(said) => text.put(said),
    }
    Ok(())
}

/// What an extraction without its openings has to be: the bids of each lane where more than
/// zeros is asked for, the sale, and that each seat's bids are the same.
fn push_expected(text: &mut Text, auction: &Auction<'_>, asked: Asked) {
    let lanes = auction.terms.lanes;
    for lane in 1..=lanes {
        if asked.bit(lane, lanes) {
            push_values(text, lane, b" bid ", auction.bids);
        }
    }
    push_sale(text, auction);
    push_same(text, auction.bids);
    text.put(b"end\n");
}

/// The line of the sale that is known: the winner and the price, or that nothing is sold; and the
/// reserve, which version 2 has.
fn push_sale(text: &mut Text, auction: &Auction<'_>) {
    match auction.sale {
        Sale::Sold { position, price } => {
            text.put_number(b"winner ", u64::from(seat_at(position)));
            text.put_number(b" price ", price);
        }
        Sale::Unsold => text.put(b"unsold"),
    }
    if auction.terms.version == 2 {
        text.put_number(b" reserve ", auction.terms.reserve);
    }
    text.put(b"\n");
}

/// What `report` says of the board; or, where this is the report that is wanted, that it is as
/// published.
fn push_reported(bench: &Bench, text: &mut Text) -> Tried<()> {
    let printed = bench.said();
    if printed == bench.wanted.bytes()? {
        text.put(b"as published\n");
    } else {
        text.put(printed);
    }
    Ok(())
}

/// What a report has to be.
fn push_report(text: &mut Text, auction: &Auction<'_>, sizes: Sizes) {
    text.put(b"auction 000102030405060708090a0b0c0d0e0f\n");
    text.put_count(b"width ", u64::from(auction.terms.width));
    text.put_count(b"lanes ", u64::from(auction.terms.lanes));
    text.put_count(b"seals ", auction.bids.len() as u64);
    push_published(text, auction);
    push_seats(text, auction.bids);
    text.put_count(b"wires ", u64::from(sizes.wires));
    text.put_count(b"rows ", u64::from(sizes.rows));
    let pairs = u64::from(sizes.wires).saturating_mul(u64::from(auction.terms.lanes));
    text.put_count(b"commitments ", pairs.saturating_mul(2));
    text.put(b"end\n");
}

/// The line of each seat.
fn push_seats(text: &mut Text, bids: &[u64]) {
    let mut position = 0u32;
    for _bid in bids {
        position = position.saturating_add(1);
        text.put_count(b"seat ", u64::from(seat_at(position)));
    }
}

/// The lines of the reserve, which version 2 has, of the winner and of the price.
fn push_published(text: &mut Text, auction: &Auction<'_>) {
    if auction.terms.version == 2 {
        text.put_count(b"reserve ", auction.terms.reserve);
    }
    match auction.sale {
        Sale::Sold { position, price } => {
            text.put_count(b"winner ", u64::from(seat_at(position)));
            text.put_count(b"price ", price);
        }
        Sale::Unsold => text.put(b"unsold\nprice 0\n"),
    }
}
