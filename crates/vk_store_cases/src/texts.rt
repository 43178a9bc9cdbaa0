// What is printed of an answer. It is put behind a text that notes want of memory, since each way
// out of a text that is made takes seconds to prove.
use vk_cases::{Text, Tried, Unreplayed};
use vk_house::HouseErr;
use vk_io::OutsideErr;
use vk_job::Job;
use vk_keeper::{Auction, Phase};
use vk_keeper_sql::OpenErr;
use vk_vickrey::Sale;

/// Why a store was not opened.
pub fn put_unopened(text: &mut Text, refusal: OpenErr) -> Tried<()> {
    match refusal {
        OpenErr::Version { rows, number } => {
            text.put_number(b"version rows ", rows);
            text.put(b" number ");
            put_signed(text, number);
        }
        OpenErr::Refused => text.put(b"refused"),
        OpenErr::NoMemory => return Err(Unreplayed::NoMemory),
    }
    Ok(())
}

/// The number in decimal.
fn put_signed(text: &mut Text, number: i64) {
    if number < 0 {
        text.put(b"-");
    }
    text.put_number(b"", number.unsigned_abs());
}

/// Why a house refused a command.
pub fn put_refused(text: &mut Text, refusal: &HouseErr) -> Tried<()> {
    match refusal {
        HouseErr::NoMemory => return Err(Unreplayed::NoMemory),
        HouseErr::KeeperFailed => text.put(b"fault"),
        HouseErr::OtherChallenge { kept } => text.put_bits(b"kept ", kept.bits.as_slice()),
        _ => text.put(b"refused"),
    }
    Ok(())
}

/// The sale that a house proved; or the challenge, where it answered one.
pub fn put_job(text: &mut Text, worked: &Result<Job, HouseErr>, is_answer: bool) -> Tried<()> {
    match worked {
        Ok(job) if is_answer => put_phase(text, &job.auction().phase),
        Ok(job) => put_sale(text, job.sale()),
        Err(refusal) => return put_refused(text, refusal),
    }
    Ok(())
}

fn put_sale(text: &mut Text, sale: Sale) {
    match sale {
        Sale::Sold { position, price } => {
            text.put_number(b"sold ", u64::from(position));
            text.put_number(b" ", price);
        }
        Sale::Unsold => text.put(b"unsold"),
    }
}

/// What a keeper found.
pub fn put_found(text: &mut Text, found: &Result<Option<Auction>, OutsideErr>) -> Tried<()> {
    match found {
        Ok(Some(auction)) => put_auction(text, auction),
        Ok(None) => text.put(b"none"),
        Err(OutsideErr::Failed) => text.put(b"fault"),
        Err(OutsideErr::NoMemory) => return Err(Unreplayed::NoMemory),
    }
    Ok(())
}

/// All of an auction but its id and what its seals were made of: of each seal its seat and the bid
/// in it.
fn put_auction(text: &mut Text, auction: &Auction) {
    text.put_number(b"version ", u64::from(auction.version));
    text.put_number(b" width ", u64::from(auction.width));
    text.put_number(b" lanes ", u64::from(auction.lanes));
    text.put_number(b" reserve ", auction.reserve);
    for row in auction.seals.as_slice() {
        text.put_number(b" ", u64::from(row.seal.seat));
        text.put_number(b":", row.secret.bid);
    }
    text.put(b" ");
    put_phase(text, &auction.phase);
}

fn put_phase(text: &mut Text, phase: &Phase) {
    match phase {
        Phase::Taking => text.put(b"taking"),
        Phase::Proved { .. } => text.put(b"proved"),
        Phase::Answered { challenge, .. } => {
            text.put_bits(b"answered ", challenge.bits.as_slice());
        }
    }
}
