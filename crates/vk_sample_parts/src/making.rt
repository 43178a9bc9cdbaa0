// The seals of a sample.
ghost use Rattle.std.specs.Prelude.{◌≡◌, ◌<◌, [], length};
ghost use Rattle.vk_lines.specs.Gives.{Gives};
ghost use Rattle.vk_report.specs.Samples.{IsCase};
ghost use Rattle.vk_sample_parts.specs.Auctions.{dry_of, rows_onto, sealed, secret_at};

use crate::errors::SampleErr;
use std::alloc::Global;
use vk_dice::ChaChaWords;
use vk_keeper::SealRow;
use vk_report::SampleCase;
use vk_seal::{SealErr, make_seal};
use vk_seq::Seq;

/// The seal at that index, counted from 0, with its secret: made with the bidder's seed in the
/// stream of the seat.
fn seal_row(alloc: Global, sample: &SampleCase, index: usize) -> Result<SealRow, SampleErr>
    requires right { IsCase sample.now }
    requires within { index < length sample.now.seats }
    ensures { Gives dry_of (λ row. row) result (sealed (secret_at sample.now index)) }
{
    let seat = sample.seats.as_slice()[index];
    let bid = sample.bids.as_slice()[index];
    let seed = &sample.seeds.as_slice()[index];
    let id = &sample.auction;
    let mut words = ChaChaWords::of(seed, id, 65536 + u64::from(seat));
    match make_seal(alloc, bid, seat, id, sample.width, sample.lanes, &mut words) {
        Ok((secret, seal)) => Ok(SealRow { seal, secret }),
        Err(SealErr::DrySeed { lane }) => Err(SampleErr::DryBidder { lane }),
        Err(SealErr::NoMemory) => Err(SampleErr::NoMemory),
        Err(SealErr::BidTooLarge) => unreachable!(),
    }
}

/// All seals, in the order of the seats.
pub fn seal_rows(alloc: Global, sample: &SampleCase) -> Result<Seq<SealRow>, SampleErr>
    requires { IsCase sample.now }
    ensures { Gives dry_of (λ rows. rows) result
        (rows_onto sample.now [] (length sample.now.seats)) }
{
    let mut rows = Seq::new(alloc);
    for index in 0..sample.seats.len() {
        let row = seal_row(alloc, sample, index)?;
        rows.push(row)?;
    }
    Ok(rows)
}
