// Boards that are missing or fail, and samples. Reports, and boards that are refused, are replayed
// by the program `conformance`.
use super::files::board;
use super::reply::has_text;
use std::alloc::Global;
use std::process::Abort;
use vk_io::MemShelf;
use vk_report::{ReportErr, SampleCase, read_report, sample_case};
use vk_residue::NoMemory;
use vk_vickrey::outcome;

#[test]
fn a_missing_board_and_a_failure_are_told_apart(rt: HostRuntime) {
    assert!(rt; try_missing(&rt, rt.alloc()).is_ok());
}

fn try_missing(rt: &impl Abort, alloc: Global) -> Result<(), NoMemory> {
    let mut shelf = MemShelf::new(alloc);
    shelf.put_file("board", board())?;
    shelf.fail_at(3)?;
    check_refused(rt, alloc, &mut shelf);
    Ok(())
}

// What is tried is borrowed: nothing is dropped where an assertion ends it, and so it is proved
// fast.

fn check_refused(rt: &impl Abort, alloc: Global, shelf: &mut MemShelf) {
    let refused = read_report(alloc, shelf, "other").err();
    assert!(rt; refused == Some(ReportErr::Missing));
    let failed = read_report(alloc, shelf, "board").err();
    assert!(rt; failed == Some(ReportErr::Failed));
}

// The values of the three tests below were worked out by another implementation of SHA-256.

#[test]
fn a_sample_has_an_id_and_seeds(rt: HostRuntime) {
    assert!(rt; try_seeds(&rt, rt.alloc()).is_ok());
}

fn try_seeds(rt: &impl Abort, alloc: Global) -> Result<(), NoMemory> {
    let sample = sample_case(alloc, 1)?;
    check_seeds(rt, alloc, &sample);
    Ok(())
}

fn check_seeds(rt: &impl Abort, alloc: Global, sample: &SampleCase) {
    assert!(rt; are_digits(alloc, &sample.auction, "398da8b0a75945c2f668465e655e7ec1"));
    assert!(rt;
        are_digits(
            alloc,
            &sample.seed,
            "6f7902cdb696924880db199bbe5a06f10647b212b6f53cf7b822fece258c8069",
        )
    );
    for (index, expected) in [
        (
            0,
            "ad2c7abc0aa2aaadf0507508fdf206139feb778fbf4547d8c50feebcca15cc9e",
        ),
        (
            1,
            "912fd89e71d735483c95203ba28f606c7b6bf55e4b2195808566014380bbebe8",
        ),
        (
            19,
            "74846e50bf653276db9863deda6d7c768892a62c3f35613d0ce19321577cbec7",
        ),
    ] {
        assert!(rt; is_seed(alloc, sample.seeds.as_slice(), index, expected));
    }
}

/// Whether the bytes are these digits.
fn are_digits(alloc: Global, bytes: &[u8], expected: &str) -> bool {
    match hex::encode(alloc, bytes) {
        Ok(digits) => digits.as_str() == expected,
        Err(_) => false,
    }
}

/// Whether the seed of that index is these digits.
fn is_seed(alloc: Global, seeds: &[[u8; 32]], index: usize, expected: &str) -> bool {
    match seeds.get(index) {
        Some(seed) => are_digits(alloc, seed, expected),
        None => false,
    }
}

#[test]
fn the_challenges_of_a_sample_differ_in_each_bit(rt: HostRuntime) {
    assert!(rt; try_challenges(&rt, rt.alloc()).is_ok());
}

fn try_challenges(rt: &impl Abort, alloc: Global) -> Result<(), NoMemory> {
    let sample = sample_case(alloc, 1)?;
    check_challenges(rt, alloc, &sample);
    Ok(())
}

fn check_challenges(rt: &impl Abort, alloc: Global, sample: &SampleCase) {
    assert!(rt;
        has_text(
            alloc,
            &sample.first,
            b"vickrey-challenge 1\nbits 1100000100110010101100000011101110100100\nend\n",
        )
    );
    assert!(rt;
        has_text(
            alloc,
            &sample.second,
            b"vickrey-challenge 1\nbits 0011111011001101010011111100010001011011\nend\n",
        )
    );
}

#[test]
fn the_bids_of_samples_have_these_outcomes(rt: HostRuntime) {
    for (number, winner, price) in [
        (1, 102, 3906057492),
        (2, 109, 3969951427),
        (u64::MAX, 108, 4054728114),
    ] {
        assert!(rt; outcome_of(rt.alloc(), number) == Ok((winner, price)));
    }
}

/// Who wins in the sample of that number, and at which price.
fn outcome_of(alloc: Global, number: u64) -> Result<(u16, u64), NoMemory> {
    let sample = sample_case(alloc, number)?;
    let made = outcome(sample.bids.as_slice());
    let seat = sample.seats.as_slice()[made.position as usize - 1];
    Ok((seat, made.price))
}
