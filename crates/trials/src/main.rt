//! Honest auctions and claims, whose files the library's own parts make and the program judges and
//! extracts from; and claim files whose lanes are read beside two replies. Of each it prints what
//! came of it.
#![tactic(auto)]

mod asked;
mod auctions;
mod bench;
mod checks;
mod claims;
mod honest;
mod parts;

use crate::bench::Bench;
use std::alloc::Global;
use std::process::ExitCode;
use vk_cases::{Form, Text, Tried, replay_forms};
use vk_io::Shelf;

/// What a file of cases has, one case a line.
enum Cases {
    /// `VERSION WIDTH LANES RESERVE POSITION PRICE BID,BID`: an auction and its sale.
    Auctions,
    /// `COUPLES WIDTH LANES RANK,RANK`: a claim, and the ranks of each man and then of each woman.
    Claims,
    /// `WORDS|FILE CHALLENGE REPLY CHALLENGE REPLY`: a claim file and two replies to it, once the
    /// words have written theirs.
    Checked,
}

impl Form for Cases {
    fn file(&self) -> &'static str {
        match self {
            Cases::Auctions => "auctions",
            Cases::Claims => "claims",
            Cases::Checked => "checked",
        }
    }

    fn text<S: Shelf>(&self, alloc: Global, _shelf: &mut S, case: &[u8]) -> Tried<Vec<u8>> {
        let mut bench = Bench::new(alloc);
        let mut text = Text::new(alloc);
        put_case(&mut bench, &mut text, self, case)?;
        let bytes = text.into_bytes()?;
        Ok(bytes)
    }
}

/// What comes of the case over a bench without files.
fn put_case(bench: &mut Bench, text: &mut Text, form: &Cases, case: &[u8]) -> Tried<()> {
    match form {
        Cases::Auctions => auctions::push_auction(bench, text, case),
        Cases::Claims => claims::push_claim(bench, text, case),
        Cases::Checked => checks::push_case(bench, text, case),
    }
}

fn main(rt: HostRuntime) -> ExitCode {
    replay_forms(&rt, &[Cases::Auctions, Cases::Claims, Cases::Checked])
}
