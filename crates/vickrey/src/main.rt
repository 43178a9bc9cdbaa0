//! `vickrey`: a sealed-bid second-price auction whose auctioneer proves the outcome.
#![tactic(auto)]

use std::env;
use std::process::ExitCode;
use vk_program::start;

fn main(rt: HostRuntime) -> ExitCode {
    start(&rt, env::args(&rt))
}
