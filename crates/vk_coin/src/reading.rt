ghost use Rattle.std.specs.Prelude.{[], ◌≡◌, ◌+◌, ◌≤◌, length, IfOk};
ghost use Rattle.std.specs.List.{All};
ghost use Rattle.vk_residue.specs.Limits.{IsLaneCount};
ghost use Rattle.vk_commit.specs.Values.{AreBytes};
ghost use Rattle.vk_lines.specs.Common.{EachAfter, Reads, ReadsRight, ReadsWhole, line_by};
ghost use Rattle.vk_coin.specs.Coins.{IsCoin, IsShareOf, coin_text};
ghost use Rattle.vk_coin.specs.Shares.{IsAuditor, IsShare, share_text};
ghost use Rattle.vk_coin.specs.Reading.{coin_at, coin_with, parts_at, share_at, share_with, shares_at, show_line, shown_at};
ghost use Rattle.vk_coin.specs.Tables.{coin_table, share_table};

use crate::coin::Coin;
use crate::share::{Share, share_from};
use crate::tokens::{Show, part_line, show_line, shown_line};
use std::alloc::Global;
use vk_io::Shelf;
use vk_lines::{LineKind, Lines, ReadErr, read_many};
use vk_seq::Seq;

/// Reads a share's file whole. Malformed carries the number of the first line that isn't what its
/// place demands.
#[tactic(auto, using(crate::proofs::Faults::whole_rules))]
pub fn read_share<S: Shelf>(
    alloc: Global,
    shelf: &mut S,
    lines: &mut Lines,
) -> Result<Share, ReadErr>
    ensures reads { ReadsWhole share_at IsShare share_text share_table S.held S.Shelf.faults
        lines.old lines.new shelf.old shelf.new result }
{
    let share = share_read(alloc, shelf, lines);
    share
}

/// Reads the lines of a share in turn.
#[tactic(auto, unfolding(crate::specs::Reading::share_at))]
fn share_read<S: Shelf>(alloc: Global, shelf: &mut S, lines: &mut Lines) -> Result<Share, ReadErr>
    ensures reads { ReadsRight share_at IsShare S.held S.Shelf.faults
        lines.old lines.new shelf.old shelf.new result }
{
    lines.read_fixed(shelf, b"vickrey-share 1")?;
    let auction = lines.read_id(shelf, b"auction")?;
    let auditor = lines.read_number(shelf, b"auditor", 1, 16)?;
    let show = read_show(alloc, shelf, lines)?;
    lines.read_end(shelf)?;
    Ok(share_of(&auction, auditor as u16, show))
}

/// Reads the line that shows a share.
#[tactic(auto, unfolding(vk_lines::specs::Lines::line_by))]
fn read_show<S: Shelf>(alloc: Global, shelf: &mut S, lines: &mut Lines) -> Result<Show, ReadErr>
    ensures reads { ReadsRight (line_by show_line) (λ show. IsLaneCount (length show.bits))
        S.held S.Shelf.faults lines.old lines.new shelf.old shelf.new result }
{
    lines.read_text(shelf)?;
    let value = show_line(alloc, lines.text())?;
    let show = lines.require(value);
    show
}

/// The share of an auditor that is shown.
fn share_of(auction: &[u8; 16], auditor: u16, show: Show) -> Share
    ensures value { result ≡ share_with auction.now auditor show }
    ensures right { IsAuditor auditor → IsLaneCount (length show.bits) → IsShare result }
    ensures key { AreBytes 32 show.key }
{
    let Show { key, bits } = show;
    share_from(auction, auditor, bits, &key)
}

/// Reads a coin's file whole. Malformed carries the number of the first line that isn't what its
/// place demands.
#[tactic(auto, using(crate::proofs::Faults::whole_rules))]
pub fn read_coin<S: Shelf>(alloc: Global, shelf: &mut S, lines: &mut Lines) -> Result<Coin, ReadErr>
    ensures reads { ReadsWhole coin_at IsCoin coin_text coin_table S.held S.Shelf.faults
        lines.old lines.new shelf.old shelf.new result }
{
    let coin = coin_read(alloc, shelf, lines);
    coin
}

/// Reads the lines of a coin in turn.
#[tactic(auto, unfolding(crate::specs::Reading::coin_at))]
fn coin_read<S: Shelf>(alloc: Global, shelf: &mut S, lines: &mut Lines) -> Result<Coin, ReadErr>
    ensures reads { ReadsRight coin_at IsCoin S.held S.Shelf.faults
        lines.old lines.new shelf.old shelf.new result }
{
    lines.read_fixed(shelf, b"vickrey-coin 1")?;
    let auction = lines.read_id(shelf, b"auction")?;
    let bits = lines.read_number(shelf, b"bits", 1, 64)?;
    let auditors = lines.read_number(shelf, b"auditors", 1, 16)?;
    let parts = read_parts(alloc, shelf, lines, auditors as u32)?;
    let shares = read_shares(alloc, shelf, lines, auditors as u32, &auction, bits as u32)?;
    lines.read_end(shelf)?;
    Ok(coin_from(&auction, bits as u32, parts, shares))
}

/// A coin of what was read.
fn coin_from(auction: &[u8; 16], bits: u32, parts: Seq<[u8; 32]>, shares: Seq<Share>) -> Coin
    requires id { AreBytes 16 auction.now }
    requires some_bit { 1 ≤ bits }
    requires few_bits { bits ≤ 64 }
    requires some_part { 1 ≤ length parts }
    requires few_parts { length parts ≤ 16 }
    requires parts { All (AreBytes 32) parts }
    requires one_each { length shares ≡ length parts }
    requires shares { EachAfter (λ before. IsShareOf auction.now bits (length before + 1)) []
        shares }
    ensures value { result ≡ coin_with auction.now bits parts shares }
    ensures right { IsCoin result }
{
    Coin {
        auction: *auction,
        bits,
        parts,
        shares,
    }
}

/// Reads the parts of so many auditors.
fn read_parts<S: Shelf>(
    alloc: Global,
    shelf: &mut S,
    lines: &mut Lines,
    auditors: u32,
) -> Result<Seq<[u8; 32]>, ReadErr>
    requires few { auditors ≤ 16 }
    ensures reads { Reads (parts_at auditors) S.held S.Shelf.faults
        lines.old lines.new shelf.old shelf.new result }
    ensures count { IfOk result (λ parts. length parts ≡ auditors) }
    ensures right { IfOk result (All (AreBytes 32)) }
{
    let parts = read_many(alloc, shelf, lines, &PartLine, auditors)?;
    Ok(parts)
}

/// The line of an auditor's part.
#[derive(Drop)]
struct PartLine;

impl LineKind for PartLine {
    ghost use Rattle.std.specs.Prelude.{◌+◌};
    ghost use Rattle.vk_commit.specs.Values.{AreBytes};
    ghost use Rattle.vk_coin.specs.Reading.{part_line};

    type Item = [u8; 32];

    ghost most = { λ _. 16 };

    ghost item_of = { λ _ before text. part_line (before + 1) text };

    ghost is_item = { λ _ _ part. AreBytes 32 part };

    fn read(&self, before: u32, text: &[u8]) -> Option<[u8; 32]> {
        let part = part_line(before as u16 + 1, text);
        part
    }
}

/// Reads the shares of so many auditors.
fn read_shares<S: Shelf>(
    alloc: Global,
    shelf: &mut S,
    lines: &mut Lines,
    auditors: u32,
    auction: &[u8; 16],
    bits: u32,
) -> Result<Seq<Share>, ReadErr>
    requires few { auditors ≤ 16 }
    ensures reads { Reads (shares_at auction.now bits auditors) S.held S.Shelf.faults
        lines.old lines.new shelf.old shelf.new result }
    ensures count { IfOk result (λ shares. length shares ≡ auditors) }
    ensures right { IfOk result
        (EachAfter (λ before. IsShareOf auction.now bits (length before + 1)) []) }
{
    let mut shares = Seq::new(alloc);
    for index in 0..auditors {
        let auditor = shares.len() as u16 + 1;
        let share = read_shown(alloc, shelf, lines, auction, bits, auditor)?;
        shares.push(share)?;
    }
    Ok(shares)
}

/// Reads the share of that auditor.
#[tactic(auto, unfolding(crate::specs::Reading::shown_at, vk_lines::specs::Lines::line_by))]
fn read_shown<S: Shelf>(
    alloc: Global,
    shelf: &mut S,
    lines: &mut Lines,
    auction: &[u8; 16],
    bits: u32,
    auditor: u16,
) -> Result<Share, ReadErr>
    ensures reads { ReadsRight (shown_at auction.now bits auditor)
        (IsShareOf auction.now bits auditor) S.held S.Shelf.faults lines.old lines.new shelf.old
        shelf.new result }
{
    lines.read_text(shelf)?;
    let value = shown_line(alloc, bits, auditor, lines.text())?;
    let show = lines.require(value)?;
    Ok(share_of(auction, auditor, show))
}
