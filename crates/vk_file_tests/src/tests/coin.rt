// The challenge of a board that its shelf gives once, in pieces, the bits of an auditor, and a share.
ghost use Rattle.std.specs.Prelude.{◌≡◌, length, IfOk};

use super::files::{Given, board};
use std::alloc::Global;
use std::process::Abort;
use vk_coin::{board_challenge, own_bits, read_share, share_commit};
use vk_lines::ReadErr;
use vk_reply::Challenge;
use vk_report::ReportErr;
use vk_residue::NoMemory;
use vk_seq::Seq;

/// The first line of the smallest board.
fn first_line() -> &'static [u8] {
    b"vickrey-board 1\n"
}

#[test]
fn a_board_is_read_once_in_pieces(rt: HostRuntime) {
    for most in [256, 257, 300, 4096] {
        // Worked out by another implementation of SHA-256. The first line alone gives 1.
        assert!(rt; derived_bits(rt.alloc(), most) == Ok(Some(false)));
    }
}

/// The one bit of the challenge that is derived.
fn derived_bits(alloc: Global, most: usize) -> Result<Option<bool>, ReportErr> {
    let mut shelf = Given {
        most,
        then: first_line(),
        ..Given::of(board())
    };
    let challenge = board_challenge(alloc, &mut shelf, "board")?;
    Ok(challenge.bits.as_slice().first().copied())
}

#[test]
fn an_auditor_finds_its_own_bits(rt: HostRuntime) {
    assert!(rt; try_own(&rt, rt.alloc()).is_ok());
}

fn try_own(rt: &impl Abort, alloc: Global) -> Result<(), NoMemory> {
    let wanted = challenge_of(alloc, [true, false, true])?;
    let others = [challenge_of(alloc, [false, true, true])?];
    let own = own_bits(alloc, &wanted, &others)?;
    let same = own.as_slice() == [true, true, false].as_slice();
    assert!(rt; same);
    Ok(())
}

fn challenge_of(alloc: Global, bits: [bool; 3]) -> Result<Challenge, NoMemory>
    ensures { IfOk result (λ challenge. length challenge.bits ≡ 3) }
{
    let bits = Seq::from_vec(Vec::from_slice(alloc, bits.as_slice())?);
    Ok(Challenge { bits })
}

/// The share of auditor 16 for 64 lanes, of which the last has the bit 1.
fn share() -> &'static [u8] {
    b"vickrey-share 1\nauction 000102030405060708090a0b0c0d0e0f\nauditor 16\nshow e81ed91bd7a3692d93ab1e740e2ed7c68aedaad797e0daf29103726ab86f955b 0000000000000000000000000000000000000000000000000000000000000001\nend\n"
}

/// Its part, as the program `vectors` has it of an independent implementation.
const PART: [u8; 32] = [
    0x9a, 0x7f, 0x84, 0x0c, 0x28, 0xe3, 0x11, 0x3b, 0xb0, 0x89, 0xd4, 0xa1, 0x30, 0xca, 0xde, 0x76,
    0x65, 0xbf, 0x4d, 0x01, 0xff, 0x09, 0x00, 0x0d, 0x39, 0x58, 0xc3, 0x02, 0x69, 0x44, 0xb3, 0x45,
];

#[test]
fn a_share_is_read_and_has_its_part(rt: HostRuntime) {
    assert!(rt; part_of(&rt, rt.alloc(), share()) == Ok(PART));
}

/// The part of the share that the file shows.
fn part_of(rt: &impl Abort, alloc: Global, bytes: &[u8]) -> Result<[u8; 32], ReadErr> {
    let mut shelf = Given::of(bytes);
    let mut lines = shelf.lines(rt, alloc);
    let share = read_share(alloc, &mut shelf, &mut lines)?;
    Ok(share_commit(&share))
}
