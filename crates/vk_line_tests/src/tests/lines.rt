// Tokens from outside, and the lines of files in memory.
use std::alloc::Global;
use std::process::Abort;
use std::test::Fail;
use vk_io::{MemShelf, OutsideErr, PieceShelf, Shelf};
use vk_lines::{
    LineKind, Lines, ReadErr, StartErr, Step, behind_word, field, last_hex32, last_residue,
    next_field, next_hex32, one_field, push_decimal, push_hex, read_decimal, read_digests,
    read_hex16, read_hex32, read_many, read_number,
};
use vk_wire::WireCom;

fn check_decimal(rt: &impl Abort, text: &[u8], number: Option<u64>) {
    assert!(rt; read_decimal(text, u64::MAX) == number);
}

#[test]
fn canonical_decimals_alone_are_read(rt: HostRuntime) {
    check_decimal(&rt, b"0", Some(0));
    check_decimal(&rt, b"1099511627775", Some(1099511627775));
    check_decimal(&rt, b"18446744073709551615", Some(18446744073709551615));
    check_decimal(&rt, b"18446744073709551616", None);
    check_decimal(&rt, b"", None);
    check_decimal(&rt, b"07", None);
    check_decimal(&rt, b"+7", None);
    assert!(rt; read_decimal(b"7", 6) == None);
}

#[test]
fn lower_case_hexadecimal_alone_is_read(rt: HostRuntime) {
    let id = *b"000102030405060708090a0b0c0d0e0f";
    let bytes = [0, 1, 2, 3, 4, 5, 6, 7, 8, 9, 10, 11, 12, 13, 14, 15];
    assert!(rt; read_hex16(&id) == Some(bytes));
    assert!(rt; read_hex16(b"000102030405060708090A0B0C0D0E0F") == None);
    assert!(rt; read_hex16(b"000102030405060708090a0b0c0d0e0") == None);
    assert!(rt; read_hex32(&[b'f'; 64]) == Some([255; 32]));
    assert!(rt; read_hex32(&id) == None);
}

#[test]
fn fields_stand_between_single_spaces(rt: HostRuntime) -> Result<(), Fail> {
    assert!(rt; field(b"lanes 4", 1).ok_or("no field")? == b"4".as_slice());
    assert!(rt; field(b"lanes  4", 1).ok_or("no field")?.len() == 0);
    assert!(rt; field(b"lanes 4", 2).is_none());
    Ok(())
}

#[test]
fn a_line_is_a_word_and_its_fields(rt: HostRuntime) -> Result<(), Fail> {
    let rest = behind_word(b"s 1 ab 7", b"s").ok_or("another word")?;
    assert!(rt; rest == b"1 ab 7".as_slice());
    let fields = next_field(rest).ok_or("one field")?;
    assert!(rt; fields.0 == b"1".as_slice());
    assert!(rt; fields.1 == b"ab 7".as_slice());
    assert!(rt; next_field(b"7").is_none());
    assert!(rt; one_field(b"4 ").is_none());
    assert!(rt; behind_word(b"seal", b"seal").is_none());
    assert!(rt; behind_word(b"seals 4", b"seal").is_none());
    assert!(rt; read_number(b"lanes 4", b"lanes", 4, 4) == Some(4));
    assert!(rt; read_number(b"lanes 4 ", b"lanes", 4, 4) == None);
    assert!(rt; read_number(b"lanes 4", b"lanes", 5, 9) == None);
    let digests: Option<WireCom> = read_digests(b"x 00 00", b"x");
    assert!(rt; digests.is_none());
    Ok(())
}

#[test]
fn fields_of_fixed_width_are_read_one_after_another(rt: HostRuntime) -> Result<(), Fail> {
    let mut text = [b'f'; 67];
    assert!(rt; next_hex32(&text).is_none());
    assert!(rt; last_hex32(&text[..64]) == Some([255; 32]));
    text[64] = b' ';
    text[66] = b' ';
    let (bytes, rest) = next_hex32(&text).ok_or("no 32 bytes")?;
    assert!(rt; bytes == [255; 32]);
    assert!(rt; rest == b"f ".as_slice());
    assert!(rt; next_hex32(&text[..64]).is_none());
    assert!(rt; last_hex32(&text[..65]).is_none());
    text[63] = b' ';
    assert!(rt; next_hex32(&text).is_none());
    let greatest = last_residue(b"2305843009213693950").ok_or("no residue")?;
    assert!(rt; greatest.get() == 2305843009213693950);
    assert!(rt; last_residue(b"2305843009213693951").is_none());
    assert!(rt; last_residue(b"7 ").is_none());
    Ok(())
}

#[test]
fn tokens_are_written(rt: HostRuntime) -> Result<(), Fail> {
    let mut out = Vec::new(rt.alloc());
    push_decimal(&mut out, 0)?;
    push_decimal(&mut out, 18446744073709551615)?;
    push_hex(&mut out, &[0, 171, 255])?;
    assert!(rt; out.as_slice() == b"01844674407370955161500abff".as_slice());
    Ok(())
}

#[test]
fn lines_are_taken_to_the_end(rt: HostRuntime) -> Result<(), Fail> {
    let mut shelf = MemShelf::new(rt.alloc());
    shelf.put_file("f", b"vickrey-seal 1\n\nend\nx")?;
    let mut lines = Lines::start(rt.alloc(), &mut shelf, "f")?;
    try_lines(&rt, &mut shelf, &mut lines)
}

// What is tried borrows shelf and lines: nothing is dropped where an assertion ends it, and so it
// is proved fast.

fn try_lines<S: Shelf>(rt: &impl Abort, shelf: &mut S, lines: &mut Lines) -> Result<(), Fail> {
    assert!(rt; lines.next_line(shelf)? == Step::Text);
    assert!(rt; lines.text() == b"vickrey-seal 1".as_slice());
    assert!(rt; lines.next_line(shelf)? == Step::Text);
    assert!(rt; lines.text().len() == 0);
    assert!(rt; lines.read_end(shelf) == Err(ReadErr::Malformed { line: 4 }));
    assert!(rt; lines.number() == 3);
    assert!(rt; lines.next_line(shelf)? == Step::Cut);
    Ok(())
}

#[test]
fn a_line_has_at_most_256_bytes(rt: HostRuntime) -> Result<(), Fail> {
    let mut shelf = MemShelf::new(rt.alloc());
    let mut bytes = [b'0'; 258];
    bytes[255] = b'\n';
    shelf.put_file("whole", &bytes)?;
    bytes[255] = b'0';
    bytes[256] = b'\n';
    shelf.put_file("long", &bytes)?;
    let mut whole = Lines::start(rt.alloc(), &mut shelf, "whole")?;
    assert!(rt; whole.next_line(&mut shelf)? == Step::Text);
    assert!(rt; whole.text().len() == 255);
    let mut long = Lines::start(rt.alloc(), &mut shelf, "long")?;
    assert!(rt; long.next_line(&mut shelf)? == Step::Long);
    assert!(rt; long.read_end(&mut shelf) == Err(ReadErr::Malformed { line: 1 }));
    Ok(())
}

/// 40 lines of 255 times one letter each, behind this first line.
fn letters(alloc: Global, first: &[u8]) -> Result<MemShelf, Fail> {
    let mut bytes = Vec::new(alloc);
    bytes.extend_from_slice(first)?;
    bytes.push(b'\n')?;
    for line in 0..40u8 {
        bytes.extend_from_slice(&[b'A' + line; 255])?;
        bytes.push(b'\n')?;
    }
    bytes.extend_from_slice(b"end\n")?;
    let mut shelf = MemShelf::new(alloc);
    shelf.put_file("f", bytes.as_slice())?;
    Ok(shelf)
}

fn check_letters(rt: &impl Abort, alloc: Global, first: &[u8]) -> Result<(), Fail> {
    let mut shelf = PieceShelf::over(letters(alloc, first)?);
    let mut lines = Lines::start(alloc, &mut shelf, "f")?;
    try_letters(rt, &mut shelf, &mut lines, first);
    Ok(())
}

fn try_letters<S: Shelf>(rt: &impl Abort, shelf: &mut S, lines: &mut Lines, first: &[u8]) {
    assert!(rt; lines.read_text(shelf) == Ok(()));
    assert!(rt; lines.text() == first);
    for line in 0..40u8 {
        assert!(rt; lines.read_text(shelf) == Ok(()));
        assert!(rt; lines.text() == [b'A' + line; 255].as_slice());
    }
    assert!(rt; lines.read_end(shelf) == Ok(()));
    assert!(rt; lines.number() == 42);
}

#[test]
fn a_file_of_several_pieces_is_read_line_by_line(rt: HostRuntime) -> Result<(), Fail> {
    check_letters(&rt, rt.alloc(), b"")?;
    check_letters(&rt, rt.alloc(), b"x")?;
    check_letters(&rt, rt.alloc(), &[b'x'; 255])?;
    Ok(())
}

/// Lines of a word and their own number, counted from 1.
#[derive(Drop)]
struct LaneNumbers;

impl LineKind for LaneNumbers {
    ghost use Rattle.std.specs.Prelude.{◌≡◌, ◌+◌, codes};
    ghost use Rattle.vk_lines.specs.Tokens.{number_line};

    type Item = u64;

    ghost most = { λ _. 64 };

    ghost item_of = { λ _ number text. number_line (codes "lane") (number + 1) (number + 1) text };

    ghost is_item = { λ _ number item. item ≡ number + 1 };

    fn read(&self, number: u32, text: &[u8]) -> Option<u64> {
        let lane = u64::from(number) + 1;
        let found = read_number(text, b"lane", lane, lane);
        found
    }
}

#[test]
fn so_many_lines_of_a_kind_are_read(rt: HostRuntime) -> Result<(), Fail> {
    let mut shelf = MemShelf::new(rt.alloc());
    shelf.put_file("f", b"lane 1\nlane 2\nlane 3\nlane 3\n")?;
    let mut lines = Lines::start(rt.alloc(), &mut shelf, "f")?;
    let three = read_many(rt.alloc(), &mut shelf, &mut lines, &LaneNumbers, 3)?;
    assert!(rt; three.as_slice() == [1u64, 2, 3].as_slice());
    let mut again = Lines::start(rt.alloc(), &mut shelf, "f")?;
    let four = read_many(rt.alloc(), &mut shelf, &mut again, &LaneNumbers, 4);
    assert!(rt; four.is_err_and(|e| e == ReadErr::Malformed { line: 4 }));
    Ok(())
}

#[test]
fn a_refused_read_leaves_the_line_and_what_is_left(rt: HostRuntime) -> Result<(), Fail> {
    let mut shelf = letters(rt.alloc(), b"")?;
    shelf.fail_at(2)?;
    shelf.fail_at(4)?;
    let mut lines = Lines::start(rt.alloc(), &mut shelf, "f")?;
    try_refused(&rt, &mut shelf, &mut lines);
    Ok(())
}

fn try_refused<S: Shelf>(rt: &impl Abort, shelf: &mut S, lines: &mut Lines) {
    assert!(rt; lines.next_line(shelf) == Err(OutsideErr::Failed));
    assert!(rt; lines.text().len() == 0);
    assert!(rt; lines.number() == 0);
    for _line in 0..16 {
        assert!(rt; lines.read_text(shelf) == Ok(()));
    }
    assert!(rt; lines.next_line(shelf) == Err(OutsideErr::Failed));
    assert!(rt; lines.text() == [b'O'; 255].as_slice());
    assert!(rt; lines.number() == 16);
    assert!(rt; lines.read_text(shelf) == Ok(()));
    assert!(rt; lines.text() == [b'P'; 255].as_slice());
}

#[test]
fn a_failed_read_leaves_the_reader_as_before(rt: HostRuntime) -> Result<(), Fail> {
    let mut shelf = MemShelf::new(rt.alloc());
    shelf.put_file("f", b"end\n")?;
    shelf.fail_at(3)?;
    assert!(rt; Lines::start(rt.alloc(), &mut shelf, "g").is_err_and(|e| e == StartErr::Missing));
    let mut lines = Lines::start(rt.alloc(), &mut shelf, "f")?;
    try_failed(&rt, &mut shelf, &mut lines)
}

fn try_failed<S: Shelf>(rt: &impl Abort, shelf: &mut S, lines: &mut Lines) -> Result<(), Fail> {
    assert!(rt; lines.read_end(shelf) == Err(ReadErr::Failed));
    assert!(rt; lines.read_end(shelf) == Ok(()));
    assert!(rt; lines.next_line(shelf)? == Step::End);
    Ok(())
}
