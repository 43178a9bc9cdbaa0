// Files and lines that another implementation made.
use crate::{NamedBytes, WantedName, page_run};
use std::test::Fail;

const BOARD: &str = "vickrey-board 1
auction 000102030405060708090a0b0c0d0e0f
width 1
lanes 1
seals 1
winner 7
price 0
seal 7
x 023dd1cc99177aec8e6b75b847227ff4a8dd6e2328310f0ffa91f2d60aecd426 774401009878493d88b3ad371899fe26d73791fadb6afe02ad901833daf73de4
lane 1
w 3e081a820047b942fb53d64cc48e73072c8bab60338122a8b6cc7d2574478294 b66b11c7a3a9e463f7cc889a27081e01e290916f55650e641b6a2815af4d3a94
w dcc34ee7a886c4a195cc136f37ec174e14e203f3f6cb45c6c0c8e9ab4b1a3736 88f52883e737aaed134b26aaf44218f208901120c18c8f715c4e7c2cc4641072
d 2305843009213693944
d 6
end
";

const REPLY: &str = "vickrey-reply 1
lanes 1
lane 1
h 1111111111111111111111111111111111111111111111111111111111111111 3
h 3333333333333333333333333333333333333333333333333333333333333333 10
a 5555555555555555555555555555555555555555555555555555555555555555 2305843009213693947 6666666666666666666666666666666666666666666666666666666666666666 2305843009213693948
end
";

const SEAL_LINE: &str =
    "seal 0f2e573ebe4da7d6bdc4908077d7628d 7 0 1 1 b6bc74291c11ff3e699e3bd275475dfe92ff3c3b0f3525d5e268658daf937e41 secret seal";

const SEAL: &str = "vickrey-seal 1
auction 0f2e573ebe4da7d6bdc4908077d7628d
seat 7
lanes 1
x 52efb7f55b148f6e228296429df3357011834059942c42b7ca82bd8a8c9aa5f3 6b46dbaf383cac4707d70852d5dafc7a48ef9cd7894ab1f257dc916f5f93d022
end
";

fn named<'a>(name: &'a str, text: &'a str) -> NamedBytes<'a> {
    NamedBytes {
        name: name.as_bytes(),
        bytes: text.as_bytes(),
    }
}

#[test]
fn a_reply_is_accepted(rt: HostRuntime) -> Result<(), Fail> {
    let files = [
        named("board", BOARD),
        named("challenge", "vickrey-challenge 1\nbits 0\nend\n"),
        named("reply", REPLY),
    ];
    let mut room = [7u8; 17];
    let line = b"verify board challenge reply";
    assert_eq!(rt; page_run(rt.alloc(), line, &files, &[], &mut room), 0);
    assert_eq!(rt; room.as_slice(), b"\0\0\0\0\0\0\0\x09accepted\n".as_slice());
    Ok(())
}

#[test]
fn what_is_written_is_handed_back(rt: HostRuntime) -> Result<(), Fail> {
    let wanted = [WantedName { name: b"seal" }, WantedName { name: b"none" }];
    let mut room = [7u8; 400];
    let status = page_run(rt.alloc(), SEAL_LINE.as_bytes(), &[], &wanted, &mut room);
    assert_eq!(rt; status, 0);
    let mut all = Vec::new(rt.alloc());
    all.extend_from_slice(b"\0\0\0\0\0\0\0\x16sealed seat 7 lanes 1\n")?;
    all.extend_from_slice(&(SEAL.len() as u64).to_be_bytes())?;
    all.extend_from_slice(SEAL.as_bytes())?;
    all.extend_from_slice(&[255; 8])?;
    assert!(rt; room.starts_with(all.as_slice()));
    Ok(())
}

#[test]
fn the_later_file_of_a_name_counts(rt: HostRuntime) -> Result<(), Fail> {
    let other = NamedBytes {
        name: b"\xff",
        bytes: b"?",
    };
    let files = [named("a", "1"), named("a", "23"), other];
    let wanted = [WantedName { name: b"a" }, WantedName { name: b"\xff" }];
    let all = b"\0\0\0\0\0\0\0\x0amissing b\n\0\0\0\0\0\0\0\x0223\xff\xff\xff\xff\xff\xff\xff\xff";
    let line = b"verify b c r";
    let mut room = [7u8; 36];
    assert_eq!(rt; page_run(rt.alloc(), line, &files, &wanted, &mut room), 5);
    assert_eq!(rt; room.as_slice(), all.as_slice());
    Ok(())
}

#[test]
fn a_room_that_is_too_small_begins_with_zeros(rt: HostRuntime) -> Result<(), Fail> {
    let wanted = [WantedName { name: b"a" }];
    for size in 0..26 {
        let mut whole = [7u8; 26];
        let room = &mut whole[..size];
        let status = page_run(rt.alloc(), b"verify b c r", &[], &wanted, room);
        assert_eq!(rt; status, 9, "{size}");
        assert!(rt; room.iter().take(8).all(|byte| *byte == 0), "{size}");
    }
    let mut room = [7u8; 26];
    let status = page_run(rt.alloc(), b"verify b c r", &[], &wanted, &mut room);
    assert_eq!(rt; status, 5);
    Ok(())
}

#[test]
fn a_line_that_is_no_text_has_no_words(rt: HostRuntime) -> Result<(), Fail> {
    let mut room = [7u8; 400];
    assert_eq!(rt; page_run(rt.alloc(), b"\xff", &[], &[], &mut room), 2);
    assert!(rt; room[8..].starts_with(b"usage: vickrey "));
    Ok(())
}
