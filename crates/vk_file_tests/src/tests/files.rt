// Files that several of these tests take, and a shelf of one file. Another program wrote the
// smallest board and the replies to both bits.
use std::alloc::Global;
use std::panic::Expect;
use std::process::Abort;
use vk_io::{MemShelf, OutsideErr, Shelf};
use vk_lines::Lines;

/// A shelf whose every name has this file, of which it gives at most so many bytes at once. Once the
/// last one was given, it is another file, as where another program writes it anew.
#[derive(Clone, Copy)]
pub struct Given<'a> {
    pub length: u64,
    pub most: usize,
    pub left: &'a [u8],
    pub then: &'a [u8],
}

impl<'a> Given<'a> {
    /// The file stays as it is.
    pub fn of(bytes: &'a [u8]) -> Given<'a> {
        Given {
            length: bytes.len() as u64,
            most: 4096,
            left: bytes,
            then: bytes,
        }
    }

    /// A file of so many bytes, of which none is given.
    pub fn vast(length: u64) -> Given<'a> {
        Given {
            length,
            most: 0,
            left: b"",
            then: b"",
        }
    }

    /// The lines of the file.
    pub fn lines(&mut self, rt: &impl Abort, alloc: Global) -> Lines {
        let lines = Lines::start(alloc, self, "file").expect(rt, "begun");
        lines
    }
}

impl<'a> Shelf for Given<'a> {
    ghost use Rattle.std.specs.Prelude.{None};

    ghost held = { λ _. None };

    ghost faults = { λ _. 0 };

    ghost wants = { λ _. 0 };

    ghost length_gives = { λ _ _ _ _. Unit {0} };

    fn length(&mut self, _name: &str) -> Result<Option<u64>, OutsideErr> {
        Ok(Some(self.length))
    }

    fn read_at(&mut self, _name: &str, at: u64, into: &mut [u8]) -> Result<usize, OutsideErr> {
        let from = at.min(self.left.len() as u64) as usize;
        let (_, rest) = self.left.split_at(from);
        let count = rest.len().min(into.len()).min(self.most);
        let (piece, behind) = rest.split_at(count);
        into[..count].copy_from_slice(piece);
        if behind.is_empty() {
            self.left = self.then;
        }
        Ok(count)
    }

    fn create(&mut self, _name: &str) -> Result<(), OutsideErr> {
        Ok(())
    }

    fn append(&mut self, _name: &str, _piece: &[u8]) -> Result<(), OutsideErr> {
        Ok(())
    }
}

/// The smallest board.
pub fn board() -> &'static [u8] {
    b"vickrey-board 1\nauction 000102030405060708090a0b0c0d0e0f\nwidth 1\nlanes 1\nseals 1\nwinner 7\nprice 0\nseal 7\nx 023dd1cc99177aec8e6b75b847227ff4a8dd6e2328310f0ffa91f2d60aecd426 774401009878493d88b3ad371899fe26d73791fadb6afe02ad901833daf73de4\nlane 1\nw 3e081a820047b942fb53d64cc48e73072c8bab60338122a8b6cc7d2574478294 b66b11c7a3a9e463f7cc889a27081e01e290916f55650e641b6a2815af4d3a94\nw dcc34ee7a886c4a195cc136f37ec174e14e203f3f6cb45c6c0c8e9ab4b1a3736 88f52883e737aaed134b26aaf44218f208901120c18c8f715c4e7c2cc4641072\nd 2305843009213693944\nd 6\nend\n"
}

/// The reply to bit 0.
pub fn reply_0() -> &'static [u8] {
    b"vickrey-reply 1\nlanes 1\nlane 1\nh 1111111111111111111111111111111111111111111111111111111111111111 3\nh 3333333333333333333333333333333333333333333333333333333333333333 10\na 5555555555555555555555555555555555555555555555555555555555555555 2305843009213693947 6666666666666666666666666666666666666666666666666666666666666666 2305843009213693948\nend\n"
}

// The reply to bit 1, but for the line of its second wire.
pub fn reply_1() -> &'static [u8] {
    b"vickrey-reply 1\nlanes 1\nlane 1\nh 2222222222222222222222222222222222222222222222222222222222222222 2305843009213693948\n"
}

pub fn second_wire() -> &'static [u8] {
    b"h 4444444444444444444444444444444444444444444444444444444444444444 2305843009213693941\n"
}

const OTHER_WIRE: &[u8] =
    b"h 4444444444444444444444444444444444444444444444444444444444444444 2305843009213693940\n";

pub fn reply_1_end() -> &'static [u8] {
    b"s 0 5555555555555555555555555555555555555555555555555555555555555555 2305843009213693947\nend\n"
}

/// The named file holds these pieces, one after another.
fn put(shelf: &mut MemShelf, name: &str, pieces: &[&[u8]]) -> Result<(), OutsideErr> {
    for piece in pieces {
        shelf.append(name, piece)?;
    }
    Ok(())
}

/// The smallest board, both challenges and the reply to each; and what is refused: a reply with a
/// byte after its end, and one that opens another value.
pub fn shelf_of_files(alloc: Global) -> Result<MemShelf, OutsideErr> {
    let mut shelf = MemShelf::new(alloc);
    put(&mut shelf, "board", &[board()])?;
    put(&mut shelf, "0", &[b"vickrey-challenge 1\nbits 0\nend\n"])?;
    put(&mut shelf, "1", &[b"vickrey-challenge 1\nbits 1\nend\n"])?;
    put(&mut shelf, "to 0", &[reply_0()])?;
    put(&mut shelf, "longer", &[reply_0(), b"x"])?;
    put(
        &mut shelf,
        "to 1",
        &[reply_1(), second_wire(), reply_1_end()],
    )?;
    put(&mut shelf, "other", &[reply_1(), OTHER_WIRE, reply_1_end()])?;
    Ok(shelf)
}
