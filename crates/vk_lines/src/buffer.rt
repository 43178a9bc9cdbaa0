ghost use Rattle.std.specs.Prelude.{◌≡◌, ◌+◌, ◌<◌, ◌≤◌, ◌++◌, [], length, take, drop, IfSome, IfOk, OnErr};
ghost use Rattle.vk_io.specs.Files.{bytes_of, part_of};
ghost use Rattle.vk_lines.specs.Buffers.{IsEnough, OnlyAsks};
ghost use Rattle.vk_io.specs.declared.errors.OutsideErr.TheVariants.{Failed};

use std::marker::Model;
use vk_io::{OutsideErr, Shelf};

/// The most bytes of a line, its line feed included.
pub const MOST_LINE: usize = 256;

/// The last line taken and the bytes that were read behind it, one after another in one array.
#[derive(Drop)]
pub struct Buffer {
    bytes: [u8; 4096],
    first: usize,
    feed: usize,
    next: usize,
    end: usize,
}

impl Model for Buffer {
    ghost use Rattle.std.specs.Prelude.{ℕ, ◌-◌, take, drop};
    ghost use Rattle.vk_lines.specs.Buffers.{BufferValue, AreInOrder};

    ghost Value = { BufferValue };

    ghost view = { λ b. record {
      text = take (b.feed - b.first) (drop b.first b.bytes);
      ahead = take (b.end - b.next) (drop b.next b.bytes);
      free = 4096 - b.end;
    } };

    ghost invariant = { λ b. AreInOrder b.first b.feed b.next b.end };
}

impl Buffer {
    /// No line and no bytes.
    pub fn new() -> Buffer
        ensures text { result.text ≡ [] }
        ensures ahead { result.ahead ≡ [] }
    {
        Buffer {
            bytes: [0; 4096],
            first: 0,
            feed: 0,
            next: 0,
            end: 0,
        }
    }

    /// The last line taken.
    pub fn text(&self) -> &[u8]
        ensures bytes { result.now ≡ self.now.text }
        ensures few { length result.now ≤ 255 }
    {
        &self.bytes[self.first..self.feed]
    }

    /// The bytes behind it.
    pub fn ahead(&self) -> &[u8]
        ensures bytes { result.now ≡ self.now.ahead }
        ensures few { length result.now ≤ 4096 }
    {
        &self.bytes[self.next..self.end]
    }

    /// Takes the line of the first `feed` bytes ahead, and the line feed behind it.
    pub fn take(&mut self, feed: usize)
        requires short { feed < 256 }
        requires within { feed < length self.old.ahead }
        ensures text { self.new.text ≡ take feed self.old.ahead }
        ensures ahead { self.new.ahead ≡ drop (feed + 1) self.old.ahead }
    {
        self.first = self.next;
        self.feed = self.first + feed;
        self.next = self.feed + 1;
    }

    /// Reads on in the named file from `at` on, of which `left` bytes are left: none where a line
    /// may be seen from the bytes ahead. Answers how many were asked for.
    pub fn read_on<S: Shelf>(
        &mut self,
        shelf: &mut S,
        name: &str,
        at: u64,
        left: u64,
    ) -> Result<usize, OutsideErr>
        ensures modelled { IfSome (S.held shelf.old) (λ files.
            IfOk result (λ asked. self.new.ahead
            ≡ self.old.ahead ++ part_of (bytes_of files name.now) at asked)) }
        ensures enough { IfOk result (λ asked. IsEnough (length self.old.ahead) left asked) }
        ensures within { IfOk result
            (λ asked. length self.new.ahead ≤ length self.old.ahead + asked) }
        ensures text { self.new.text ≡ self.old.text }
        ensures refused { OnErr result (self.new.ahead ≡ self.old.ahead) }
        ensures asks { OnlyAsks S.held S.Shelf.faults S.Shelf.wants result shelf.old shelf.new }
    {
        let room = self.make_room(left);
        if room == 0 {
            return Ok(0);
        }
        self.read_piece(shelf, name, at, room)?;
        Ok(room)
    }

    /// How many bytes are to be read, for which there is room then.
    fn make_room(&mut self, left: u64) -> usize
        ensures enough { IsEnough (length self.old.ahead) left result }
        ensures room { result ≤ self.new.free }
        ensures text { self.new.text ≡ self.old.text }
        ensures ahead { self.new.ahead ≡ self.old.ahead }
    {
        if self.ahead().len() >= MOST_LINE {
            return 0;
        }
        self.gather();
        let free = self.free();
        if left < free as u64 {
            left as usize
        } else {
            free
        }
    }

    /// Moves the line and the bytes behind it to the front.
    fn gather(&mut self)
        ensures text { self.new.text ≡ self.old.text }
        ensures ahead { self.new.ahead ≡ self.old.ahead }
        ensures free { length self.old.ahead < 256 → 256 ≤ self.new.free }
    {
        self.bytes.copy_within(self.first..self.end, 0);
        self.feed -= self.first;
        self.next -= self.first;
        self.end -= self.first;
        self.first = 0;
    }

    /// How many bytes there is room for.
    fn free(&self) -> usize
        ensures { result ≡ self.now.free }
    {
        4096 - self.end
    }

    /// Reads the next bytes of the named file, and puts them behind those ahead.
    fn read_piece<S: Shelf>(
        &mut self,
        shelf: &mut S,
        name: &str,
        at: u64,
        room: usize,
    ) -> Result<(), OutsideErr>
        requires { room ≤ self.old.free }
        ensures modelled { IfSome (S.held shelf.old) (λ files.
            IfOk result (λ _. self.new.ahead
            ≡ self.old.ahead ++ part_of (bytes_of files name.now) at room)) }
        ensures within { length self.new.ahead ≤ length self.old.ahead + room }
        ensures text { self.new.text ≡ self.old.text }
        ensures refused { OnErr result (self.new.ahead ≡ self.old.ahead) }
        ensures asks { OnlyAsks S.held S.Shelf.faults S.Shelf.wants result shelf.old shelf.new }
    {
        let count = read_behind(shelf, name, at, &mut self.bytes, self.end, room)?;
        self.end += count;
        Ok(())
    }
}

/// Reads up to `room` bytes of the named file to place `end` of an array, whose front stays.
fn read_behind<S: Shelf>(
    shelf: &mut S,
    name: &str,
    at: u64,
    bytes: &mut [u8; 4096],
    end: usize,
    room: usize,
) -> Result<usize, OutsideErr>
    requires { end + room ≤ 4096 }
    ensures few { IfOk result (λ count. count ≤ room) }
    ensures front { take end bytes.new ≡ take end bytes.old }
    ensures modelled { IfSome (S.held shelf.old) (λ files.
        IfOk result (λ count. take count (drop end bytes.new)
        ≡ part_of (bytes_of files name.now) at room)) }
    ensures asks { OnlyAsks S.held S.Shelf.faults S.Shelf.wants result shelf.old shelf.new }
{
    let count = shelf.read_at(name, at, &mut bytes[end..end + room])?;
    Ok(count)
}
