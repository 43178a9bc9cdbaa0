ghost use Rattle.std.specs.Prelude.{◌≡◌, ◌<◌, ◌≤◌, take, vec_len, IfSome, IfOk, IsErrOf};
ghost use Rattle.vk_io.specs.Content.{content_of, IsWithin, TakesNone};
ghost use Rattle.vk_io.specs.Faults.{Causes, MayCause};
ghost use Rattle.vk_io.specs.Reads.{OnlyReads};
ghost use Rattle.vk_io.specs.Files.{bytes_of};

use crate::appending::put_behind;
use crate::errors::OutsideErr;
use crate::shelf::Shelf;
use std::alloc::Global;
use vk_seq::Seq;

/// How many bytes one call of `read_at` is asked for.
const PIECE: usize = 4096;

/// A file as a reader finds it that takes at most a number of bytes.
#[derive(Debug, Drop)]
pub enum Content {
    /// The name isn't held.
    Missing,
    /// The file has more bytes than are taken.
    TooLong,
    /// The bytes of the file.
    Held(Seq<u8>),
}

/// Reads the named file whole, where it has at most `most` bytes. No more bytes are taken than
/// `length` told, and where the file shrinks meanwhile, those that are there.
pub fn read_whole<S: Shelf>(
    alloc: Global,
    shelf: &mut S,
    name: &str,
    most: u64,
) -> Result<Content, OutsideErr>
    ensures modelled { IfSome (S.held shelf.old)
        (λ files. IfOk result (λ content. content ≡ content_of files name.now most)) }
    ensures within { IfOk result (IsWithin most) }
    ensures free { IfSome (S.held shelf.old) (λ files. TakesNone (content_of files name.now most)
        → Causes OutsideErr.NoMemory result (S.Shelf.wants shelf.old) (S.Shelf.wants shelf.new)) }
    ensures shelf { OnlyReads S.held S.Shelf.faults OutsideErr.Failed result shelf.old shelf.new }
    ensures wants { MayCause OutsideErr.NoMemory result (S.Shelf.wants shelf.old)
        (S.Shelf.wants shelf.new) }
{
    let length = shelf.length(name)?;
    match length {
        None => Ok(Content::Missing),
        Some(size) => {
            if most < size {
                return Ok(Content::TooLong);
            }
            let bytes = read_bytes(alloc, shelf, name, size)?;
            Ok(Content::Held(Seq::from_vec(bytes)))
        }
    }
}

/// The first `size` bytes of the named file, or all where there are fewer.
fn read_bytes<S: Shelf>(
    alloc: Global,
    shelf: &mut S,
    name: &str,
    size: u64,
) -> Result<Vec<u8>, OutsideErr>
    ensures modelled { IfSome (S.held shelf.old)
        (λ files. IfOk result (λ bytes. bytes.items ≡ take size (bytes_of files name.now))) }
    ensures within { IfOk result (λ bytes. vec_len bytes ≤ size) }
    ensures shelf { OnlyReads S.held S.Shelf.faults OutsideErr.Failed result shelf.old shelf.new }
    ensures wants { MayCause OutsideErr.NoMemory result (S.Shelf.wants shelf.old)
        (S.Shelf.wants shelf.new) }
{
    let mut bytes = Vec::new(alloc);
    let mut piece = [0u8; PIECE];
    let mut at = 0;
    while at < size {
        let room = room_of(size - at);
        let count = shelf.read_at(name, at, &mut piece[..room])?;
        if count == 0 {
            return Ok(bytes);
        }
        put_behind(&mut bytes, &piece[..count])?;
        at += count as u64;
    }
    Ok(bytes)
}

/// How many of the bytes left one call is asked for: at least one where there are any.
fn room_of(left: u64) -> usize
    requires { 0 < left }
    ensures some { 0 < result }
    ensures left { result ≤ left }
    ensures piece { result ≤ PIECE }
{
    left.min(PIECE as u64) as usize
}
