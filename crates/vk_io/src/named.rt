ghost use Rattle.std.specs.Prelude.{◌≡◌, ℕ, ◌<◌, ◌++◌, length, drop, option_map, slice_index_or, IfSome, IfNone, None, Some, OnOk, OnErr};
ghost use Rattle.std.specs.FinMap as map;
ghost use Rattle.std.specs.String.{string_bytes};
ghost use Rattle.vk_io.specs.Files.{bytes_of, part_of};
ghost use Rattle.vk_io.specs.Named.{files_in, IsPlaceOf};
ghost use Rattle.vk_io.specs.declared.named.NamedFile.{NamedFile};

use std::alloc::Global;
use vk_residue::NoMemory;

/// A file of a shelf in memory.
#[derive(Drop)]
pub struct NamedFile {
    pub name: String,
    pub bytes: Vec<u8>,
}

/// What the named file holds. None where no file has that name.
pub fn bytes_at<'a>(files: &'a [NamedFile], name: &str) -> Option<&'a [u8]>
    ensures absent { IfNone result (map.get (files_in files.now) name.now ≡ None) }
    ensures found { IfSome result
        (λ bytes. map.get (files_in files.now) name.now ≡ Some bytes.now) }
{
    for file in files {
        if name == file.name.as_str() {
            return Some(file.bytes.as_slice());
        }
    }
    None
}

/// The place of the first file of that name. None where no file has it.
fn place_of(files: &[NamedFile], name: &str) -> Option<usize>
    ensures absent { IfNone result (map.get (files_in files.now) name.now ≡ None) }
    ensures within { IfSome result (λ i. i < length files.now) }
    ensures found { IfSome result (λ i. IsPlaceOf name.now files.now i) }
    ensures named { IfSome result
        (λ i. (d : NamedFile) → string_bytes (slice_index_or files.now i d).name ≡ name.now) }
    ensures held { IfSome result
        (λ i. (d : NamedFile) → bytes_of (files_in files.now) name.now
        ≡ (slice_index_or files.now i d).bytes.items) }
{
    for (i, file) in files.iter().enumerate() {
        if name == file.name.as_str() {
            return Some(i);
        }
    }
    None
}

/// Makes the named file hold these bytes. Errs for want of memory alone, and then nothing changed.
pub fn write_over(
    alloc: Global,
    files: &mut Vec<NamedFile>,
    name: &str,
    bytes: Vec<u8>,
) -> Result<(), NoMemory>
    ensures written { OnOk result
        (files_in files.new.items ≡ map.insert (files_in files.old.items) name.now bytes.items) }
    ensures refused { OnErr result (files_in files.new.items ≡ files_in files.old.items) }
{
    match place_of(files, name) {
        Some(i) => {
            files[i].bytes = bytes;
            Ok(())
        }
        None => {
            let name = String::from_str(alloc, name)?;
            files.push(NamedFile { name, bytes })?;
            Ok(())
        }
    }
}

/// Adds the piece at the end of the named file, which counts as empty where no file has the name.
/// Errs for want of memory alone, and then nothing changed.
pub fn append_to(
    alloc: Global,
    files: &mut Vec<NamedFile>,
    name: &str,
    piece: &[u8],
) -> Result<(), NoMemory>
    ensures appended { OnOk result
        (files_in files.new.items
        ≡ map.insert (files_in files.old.items) name.now
        (bytes_of (files_in files.old.items) name.now ++ piece.now)) }
    ensures refused { OnErr result (files_in files.new.items ≡ files_in files.old.items) }
{
    match place_of(files, name) {
        Some(i) => {
            files[i].bytes.extend_from_slice(piece)?;
            Ok(())
        }
        None => {
            let bytes = Vec::from_slice(alloc, piece)?;
            let name = String::from_str(alloc, name)?;
            files.push(NamedFile { name, bytes })?;
            Ok(())
        }
    }
}

/// How many bytes the named file has. None where no file has the name.
pub fn length_in(files: &[NamedFile], name: &str) -> Option<u64>
    ensures { result ≡ option_map length (map.get (files_in files.now) name.now) }
{
    match bytes_at(files, name) {
        Some(bytes) => Some(bytes.len() as u64),
        None => None,
    }
}

/// Puts the bytes from `at` on into the front of `into`, as many as are left or fit, and answers
/// their number.
fn put_part(bytes: &[u8], at: u64, into: &mut [u8]) -> usize
    ensures count { result ≡ length (part_of bytes.now at (length into.old)) }
    ensures bytes { into.new ≡ part_of bytes.now at (length into.old) ++ drop result into.old }
{
    let from = at.min(bytes.len() as u64) as usize;
    let (_, rest) = bytes.split_at(from);
    let count = rest.len().min(into.len());
    let (piece, _) = rest.split_at(count);
    into[..count].copy_from_slice(piece);
    count
}

/// Puts bytes of the named file into the front of `into`, as [`put_part`] does, and none where no
/// file has the name.
pub fn read_in(files: &[NamedFile], name: &str, at: u64, into: &mut [u8]) -> usize
    ensures count { result ≡ length
        (part_of (bytes_of (files_in files.now) name.now) at (length into.old)) }
    ensures bytes { into.new
        ≡ part_of (bytes_of (files_in files.now) name.now) at (length into.old)
        ++ drop result into.old }
{
    match bytes_at(files, name) {
        Some(bytes) => put_part(bytes, at, into),
        None => 0,
    }
}
