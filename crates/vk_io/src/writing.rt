ghost use Rattle.std.specs.Prelude.{◌≡◌, ◌<◌, List, [], length, slice_index_or, IfOk};
ghost use Rattle.vk_io.specs.Faults.{Causes, MayCause};
ghost use Rattle.vk_io.specs.Files.{Modelled};
ghost use Rattle.vk_io.specs.Writing.{WrittenFile, Writes, WritesAll, no_file, text_of, texts_of};

use crate::errors::OutsideErr;
use crate::shelf::Shelf;
use std::alloc::Global;
use vk_residue::NoMemory;
use vk_seq::Seq;

/// Files that are to be written one after another, each piece by piece. Files and pieces count from
/// 0.
pub trait WrittenFiles {
    /// The files in order.
    ghost files: { Self → List WrittenFile };

    /// How many files there are.
    fn count(&self) -> usize
        ensures { result ≡ length (files self.now) };

    /// The name of a file.
    fn name(&self, file: usize) -> &str
        requires { file < length (files self.now) }
        ensures { result.now ≡ (slice_index_or (files self.now) file no_file).name };

    /// How many pieces a file's text has.
    fn pieces(&self, file: usize) -> usize
        requires { file < length (files self.now) }
        ensures { result ≡ length (slice_index_or (files self.now) file no_file).pieces };

    /// A piece of a file's text.
    fn piece(&self, alloc: Global, file: usize, index: usize) -> Result<Vec<u8>, NoMemory>
        requires file { file < length (files self.now) }
        requires index { index < length (slice_index_or (files self.now) file no_file).pieces }
        ensures { IfOk result (λ piece. piece.items
            ≡ slice_index_or (slice_index_or (files self.now) file no_file).pieces index []) };
}

/// A file that is to be written: its name, and the whole of what it is to hold.
#[derive(Drop)]
pub struct FileText {
    pub name: String,
    pub text: Seq<u8>,
}

impl WrittenFiles for Seq<FileText> {
    ghost use Rattle.vk_io.specs.Writing.{whole_files};

    ghost files = { whole_files };

    fn count(&self) -> usize {
        self.len()
    }

    fn name(&self, file: usize) -> &str {
        self.as_slice()[file].name.as_str()
    }

    fn pieces(&self, file: usize) -> usize {
        1
    }

    fn piece(&self, alloc: Global, file: usize, index: usize) -> Result<Vec<u8>, NoMemory> {
        let text = Vec::from_slice(alloc, self.as_slice()[file].text.as_slice())?;
        Ok(text)
    }
}

/// Writes the files one after another: each is created, and its pieces are added. Refused, those
/// before one of them hold their texts, that one is as before or holds a prefix of its text, and
/// the later ones are as before. All other files stay.
pub fn write_files<S: Shelf, F: WrittenFiles>(
    alloc: Global,
    shelf: &mut S,
    files: &F,
) -> Result<(), OutsideErr>
    ensures written { Modelled (WritesAll (texts_of (F.files files.now)) result) (S.held shelf.old)
        (S.held shelf.new) }
    ensures causes { Causes OutsideErr.Failed result (S.Shelf.faults shelf.old)
        (S.Shelf.faults shelf.new) }
    ensures wants { MayCause OutsideErr.NoMemory result (S.Shelf.wants shelf.old)
        (S.Shelf.wants shelf.new) }
{
    for file in 0..files.count() {
        write_file(alloc, shelf, files, file)?;
    }
    Ok(())
}

/// Makes one of the files hold its text. Refused, it is as before or holds a prefix of the text.
fn write_file<S: Shelf, F: WrittenFiles>(
    alloc: Global,
    shelf: &mut S,
    files: &F,
    file: usize,
) -> Result<(), OutsideErr>
    requires { file < length (F.files files.now) }
    ensures written { Modelled
        (Writes (slice_index_or (F.files files.now) file no_file).name
        (text_of (slice_index_or (F.files files.now) file no_file)) result)
        (S.held shelf.old) (S.held shelf.new) }
    ensures causes { Causes OutsideErr.Failed result (S.Shelf.faults shelf.old)
        (S.Shelf.faults shelf.new) }
    ensures wants { MayCause OutsideErr.NoMemory result (S.Shelf.wants shelf.old)
        (S.Shelf.wants shelf.new) }
{
    shelf.create(files.name(file))?;
    for index in 0..files.pieces(file) {
        let piece = files.piece(alloc, file, index)?;
        shelf.append(files.name(file), piece.as_slice())?;
    }
    Ok(())
}
