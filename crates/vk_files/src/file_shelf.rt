ghost use Rattle.std.specs.Prelude.{◌≡◌, ◌≢◌, ◌<◌, ◌≤◌, false, true, length, None, Ok, Err, IfSome, IsSome, IsSomeAnd, is_some, IfOk, OnOk, OnErr};
ghost use Rattle.std.specs.List.{HoldsAt, position};
ghost use Rattle.std.specs.Io.KnownBytes.{Appends};
ghost use Rattle.vk_io.specs.Faults.{Causes};
ghost use Rattle.vk_files.specs.Identity.{HasName, IsKeptAs, is_kept_as, is_named_otherwise, is_told};
ghost use Rattle.vk_files.specs.Readings.{AtPlace, IsRead};

use crate::ahead::Ahead;
use crate::faults::FaultCount;
use crate::file_id::FileId;
use crate::kinds::{Kind, admit_to_write, file_length};
use crate::links::end_of_links;
use crate::moves::put_counted;
use crate::named_ids::{NamedId, is_named_otherwise, note};
use crate::opening::{length_of, make_to_write, open_to_read, open_to_write, sync_written};
use crate::outcome::{count_fault, with_want};
use crate::store::Store;
use crate::told_names::{is_told, tell};
use std::alloc::Global;
use std::fs::{Metadata, OpenFile};
use std::io;
use std::io::{ErrorKind, Read, Seek};
use std::rt::Files;
use vk_io::{OutsideErr, Shelf};
use vk_residue::NoMemory;
use vk_text::ShortText;

/// How many files are kept open, at most: those that a command reads side by side, and a few more.
const MOST_OPEN: usize = 8;

/// An open file, and the name that it was opened by.
#[derive(Drop)]
struct NamedFile<F> {
    name: String,
    file: F,
}

/// A file that is kept open to be read, and its bytes that were read ahead.
#[derive(Drop)]
struct KeptFile<F> {
    named: NamedFile<F>,
    ahead: Ahead,
}

impl<F: Read + Seek> KeptFile<F> {
    /// Reads from the file as a shelf does.
    fn read(
        &mut self,
        at: u64,
        into: &mut [u8],
        faults: &mut FaultCount,
    ) -> Result<usize, OutsideErr>
        ensures bound { IfOk result (λ n. n ≤ length into.old) }
        ensures named { self.new.named.name ≡ self.old.named.name }
        ensures read { IsRead F.stream_position F.remaining at (length into.old) result into.new
            self.old self.new }
        ensures causes { Causes OutsideErr.Failed result faults.old faults.new }
    {
        let count = self.ahead.read(&mut self.named.file, at, into, faults)?;
        Ok(count)
    }
}

/// What went wrong with a file, for a person.
#[derive(Clone, Copy, Debug)]
pub struct NamedFault<'a> {
    /// The name that the file was asked for by.
    pub name: &'a [u8],
    /// What the system said.
    pub reason: &'static str,
}

/// The real file system. A name is a path from the current folder. Its content isn't modelled, and
/// each error raises its count. A file that is read stays open, and more of it is read at once than
/// is asked for, until its name is created or appended to, or its length is asked. The file that is
/// written stays open too, until another is written or [`FileShelf::settle`] is called: it is
/// synced then, so that its last error is told.
///
/// A file of which a length was told is there: where nothing is there once it is read, that is a
/// fault.
///
/// What is no regular file is a fault, and is not opened: a folder, a device, a pipe and a socket.
/// Two devices may be written and not read, `/dev/null` and `/dev/full`. What is at a path is
/// looked at just before it is opened. Whoever puts a pipe there between the two has the shelf
/// wait for its other end.
///
/// Two kinds of file are not written, whatever the name that leads to them: those of the store, and
/// those that were opened by another name before. To create or append to one is a fault, and leaves
/// it as it was.
#[derive(Drop)]
pub struct FileShelf<'a, R: Files> {
    rt: &'a R,
    alloc: Global,
    store: Store<'a, R>,
    opened: Vec<NamedId>,
    told: Vec<String>,
    kept: Vec<KeptFile<R::File>>,
    written: Option<NamedFile<R::File>>,
    faults: FaultCount,
    wants: u64,
    faulty: Option<ShortText>,
}

impl<'a, R: Files> FileShelf<'a, R> {
    /// The files that `rt` reaches, of which those of the SQLite store at the path `store` aren't
    /// to be written. There are no faults yet. It takes no memory and is never refused.
    pub fn new(rt: &'a R, alloc: Global, store: &'a str) -> FileShelf<'a, R>
        ensures faults { result.faults ≡ 0 }
        ensures wants { result.wants ≡ 0 }
    {
        FileShelf {
            rt,
            alloc,
            store: Store::at(rt, alloc, store),
            opened: Vec::new(alloc),
            told: Vec::new(alloc),
            kept: Vec::new(alloc),
            written: None,
            faults: FaultCount::new(),
            wants: 0,
            faulty: None,
        }
    }
}

impl<R: Files> FileShelf<'_, R> {
    /// The place of the file that is open under that name.
    #[tactic(auto, using(crate::proofs::Kept::first_is_kept))]
    fn place_of(&self, name: &str) -> Option<usize>
        ensures place { IfSome result (λ place. place < length self.now.kept.items) }
        ensures name { IfSome result
            (λ place. HoldsAt (IsKeptAs name.now) self.now.kept.items place) }
        ensures first { result ≡ position (is_kept_as name.now) self.now.kept.items }
    {
        let place = place_under(&self.kept, name);
        place
    }

    /// Closes the file that is open under that name, if there is one.
    fn close(&mut self, name: &str)
        ensures written { self.new.written ≡ self.old.written }
        ensures kept { self.new.faults ≡ self.old.faults }
        ensures wants { self.new.wants ≡ self.old.wants }
    {
        if let Some(place) = self.place_of(name) {
            self.kept.swap_remove(place);
        }
    }

    /// Keeps a file open under its name, and answers its place. Of too many the first is closed.
    fn keep(&mut self, name: &str, file: R::File) -> Result<usize, NoMemory>
        ensures place { IfOk result (λ place. place < length self.new.kept.items) }
        ensures name { IfOk result (λ place. HoldsAt (IsKeptAs name.now) self.new.kept.items place) }
        ensures kept { self.new.faults ≡ self.old.faults }
        ensures wants { self.new.wants ≡ self.old.wants }
    {
        let name = String::from_str(self.alloc, name)?;
        let ahead = Ahead::new(self.alloc)?;
        if MOST_OPEN <= self.kept.len() {
            self.kept.swap_remove(0);
        }
        let named = NamedFile { name, file };
        self.kept.push(KeptFile { named, ahead })?;
        Ok(self.kept.len() - 1)
    }

    /// The place of the file under that name, which is opened where it isn't open. None where
    /// nothing is there; but where a length of it was told that is a fault.
    fn open_named(&mut self, name: &str) -> Result<Option<usize>, OutsideErr>
        ensures place { IfOk result
            (λ found. IfSome found (λ place. place < length self.new.kept.items)) }
        ensures name { IfOk result
            (λ found. IfSome found
            (λ place. HoldsAt (IsKeptAs name.now) self.new.kept.items place)) }
        ensures told { is_told self.old.told.items name.now ≡ true → IfOk result IsSome }
        ensures open { IfSome (position (is_kept_as name.now) self.old.kept.items)
            (λ place. (result ≡ Ok (Some place))
            × (self.new.kept.items ≡ self.old.kept.items)) }
        ensures causes { Causes OutsideErr.Failed result self.old.faults self.new.faults }
        ensures wants { self.new.wants ≡ self.old.wants }
    {
        if let Some(place) = self.place_of(name) {
            return Ok(Some(place));
        }
        let was_there = is_told(&self.told, name);
        match count_fault(open_to_read(self.rt, name, was_there), &mut self.faults)? {
            None => Ok(None),
            Some(file) => {
                let metadata = count_fault(file.metadata(), &mut self.faults)?;
                count_fault(file_length(&metadata), &mut self.faults)?;
                self.note(&metadata, name)?;
                let place = self.keep(name, file)?;
                Ok(Some(place))
            }
        }
    }

    /// Notes by which name a file was opened. A device has no bytes that could be lost by another
    /// name, and is passed over.
    fn note(&mut self, metadata: &Metadata, name: &str) -> Result<(), NoMemory>
        ensures written { self.new.written ≡ self.old.written }
        ensures kept { self.new.faults ≡ self.old.faults }
        ensures wants { self.new.wants ≡ self.old.wants }
    {
        match FileId::of(metadata) {
            Some(id) if metadata.is_file() => note(self.alloc, &mut self.opened, id, name),
            _ => Ok(()),
        }
    }

    /// Closes the file that was written last, once its bytes are where they belong. Errs where only
    /// that tells that they aren't.
    pub fn settle(&mut self) -> Result<(), OutsideErr>
        ensures closed { self.new.written ≡ None }
        ensures causes { Causes OutsideErr.Failed result self.old.faults self.new.faults }
        ensures wants { self.new.wants ≡ self.old.wants }
    {
        match self.written.take() {
            None => Ok(()),
            Some(written) => {
                let settled = count_fault(sync_written(&written.file), &mut self.faults);
                self.note_fault(written.name.as_str(), settled)
            }
        }
    }

    /// The file under that name, to be written on at its end.
    fn writer(&mut self, name: &str) -> Result<NamedFile<R::File>, OutsideErr>
        ensures name { IfOk result (HasName name.now) }
        ensures same { IfSome self.old.written
            (λ written. HasName name.now written → result ≡ Ok written) }
        ensures none { self.new.written ≡ None }
        ensures causes { Causes OutsideErr.Failed result self.old.faults self.new.faults }
        ensures wants { self.new.wants ≡ self.old.wants }
    {
        if let Some(written) = self.written.take() {
            if name == written.name.as_str() {
                return Ok(written);
            }
            count_fault(sync_written(&written.file), &mut self.faults)?;
        }
        let opened = self.opened_to_write(name, true)?;
        Ok(opened)
    }

    /// The file under that name, opened to be written: at its end, or from its front on with
    /// nothing in it. A file that may not be written is a fault, and stays as it is.
    fn opened_to_write(
        &mut self,
        name: &str,
        at_end: bool,
    ) -> Result<NamedFile<R::File>, OutsideErr>
        ensures name { IfOk result (HasName name.now) }
        ensures kept { self.new.written ≡ self.old.written }
        ensures causes { Causes OutsideErr.Failed result self.old.faults self.new.faults }
        ensures wants { self.new.wants ≡ self.old.wants }
    {
        let owned = String::from_str(self.alloc, name).map_err(NoMemory::from)?;
        let file = self.found_or_made(name, at_end)?;
        let metadata = count_fault(file.metadata(), &mut self.faults)?;
        count_fault(admit_to_write(Kind::of(&metadata)), &mut self.faults)?;
        self.admit(&metadata, name)?;
        self.note(&metadata, name)?;
        if metadata.is_file() && !at_end {
            count_fault(file.set_len(0), &mut self.faults)?;
        }
        Ok(NamedFile { name: owned, file })
    }

    /// The file under that name, opened to be written, which is made where nothing is there: where
    /// the name is a link to nothing, at the place that it leads to.
    fn found_or_made(&mut self, name: &str, at_end: bool) -> Result<R::File, OutsideErr>
        ensures kept { self.new.written ≡ self.old.written }
        ensures causes { Causes OutsideErr.Failed result self.old.faults self.new.faults }
        ensures wants { self.new.wants ≡ self.old.wants }
    {
        if let Some(file) = count_fault(open_to_write(self.rt, name, at_end), &mut self.faults)? {
            return Ok(file);
        }
        let path = end_of_links(self.rt, self.alloc, name)?;
        if self.store.awaits(path.as_str(), &mut self.faults)? {
            return refuse_write(&mut self.faults);
        }
        let file = count_fault(
            make_to_write(self.rt, path.as_str(), at_end),
            &mut self.faults,
        )?;
        Ok(file)
    }

    /// Refuses a file that may not be written.
    fn admit(&mut self, metadata: &Metadata, name: &str) -> Result<(), OutsideErr>
        ensures written { self.new.written ≡ self.old.written }
        ensures causes { Causes OutsideErr.Failed result self.old.faults self.new.faults }
        ensures wants { self.new.wants ≡ self.old.wants }
    {
        match FileId::of(metadata) {
            None => Ok(()),
            Some(id) => self.admit_id(id, name),
        }
    }

    /// Refuses a file of the store, and one that was opened by another name.
    fn admit_id(&mut self, id: FileId, name: &str) -> Result<(), OutsideErr>
        ensures one_name { OnOk result
            (is_named_otherwise self.old.opened.items id name.now ≡ false) }
        ensures written { self.new.written ≡ self.old.written }
        ensures causes { Causes OutsideErr.Failed result self.old.faults self.new.faults }
        ensures wants { self.new.wants ≡ self.old.wants }
    {
        if self.store.has(id, &mut self.faults)? || is_named_otherwise(&self.opened, id, name) {
            return refuse_write(&mut self.faults);
        }
        Ok(())
    }

    /// Creates the file under that name, which is the one that is written then. Refused, none is.
    fn begin(&mut self, name: &str) -> Result<(), OutsideErr>
        ensures begun { OnOk result (IsSomeAnd self.new.written (HasName name.now)) }
        ensures refused { OnErr result (self.new.written ≡ None) }
        ensures causes { Causes OutsideErr.Failed result self.old.faults self.new.faults }
        ensures wants { self.new.wants ≡ self.old.wants }
    {
        self.close(name);
        self.settle()?;
        let written = self.opened_to_write(name, false)?;
        self.written = Some(written);
        Ok(())
    }

    /// Adds the piece at the end of the file under that name, which is the one that is written
    /// then. Refused, none is.
    fn add(&mut self, name: &str, piece: &[u8]) -> Result<(), OutsideErr>
        ensures added { OnOk result (IsSomeAnd self.new.written (HasName name.now)) }
        ensures piece { IfSome self.old.written (λ old. HasName name.now old → OnOk result
            (IsSomeAnd self.new.written
            (λ new. Appends (R.File.contents old.file) (R.File.contents new.file) piece.now))) }
        ensures refused { OnErr result (self.new.written ≡ None) }
        ensures causes { Causes OutsideErr.Failed result self.old.faults self.new.faults }
        ensures wants { self.new.wants ≡ self.old.wants }
    {
        self.close(name);
        let mut written = self.writer(name)?;
        put_counted(&mut written.file, piece, &mut self.faults)?;
        self.written = Some(written);
        Ok(())
    }

    /// The same answer. Which file a fault is of is noted, and want of memory is counted.
    fn note_fault<T>(&mut self, name: &str, answer: Result<T, OutsideErr>) -> Result<T, OutsideErr>
        ensures same { result ≡ answer }
        ensures written { self.new.written ≡ self.old.written }
        ensures faults { self.new.faults ≡ self.old.faults }
        ensures wants { Causes OutsideErr.NoMemory result self.old.wants self.new.wants }
    {
        if matches!(answer, Err(OutsideErr::Failed)) && name.len() <= 400 {
            self.faulty = Some(ShortText::new().word(name));
        }
        with_want(answer, &mut self.wants)
    }

    /// The last fault, and the file that it is of. None where there was none, or its name is longer
    /// than any that a command takes.
    pub fn last_fault(&self) -> Option<NamedFault<'_>> {
        let name = self.faulty.as_ref()?;
        Some(NamedFault {
            name: name.as_bytes(),
            reason: self.faults.reason(),
        })
    }

    /// The length of the file under that name as a shelf tells it. That one was told is noted.
    fn tell_length(&mut self, name: &str) -> Result<Option<u64>, OutsideErr>
        ensures told { IfOk result
            (λ length. is_told self.new.told.items name.now ≡ is_some length) }
        ensures causes { Causes OutsideErr.Failed result self.old.faults self.new.faults }
        ensures wants { self.new.wants ≡ self.old.wants }
    {
        self.close(name);
        let length = count_fault(length_of(self.rt, name), &mut self.faults)?;
        tell(self.alloc, &mut self.told, name, length.is_some())?;
        Ok(length)
    }

    /// Reads from the file under that name as a shelf does.
    fn read_part(&mut self, name: &str, at: u64, into: &mut [u8]) -> Result<usize, OutsideErr>
        ensures bound { IfOk result (λ n. n ≤ length into.old) }
        ensures open { IfSome (position (is_kept_as name.now) self.old.kept.items)
            (λ place. AtPlace place (IsRead R.File.stream_position R.File.remaining at
            (length into.old) result into.new) self.old.kept.items self.new.kept.items) }
        ensures causes { Causes OutsideErr.Failed result self.old.faults self.new.faults }
        ensures wants { self.new.wants ≡ self.old.wants }
    {
        match self.open_named(name)? {
            None => Ok(0),
            Some(place) => {
                let count = self.kept[place].read(at, into, &mut self.faults)?;
                Ok(count)
            }
        }
    }
}

/// The place of the file that is kept open under that name, if there is one.
fn place_under<F>(kept: &[KeptFile<F>], name: &str) -> Option<usize>
    ensures { result ≡ position (is_kept_as name.now) kept.now }
{
    let place = kept
        .iter()
        .position(|file| file.named.name.as_str() == name);
    place
}

/// A file that may not be written is a fault.
fn refuse_write<T>(faults: &mut FaultCount) -> Result<T, OutsideErr>
    ensures fault { result ≡ Err OutsideErr.Failed }
    ensures causes { Causes OutsideErr.Failed result faults.old faults.new }
{
    count_fault(Err(io::Error::from(ErrorKind::PermissionDenied)), faults)
}

impl<R: Files> Shelf for FileShelf<'_, R> {
    ghost use Rattle.std.specs.Prelude.{None};

    ghost held = { λ _. None };

    ghost faults = { λ s. s.faults };

    ghost wants = { λ s. s.wants };

    ghost length_gives = { λ _ _ _ _. Unit {0} };

    fn length(&mut self, name: &str) -> Result<Option<u64>, OutsideErr> {
        let length = self.tell_length(name);
        self.note_fault(name, length)
    }

    fn read_at(&mut self, name: &str, at: u64, into: &mut [u8]) -> Result<usize, OutsideErr> {
        let answer = self.read_part(name, at, into);
        self.note_fault(name, answer)
    }

    fn create(&mut self, name: &str) -> Result<(), OutsideErr> {
        let answer = self.begin(name);
        self.note_fault(name, answer)
    }

    fn append(&mut self, name: &str, piece: &[u8]) -> Result<(), OutsideErr> {
        let answer = self.add(name, piece);
        self.note_fault(name, answer)
    }
}
