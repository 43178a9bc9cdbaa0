ghost use Rattle.std.specs.Prelude.{◌≡◌};
ghost use Rattle.vk_io.specs.Faults.{Causes};

use crate::faults::FaultCount;
use crate::file_id::{FileId, are_same};
use crate::opening::{id_at, none_where_absent};
use crate::outcome::count_fault;
use crate::store_names::{folder_of, shares_store_name, store_files};
use std::alloc::Global;
use std::io::ErrorKind;
use std::rt::Files;
use vk_io::OutsideErr;
use vk_residue::NoMemory;

/// The files of a store of SQLite, which nothing else may write. They are beside the path that the
/// store was given by, and beside the path that it leads to where that is a link.
#[derive(Drop)]
pub struct Store<'a, R: Files> {
    rt: &'a R,
    alloc: Global,
    path: &'a str,
}

impl<'a, R: Files> Store<'a, R> {
    /// The store at that path.
    pub fn at(rt: &'a R, alloc: Global, path: &'a str) -> Store<'a, R> {
        Store { rt, alloc, path }
    }
}

impl<R: Files> Store<'_, R> {
    /// Whether that file is one of the store's.
    pub fn has(&self, id: FileId, faults: &mut FaultCount) -> Result<bool, OutsideErr>
        ensures causes { Causes OutsideErr.Failed result faults.old faults.new }
    {
        let mut ids = Vec::new(self.alloc);
        self.push_ids(self.path, &mut ids, faults)?;
        if let Some(real) = self.real_path(faults)? {
            self.push_ids(real.as_str(), &mut ids, faults)?;
        }
        Ok(id.is_one_of(ids.as_slice()))
    }

    /// Whether a file that was made at that path would be one of the store's, where nothing is
    /// there.
    pub fn awaits(&self, path: &str, faults: &mut FaultCount) -> Result<bool, OutsideErr>
        ensures causes { Causes OutsideErr.Failed result faults.old faults.new }
    {
        if self.awaits_beside(self.path, path, faults)? {
            return Ok(true);
        }
        let Some(real) = self.real_path(faults)? else {
            return Ok(false);
        };
        let awaits = self.awaits_beside(real.as_str(), path, faults)?;
        Ok(awaits)
    }

    /// Puts behind the others which files those of a store at that path are, as far as they are
    /// there.
    fn push_ids(
        &self,
        store: &str,
        ids: &mut Vec<FileId>,
        faults: &mut FaultCount,
    ) -> Result<(), OutsideErr>
        ensures causes { Causes OutsideErr.Failed result faults.old faults.new }
    {
        let paths = store_files(self.alloc, store)?;
        for path in &paths {
            if let Some(id) = count_fault(id_at(self.rt, path.as_str()), faults)? {
                ids.push(id).map_err(NoMemory::from)?;
            }
        }
        Ok(())
    }

    /// Whether a file that was made at that path would be one of a store's at the other.
    fn awaits_beside(
        &self,
        store: &str,
        path: &str,
        faults: &mut FaultCount,
    ) -> Result<bool, OutsideErr>
        ensures causes { Causes OutsideErr.Failed result faults.old faults.new }
    {
        if !shares_store_name(path, store) {
            return Ok(false);
        }
        let folder = count_fault(id_at(self.rt, folder_of(path)), faults)?;
        let home = count_fault(id_at(self.rt, folder_of(store)), faults)?;
        Ok(are_same(folder, home))
    }

    /// The path of the store with no link in it. None where nothing is there.
    fn real_path(&self, faults: &mut FaultCount) -> Result<Option<String>, OutsideErr>
        ensures causes { Causes OutsideErr.Failed result faults.old faults.new }
    {
        match none_where_absent(self.rt.canonicalize(self.alloc, self.path)) {
            Ok(Some(path)) => Ok(Some(path.into_string())),
            Ok(None) => Ok(None),
            Err(error) if error.kind() == ErrorKind::OutOfMemory => Err(OutsideErr::NoMemory),
            Err(error) => count_fault(Err(error), faults),
        }
    }
}
