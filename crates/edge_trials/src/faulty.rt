// The files of the system, of whose calls some go wrong.
use crate::plan::{Call, Plan};
use std::alloc::Allocator;
use std::fs::{FileTimes, Metadata, OpenFile, OpenOptions, Permissions};
use std::io::{self, ErrorKind, PipeReader, PipeWriter, Read, Seek, SeekFrom, Write};
use std::os::fd::BorrowedFd;
use std::os::unix::net::SocketAddr;
use std::path::PathBuf;
use std::rt::Files;

/// The files that `rt` reaches. Each call that a shelf makes is passed on to them, but those that
/// are planned to go wrong. What a shelf never calls isn't supported; the trait says so itself of
/// the last of these calls, but what an impl leaves to its trait is dearer to prove.
#[derive(Drop)]
pub struct Faulty<'a, R: Files> {
    pub rt: &'a R,
    pub plan: &'a Plan,
}

/// An open file of theirs.
#[derive(Drop)]
pub struct FaultyFile<'a, F> {
    file: F,
    plan: &'a Plan,
}

impl<F: Read> Read for FaultyFile<'_, F> {
    fn read(&mut self, buf: &mut [u8]) -> io::Result<usize> {
        let count = self.plan.moved(Call::Read, buf.len())?;
        let (front, _) = buf.split_at_mut(count);
        let count = self.file.read(front)?;
        Ok(count)
    }
}

impl<F: Write> Write for FaultyFile<'_, F> {
    fn write(&mut self, buf: &[u8]) -> io::Result<usize> {
        let count = self.plan.moved(Call::Write, buf.len())?;
        let count = self.file.write(&buf[..count])?;
        Ok(count)
    }

    fn flush(&mut self) -> io::Result<()> {
        Ok(())
    }
}

impl<F: Seek> Seek for FaultyFile<'_, F> {
    fn seek(&mut self, to: SeekFrom) -> io::Result<u64> {
        self.plan.begin(Call::Seek)?;
        let place = self.file.seek(to)?;
        Ok(place)
    }
}

impl<F: OpenFile> OpenFile for FaultyFile<'_, F> {
    fn metadata(&self) -> io::Result<Metadata> {
        self.plan.begin(Call::Look)?;
        self.file.metadata()
    }

    fn set_len(&self, size: u64) -> io::Result<()> {
        self.plan.begin(Call::Cut)?;
        self.file.set_len(size)
    }

    fn sync_all(&self) -> io::Result<()> {
        self.plan.begin(Call::Sync)?;
        self.file.sync_all()
    }

    fn sync_data(&self) -> io::Result<()> {
        self.plan.begin(Call::Sync)?;
        self.file.sync_data()
    }

    fn set_permissions(&self, _perm: Permissions) -> io::Result<()> {
        Err(io::Error::from(ErrorKind::Unsupported))
    }

    fn set_times(&self, _times: FileTimes) -> io::Result<()> {
        Err(io::Error::from(ErrorKind::Unsupported))
    }

    fn try_clone(&self) -> io::Result<Self> {
        Err(io::Error::from(ErrorKind::Unsupported))
    }
}

impl<'a, R: Files> Files for Faulty<'a, R> {
    type File = FaultyFile<'a, R::File>;

    type Dir = R::Dir;

    fn open_file(&self, how: &OpenOptions, path: &str) -> io::Result<FaultyFile<'a, R::File>> {
        self.plan.begin(Call::Open)?;
        let file = self.rt.open_file(how, path)?;
        Ok(FaultyFile {
            file,
            plan: self.plan,
        })
    }

    fn open_dir(&self, _path: &str) -> io::Result<R::Dir> {
        Err(io::Error::from(ErrorKind::Unsupported))
    }

    fn metadata(&self, path: &str) -> io::Result<Metadata> {
        self.plan.begin(Call::Look)?;
        self.rt.metadata(path)
    }

    fn symlink_metadata(&self, _path: &str) -> io::Result<Metadata> {
        Err(io::Error::from(ErrorKind::Unsupported))
    }

    fn copy(&self, _from: &str, _to: &str) -> io::Result<u64> {
        Err(io::Error::from(ErrorKind::Unsupported))
    }

    fn rename(&self, _from: &str, _to: &str) -> io::Result<()> {
        Err(io::Error::from(ErrorKind::Unsupported))
    }

    fn remove_file(&self, _path: &str) -> io::Result<()> {
        Err(io::Error::from(ErrorKind::Unsupported))
    }

    fn create_dir(&self, _path: &str) -> io::Result<()> {
        Err(io::Error::from(ErrorKind::Unsupported))
    }

    fn remove_dir(&self, _path: &str) -> io::Result<()> {
        Err(io::Error::from(ErrorKind::Unsupported))
    }

    fn remove_dir_all<B: Allocator>(&self, _alloc: B, _path: &str) -> io::Result<()> {
        Err(io::Error::from(ErrorKind::Unsupported))
    }

    fn canonicalize<B: Allocator>(&self, alloc: B, path: &str) -> io::Result<PathBuf<B>> {
        self.plan.begin(Call::Look)?;
        self.rt.canonicalize(alloc, path)
    }

    fn read_link<B: Allocator>(&self, alloc: B, path: &str) -> io::Result<PathBuf<B>> {
        self.rt.read_link(alloc, path)
    }

    fn hard_link(&self, _original: &str, _link: &str) -> io::Result<()> {
        Err(io::Error::from(ErrorKind::Unsupported))
    }

    fn set_permissions(&self, _path: &str, _perm: Permissions) -> io::Result<()> {
        Err(io::Error::from(ErrorKind::Unsupported))
    }

    fn symlink(&self, _original: &str, _link: &str) -> io::Result<()> {
        Err(io::Error::from(ErrorKind::Unsupported))
    }

    fn pipe(&self) -> io::Result<(PipeReader, PipeWriter)> {
        Err(io::Error::from(ErrorKind::Unsupported))
    }

    fn chown(&self, _path: &str, _uid: Option<u32>, _gid: Option<u32>) -> io::Result<()> {
        Err(io::Error::from(ErrorKind::Unsupported))
    }

    fn lchown(&self, _path: &str, _uid: Option<u32>, _gid: Option<u32>) -> io::Result<()> {
        Err(io::Error::from(ErrorKind::Unsupported))
    }

    fn create_dir_with_mode(&self, _path: &str, _mode: u32) -> io::Result<()> {
        Err(io::Error::from(ErrorKind::Unsupported))
    }

    fn bind_unix(&self, _socket: BorrowedFd<'_>, _addr: &SocketAddr) -> io::Result<()> {
        Err(io::Error::from(ErrorKind::Unsupported))
    }
}
