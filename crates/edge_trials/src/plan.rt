// Which calls to the system go wrong, and how.
ghost use Rattle.std.specs.Prelude.{◌≤◌, IfOk};

use std::cell::Cell;
use std::io::{self, ErrorKind};
use vk_cases::{Tried, Unreplayed};

/// A kind of calls to the system.
#[derive(Clone, Copy, PartialEq, Eq)]
pub enum Call {
    Open,
    Look,
    Cut,
    Sync,
    Seek,
    Read,
    Write,
    Print,
}

impl Call {
    /// The kind of that name.
    pub fn of(word: &str) -> Tried<Call> {
        match word {
            "open" => Ok(Call::Open),
            "look" => Ok(Call::Look),
            "cut" => Ok(Call::Cut),
            "sync" => Ok(Call::Sync),
            "seek" => Ok(Call::Seek),
            "read" => Ok(Call::Read),
            "write" => Ok(Call::Write),
            "print" => Ok(Call::Print),
            _ => Err(Unreplayed::NoCase),
        }
    }
}

/// What a call that goes wrong does.
#[derive(Clone, Copy)]
pub enum Wrong {
    Fails(ErrorKind),
    MovesOne,
    MovesNone,
}

impl Wrong {
    /// What has that name.
    pub fn of(word: &str) -> Tried<Wrong> {
        match word {
            "one" => Ok(Wrong::MovesOne),
            "none" => Ok(Wrong::MovesNone),
            "fails" => Ok(Wrong::Fails(ErrorKind::Other)),
            "interrupted" => Ok(Wrong::Fails(ErrorKind::Interrupted)),
            "full" => Ok(Wrong::Fails(ErrorKind::StorageFull)),
            "quota" => Ok(Wrong::Fails(ErrorKind::QuotaExceeded)),
            "pipe" => Ok(Wrong::Fails(ErrorKind::BrokenPipe)),
            "large" => Ok(Wrong::Fails(ErrorKind::FileTooLarge)),
            "denied" => Ok(Wrong::Fails(ErrorKind::PermissionDenied)),
            "read-only" => Ok(Wrong::Fails(ErrorKind::ReadOnlyFilesystem)),
            "gone" => Ok(Wrong::Fails(ErrorKind::NotFound)),
            "invalid" => Ok(Wrong::Fails(ErrorKind::InvalidInput)),
            _ => Err(Unreplayed::NoCase),
        }
    }
}

/// The calls of a kind from one number to another, counted from 1 on, and what they do.
#[derive(Clone, Copy)]
pub struct Fault {
    pub call: Call,
    pub first: u64,
    pub last: u64,
    pub wrong: Wrong,
}

/// Which calls go wrong. All others do what they are to.
#[derive(Drop)]
pub struct Plan {
    fault: Cell<Option<Fault>>,
    made: Cell<u64>,
}

impl Plan {
    /// No call goes wrong.
    pub fn new() -> Plan {
        Plan {
            fault: Cell::new(None),
            made: Cell::new(0),
        }
    }

    /// These calls go wrong, counted from now on, and no others.
    pub fn set(&self, fault: Fault) {
        self.fault.set(Some(fault));
        self.made.set(0);
    }

    /// Whether all calls were made that go wrong.
    pub fn is_met(&self) -> bool {
        match self.fault.get() {
            Some(fault) => fault.last <= self.made.get(),
            None => false,
        }
    }

    /// What goes wrong at this call.
    fn next(&self, call: Call) -> Option<Wrong> {
        let fault = self.fault.get()?;
        if call != fault.call {
            return None;
        }
        let made = self.made.get().saturating_add(1);
        self.made.set(made);
        if fault.first <= made && made <= fault.last {
            Some(fault.wrong)
        } else {
            None
        }
    }

    /// Begins a call that moves no bytes.
    pub fn begin(&self, call: Call) -> io::Result<()> {
        match self.next(call) {
            None => Ok(()),
            Some(Wrong::Fails(kind)) => Err(io::Error::from(kind)),
            Some(_) => Err(io::Error::from(ErrorKind::Other)),
        }
    }

    /// How many of so many bytes a call moves.
    pub fn moved(&self, call: Call, most: usize) -> io::Result<usize>
        ensures { IfOk result (λ n. n ≤ most) }
    {
        match self.next(call) {
            None => Ok(most),
            Some(Wrong::Fails(kind)) => Err(io::Error::from(kind)),
            Some(Wrong::MovesOne) => Ok(most.min(1)),
            Some(Wrong::MovesNone) => Ok(0),
        }
    }
}
