ghost use Rattle.std.specs.Prelude.{◌≡◌};

use crate::faults::FaultCount;
use crate::outlet::{Outlet, put_counted};
use std::io;
use vk_io::{OutsideErr, Sink};

/// Standard output. What it took isn't modelled, and each error raises its count. It takes no
/// memory.
#[derive(Drop)]
pub struct OutSink<'a, P: Print> {
    to: &'a P,
    faults: FaultCount,
}

impl<'a, P: Print> OutSink<'a, P> {
    /// The standard output that `rt` reaches, with no faults yet. It takes no memory and is never
    /// refused.
    pub fn new(rt: &'a P) -> OutSink<'a, P>
        ensures { result.faults ≡ 0 }
    {
        OutSink {
            to: rt,
            faults: FaultCount::new(),
        }
    }

    /// What the last error was, for a person.
    pub fn reason(&self) -> &'static str {
        self.faults.reason()
    }
}

/// Standard output as an outlet, each of whose calls is one of the system.
#[derive(Drop)]
struct Printed<'a, P: Print> {
    to: &'a P,
}

impl<P: Print> Outlet for Printed<'_, P> {
    ghost use Rattle.std.specs.Prelude.{None};

    ghost taken = { λ _. None };

    fn take_some(&mut self, piece: &[u8]) -> io::Result<usize> {
        self.to.write_some(piece)
    }
}

impl<P: Print> Sink for OutSink<'_, P> {
    ghost use Rattle.std.specs.Prelude.{None};

    ghost taken = { λ _. None };

    ghost faults = { λ s. s.faults };

    ghost wants = { λ _. 0 };

    fn put(&mut self, piece: &[u8]) -> Result<(), OutsideErr> {
        put_counted(&mut Printed { to: self.to }, piece, &mut self.faults)?;
        Ok(())
    }
}
