// An output in memory.
use crate::plan::{Call, Plan};
use std::alloc::Global;
use std::cell::RefCell;
use std::fmt::Display;
use std::io::{self, ErrorKind};

/// It keeps what it takes. Those of its calls go wrong that are planned to.
#[derive(Drop)]
pub struct Output<'a> {
    plan: &'a Plan,
    taken: RefCell<Vec<u8>>,
}

impl<'a> Output<'a> {
    /// It has taken nothing yet.
    pub fn new(alloc: Global, plan: &'a Plan) -> Output<'a> {
        Output {
            plan,
            taken: RefCell::new(Vec::new(alloc)),
        }
    }

    /// Puts what it took behind the text.
    pub fn push_taken(&self, told: &mut Vec<u8>) -> io::Result<()> {
        match self.taken.try_borrow() {
            Ok(taken) => told.extend_from_slice(taken.as_slice())?,
            Err(_) => return Err(io::Error::from(ErrorKind::ResourceBusy)),
        }
        Ok(())
    }
}

impl Print for Output<'_> {
    fn print<D: Display + Drop>(&self, _value: D) -> io::Result<()> {
        Err(io::Error::from(ErrorKind::Unsupported))
    }

    fn println<D: Display + Drop>(&self, _value: D) -> io::Result<()> {
        Err(io::Error::from(ErrorKind::Unsupported))
    }

    fn write_all(&self, _bytes: &[u8]) -> io::Result<()> {
        Err(io::Error::from(ErrorKind::Unsupported))
    }

    fn write_some(&self, bytes: &[u8]) -> io::Result<usize> {
        let count = self.plan.moved(Call::Print, bytes.len())?;
        match self.taken.try_borrow_mut() {
            Ok(mut taken) => taken.extend_from_slice(&bytes[..count])?,
            Err(_) => return Err(io::Error::from(ErrorKind::ResourceBusy)),
        }
        Ok(count)
    }
}
