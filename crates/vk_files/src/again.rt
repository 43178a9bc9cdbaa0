//! Calls of the system that are made again where a signal interrupts them.

/// Returns what the call answers from the function that it stands in, once no signal interrupts it.
/// It is a macro, since the call changes what its function borrows, and the function's clauses say
/// how.
macro_rules! again {
    ($call:expr) => {{
        for _turn in 0..u64::MAX {
            match $call {
                Ok(value) => return Ok(value),
                Err(error) => {
                    if error.kind() != std::io::ErrorKind::Interrupted {
                        return Err(error);
                    }
                }
            }
        }
        Err(std::io::Error::from(std::io::ErrorKind::TimedOut))
    }};
}

pub(crate) use again;
