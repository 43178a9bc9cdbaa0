// How many of each were tried.
use std::alloc::Global;
use vk_cases::{Text, Tried};

/// How many of a name.
#[derive(Drop)]
struct Count {
    name: Vec<u8>,
    number: u64,
}

/// How many of each name there are, in the order of the first of each.
#[derive(Drop)]
pub struct Counts {
    counts: Vec<Count>,
    alloc: Global,
}

impl Counts {
    /// None of any name.
    pub fn new(alloc: Global) -> Counts {
        Counts {
            counts: Vec::new(alloc),
            alloc,
        }
    }

    /// One more of that name.
    pub fn add(&mut self, name: &[u8]) -> Tried<()> {
        if self.add_known(name) {
            return Ok(());
        }
        let name = Vec::from_slice(self.alloc, name)?;
        self.counts.push(Count { name, number: 1 })?;
        Ok(())
    }

    /// One more of that name, where there is one.
    fn add_known(&mut self, name: &[u8]) -> bool {
        for count in self.counts.iter_mut() {
            if count.name.as_slice() == name {
                count.number = count.number.saturating_add(1);
                return true;
            }
        }
        false
    }

    /// A line for each: the name, and how many there are.
    pub fn push(&self, text: &mut Text) {
        for count in &self.counts {
            text.put(count.name.as_slice());
            text.put_count(b" ", count.number);
        }
    }
}
