//! Bytes of a file that were read ahead, so that one call of the system serves many readings.

ghost use Rattle.std.specs.Prelude.{◌≡◌, ◌<◌, ◌≤◌, Ok, [], length, take, IfOk, OnOk, OnErr};
ghost use Rattle.vk_files.specs.Ahead.{Holds, held_from, part_held};
ghost use Rattle.vk_files.specs.Counting.{CountsOnce};
ghost use Rattle.vk_files.specs.Moves.{GivesFrom};

use crate::faults::FaultCount;
use crate::moves::read_from;
use crate::outcome::count_fault;
use std::alloc::Global;
use std::io::{Read, Seek};
use std::marker::Model;
use vk_io::OutsideErr;
use vk_residue::NoMemory;

/// How many bytes are read at once.
const MOST_AHEAD: usize = 65536;

/// The bytes that a file gave when it was last read, and the place of the first of them.
#[derive(Drop)]
pub struct Ahead {
    bytes: Vec<u8>,
    count: usize,
    from: u64,
}

impl Model for Ahead {
    ghost use Rattle.std.specs.Prelude.{◌≡◌, ◌≤◌, length, take};
    ghost use Rattle.vk_files.specs.Ahead.{AheadValue};

    ghost Value = { AheadValue };

    ghost view = { λ a. record {
      from = a.from;
      held = take a.count a.bytes.items;
    } };

    ghost invariant = { λ a. record {
      room : length a.bytes.items ≡ 65536;
      within : a.count ≤ 65536;
    } };
}

impl Ahead {
    /// None yet. All memory is taken here.
    pub fn new(alloc: Global) -> Result<Ahead, NoMemory>
        ensures { IfOk result (λ ahead. ahead.held ≡ []) }
    {
        let bytes = vec![in alloc; 0; MOST_AHEAD]?;
        Ok(Ahead {
            bytes,
            count: 0,
            from: 0,
        })
    }

    /// What is held of the file from that place on.
    fn from_place(&self, at: u64) -> &[u8]
        ensures bytes { result.now ≡ held_from self.now at }
        ensures few { length result.now ≤ 65536 }
    {
        let held = &self.bytes.as_slice()[..self.count];
        match at.checked_sub(self.from) {
            Some(before) if before < held.len() as u64 => &held[before as usize..],
            _ => &[],
        }
    }

    /// Puts what is held from that place on into `into`, as far as there is room, and answers how
    /// many bytes that are.
    fn copy(&self, at: u64, into: &mut [u8]) -> usize
        ensures bytes { take result into.new ≡ part_held self.now at (length into.old) }
        ensures count { result ≡ length (part_held self.now at (length into.old)) }
        ensures bound { result ≤ length into.old }
    {
        let held = self.from_place(at);
        let count = held.len().min(into.len());
        into[..count].copy_from_slice(&held[..count]);
        count
    }

    /// Holds what the file gives from that place on in the place of what was held. An error is
    /// counted, once, and then nothing is held.
    fn fill<F: Read + Seek>(
        &mut self,
        file: &mut F,
        at: u64,
        faults: &mut FaultCount,
    ) -> Result<(), OutsideErr>
        ensures from { OnOk result (self.new.from ≡ at) }
        ensures bytes { OnOk result
            (GivesFrom F.stream_position F.remaining at 65536 self.new.held file.old file.new) }
        ensures none { OnErr result (self.new.held ≡ []) }
        ensures counted { CountsOnce result faults.old faults.new }
    {
        self.count = 0;
        self.from = at;
        let count = count_fault(read_from(file, at, &mut self.bytes), faults)?;
        self.count = count;
        Ok(())
    }

    /// Fills `into` with the bytes of the file from `at` on, as far as it gives any, and answers
    /// how many bytes that are: those that are held, where they fill it; else those that a reading
    /// gives, which are held then. More than is read ahead is read by itself. An error is counted,
    /// once, and after one nothing is held, unless so much was asked for.
    pub fn read<F: Read + Seek>(
        &mut self,
        file: &mut F,
        at: u64,
        into: &mut [u8],
        faults: &mut FaultCount,
    ) -> Result<usize, OutsideErr>
        ensures bound { IfOk result (λ n. n ≤ length into.old) }
        ensures held { Holds self.old at (length into.old) → length into.old ≤ 65536
            → (result ≡ Ok (length into.old)) × (self.new ≡ self.old) × (file.new ≡ file.old) }
        ensures anew { OnOk result (length into.old ≤ 65536
            → (Holds self.old at (length into.old) → ⊥)
            → (self.new.from ≡ at) × GivesFrom F.stream_position F.remaining at 65536 self.new.held
            file.old file.new) }
        ensures bytes { IfOk result (λ n. length into.old ≤ 65536
            → take n into.new ≡ part_held self.new at (length into.old)) }
        ensures count { IfOk result (λ n. length into.old ≤ 65536
            → n ≡ length (part_held self.new at (length into.old))) }
        ensures large { IfOk result (λ n. 65536 < length into.old → (self.new ≡ self.old)
            × GivesFrom F.stream_position F.remaining at (length into.old) (take n into.new)
            file.old file.new) }
        ensures refused { OnErr result
            (length into.old ≤ 65536 → self.new.held ≡ []) }
        ensures counted { CountsOnce result faults.old faults.new }
    {
        if into.len() > MOST_AHEAD {
            let count = count_fault(read_from(file, at, into), faults)?;
            return Ok(count);
        }
        let count = self.copy(at, into);
        if count == into.len() {
            return Ok(count);
        }
        self.fill(file, at, faults)?;
        let count = self.copy(at, into);
        Ok(count)
    }
}
