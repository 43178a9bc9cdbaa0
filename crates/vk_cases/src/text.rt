// What comes of a case, as it is written.
use crate::unreplayed::{Tried, Unreplayed};
use std::alloc::Global;
use vk_io::Sink;
use vk_lines::{push_decimal, push_hex};

/// Bytes that are appended to, and whether there was memory for all of them, which is answered once
/// they are read. So what writes has no way out for each piece, which takes seconds to prove.
#[derive(Drop)]
pub struct Text {
    bytes: Vec<u8>,
    is_whole: bool,
}

impl Text {
    /// Nothing yet.
    pub fn new(alloc: Global) -> Text {
        Text {
            bytes: Vec::new(alloc),
            is_whole: true,
        }
    }

    /// Begins anew.
    pub fn clear(&mut self) {
        self.bytes.clear();
    }

    /// Appends the bytes.
    pub fn put(&mut self, bytes: &[u8]) {
        if self.bytes.extend_from_slice(bytes).is_err() {
            self.is_whole = false;
        }
    }

    /// Appends the bytes as a line.
    pub fn put_line(&mut self, bytes: &[u8]) {
        self.put(bytes);
        self.put(b"\n");
    }

    /// Appends a mark, and the number behind it.
    pub fn put_number(&mut self, mark: &[u8], number: u64) {
        self.put(mark);
        if push_decimal(&mut self.bytes, number).is_err() {
            self.is_whole = false;
        }
    }

    /// Appends a mark and the number behind it as a line.
    pub fn put_count(&mut self, mark: &[u8], number: u64) {
        self.put_number(mark, number);
        self.put(b"\n");
    }

    /// Appends a mark, and behind it the bytes as lower-case hexadecimal.
    pub fn put_hex(&mut self, mark: &[u8], bytes: &[u8]) {
        self.put(mark);
        if push_hex(&mut self.bytes, bytes).is_err() {
            self.is_whole = false;
        }
    }

    /// Appends a mark, and the bits behind it.
    pub fn put_bits(&mut self, mark: &[u8], bits: &[bool]) {
        self.put(mark);
        for bit in bits {
            self.put(if *bit { b"1" } else { b"0" });
        }
    }

    /// How many bytes are written.
    pub fn len(&self) -> usize {
        self.bytes.len()
    }

    /// The bytes that are written, where there was memory for all.
    pub fn bytes(&self) -> Tried<&[u8]> {
        if self.is_whole {
            Ok(self.bytes.as_slice())
        } else {
            Err(Unreplayed::NoMemory)
        }
    }

    /// The same, owned.
    pub fn into_bytes(self) -> Tried<Vec<u8>> {
        let Text { bytes, is_whole } = self;
        if is_whole {
            Ok(bytes)
        } else {
            Err(Unreplayed::NoMemory)
        }
    }

    /// Prints them.
    pub fn print<W: Sink>(&self, out: &mut W) -> Tried<()> {
        out.put(self.bytes()?)?;
        Ok(())
    }
}
