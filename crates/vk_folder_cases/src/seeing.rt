// What a person sees of a file.
use std::fs;
use std::os::unix::fs::PermissionsExt;
use vk_cases::{Tried, tell_text};
use vk_lines::push_decimal;

/// Of more bytes than these it isn't told how many they are.
const MOST_TOLD: u64 = 9;

/// Tells who may use the file, as three octal digits, and how many bytes it has.
pub fn see(rt: &HostRuntime, name: &str, told: &mut Vec<u8>) -> Tried<()> {
    match fs::metadata(rt, name) {
        Ok(metadata) => tell(metadata.permissions().mode(), metadata.len(), told),
        Err(_) => tell_text(told, "nothing"),
    }
}

fn tell(mode: u32, length: u64, told: &mut Vec<u8>) -> Tried<()> {
    let digits = mode / 64 % 8 * 100 + mode / 8 % 8 * 10 + mode % 8;
    push_decimal(told, u64::from(digits))?;
    if length > MOST_TOLD {
        return tell_text(told, ", more bytes");
    }
    tell_text(told, ", ")?;
    push_decimal(told, length)?;
    tell_text(told, " bytes")
}
