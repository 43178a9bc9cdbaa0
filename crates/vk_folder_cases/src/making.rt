// Steps that make files, folders and links, beside the program.
ghost use Rattle.std.specs.Prelude.{◌≤◌};

use std::fs::{self, Permissions};
use std::io::{self, ErrorKind};
use std::os::unix::fs::{PermissionsExt, symlink};
use std::rt::Files;
use vk_lines::read_decimal;

/// Makes what a step says under that name, or takes it away:
///
/// - `file NAME TEXT`: a file with that text, which may be empty.
/// - `challenge NAME BITS`: a file with the challenge of these bits.
/// - `script NAME LINE`: a script of that line.
/// - `mode NAME DIGITS`: who may use the file, as three octal digits.
/// - `link NAME TARGET`, `hard NAME FILE`: a link to the target, and a second name of the file.
/// - `folder NAME`; `remove NAME`: the file is taken away; `clear NAME`: the same, if it is there.
pub fn make(rt: &HostRuntime, word: &str, name: &str, rest: &str) -> io::Result<()> {
    match word {
        "file" => fs::write(rt, name, rest),
        "challenge" => put_challenge(rt, name, rest),
        "script" => put_script(rt, name, rest),
        "mode" => set_mode(rt, name, rest),
        "link" => symlink(rt, rest, name),
        "hard" => rt.hard_link(rest, name),
        "folder" => fs::create_dir(rt, name),
        "remove" => fs::remove_file(rt, name),
        "clear" => clear(rt, name),
        _ => Err(io::Error::from(ErrorKind::InvalidInput)),
    }
}

/// Takes the file away, if it is there.
fn clear(rt: &HostRuntime, name: &str) -> io::Result<()> {
    let _ = fs::remove_file(rt, name);
    Ok(())
}

fn put_challenge(rt: &HostRuntime, name: &str, bits: &str) -> io::Result<()> {
    let text = format!(in rt.alloc(); "vickrey-challenge 1\nbits {bits}\nend\n")?;
    fs::write(rt, name, text.as_str())
}

fn put_script(rt: &HostRuntime, name: &str, line: &str) -> io::Result<()> {
    let text = format!(in rt.alloc(); "vickrey-script 1\n{line}\nend\n")?;
    fs::write(rt, name, text.as_str())
}

/// Sets who may use the file.
fn set_mode(rt: &HostRuntime, name: &str, digits: &str) -> io::Result<()> {
    match read_decimal(digits.as_bytes(), 777) {
        Some(digits) => fs::set_permissions(rt, name, Permissions::from_mode(mode_of(digits))),
        None => Err(io::Error::from(ErrorKind::InvalidInput)),
    }
}

/// The mode of three octal digits.
fn mode_of(digits: u64) -> u32
    requires { digits ≤ 777 }
{
    (digits / 100 * 64 + digits / 10 % 10 * 8 + digits % 10) as u32
}
