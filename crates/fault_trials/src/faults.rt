// A fault at each call that a command makes: at the call it is told, and the same words then do the
// whole command.
use crate::commands::{COMMANDS, Command, OTHER_KEPT, command_at};
use crate::stops::Worlds;
use crate::world::Outside;
use vk_cases::{Text, Tried};
use vk_io::Shelf;

/// More calls than a command makes.
const MOST_CALLS: u64 = 100;

/// A call of what is outside, by its number, from 1.
#[derive(Clone, Copy)]
struct Call {
    outside: Outside,
    number: u64,
}

/// What became of a command of which one call was to fail.
#[derive(Clone, Copy)]
enum Fault {
    /// The status was 6, and the command was stopped. The same words again did the whole command.
    Told,
    /// The command was done whole before that call was made. It was the first of the next run.
    Unmet,
    /// Neither of these.
    Untold,
}

/// Tells of each command whether each of its faults is told.
pub fn try_faults<S: Shelf>(shelf: &mut S, worlds: &mut Worlds, text: &mut Text) -> Tried<()> {
    for place in 0..COMMANDS {
        if let Some(command) = command_at(place) {
            push_faults(shelf, worlds, text, &command)?;
        }
    }
    Ok(())
}

/// The line of a command.
fn push_faults<S: Shelf>(
    shelf: &mut S,
    worlds: &mut Worlds,
    text: &mut Text,
    command: &Command,
) -> Tried<()> {
    text.put(b"faults of ");
    text.put(command.name.as_bytes());
    worlds.begin(shelf, command)?;
    match first_untold(shelf, worlds, command)? {
        None => text.put_line(b": every call told"),
        Some(call) => push_untold(text, call),
    }
    Ok(())
}

/// The call whose fault was not told.
fn push_untold(text: &mut Text, call: Call) {
    text.put(b": untold at ");
    text.put(word_of(call.outside));
    text.put_count(b" call ", call.number);
}

fn word_of(outside: Outside) -> &'static [u8] {
    match outside {
        Outside::Shelf => b"shelf",
        Outside::Keeper => b"keeper",
        Outside::Sink => b"sink",
    }
}

/// The first call whose fault isn't told.
fn first_untold<S: Shelf>(
    shelf: &mut S,
    worlds: &mut Worlds,
    command: &Command,
) -> Tried<Option<Call>> {
    for outside in command.outsides {
        if let Some(number) = first_untold_of(shelf, worlds, command, *outside)? {
            return Ok(Some(Call {
                outside: *outside,
                number,
            }));
        }
    }
    Ok(None)
}

/// The first call of that whose fault isn't told, up to the last call that the command makes. It
/// makes one at least.
fn first_untold_of<S: Shelf>(
    shelf: &mut S,
    worlds: &mut Worlds,
    command: &Command,
    outside: Outside,
) -> Tried<Option<u64>> {
    for call in 1..=MOST_CALLS {
        worlds.now.begin(shelf, command.given, command.before)?;
        match fault_at(worlds, command, outside, call)? {
            Fault::Told => {}
            Fault::Unmet if 1 < call => return Ok(None),
            Fault::Unmet | Fault::Untold => return Ok(Some(call)),
        }
    }
    Ok(Some(MOST_CALLS))
}

/// What becomes of the command where the call of that number fails, in a world where no call has
/// failed yet.
fn fault_at(worlds: &mut Worlds, command: &Command, outside: Outside, call: u64) -> Tried<Fault> {
    worlds.now.fail_at(outside, call)?;
    worlds.now.run(command.line)?;
    let (told, fault) = if worlds.now.said(0, command.whole.as_bytes()) {
        (is_met_next(worlds, command)?, Fault::Unmet)
    } else {
        (is_told(worlds, command, outside)?, Fault::Told)
    };
    Ok(if told { fault } else { Fault::Untold })
}

/// Whether the same words meet the fault at their first call, after the whole command was done.
fn is_met_next(worlds: &mut Worlds, command: &Command) -> Tried<bool> {
    worlds.now.run(command.line)?;
    worlds.now.look()?;
    Ok(worlds.now.said(6, b"") && worlds.is_done(command))
}

/// Whether the command was stopped for a fault of this, and the same words then do it whole.
fn is_told(worlds: &mut Worlds, command: &Command, outside: Outside) -> Tried<bool> {
    worlds.now.look()?;
    let stopped = worlds.now.status == 6
        && may_print(command, outside, worlds.now.text())
        && worlds.is_stopped(command);
    if !stopped || !is_refused_once_kept(worlds, command)? {
        return Ok(false);
    }
    worlds.now.run(command.line)?;
    worlds.now.look()?;
    Ok(worlds.now.said(0, command.whole.as_bytes()) && worlds.is_done(command))
}

/// Whether this may have been printed where a call of that failed. Only a sink's fault comes behind
/// printed text.
fn may_print(command: &Command, outside: Outside, text: &[u8]) -> bool {
    match outside {
        Outside::Shelf | Outside::Keeper => text.is_empty(),
        Outside::Sink => text.len() < command.whole.len(),
    }
}

/// Whether what is refused once the auction is kept as the command leaves it is refused, where it
/// is kept so.
fn is_refused_once_kept(worlds: &mut Worlds, command: &Command) -> Tried<bool> {
    let Some(line) = command.refused else {
        return Ok(true);
    };
    worlds.now.look()?;
    if !worlds.keeps() {
        return Ok(true);
    }
    worlds.now.run(line)?;
    Ok(worlds.now.said(8, OTHER_KEPT.as_bytes()))
}
