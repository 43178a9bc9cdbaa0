//! Replays what is done to auctions in SQLite stores in memory: closed and opened again between all
//! commands, changed by statements, made by other programs, and stopped at each call of their
//! files. Of each case it prints what came.
#![tactic(auto)]

use std::alloc::Global;
use std::process::ExitCode;
use vk_cases::{Form, Tried, replay_forms};
use vk_io::Shelf;
use vk_store_cases::{change_text, file_text, house_text, stop_text};

/// What a file of cases has, one case a line.
enum Cases {
    /// `COMMAND | COMMAND ..`, over a store that is closed and opened again between all of them.
    /// Among them `seals COUNT`, and `run STATEMENT; ..`, which change the store.
    Houses,
    /// `STATEMENT; ..`, which change a store of an auction that was answered. Then it is opened and
    /// the auction found, kept anew, and found again.
    Changes,
    /// `NAME`, a store that SQLite itself made, of version 1 but for `second`, which is opened and
    /// used likewise. The name says what was done to it, or how it was set; `no_keys` has a table
    /// that was made by `CREATE TABLE .. AS SELECT`, and `added` a column more.
    Files,
    /// `COMMANDS | STATEMENTS | COMMAND`, the last of which is stopped at each call of the log, and
    /// at each of the store itself, of the store that the first made and the statements changed.
    /// Once it is opened again the auction is as before it or as after it, as after it where it was
    /// done, and as after it once it was done again.
    Stops,
}

impl Form for Cases {
    fn file(&self) -> &'static str {
        match self {
            Cases::Houses => "houses",
            Cases::Changes => "changes",
            Cases::Files => "files",
            Cases::Stops => "stops",
        }
    }

    fn text<S: Shelf>(&self, alloc: Global, shelf: &mut S, case: &[u8]) -> Tried<Vec<u8>> {
        match self {
            Cases::Houses => house_text(alloc, case),
            Cases::Changes => change_text(alloc, case),
            Cases::Files => file_text(alloc, shelf, case),
            Cases::Stops => stop_text(alloc, case),
        }
    }
}

fn main(rt: HostRuntime) -> ExitCode {
    replay_forms(
        &rt,
        &[Cases::Houses, Cases::Changes, Cases::Files, Cases::Stops],
    )
}
