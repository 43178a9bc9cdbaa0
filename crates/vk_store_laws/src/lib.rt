//! What a store holds: laws on the statements of the SQLite keeper, whose texts are computed here.
//! Over a disk that returned what was written, a store answers and keeps as a ledger does.
#![tactic(auto)]

mod laws;

pub use laws::{
    a_crash_leaves_the_ledger_of_before_or_after, a_new_store_tells_no_auction,
    a_sound_store_is_refused_by_its_connection_alone, a_store_from_before_tells_its_ledger_lifted,
    a_store_tells_the_ledger_of_its_calls, a_store_that_is_opened_again_tells_its_ledger,
    all_answers_from_a_store_are_one, an_empty_store_tells_no_auction,
    the_rows_show_what_the_ledger_has, what_is_answered_is_found_for_ever,
    what_is_answered_is_what_the_ledger_has, what_is_kept_is_in_the_ledger,
    what_stands_under_an_id_is_one_auction,
};
