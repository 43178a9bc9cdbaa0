//! Files as lines, and the tokens of a line: fields, canonical decimals and lower-case hexadecimal.
#![tactic(auto)]

mod buffer;
mod cutting;
mod digests;
mod digits;
mod errors;
mod lines;
mod many;
mod step;
mod tokens;
mod writing;

pub use cutting::{
    behind_word, field, fields, next_field, one_field, read_word, three_fields, two_fields,
};
pub use digests::{DigestsLine, push_digests_lines};
pub use digits::{push_hex, read_hex16, read_hex32};
pub use errors::{ReadErr, StartErr};
pub use lines::Lines;
pub use many::{LineKind, read_item, read_many};
pub use step::Step;
pub use tokens::{
    last_hex32, last_residue, next_hex32, push_decimal, read_decimal, read_digests, read_id,
    read_number, read_residue,
};
pub use writing::{
    end_line, push_digests_line, push_hex_line, push_line, push_number_line, push_space,
};
