//! What a board publishes, as a report that is made with its whole file read; and the sample of a
//! number.
#![tactic(auto)]

mod bits;
mod laws;
mod reading;
mod report;
mod sample;
mod shape;
mod writing;

pub use bits::leading_bits;
pub use laws::{
    a_file_is_refused_for_what_fails_first, a_file_is_reported_on_where_it_is_a_board,
    each_number_has_a_sample,
};
pub use reading::read_report;
pub use report::{Report, ReportErr};
pub use sample::{SampleCase, Sizes, case_of, digest_at, sample_case};
pub use shape::{row_count_of, wire_count_of};
pub use writing::{report_lines, report_text};
