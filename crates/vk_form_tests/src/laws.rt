//! What holds of all sum files, and of all others.

ghost use Rattle.std.specs.Prelude.{◌≡◌, ℕ, List};
ghost use Rattle.std.specs.Result.{result_err};
ghost use Rattle.vk_lines.specs.Forms.{FaultsAllButTexts, IsPart, IsWhole, fault_line, whole};
ghost use Rattle.vk_form_tests.specs.Forms.{IsSumFile, IsSumHead, sum_file_at, sum_file_text, sum_head_at, sum_head_text, sum_table};

/// A law: a head is read where its text stands, and nowhere else.
pub fn sum_heads_are_read_from_their_texts_alone()
    ensures { IsPart IsSumHead sum_head_text sum_head_at }
{}

/// A law: a sum file is read from its text, and from no other bytes.
pub fn sum_files_are_read_from_their_texts_alone()
    ensures { IsWhole IsSumFile sum_file_text sum_file_at }
{}

/// A law: where a file is no sum file, reading stops at its fault line.
pub fn reading_a_sum_file_stops_at_the_fault_line()
    ensures { (bytes : List ℕ) → fault_line sum_table bytes ≡ result_err (whole sum_file_at bytes) }
{}

/// A law: a file has no fault line exactly where it is the text of a sum file.
pub fn all_but_sum_files_have_a_fault_line()
    ensures { FaultsAllButTexts IsSumFile sum_file_text sum_table }
{}
