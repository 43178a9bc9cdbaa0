//! What holds of all seals and secrets, and of all files.

ghost use Rattle.std.specs.Prelude.{◌≡◌, ℕ, List};
ghost use Rattle.std.specs.Result.{result_err};
ghost use Rattle.vk_lines.specs.Forms.{FaultsAllButTexts, IsWhole, fault_line, whole};
ghost use Rattle.vk_seal.specs.Values.{IsSeal, IsSecret};
ghost use Rattle.vk_seal.specs.Texts.{seal_text, secret_text};
ghost use Rattle.vk_seal.specs.Reading.{seal_at, secret_at};
ghost use Rattle.vk_seal.specs.Tables.{seal_table, secret_table};

/// A law: a seal is read from its text, and from no other bytes.
pub fn seals_are_read_from_their_texts_alone()
    ensures { IsWhole IsSeal seal_text seal_at }
{}

/// A law: a secret is read from its text, and from no other bytes.
pub fn secrets_are_read_from_their_texts_alone()
    ensures { IsWhole IsSecret secret_text secret_at }
{}

/// A law: where a file is no seal, reading stops at its fault line.
pub fn reading_a_seal_stops_at_the_fault_line()
    ensures { (bytes : List ℕ) → fault_line seal_table bytes ≡ result_err (whole seal_at bytes) }
{}

/// A law: where a file is no secret, reading stops at its fault line.
pub fn reading_a_secret_stops_at_the_fault_line()
    ensures { (bytes : List ℕ)
        → fault_line secret_table bytes ≡ result_err (whole secret_at bytes) }
{}

/// A law: a file has no fault line exactly where it is the text of a seal.
pub fn all_but_seals_have_a_fault_line()
    ensures { FaultsAllButTexts IsSeal seal_text seal_table }
{}

/// A law: a file has no fault line exactly where it is the text of a secret.
pub fn all_but_secrets_have_a_fault_line()
    ensures { FaultsAllButTexts IsSecret secret_text secret_table }
{}
