//! The table of the commands: which word names each, how many words it may have, and whether it
//! asks the house.

ghost use Rattle.std.specs.Prelude.{◌≡◌, map, option_map};
ghost use Rattle.std.specs.Option.{option_copied};
ghost use Rattle.std.specs.List.{find};
ghost use Rattle.std.specs.Str.{bytes_eq};
ghost use Rattle.vk_words.specs.Table.{commands, row_of, row_seen};

/// A command, by its first word.
#[derive(Clone, Copy, Debug)]
pub enum Verb {
    Seal,
    Announce,
    Submit,
    Prove,
    Answer,
    Show,
    Verify,
    Extract,
    Confront,
    Report,
    Sample,
    Ceremony,
    ClaimVerify,
    ClaimExtract,
    ClaimSample,
    CoinPart,
    CoinJoin,
    CoinBoard,
}

/// What is asked of the words of a command.
#[derive(Clone, Copy, Debug)]
pub struct CommandRow(
    /// Its first word.
    pub &'static str,
    pub Verb,
    /// The fewest words that it has, the first included.
    pub usize,
    /// And the most.
    pub usize,
    /// Whether it asks the keeper of the house: a command of the house, or a ceremony of such.
    pub bool,
);

/// The commands, in the order of the usage line.
static COMMANDS: [CommandRow; 18] = [
    CommandRow("seal", Verb::Seal, 9, 9, false),
    CommandRow("announce", Verb::Announce, 4, 5, true),
    CommandRow("submit", Verb::Submit, 4, 4, true),
    CommandRow("prove", Verb::Prove, 4, 4, true),
    CommandRow("answer", Verb::Answer, 4, 4, true),
    CommandRow("show", Verb::Show, 2, 2, true),
    CommandRow("verify", Verb::Verify, 4, 4, false),
    CommandRow("extract", Verb::Extract, 6, 6, false),
    CommandRow("confront", Verb::Confront, 7, 7, false),
    CommandRow("report", Verb::Report, 2, 2, false),
    CommandRow("sample", Verb::Sample, 2, 2, false),
    CommandRow("ceremony", Verb::Ceremony, 2, 2, true),
    CommandRow("claim-verify", Verb::ClaimVerify, 4, 4, false),
    CommandRow("claim-extract", Verb::ClaimExtract, 6, 6, false),
    CommandRow("claim-sample", Verb::ClaimSample, 3, 3, false),
    CommandRow("coin-part", Verb::CoinPart, 6, 6, false),
    CommandRow("coin-join", Verb::CoinJoin, 3, 3, false),
    CommandRow("coin-board", Verb::CoinBoard, 3, 3, false),
];

/// The commands, in the order of the usage line.
#[tactic(auto, unfolding(crate::specs::Table::commands))]
pub fn command_rows() -> &'static [CommandRow]
    ensures { map row_seen result.now ≡ commands }
{
    &COMMANDS
}

/// The first of the rows whose name is the word.
fn first_named<'a>(rows: &'a [CommandRow], word: &str) -> Option<&'a CommandRow>
    ensures { option_copied result ≡ find (λ row. bytes_eq row.0.now word.now) rows.now }
{
    rows.iter().find(|row| row.0 == word)
}

/// The command that the word names.
pub fn row_of(word: &str) -> Option<&'static CommandRow>
    ensures { option_map (λ row. row_seen row.now) result ≡ row_of word.now }
{
    let row = first_named(command_rows(), word);
    row
}
