//! What the ends of these commands mean.

ghost use Rattle.vk_coins.specs.Meaning.{DerivesExactly, JoinsExactly};

/// A law, over any files and any names of them. `coin-join` writes the text of the joint challenge
/// exactly where the named file is a coin in which each share opens its part, and ends with status
/// 0; it ends with status 1 exactly where one doesn't, and says the first such. Of a file that is
/// no coin it says the fault. It writes nothing then.
pub fn a_coin_is_joined_where_its_shares_open_its_parts()
    ensures { JoinsExactly }
{}

/// A law, over any files and any names of them. `coin-board` writes the text of the challenge that
/// the file's bytes give for its lanes exactly where the named file is a board that may be reported
/// on, and ends with status 0. Of another it says what `report` does, and writes nothing.
pub fn a_board_gives_one_challenge()
    ensures { DerivesExactly }
{}
