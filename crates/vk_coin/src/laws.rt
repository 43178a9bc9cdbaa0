//! What holds of all shares and coins, and of all files.

ghost use Rattle.std.specs.Prelude.{◌≡◌, ◌↔◌, ℕ, List, length, Some, None};
ghost use Rattle.std.specs.Result.{result_err};
ghost use Rattle.vk_lines.specs.Forms.{FaultsAllButTexts, IsWhole, fault_line, whole};
ghost use Rattle.vk_coin.specs.declared.coin.Coin.{Coin};
ghost use Rattle.vk_coin.specs.declared.share.Share.{Share};
ghost use Rattle.vk_coin.specs.Reading.{coin_at, share_at};
ghost use Rattle.vk_coin.specs.Tables.{coin_table, share_table};
ghost use Rattle.vk_coin.specs.Shares.{IsShare, share_message, share_text};
ghost use Rattle.vk_coin.specs.Coins.{IsCoin, IsFirstUnmet, OpensParts, coin_text, unmet_part};

/// A law: a share is read from its text, and from no other bytes.
pub fn shares_are_read_from_their_texts_alone()
    ensures { IsWhole IsShare share_text share_at }
{}

/// A law: where a file is no share, reading stops at its fault line.
pub fn reading_a_share_stops_at_the_fault_line()
    ensures { (bytes : List ℕ) → fault_line share_table bytes ≡ result_err (whole share_at bytes) }
{}

/// A law: a file has no fault line exactly where it is the text of a share.
pub fn all_but_shares_have_a_fault_line()
    ensures { FaultsAllButTexts IsShare share_text share_table }
{}

/// A law: a coin is read from its text, and from no other bytes.
pub fn coins_are_read_from_their_texts_alone()
    ensures { IsWhole IsCoin coin_text coin_at }
{}

/// A law: where a file is no coin, reading stops at its fault line.
pub fn reading_a_coin_stops_at_the_fault_line()
    ensures { (bytes : List ℕ) → fault_line coin_table bytes ≡ result_err (whole coin_at bytes) }
{}

/// A law: a file has no fault line exactly where it is the text of a coin.
pub fn all_but_coins_have_a_fault_line()
    ensures { FaultsAllButTexts IsCoin coin_text coin_table }
{}

/// A law: the message of every share has 64 bytes, and different shares have different messages. So
/// who opens one part by two shares has two messages of one digest.
pub fn messages_tell_shares_apart()
    ensures size { (share : Share) → IsShare share → length (share_message share) ≡ 64 }
    ensures apart { (first second : Share) → IsShare first → IsShare second
        → share_message first ≡ share_message second → first ≡ second }
{}

/// A law: in a coin with as many shares as parts, the auditor that is found is the first whose
/// share doesn't open its part, and none is found exactly where each share opens its part.
pub fn unmet_parts_are_found()
    ensures found { (coin : Coin) (auditor : ℕ) → IsCoin coin
        → (unmet_part coin ≡ Some auditor) ↔ IsFirstUnmet coin auditor }
    ensures none { (coin : Coin) → IsCoin coin → (unmet_part coin ≡ None) ↔ OpensParts coin }
{}
