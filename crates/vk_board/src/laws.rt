//! What holds of all boards and their parts, and of all files.

ghost use Rattle.std.specs.Prelude.{◌≡◌, ◌≤◌, ℕ, List};
ghost use Rattle.std.specs.List.{flat_map};
ghost use Rattle.std.specs.Result.{result_err};
ghost use Rattle.vk_lines.specs.Forms.{FaultsAllButTexts, IsPart, IsWhole, fault_line, whole};
ghost use Rattle.vk_board.specs.declared.board.Head.{Head};
ghost use Rattle.vk_board.specs.Values.{IsHead, AreSeals, IsLaneLines, IsBoard, Shape};
ghost use Rattle.vk_board.specs.Texts.{head_text, seal_lines_text, lane_text, board_text};
ghost use Rattle.vk_board.specs.Reading.{head_at, seals_at, lane_at, board_at};
ghost use Rattle.vk_board.specs.Tables.{board_table};
ghost use Rattle.vk_board.specs.Fronts.{FrontsAreRead, FrontsAreRefused};

/// A law: a head is read where its text stands, and nowhere else.
pub fn heads_are_read_from_their_texts_alone()
    ensures { IsPart IsHead head_text head_at }
{}

/// A law: the seals of a board are read where their texts stand one after another, and nowhere
/// else.
pub fn seals_are_read_from_their_texts_alone()
    ensures { (head : Head) → IsHead head
        → IsPart (AreSeals head) (flat_map seal_lines_text) (seals_at head) }
{}

/// A law: what stands before the first lane is read where its text stands, and nowhere else.
pub fn fronts_are_read_from_their_texts_alone()
    ensures { FrontsAreRead }
{}

/// A law: what stands before the first lane is refused for its fault line, then for the price, and
/// then for the winner.
pub fn fronts_are_refused_for_what_fails_first()
    ensures { FrontsAreRefused }
{}

/// A law: a lane is read where its text stands, and nowhere else.
pub fn lanes_are_read_from_their_texts_alone()
    ensures { (lane wires rows : ℕ) → lane ≤ 64
        → IsPart (IsLaneLines wires rows) (lane_text lane) (lane_at lane wires rows) }
{}

/// A law: a board is read from its text, and from no other bytes.
pub fn boards_are_read_from_their_texts_alone()
    ensures { (shape : Head → Shape) → IsWhole (IsBoard shape) board_text (board_at shape) }
{}

/// A law: where a file is no board, reading stops at its fault line.
pub fn reading_a_board_stops_at_the_fault_line()
    ensures { (shape : Head → Shape) (bytes : List ℕ)
        → fault_line (board_table shape) bytes ≡ result_err (whole (board_at shape) bytes) }
{}

/// A law: a file has no fault line exactly where it is the text of a board.
pub fn all_but_boards_have_a_fault_line()
    ensures { (shape : Head → Shape)
        → FaultsAllButTexts (IsBoard shape) board_text (board_table shape) }
{}
