//! What holds of all challenges and replies, and of all files.

ghost use Rattle.std.specs.Prelude.{◌≡◌, ◌≤◌, ◌<◌, ◌^◌, ℕ, Bool, List};
ghost use Rattle.std.specs.Result.{result_err};
ghost use Rattle.vk_lines.specs.Forms.{FaultsAllButTexts, IsPart, IsWhole, fault_line, whole};
ghost use Rattle.vk_plan.specs.declared.wire.WireKind.{WireKind};
ghost use Rattle.vk_reply.specs.Values.{AreShown, IsChallenge, IsReply};
ghost use Rattle.vk_reply.specs.Texts.{challenge_text, reply_head_text, reply_lane_text, reply_text};
ghost use Rattle.vk_reply.specs.Reading.{challenge_at, reply_at, reply_head_at, reply_lane_at};
ghost use Rattle.vk_reply.specs.Tables.{challenge_table, reply_table};

/// A law: a challenge is read from its text, and from no other bytes.
pub fn challenges_are_read_from_their_texts_alone()
    ensures { IsWhole IsChallenge challenge_text challenge_at }
{}

/// A law: where a file is no challenge, reading stops at its fault line.
pub fn reading_a_challenge_stops_at_the_fault_line()
    ensures { (bytes : List ℕ)
        → fault_line challenge_table bytes ≡ result_err (whole challenge_at bytes) }
{}

/// A law: the number of a reply's lanes, 1 to 64, is read from the lines of its text, and from no
/// other.
pub fn reply_heads_are_read_from_their_texts_alone()
    ensures { IsPart (λ lanes. (1 ≤ lanes) × (lanes ≤ 64)) reply_head_text reply_head_at }
{}

/// A law: what is shown of a lane is read from the lines of its text, and from no other.
pub fn reply_lanes_are_read_from_their_texts_alone()
    ensures { (lane : ℕ) (kinds : List WireKind) (bit : Bool) → lane < 2 ^ 64
        → IsPart (AreShown kinds bit) (reply_lane_text lane) (reply_lane_at lane kinds bit) }
{}

/// A law: a reply is read from its text, and from no other bytes.
pub fn replies_are_read_from_their_texts_alone()
    ensures { (kinds : List WireKind) (bit_of : ℕ → Bool)
        → IsWhole (IsReply kinds bit_of) reply_text (reply_at kinds bit_of) }
{}

/// A law: where a file is no reply, reading stops at its fault line.
pub fn reading_a_reply_stops_at_the_fault_line()
    ensures { (kinds : List WireKind) (bit_of : ℕ → Bool) (bytes : List ℕ)
        → fault_line (reply_table kinds bit_of) bytes
        ≡ result_err (whole (reply_at kinds bit_of) bytes) }
{}

/// A law: a file has no fault line exactly where it is the text of a challenge.
pub fn all_but_challenges_have_a_fault_line()
    ensures { FaultsAllButTexts IsChallenge challenge_text challenge_table }
{}

/// A law: a file has no fault line exactly where it is the text of a reply.
pub fn all_but_replies_have_a_fault_line()
    ensures { (kinds : List WireKind) (bit_of : ℕ → Bool)
        → FaultsAllButTexts (IsReply kinds bit_of) reply_text (reply_table kinds bit_of) }
{}
