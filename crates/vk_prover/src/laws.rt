// What holds of every honest lane.
ghost use Rattle.std.specs.Prelude.{List, ℕ};
ghost use Rattle.vk_prover.specs.Laws.{HonestLaneIsAccepted, AreChecked, AreLines, AreOfForm, ArePublished, InputsAreSealed, WhereHeld};

use vk_plan::Circuit;

/// Of any circuit: where its claim holds of the inputs, the honest reply to either challenge bit is
/// accepted for its plan, whatever the tape is; and the commitments of each input are those to it.
pub fn honest_replies_are_accepted<C: Circuit>()
    ensures accepted { (circuit : C) (inputs : List ℕ) → C.claim circuit inputs
        → HonestLaneIsAccepted (C.plan_of circuit) (C.filled circuit inputs) }
    ensures checked { (circuit : C) (inputs : List ℕ) → C.claim circuit inputs
        → AreChecked (C.plan_of circuit) (C.filled circuit inputs) }
    ensures inputs { (circuit : C) (inputs : List ℕ) → C.claim circuit inputs
        → InputsAreSealed inputs (C.plan_of circuit) (C.filled circuit inputs) }
{}

/// Of any plan and lane: where the values hold for the plan, the honest reply to either challenge
/// bit is accepted, whatever the tape is, with the halves that the bit names; and what is published
/// of the lane, after the commitments of the inputs, is what the reply is accepted for.
pub fn replies_of_held_values_are_accepted()
    ensures accepted { WhereHeld HonestLaneIsAccepted }
    ensures checked { WhereHeld AreChecked }
    ensures inputs { WhereHeld (λ plan values. InputsAreSealed values plan values) }
    ensures published { WhereHeld ArePublished }
{}

/// What an honest prover publishes of a lane may stand on a board, and what it shows of it in a
/// reply.
pub fn honest_lanes_are_of_their_form()
    ensures lines { WhereHeld AreLines }
    ensures shown { WhereHeld AreOfForm }
{}
