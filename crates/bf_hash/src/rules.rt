//! What a stripe's changes are, in the words of a reader.

ghost use Rattle.std.specs.Prelude.{◌≡◌};
ghost use Rattle.bf_hash.specs.declared.state.HashClaim.{HashClaim};
ghost use Rattle.bf_hash.specs.Stripes.{Cells, Marks, IsGranted, state_of, after_answer, after_finish, after_give_back};
ghost use Rattle.bf_base.specs.Trackers.{StepsAt};
ghost use Rattle.bf_hash.specs.AsTracker.{tracker_of};

use crate::state::{HashAnswer, HashState};

/// A stripe is a tracker: a grant takes its key from free to held under its ticket, a finish from
/// held under the claim's ticket to done, a give back to free, and no other key changes. Where the
/// key isn't held under the claim's ticket, a finish and a give back change nothing.
pub fn tracker_steps()
    ensures grant { (stripe : Marks) (key : Cells) (claim : HashClaim) → IsGranted stripe key claim
        → StepsAt (tracker_of stripe)
        (tracker_of (after_answer stripe key (HashAnswer.Claimed claim))) key claim.ticket }
    ensures finish { (stripe : Marks) (claim : HashClaim)
        → state_of stripe claim.key ≡ HashState.Held claim.ticket
        → StepsAt (tracker_of stripe) (tracker_of (after_finish stripe claim))
        claim.key claim.ticket }
    ensures give_back { (stripe : Marks) (claim : HashClaim)
        → state_of stripe claim.key ≡ HashState.Held claim.ticket
        → StepsAt (tracker_of stripe) (tracker_of (after_give_back stripe claim))
        claim.key claim.ticket }
    ensures not_held { (stripe : Marks) (claim : HashClaim)
        → ¬ (state_of stripe claim.key ≡ HashState.Held claim.ticket)
        → (after_finish stripe claim ≡ stripe) × (after_give_back stripe claim ≡ stripe) }
{}
