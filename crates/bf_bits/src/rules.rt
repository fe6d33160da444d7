//! What the rule of a tracker says, and what its steps are, in the words of a reader.

ghost use Rattle.std.specs.Prelude.{◌≡◌, ◌+◌, ◌≤◌, ℕ, List, ◌∷◌, slice_set};
ghost use lib.ListN.{get_elem?};
ghost use mathlib.Core.Option.{some};
ghost use Rattle.atomic_table.specs.Table.{State};
ghost use Rattle.bf_base.specs.Trackers.{free, held, done};
ghost use Rattle.bf_bits.specs.declared.rule.View.{View};
ghost use Rattle.bf_bits.specs.Positions.{Has, without};
ghost use Rattle.bf_bits.specs.Tracker.{Tracks, IsTracked, holders, finishers};
ghost use Rattle.bf_bits.specs.Steps.{next};
ghost use Rattle.bf_bits.specs.AsTracker.{IsTrackedAs, StepsTo};

/// Whatever the words are and whatever seats there are: a position whose migrate bit is set has its
/// lock bit set; a held one has the lock bit alone; a finished one has the migrate bit; and none
/// stands twice in all held and finished lists together.
pub fn four_rules()
    ensures { (words granules : ℕ) (state : State (Unit {0}) View) → Tracks words granules state
        → (at : ℕ) → IsTracked state at }
{}

/// A bitmap is a tracker: where a seat's view changes as a claim of a free position says, the
/// position goes from free to held by that seat; a finish takes it from held by the seat to done, a
/// give back to free; and every other position stays in its state. A give back needs that the
/// position stands once in all lists, which the rule of a tracker keeps.
pub fn tracker_steps()
    ensures claim { (views : List View) (seat p found : ℕ) (view : View)
        → get_elem? views seat ≡ some view → IsTrackedAs views p free
        → StepsTo views (slice_set views seat (next view found (p ∷ view.held) view.finished))
        p seat free (held seat) }
    ensures finish { (views : List View) (seat p found : ℕ) (view : View)
        → get_elem? views seat ≡ some view → Has view.held p
        → StepsTo views (slice_set views seat
        (next view found (without p view.held) (p ∷ view.finished))) p seat (held seat) done }
    ensures give_back { (views : List View) (seat p found : ℕ) (view : View)
        → get_elem? views seat ≡ some view → Has view.held p
        → holders p views + finishers p views ≤ 1
        → StepsTo views (slice_set views seat
        (next view found (without p view.held) view.finished)) p seat (held seat) free }
{}
