//! Laws of the spellings. They are the contract of a function that does nothing.

ghost use Rattle.std.specs.Prelude.{◌≡◌, ◌++◌, ℕ, List};
ghost use Rattle.bf_record.specs.Changes.{HasRecord, record_bytes};
ghost use Rattle.bf_record.specs.declared.change.Change.{Change};

/// Each change has one spelling, of its own, and no spelling is the front of another.
pub fn a_record_has_one_spelling()
    ensures { (c d : Change) (xs ys : List ℕ) → HasRecord c → HasRecord d
        → record_bytes c ++ xs ≡ record_bytes d ++ ys → c ≡ d }
{}
