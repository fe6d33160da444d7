//! Laws of the format. They are the contract of a function that does nothing.

ghost use Rattle.std.specs.Prelude.{◌≡◌, ◌⊎◌, ℕ, ◌<◌, List, All};
ghost use Rattle.bf_log.specs.Format.{IsLog, IsNoLog};

/// Every file is a log of some payloads, or there is a first thing in it that breaks the format. It
/// is not both, not a log of other payloads too, and no other thing is the first. So the bytes alone
/// tell what is read from a file, or where it breaks.
pub fn a_file_is_read_in_one_way()
    ensures some { (file : List ℕ) → All (λ byte. byte < 256) file
        → ((payloads : List (List ℕ)) × IsLog payloads file) ⊎ ((at : ℕ) × IsNoLog file at) }
    ensures one_log { (file : List ℕ) (payloads others : List (List ℕ)) → IsLog payloads file
        → IsLog others file
        → payloads ≡ others }
    ensures one_fault { (file : List ℕ) (at other : ℕ) → IsNoLog file at → IsNoLog file other
        → at ≡ other }
    ensures not_both { (file : List ℕ) (payloads : List (List ℕ)) (at : ℕ) → IsLog payloads file
        → IsNoLog file at → ⊥ }
{}
