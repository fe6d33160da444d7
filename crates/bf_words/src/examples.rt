//! What words ask for, by worked examples. Each is the contract of a function that does nothing.

ghost use Rattle.std.specs.Prelude.{◌≡◌, [], ◌∷◌, codes, None, false, true};
ghost use Rattle.bf_words.specs.Words.{asked};
ghost use Rattle.bf_words.specs.Examples.{makes, runs, shows, tries};

/// What each first word asks for.
pub fn each_first_word_asks()
    ensures a_new_log { asked (codes "create" ∷ codes "x" ∷ []) ≡ makes (codes "x") }
    ensures a_run { asked (codes "run" ∷ codes "x" ∷ []) ≡ runs (codes "x") 2 15 false false }
    ensures a_try { asked (codes "try" ∷ []) ≡ tries }
    ensures a_demonstration { asked (codes "demo" ∷ codes "1" ∷ codes "x" ∷ []) ≡ shows 1 (codes "x") }
    ensures the_largest { asked (codes "demo" ∷ codes "1000" ∷ codes "x" ∷ [])
        ≡ shows 1000 (codes "x") }
    ensures of_nothing { asked (codes "demo" ∷ codes "0" ∷ codes "x" ∷ []) ≡ None }
    ensures too_large { asked (codes "demo" ∷ codes "1001" ∷ codes "x" ∷ []) ≡ None }
    ensures no_words { asked ([]) ≡ None }
    ensures another_word { asked (codes "go" ∷ []) ≡ None }
    ensures a_longer_word { asked (codes "runs" ∷ codes "x" ∷ []) ≡ None }
    ensures another_case { asked (codes "Run" ∷ codes "x" ∷ []) ≡ None }
    ensures words_behind_try { asked (codes "try" ∷ codes "x" ∷ []) ≡ None }
{}

/// Which words are paths: one, not empty and not `-`.
pub fn paths_are_words()
    ensures none { asked (codes "run" ∷ []) ≡ None }
    ensures two { asked (codes "run" ∷ codes "x" ∷ codes "y" ∷ []) ≡ None }
    ensures none_to_make { asked (codes "create" ∷ []) ≡ None }
    ensures two_to_make { asked (codes "create" ∷ codes "x" ∷ codes "y" ∷ []) ≡ None }
    ensures a_dash { asked (codes "create" ∷ codes "-" ∷ []) ≡ None }
    ensures empty { asked (codes "create" ∷ [] ∷ []) ≡ None }
    ensures a_dash_behind { asked (codes "run" ∷ codes "--" ∷ codes "-" ∷ []) ≡ None }
    ensures empty_behind { asked (codes "run" ∷ codes "--" ∷ [] ∷ []) ≡ None }
    ensures dashed { asked (codes "run" ∷ codes "-x" ∷ []) ≡ None }
    ensures dashed_behind { asked (codes "run" ∷ codes "--" ∷ codes "-x" ∷ [])
        ≡ runs (codes "-x") 2 15 false false }
    ensures dashes_behind { asked (codes "create" ∷ codes "--" ∷ codes "--" ∷ []) ≡ makes (codes "--") }
    ensures ended_behind { asked (codes "create" ∷ codes "x" ∷ codes "--" ∷ []) ≡ makes (codes "x") }
    ensures number_alone { asked (codes "demo" ∷ codes "5" ∷ []) ≡ None }
    ensures dashed_demonstration { asked (codes "demo" ∷ codes "5" ∷ codes "--" ∷ codes "-x" ∷ [])
        ≡ shows 5 (codes "-x") }
    ensures not_for_try { asked (codes "try" ∷ codes "--" ∷ codes "x" ∷ []) ≡ None }
{}

/// Options stand before or behind the path, each once, and end at `--`.
pub fn options_stand_anywhere()
    ensures around { asked (codes "run" ∷ codes "--workers=3" ∷ codes "x" ∷ codes "--audit" ∷ [])
        ≡ runs (codes "x") 3 15 false true }
    ensures next_word { asked (codes "run" ∷ codes "--retries" ∷ codes "0" ∷ codes "--finish" ∷ codes "x" ∷ [])
        ≡ runs (codes "x") 2 0 true false }
    ensures all { asked (codes "run" ∷ codes "--audit" ∷ codes "--finish" ∷ codes "--workers" ∷ codes "8" ∷ codes "--retries=1000" ∷ codes "x" ∷ [])
        ≡ runs (codes "x") 8 1000 true true }
    ensures finish_twice { asked (codes "run" ∷ codes "x" ∷ codes "--finish" ∷ codes "--finish" ∷ [])
        ≡ None }
    ensures audit_twice { asked (codes "run" ∷ codes "x" ∷ codes "--audit" ∷ codes "--audit" ∷ [])
        ≡ None }
    ensures workers_twice { asked (codes "run" ∷ codes "x" ∷ codes "--workers=1" ∷ codes "--workers" ∷ codes "1" ∷ [])
        ≡ None }
    ensures retries_twice { asked (codes "run" ∷ codes "x" ∷ codes "--retries" ∷ codes "1" ∷ codes "--retries=1" ∷ [])
        ≡ None }
    ensures an_option_behind { asked (codes "run" ∷ codes "x" ∷ codes "--" ∷ codes "--audit" ∷ [])
        ≡ None }
    ensures a_front_of_a_name { asked (codes "run" ∷ codes "x" ∷ codes "--work" ∷ codes "1" ∷ [])
        ≡ None }
    ensures one_dash { asked (codes "run" ∷ codes "x" ∷ codes "-workers" ∷ codes "1" ∷ []) ≡ None }
    ensures a_value_of_finish { asked (codes "run" ∷ codes "x" ∷ codes "--finish=x" ∷ []) ≡ None }
    ensures an_empty_value_of_finish { asked (codes "run" ∷ codes "x" ∷ codes "--finish=" ∷ []) ≡ None }
    ensures not_of_create { asked (codes "create" ∷ codes "x" ∷ codes "--audit" ∷ []) ≡ None }
{}

/// Numbers are decimal digits, behind one `+` or none, within their limits.
pub fn numbers_stay_within_limits()
    ensures zeros { asked (codes "run" ∷ codes "x" ∷ codes "--workers" ∷ codes "+007" ∷ [])
        ≡ runs (codes "x") 7 15 false false }
    ensures many_zeros { asked (codes "run" ∷ codes "x" ∷ codes "--workers=000000000000000000000000000008" ∷ [])
        ≡ runs (codes "x") 8 15 false false }
    ensures workers { asked (codes "run" ∷ codes "x" ∷ codes "--workers" ∷ codes "9" ∷ []) ≡ None }
    ensures retries { asked (codes "run" ∷ codes "x" ∷ codes "--retries" ∷ codes "1001" ∷ []) ≡ None }
    ensures wide { asked (codes "run" ∷ codes "x" ∷ codes "--retries" ∷ codes "65537" ∷ []) ≡ None }
    ensures missing { asked (codes "run" ∷ codes "x" ∷ codes "--workers" ∷ []) ≡ None }
    ensures empty { asked (codes "run" ∷ codes "x" ∷ codes "--workers=" ∷ []) ≡ None }
    ensures plus { asked (codes "run" ∷ codes "x" ∷ codes "--workers" ∷ codes "+" ∷ []) ≡ None }
    ensures two_pluses { asked (codes "run" ∷ codes "x" ∷ codes "--workers" ∷ codes "++1" ∷ []) ≡ None }
    ensures minus { asked (codes "run" ∷ codes "x" ∷ codes "--workers" ∷ codes "-1" ∷ []) ≡ None }
    ensures minus_zero { asked (codes "run" ∷ codes "x" ∷ codes "--workers=-0" ∷ []) ≡ None }
    ensures an_option { asked (codes "run" ∷ codes "x" ∷ codes "--workers" ∷ codes "--finish" ∷ [])
        ≡ None }
    ensures dashes { asked (codes "run" ∷ codes "--workers" ∷ codes "--" ∷ codes "x" ∷ []) ≡ None }
    ensures letters { asked (codes "run" ∷ codes "x" ∷ codes "--workers" ∷ codes "1a" ∷ []) ≡ None }
    ensures two_values { asked (codes "run" ∷ codes "x" ∷ codes "--workers=1=2" ∷ []) ≡ None }
{}
