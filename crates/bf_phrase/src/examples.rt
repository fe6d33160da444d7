//! How operators group, by worked examples. Each is the contract of a function that does nothing: the
//! words of a text, and the one tree that they spell.

ghost use Rattle.std.specs.Prelude.{true, [], ◌∷◌, codes};
ghost use Rattle.bf_lex.specs.declared.keyword.Keyword.TheVariants.{And, Not, Or};
ghost use Rattle.bf_lex.specs.declared.sign.Sign.TheVariants.{Bars, Equal, Plus, Star};
ghost use Rattle.bf_tree.specs.Trees.{both, either, joined, minus, opposite, plus, times};
ghost use Rattle.bf_phrase.specs.Words.{Keyword, Minus, Name, Number, Sign, Text};
ghost use Rattle.bf_phrase.specs.GroupingExamples.{SpellCond, SpellExpr, int, is, named, text};

/// Operators of one level group to the left.
pub fn sums_group_to_the_left()
    // 1 - 2 - 3
    ensures differences { SpellExpr
        (Number 1 ∷ Minus true ∷ Number 2 ∷ Minus true ∷ Number 3 ∷ [])
        (minus (minus (int 1) (int 2)) (int 3)) }
    // 1 - 2 + 3
    ensures both_signs { SpellExpr
        (Number 1 ∷ Minus true ∷ Number 2 ∷ Sign Plus ∷ Number 3 ∷ [])
        (plus (minus (int 1) (int 2)) (int 3)) }
    // 'a' || 'b' || 'c'
    ensures texts { SpellExpr
        (Text (codes "a") ∷ Sign Bars ∷ Text (codes "b") ∷ Sign Bars ∷ Text (codes "c") ∷ [])
        (joined (joined (text (codes "a")) (text (codes "b"))) (text (codes "c"))) }
    // 2 * 3 * id
    ensures products { SpellExpr
        (Number 2 ∷ Sign Star ∷ Number 3 ∷ Sign Star ∷ Name (codes "id") ∷ [])
        (times (times (int 2) (int 3)) (named (codes "id"))) }
{}

/// `*` joins closer than the operators of a sum, on either side.
pub fn products_join_first()
    // 2 - 3 * id
    ensures behind { SpellExpr
        (Number 2 ∷ Minus true ∷ Number 3 ∷ Sign Star ∷ Name (codes "id") ∷ [])
        (minus (int 2) (times (int 3) (named (codes "id")))) }
    // id * 2 - 3
    ensures before { SpellExpr
        (Name (codes "id") ∷ Sign Star ∷ Number 2 ∷ Minus true ∷ Number 3 ∷ [])
        (minus (times (named (codes "id")) (int 2)) (int 3)) }
{}

/// NOT joins closer than AND, and AND closer than OR; each of AND and OR groups to the left.
pub fn conditions_group_by_their_words()
    // a = 1 OR b = 2 AND c = 3
    ensures behind_or { SpellCond
        (Name (codes "a") ∷ Sign Equal ∷ Number 1 ∷ Keyword Or
        ∷ Name (codes "b") ∷ Sign Equal ∷ Number 2 ∷ Keyword And
        ∷ Name (codes "c") ∷ Sign Equal ∷ Number 3 ∷ [])
        (either (is (codes "a") 1) (both (is (codes "b") 2) (is (codes "c") 3))) }
    // NOT a = 1 AND b = 2
    ensures behind_not { SpellCond
        (Keyword Not ∷ Name (codes "a") ∷ Sign Equal ∷ Number 1 ∷ Keyword And
        ∷ Name (codes "b") ∷ Sign Equal ∷ Number 2 ∷ [])
        (both (opposite (is (codes "a") 1)) (is (codes "b") 2)) }
    // a = 1 AND b = 2 AND c = 3
    ensures all { SpellCond
        (Name (codes "a") ∷ Sign Equal ∷ Number 1 ∷ Keyword And
        ∷ Name (codes "b") ∷ Sign Equal ∷ Number 2 ∷ Keyword And
        ∷ Name (codes "c") ∷ Sign Equal ∷ Number 3 ∷ [])
        (both (both (is (codes "a") 1) (is (codes "b") 2)) (is (codes "c") 3)) }
    // a = 1 OR b = 2 OR c = 3
    ensures any { SpellCond
        (Name (codes "a") ∷ Sign Equal ∷ Number 1 ∷ Keyword Or
        ∷ Name (codes "b") ∷ Sign Equal ∷ Number 2 ∷ Keyword Or
        ∷ Name (codes "c") ∷ Sign Equal ∷ Number 3 ∷ [])
        (either (either (is (codes "a") 1) (is (codes "b") 2)) (is (codes "c") 3)) }
{}
