//! Laws of the spellings. They are the contract of a function that does nothing.

ghost use Rattle.bf_base.specs.Texts.{IsText};
ghost use Rattle.bf_wire.specs.Spellings.{AreValues, IsByte, IsInt, IsName, IsValue, IsWord, byte_spelling, int_spelling, name_spelling, text_spelling, value_spelling, values_spelling, word_spelling};
ghost use Rattle.bf_wire.specs.Taking.{AreApart};

/// Each value has a spelling of its own, and no spelling is a proper prefix of another. So bytes
/// begin with one value of a kind at most, and what was written is read again, whatever follows it.
pub fn spellings_are_apart()
    ensures bytes { AreApart IsByte byte_spelling }
    ensures words { AreApart IsWord word_spelling }
    ensures ints { AreApart IsInt int_spelling }
    ensures names { AreApart IsName name_spelling }
    ensures texts { AreApart IsText text_spelling }
    ensures values { AreApart IsValue value_spelling }
    ensures keys_and_rows { AreApart AreValues values_spelling }
{}
