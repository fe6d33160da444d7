use bf_tables::{Cases, case_of_number, number_of_case, of_cases};
use std::test::Fail;

fn sides() -> Option<Cases<3>> {
    of_cases([(7, "LEFT"), (1, "Right"), (0, "both")])
}

// The number of a word.
fn number_of(sides: &Cases<3>, word: &str) -> Option<u8> {
    sides.by_word(word.as_bytes())
}

// The word of a number.
fn word_of(sides: &Cases<3>, number: u8) -> Option<&'static str> {
    sides.by_number(number)
}

#[test]
fn word_and_number_name_one_case(rt: HostRuntime) -> Result<(), Fail> {
    let sides = sides().ok_or("apart")?;
    for (word, number) in [
        ("left", Some(7)),
        ("RIGHT", Some(1)),
        ("lef", None),
        ("", None),
    ] {
        assert_eq!(rt; number_of(&sides, word), number, "{word}");
    }
    assert_eq!(rt; word_of(&sides, 1), Some("Right"));
    assert_eq!(rt; word_of(&sides, 2), None);
    Ok(())
}

// Whether a table is made of these pairs.
fn is_table(pairs: [(u8, &'static str); 3]) -> bool {
    of_cases(pairs).is_some()
}

#[test]
fn shared_numbers_and_words_are_refused(rt: HostRuntime) {
    assert!(rt; !is_table([(0, "a"), (1, "b"), (0, "c")]));
    assert!(rt; !is_table([(0, "a"), (1, "b"), (2, "A")]));
    assert!(rt; is_table([(0, "a"), (1, "b"), (2, "ab")]));
    let none: [(u8, &'static str); 0] = [];
    assert!(rt; of_cases(none).is_some());
}

#[derive(Clone, Copy)]
enum Side {
    Left,
    Right,
}

// The number of a side.
fn number_of_side(side: Side) -> u8 {
    number_of_case!(side; Side::Left = 4, Side::Right = 9)
}

// The side of a number.
fn side_of(number: u8) -> Option<Side> {
    case_of_number!(number; Side::Left = 4, Side::Right = 9)
}

#[test]
fn cases_of_an_enum(rt: HostRuntime) {
    assert_eq!(rt; number_of_side(Side::Right), 9);
    assert!(rt; matches!(side_of(4), Some(Side::Left)));
    assert!(rt; side_of(5).is_none());
}
