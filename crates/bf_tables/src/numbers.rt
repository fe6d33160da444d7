//! The matches between the cases of an enum and their numbers.

/// The number of a case, by a `match` that names each case:
/// `number_of_case!(self; Side::Left = 0, Side::Right = 1)` is a `u8`.
#[macro_export]
macro_rules! number_of_case {
    ($value:expr; $($case:path = $number:literal),+ $(,)?) => {
        match $value {
            $($case => $number,)+
        }
    };
}

/// The case of a number, by a `match` that names each number:
/// `case_of_number!(number; Side::Left = 0, Side::Right = 1)` is an `Option<Side>`.
#[macro_export]
macro_rules! case_of_number {
    ($value:expr; $($case:path = $number:literal),+ $(,)?) => {
        match $value {
            $($number => Some($case),)+
            _ => None,
        }
    };
}
