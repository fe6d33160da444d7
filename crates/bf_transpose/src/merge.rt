//! The values of two indexes, in order.

ghost use Rattle.std.specs.Prelude.{◌≡◌, ◌<◌, OnSome};
ghost use Rattle.std.specs.Option.{option_map};
ghost use Rattle.bf_transpose.specs.Merging.{steps_ahead, values_ahead, values_stepped};

use bf_base::Key;
use bf_index::ByValue;
use std::cmp::Ordering;

/// A pass over the values of two indexes in their order, each value once where both have it.
#[derive(Drop)]
pub(crate) struct Merge<'a> {
    left: &'a ByValue,
    right: &'a ByValue,
    // How many values of each have been passed.
    left_place: usize,
    right_place: usize,
}

impl<'a> Merge<'a> {
    /// A pass before the first value. Takes no memory.
    pub(crate) fn of(left: &'a ByValue, right: &'a ByValue) -> Merge<'a>
        ensures left { result.left.now ≡ left.now }
        ensures right { result.right.now ≡ right.now }
        ensures left_place { result.left_place ≡ 0 }
        ensures right_place { result.right_place ≡ 0 }
    {
        Merge {
            left,
            right,
            left_place: 0,
            right_place: 0,
        }
    }

    /// Goes past the least value that is ahead, and gives it; `None` behind the last one. It takes
    /// constant time and no memory, and compares one pair of values at most.
    pub(crate) fn advance(&mut self) -> Option<&'a Key>
        ensures values { values_stepped (option_map (λ value. value.now) result)
            (values_ahead self.new) ≡ values_ahead self.old }
        ensures nearer { OnSome result (steps_ahead self.new < steps_ahead self.old) }
    {
        // By their contracts the values of an index rise, and are as many as a usize counts.
        let _ = (self.left.len(), self.right.len());
        match (
            self.left.at(self.left_place),
            self.right.at(self.right_place),
        ) {
            (None, None) => None,
            (Some((value, _)), None) => {
                self.left_place += 1;
                Some(value)
            }
            (None, Some((value, _))) => {
                self.right_place += 1;
                Some(value)
            }
            (Some((value, _)), Some((other, _))) => match value.compare(other) {
                Ordering::Less => {
                    self.left_place += 1;
                    Some(value)
                }
                Ordering::Equal => {
                    self.left_place += 1;
                    self.right_place += 1;
                    Some(value)
                }
                Ordering::Greater => {
                    self.right_place += 1;
                    Some(other)
                }
            },
        }
    }
}
