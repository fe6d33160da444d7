//! Exact sums of numbers.

ghost use Rattle.std.specs.Prelude.{◌≡◌, ℕ, ◌+◌, ◌<◌, ◌+ℤ◌, pos};
ghost use Rattle.bf_tree.specs.Evaluation.{number_of};
ghost use Rattle.bf_totals.specs.Sums.{IsSumOf};

use bf_base::Value;

/// The exact sum of this many numbers.
#[derive(Drop)]
pub struct ExactSum {
    pub sum: i128,
    pub count: usize,
    pub ghost within: { IsSumOf count sum },
}

impl ExactSum {
    /// The sum of no numbers.
    pub fn new() -> ExactSum
        ensures sum { result.sum ≡ pos 0 }
        ensures count { result.count ≡ 0 }
    {
        ExactSum { sum: 0, count: 0 }
    }

    /// Adds a value's number; a text counts as 0.
    pub fn add(&mut self, value: &Value)
        requires { self.old.count < usize.MAX }
        ensures sum { self.new.sum ≡ self.old.sum +ℤ number_of value.now }
        ensures count { self.new.count ≡ self.old.count + 1 }
    {
        let number = match value {
            Value::Int(number) => *number,
            Value::Text(_) => 0,
        };
        *self = ExactSum {
            sum: self.sum + i128::from(number),
            count: self.count + 1,
        };
    }
}
