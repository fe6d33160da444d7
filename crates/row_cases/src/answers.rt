//! What calls answer, and how it is told.

use bf_base::{Key, Row, Value};

/// Tells a number with what stands before it.
pub fn tell_number(before: &str, number: i64, told: &mut String) -> anyhow::Result<()> {
    write!(told, "{before}{number}")?;
    Ok(())
}

/// What a call answers of a key.
#[derive(Clone, Copy)]
pub enum Answer {
    Nothing,
    /// There is something that is not one number.
    Present,
    Number(i64),
}

impl Answer {
    /// The number of a key or a row.
    pub fn of_values(values: &[Value]) -> Answer {
        match values {
            [Value::Int(number)] => Answer::Number(*number),
            _ => Answer::Present,
        }
    }

    /// The number of a row, if there is one.
    pub fn of_row(row: Option<&Row>) -> Answer {
        match row {
            Some(row) => Answer::of_values(row.as_slice()),
            None => Answer::Nothing,
        }
    }

    /// The number of a row, if there is one, whose key is no other number.
    pub fn of_entry(entry: Option<(&Key, &Row)>) -> Answer {
        let Some((key, row)) = entry else {
            return Answer::Nothing;
        };
        match (key.as_slice(), row.as_slice()) {
            ([Value::Int(at)], [Value::Int(number)]) if at != number => Answer::Present,
            (_, values) => Answer::of_values(values),
        }
    }

    /// Whether there is something.
    pub fn of(is_there: bool) -> Answer {
        if is_there {
            Answer::Present
        } else {
            Answer::Nothing
        }
    }

    pub fn is_nothing(self) -> bool {
        matches!(self, Answer::Nothing)
    }

    pub fn tell(self, told: &mut String) -> anyhow::Result<()> {
        match self {
            Answer::Nothing => told.push_str("-")?,
            Answer::Present => told.push_str("+")?,
            Answer::Number(number) => tell_number("", number, told)?,
        }
        Ok(())
    }
}

/// The last numbers of a list, which rise or fall by the same step.
#[derive(Clone, Copy)]
pub struct Run {
    first: i64,
    last: i64,
    step: i64,
    /// At most 3, which stands for more too.
    count: u8,
}

impl Run {
    /// The run of an empty list.
    pub const NONE: Run = Run {
        first: 0,
        last: 0,
        step: 0,
        count: 0,
    };

    fn add_number(&mut self, number: i64, told: &mut String) -> anyhow::Result<()> {
        let step = number.wrapping_sub(self.last);
        if self.count == 0 {
            self.first = number;
            self.count = 1;
        } else if self.count == 1 {
            self.step = step;
            self.count = 2;
        } else if self.step == step {
            self.count = 3;
        } else {
            self.tell(told)?;
            self.first = number;
            self.count = 1;
        }
        self.last = number;
        Ok(())
    }

    /// Goes on in a list, and tells the run that ends there, if one does.
    pub fn add(&mut self, next: Answer, told: &mut String) -> anyhow::Result<()> {
        match next {
            Answer::Number(number) => self.add_number(number, told),
            other => {
                self.tell(told)?;
                self.count = 0;
                told.push_str(" ")?;
                other.tell(told)
            }
        }
    }

    /// Tells the run at the end of a list.
    pub fn tell(&self, told: &mut String) -> anyhow::Result<()> {
        match self.count {
            0 => Ok(()),
            1 => tell_number(" ", self.first, told),
            2 => {
                tell_number(" ", self.first, told)?;
                tell_number(" ", self.last, told)
            }
            _ => {
                tell_number(" ", self.first, told)?;
                tell_number(",", self.first.wrapping_add(self.step), told)?;
                tell_number("..", self.last, told)
            }
        }
    }
}

/// How many answers of numbers are the number, others, and nothing.
#[derive(Clone, Copy)]
pub struct Tally {
    own: i64,
    other: i64,
    none: i64,
}

impl Tally {
    /// The tally of no answers.
    pub const NONE: Tally = Tally {
        own: 0,
        other: 0,
        none: 0,
    };

    /// Counts the answer of a number.
    pub fn add(&mut self, number: i64, answer: Answer) {
        let count = match answer {
            Answer::Number(found) if found == number => &mut self.own,
            Answer::Nothing => &mut self.none,
            _ => &mut self.other,
        };
        *count = count.wrapping_add(1);
    }

    pub fn tell(&self, told: &mut String) -> anyhow::Result<()> {
        tell_number(" own ", self.own, told)?;
        tell_number(" other ", self.other, told)?;
        tell_number(" none ", self.none, told)
    }
}

/// Tells how many rows or pairs there are.
pub fn tell_count(count: u32, is_empty: bool, told: &mut String) -> anyhow::Result<()> {
    tell_number(" ", count as i64, told)?;
    if is_empty {
        told.push_str(" empty")?;
    }
    Ok(())
}
