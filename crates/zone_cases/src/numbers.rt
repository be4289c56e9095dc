//! The numbers of a line, one after the other.
use std::alloc::{AllocError, Global};

/// Whole numbers that are taken from the first on.
#[derive(Drop)]
pub struct Numbers {
    values: Vec<i64>,
    next: usize,
}

impl Numbers {
    /// The numbers of a line; none at all where a word is no number.
    pub fn of_line(alloc: Global, line: &str) -> Result<Numbers, AllocError> {
        let mut values = Vec::new(alloc);
        for word in line.split_whitespace() {
            match word.parse::<i64>() {
                Ok(value) => values.push(value)?,
                Err(_) => return Ok(Numbers::none(alloc)),
            }
        }
        Ok(Numbers { values, next: 0 })
    }

    fn none(alloc: Global) -> Numbers {
        Numbers {
            values: Vec::new(alloc),
            next: 0,
        }
    }

    /// The next number.
    pub fn take(&mut self) -> Option<i64> {
        let value = *self.values.get(self.next)?;
        self.next = self.next.checked_add(1)?;
        Some(value)
    }

    /// Whether all are taken.
    pub fn is_done(&self) -> bool {
        self.next >= self.values.len()
    }
}
