//! What a store knows that refuses a file.
use legs::BookHead;
use timebase::Ms;

/// Where the features of a store end.
pub trait LastEnds {
    /// When the last leg of the feature of that name ends; `None` where there is none.
    fn last_end(&self, name: &str) -> Option<Ms>;
}

/// What a store knows that refuses a file, as far as that is at hand.
#[derive(Drop)]
pub struct Known<'a, E> {
    /// What its first file said of all.
    pub head: Option<&'a BookHead>,
    /// Where its features end.
    pub ends: Option<&'a E>,
    /// How many legs it may have.
    pub most_legs: Option<u64>,
    /// How many features it may have.
    pub most_features: Option<u32>,
}

impl<E: LastEnds> Known<'_, E> {
    /// When the last leg of the feature of that name ends.
    pub(crate) fn last_end(&self, name: &str) -> Option<Ms> {
        match self.ends {
            Some(ends) => ends.last_end(name),
            None => None,
        }
    }
}
