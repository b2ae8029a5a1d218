//! What a callback is given.
use std::alloc::{AllocError, Global};

/// What a callback was given, as long as memory for it was granted.
#[derive(Drop)]
pub struct Noted<E> {
    given: Vec<E>,
    is_refused: bool,
}

impl<E: Drop> Noted<E> {
    /// Nothing yet.
    pub fn new(alloc: Global) -> Noted<E> {
        Noted {
            given: Vec::new(alloc),
            is_refused: false,
        }
    }

    /// Notes what is given.
    pub fn push(&mut self, it: E) {
        if self.given.push(it).is_err() {
            self.is_refused = true;
        }
    }

    /// All that was given, unless memory was refused.
    pub fn all(self) -> Result<Vec<E>, AllocError> {
        if self.is_refused {
            return Err(AllocError);
        }
        Ok(self.given)
    }
}
