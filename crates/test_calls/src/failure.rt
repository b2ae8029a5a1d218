//! Why the program ends early.
use std::alloc::AllocError;
use std::io;

/// Why the program ends early.
pub enum Failure {
    /// Memory was refused elsewhere than in the call of a case.
    TooEarly,
    /// There is no such mode, command or case, or a command has no such number or bytes.
    NoSuchWord,
    /// The call of a case was refused twice, or nothing could be read or printed.
    Failed,
}

impl From<io::Error> for Failure {
    fn from(_fault: io::Error) -> Failure {
        Failure::Failed
    }
}

// What a case lends to its call is made before it.
impl From<AllocError> for Failure {
    fn from(_fault: AllocError) -> Failure {
        Failure::TooEarly
    }
}
