// Why a line was not carried out.
use crate::expected::Expected;
use std::alloc::{AllocError, AllocFailed};

// `F` is what else can fail in the program.
#[derive(Clone, Copy)]
pub enum Trouble<F> {
    Unreadable(Expected),
    NoMemory(AllocError),
    Failed(F),
}

impl<F> From<Expected> for Trouble<F> {
    fn from(expected: Expected) -> Trouble<F> {
        Trouble::Unreadable(expected)
    }
}

impl<F> From<AllocError> for Trouble<F> {
    fn from(error: AllocError) -> Trouble<F> {
        Trouble::NoMemory(error)
    }
}

impl<F, T: Drop> From<AllocFailed<T>> for Trouble<F> {
    fn from(_refused: AllocFailed<T>) -> Trouble<F> {
        Trouble::NoMemory(AllocError)
    }
}
