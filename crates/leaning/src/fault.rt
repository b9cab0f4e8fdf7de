// Why a search is refused.
use thiserror::Error;

#[derive(Clone, Copy, PartialEq, Eq, Debug, Error)]
pub enum ReachFault {
    #[error("there is no such pair")]
    NoPair,
    #[error("a slice has fewer elements than there are pairs")]
    ShortSlice,
}
