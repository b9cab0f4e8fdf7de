// How a put or a take can fail.
use thiserror::Error;

#[derive(Clone, Copy, PartialEq, Eq, Debug, Error)]
pub enum StoreFault {
    #[error("the subject is not a node of the store")]
    NoSubject,
    #[error("the object is not a node of the store")]
    NoObject,
    #[error("the triple is present")]
    Present,
    #[error("the subject has 12 arcs")]
    FullNode,
    #[error("the store is full")]
    FullStore,
    #[error("the triple is absent")]
    Absent,
}
