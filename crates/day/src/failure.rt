// What else can fail in a line of a day.
use thiserror::Error;

#[derive(Clone, Copy, Debug, Error)]
pub enum FileFailure {
    #[error("the file cannot be read")]
    NotRead,
    #[error("the file cannot be written")]
    NotWritten,
}

pub type Trouble = script::Trouble<FileFailure>;
