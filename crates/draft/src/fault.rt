// What accept and strata refuse with.
use std::fmt;
use thiserror::Error;

#[derive(Clone, Copy, PartialEq, Eq, Debug)]
pub enum Table {
    Labels,
    ShapeRows,
    TripleRows,
    Sets,
}

// Written out: thiserror would make a table an error too, and no derive of std prints names.
impl fmt::Display for Table {
    fn fmt<W: fmt::Write>(&self, f: &mut fmt::Formatter<W>) -> fmt::Result {
        match self {
            Table::Labels => write!(f, "labels"),
            Table::ShapeRows => write!(f, "shape rows"),
            Table::TripleRows => write!(f, "triple rows"),
            Table::Sets => write!(f, "property sets"),
        }
    }
}

// A case names the row at fault, or for a negation the two labels of the reference.
#[derive(Clone, Copy, PartialEq, Eq, Debug, Error)]
pub enum SchemaFault {
    #[error("there are too many {0}: row {limit} is past the last", limit = .0.limit())]
    TooLong(Table),
    #[error("label {0} is defined by no shape row")]
    Definition(u8),
    #[error("shape row {0} names a row that it may not name")]
    ShapeRow(u8),
    #[error("triple row {0} names a row, a set or a label that it may not name")]
    TripleRow(u8),
    #[error("triple row {0} has its most below its least")]
    Bounds(u8),
    #[error("the negated reference from label {0} to label {1} lies on a cycle")]
    Negation(u8, u8),
    #[error("there are fewer bytes than labels")]
    ShortBuffer,
}
