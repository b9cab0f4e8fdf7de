// What a command answers, and how it is printed.
use crate::items::Items;
use draft::SchemaFault;
use refusal::Fault;
use std::fmt;
use triple::StoreFault;

// A row is answered by its number, and a schema by how many labels it has.
#[derive(Drop)]
pub enum Answer {
    Nodes(u16),
    Node(usize),
    Test(usize),
    Draft,
    Set(usize),
    TripleRow(usize),
    ShapeRow(usize),
    Label(usize),
    Schema(Result<usize, SchemaFault>),
    Strata(Result<Vec<u8>, SchemaFault>),
    Edit(Result<(), StoreFault>),
    Fan(u8),
    Arc(Option<(u8, u16)>),
    Arcs(Vec<(u8, u16)>),
    Total(u16, u16),
    Truth(bool),
    Typed(usize),
    Pairs(Vec<(u16, u8)>),
}

// A fault with its number and its layer.
#[derive(Clone, Copy)]
pub struct Refused<F>(pub F);

impl<F: Fault + fmt::Display> fmt::Display for Refused<F> {
    fn fmt<W: fmt::Write>(&self, f: &mut fmt::Formatter<W>) -> fmt::Result {
        let Refused(fault) = self;
        let number = fault.number();
        let layer = fault.layer();
        write!(f, "refused with {number} by the {layer}: {fault}")
    }
}

impl fmt::Display for Answer {
    fn fmt<W: fmt::Write>(&self, f: &mut fmt::Formatter<W>) -> fmt::Result {
        match self {
            Answer::Nodes(nodes) => write!(f, "{nodes} nodes"),
            Answer::Node(node) => write!(f, "node {node}"),
            Answer::Test(test) => write!(f, "test {test}"),
            Answer::Draft => write!(f, "a new draft"),
            Answer::Set(row) => write!(f, "set {row}"),
            Answer::TripleRow(row) => write!(f, "triple row {row}"),
            Answer::ShapeRow(row) => write!(f, "shape row {row}"),
            Answer::Label(label) => write!(f, "label {label}"),
            Answer::Schema(Ok(labels)) => write!(f, "accepted, {labels} labels"),
            Answer::Strata(Ok(strata)) => items(strata.as_slice(), "no labels").fmt(f),
            Answer::Schema(Err(fault)) | Answer::Strata(Err(fault)) => Refused(*fault).fmt(f),
            Answer::Edit(Ok(())) => write!(f, "accepted"),
            Answer::Edit(Err(fault)) => Refused(*fault).fmt(f),
            Answer::Fan(fan) => write!(f, "{fan}"),
            Answer::Arc(Some((property, object))) => write!(f, "({property}, {object})"),
            Answer::Arc(None) => write!(f, "no arc"),
            Answer::Arcs(arcs) => items(arcs.as_slice(), "none").fmt(f),
            Answer::Total(total, capacity) => write!(f, "{total} of {capacity}"),
            Answer::Truth(true) => write!(f, "yes"),
            Answer::Truth(false) => write!(f, "no"),
            Answer::Typed(count) => write!(f, "{count} pairs"),
            Answer::Pairs(pairs) => items(pairs.as_slice(), "none").fmt(f),
        }
    }
}

fn items<'a, T>(items: &'a [T], none: &'static str) -> Items<'a, T> {
    Items { items, none }
}
