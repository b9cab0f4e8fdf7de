// What a check of triple rows reads: the tables, the arcs of one node, and a typing as a table of bytes.
use crate::arcs::NodeArcs;
use tables::LawfulTables;

#[derive(Clone, Copy)]
pub struct Neighbourhood<'a> {
    pub tables: &'a LawfulTables,
    pub arcs: &'a NodeArcs,
    pub typing: &'a [u8],
}
