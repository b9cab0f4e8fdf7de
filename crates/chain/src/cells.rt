// Cells, each with one arc, and the chains that they are linked to.

// An arc, whose object is one of at most 256 nodes, and the number of the next cell of its chain.
#[derive(Clone, Copy, Default)]
pub struct Cell {
    pub property: u8,
    pub object: u8,
    pub next: u16,
}

// The first cell of a chain, and how many cells it has.
#[derive(Clone, Copy, Default)]
pub struct Chain {
    pub head: u16,
    pub fan: u8,
}
