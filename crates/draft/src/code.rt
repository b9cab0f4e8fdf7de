// How many rows a table may have, and the layer and the number that a fault stands for.
ghost use Rattle.std.specs.Prelude.{◌≡◌};
ghost use Rattle.draft.specs.Refusals.{limit, told};

use crate::fault::{SchemaFault, Table};
use refusal::{Fault, Layer};

impl Table {
    pub fn limit(&self) -> u8
        ensures { result ≡ limit self.now }
    {
        match self {
            Table::Labels => 32,
            Table::ShapeRows | Table::TripleRows => 128,
            Table::Sets => 32,
        }
    }
}

impl Fault for SchemaFault {
    ghost refusal = { λ fault. ((told fault).0, (told fault).1) };

    fn number(&self) -> u8 {
        match self {
            SchemaFault::TooLong(_) => 1,
            SchemaFault::Definition(_) => 2,
            SchemaFault::ShapeRow(_) => 3,
            SchemaFault::TripleRow(_) => 4,
            SchemaFault::Bounds(_) => 5,
            SchemaFault::Negation(_, _) => 6,
            SchemaFault::ShortBuffer => 15,
        }
    }

    fn layer(&self) -> Layer {
        Layer::Schema
    }
}
