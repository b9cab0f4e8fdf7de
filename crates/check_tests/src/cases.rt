// A node 0 whose arcs all have one property, over nodes that are whole numbers.
use chain::ChainStore;
use draft::{Draft, PropertySet, SchemaFault, ShapeRow, TripleRow};
use node_check::{Checker, Scratch};
use tables::LawfulTables;
use triple::{Store, StoreFault, Triple};
use values::{Term, TermKind, TermTable, Test};

// Node i is the whole number i.
const NUMBERS: [Term; 10] = [
    Term {
        kind: TermKind::Whole(0),
    },
    Term {
        kind: TermKind::Whole(1),
    },
    Term {
        kind: TermKind::Whole(2),
    },
    Term {
        kind: TermKind::Whole(3),
    },
    Term {
        kind: TermKind::Whole(4),
    },
    Term {
        kind: TermKind::Whole(5),
    },
    Term {
        kind: TermKind::Whole(6),
    },
    Term {
        kind: TermKind::Whole(7),
    },
    Term {
        kind: TermKind::Whole(8),
    },
    Term {
        kind: TermKind::Whole(9),
    },
];

const TESTS: [Test; 2] = [Test::Whole(0, 9), Test::Whole(0, 4)];

pub(crate) fn values() -> TermTable<'static> {
    TermTable::new(&NUMBERS, &TESTS)
}

// Label 0 is HOOD of a triple row, label 1 the numbers up to 9, label 2 those up to 4; set 0 has property 1 alone.
pub(crate) fn schema(triples: &[TripleRow], hood: u8) -> Result<LawfulTables, SchemaFault> {
    let shapes = [ShapeRow::Hood(hood), ShapeRow::Value(0), ShapeRow::Value(1)];
    let sets = [PropertySet::from_words([2, 0, 0, 0])];
    LawfulTables::of(&Draft {
        definitions: &[0, 1, 2],
        shapes: &shapes,
        triples,
        sets: &sets,
    })
}

pub(crate) fn store(objects: &[u16]) -> Result<ChainStore, StoreFault> {
    let mut store = ChainStore::new(10);
    for object in objects {
        store.put(Triple {
            subject: 0,
            property: 1,
            object: *object,
        })?;
    }
    Ok(store)
}

// The typing of the numbers by the labels 1 and 2.
pub(crate) fn typing(tables: &LawfulTables, store: &ChainStore, scratch: &mut Scratch) -> [u8; 30] {
    let values = values();
    let mut check = Checker {
        tables,
        store,
        values: &values,
        scratch,
    };
    let mut table = [0; 30];
    for (node, row) in (0..10).zip(table.chunks_exact_mut(3)) {
        for (label, byte) in (0..3).zip(row).skip(1) {
            *byte = u8::from(check.satisfies(&[], node, label));
        }
    }
    table
}
