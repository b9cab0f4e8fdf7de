// The text of each refusal.
use draft::{SchemaFault, Table};
use std::test::Fail;

const TEXTS: [(SchemaFault, &str); 10] = [
    (
        SchemaFault::TooLong(Table::Labels),
        "there are too many labels: row 32 is past the last",
    ),
    (
        SchemaFault::TooLong(Table::ShapeRows),
        "there are too many shape rows: row 128 is past the last",
    ),
    (
        SchemaFault::TooLong(Table::TripleRows),
        "there are too many triple rows: row 128 is past the last",
    ),
    (
        SchemaFault::TooLong(Table::Sets),
        "there are too many property sets: row 32 is past the last",
    ),
    (
        SchemaFault::Definition(7),
        "label 7 is defined by no shape row",
    ),
    (
        SchemaFault::ShapeRow(1),
        "shape row 1 names a row that it may not name",
    ),
    (
        SchemaFault::TripleRow(2),
        "triple row 2 names a row, a set or a label that it may not name",
    ),
    (
        SchemaFault::Bounds(3),
        "triple row 3 has its most below its least",
    ),
    (
        SchemaFault::Negation(4, 5),
        "the negated reference from label 4 to label 5 lies on a cycle",
    ),
    (
        SchemaFault::ShortBuffer,
        "there are fewer bytes than labels",
    ),
];

#[test]
fn each_refusal(rt: HostRuntime) -> Result<(), Fail> {
    let alloc = rt.alloc();
    for (fault, text) in TEXTS {
        assert_eq!(rt; format!(in alloc; "{fault}")?.as_str(), text);
    }
    Ok(())
}
