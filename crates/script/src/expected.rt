// What a line of a script should have had where it could not be read.
use std::fmt;

#[derive(Clone, Copy, Debug)]
pub enum Expected {
    Command,
    StoreKind,
    Node,
    NodeCount,
    RowCount,
    Property,
    Place,
    TestNumber,
    Term,
    Test,
    Value,
    Row,
    Set,
    Label,
    TripleRow,
    ShapeRow,
    Least,
    Most,
    End,
    Store,
    OneStore,
    Call,
    // What only the script of a day asks for.
    DayCommand,
    ValidatorEdit,
    Strata,
    Room,
    File,
}

// By hand: in an attribute the word "test" would be taken for that of a test.
impl fmt::Display for Expected {
    fn fmt<W: fmt::Write>(&self, f: &mut fmt::Formatter<W>) -> fmt::Result {
        f.write_str(match self {
            Expected::Command =>
                "a command: store, term, test, draft, set, triple, shape, label, accept, strata, put, take, fan, arc, arcs, total, literal, holds, typed, untyped, satisfies or satisfied",
            Expected::StoreKind => "a kind of store: chain NODES or rows NODES ROWS",
            Expected::Node => "a node from 0 to 65535",
            Expected::NodeCount => "a number of nodes from 0 to 65535",
            Expected::RowCount => "a number of rows from 0 to 65535",
            Expected::Property => "a property from 0 to 255",
            Expected::Place => "a place from 0 to 255",
            Expected::TestNumber => "a test number from 0 to 65535",
            Expected::Term => "a term: iri, blank, text or whole VALUE",
            Expected::Test => "a test: iri, blank, literal, text, whole LO HI or node FIRST LAST",
            Expected::Value => "a whole number from -2147483648 to 2147483647",
            Expected::Row => "a row from 0 to 255",
            Expected::Set => "a set: properties from 0 to 255, any, or any but properties",
            Expected::Label => "a label from 0 to 255",
            Expected::TripleRow =>
                "a triple row: empty, arc SET LABEL, each ROW ROW, some ROW ROW or times ROW LEAST MOST",
            Expected::ShapeRow =>
                "a shape row: value TEST, hood ROW, and ROW ROW, or ROW ROW or not ROW",
            Expected::Least => "a least from 0 to 255",
            Expected::Most => "a most from 0 to 255, or * for none",
            Expected::End => "the end of the line",
            Expected::Store => "a line that begins with store first",
            Expected::OneStore => "one store only",
            Expected::Call => "a call, since the house is described before the first call",
            Expected::DayCommand =>
                "a command: store, term, test, draft, set, triple, shape, label, accept, strata, put, take, fan, arc, arcs, total, literal, holds, typed, untyped, satisfies, satisfied, add, withdraw, look, held, sweep, load, save, list or house",
            Expected::ValidatorEdit => "add or withdraw, since the validator has the store",
            Expected::Strata => "own, or strata from 0 to 255",
            Expected::Room => "a number of bytes from 0 to 65535",
            Expected::File => "the name of a file",
        })
    }
}
