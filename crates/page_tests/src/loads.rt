// A load beside the adds that it counts as, made on a plain book.
use crate::format::{Outcome, entries, refusal, told};
use draft::{Draft, PropertySet, ShapeRow, TripleRow};
use model::{Book, Facts, same_held, same_triples};
use page::load;
use refusal::{Fault, Layer};
use replay::Answer;
use schema::Schema;
use std::alloc::{AllocError, Global};
use std::process::Abort;
use std::test::Fail;
use triple::{Store, Triple};
use validate::Validate;
use validator::Validator;
use values::ValueTest;

pub(crate) fn t(subject: u16, property: u8, object: u16) -> Triple {
    Triple {
        subject,
        property,
        object,
    }
}

// The tables of a draft.
#[derive(Clone, Copy)]
pub(crate) struct Rows {
    shapes: [ShapeRow; 3],
    triples: [TripleRow; 3],
    sets: [PropertySet; 2],
}

// Label 0: all arcs go to label 0. Label 1: not exactly one arc, with property 1, to label 0.
pub(crate) fn two_labels() -> Rows {
    let every = 18446744073709551615;
    Rows {
        shapes: [ShapeRow::Hood(1), ShapeRow::Hood(2), ShapeRow::Not(1)],
        triples: [
            TripleRow::Arc(0, 0),
            TripleRow::Times(0, 0, None),
            TripleRow::Arc(1, 0),
        ],
        sets: [
            PropertySet::from_words([every; 4]),
            PropertySet::from_words([2, 0, 0, 0]),
        ],
    }
}

impl Rows {
    pub(crate) fn draft(&self) -> Draft<'_> {
        Draft {
            definitions: &[0, 2],
            shapes: &self.shapes,
            triples: &self.triples,
            sets: &self.sets,
        }
    }
}

pub(crate) fn schema() -> Schema {
    let mut schema = Schema::new();
    let _ = schema.accept(&two_labels().draft());
    schema
}

// The adds of the entries, until one is refused.
fn add_all(book: &mut Book, triples: &[Triple]) -> Result<Outcome, AllocError> {
    for (at, triple) in triples.iter().enumerate() {
        if let Answer::Refused(layer, number) = book.add(*triple)? {
            return Ok(Outcome::Entry(22, at, layer, number));
        }
    }
    Ok(Outcome::Loaded(triples.len()))
}

fn load_book(heap: Global, book: &mut Book, page: &[u8]) -> Result<Outcome, AllocError> {
    if let Some(refused) = refusal(page, book.nodes) {
        return Ok(refused);
    }
    let triples = entries(heap, page, book.nodes)?;
    add_all(book, triples.as_slice())
}

// The same load on the validator and on the book: the same outcome, triples and held verdicts.
pub(crate) fn load_both<S: Store + Drop, V: ValueTest + Drop>(
    rt: &impl Abort,
    heap: Global,
    validator: &mut Validator<S, V>,
    book: &mut Book,
    page: &[u8],
) -> Result<Outcome, Fail> {
    let expected = load_book(heap, book, page)?;
    let given = load(validator, page);
    if let Err(fault) = given {
        assert!(rt; fault.layer() == Layer::Page);
    }
    assert_eq!(rt; told(given), expected);
    assert!(rt; same_triples(validator.store(), book), "the triples");
    assert!(rt; same_held(validator, book)?, "the held verdicts");
    Ok(expected)
}

fn start<S: Store>(
    rt: &impl Abort,
    store: &mut S,
    book: &mut Book,
    triples: &[Triple],
) -> Result<(), Fail> {
    for triple in triples {
        assert!(rt; store.put(*triple).is_ok());
        book.triples.push(*triple)?;
    }
    Ok(())
}

// Every verdict is held before a load, so that what it drops is seen.
fn sweep_both<A: Validate>(
    rt: &impl Abort,
    heap: Global,
    validator: &mut A,
    book: &mut Book,
) -> Result<(), Fail> {
    let mut table = vec![in heap; 0; 512]?;
    assert!(rt; validator.sweep(&[1, 2], table.as_mut_slice()).is_ok());
    let answer = book.sweep(&[1, 2], table.as_mut_slice())?;
    assert!(rt; matches!(answer, Answer::Pairs(_)));
    Ok(())
}

// A load into a validator whose store has some triples.
pub(crate) fn load_fresh<S: Store + Drop, V: ValueTest + Drop>(
    rt: &impl Abort,
    heap: Global,
    mut store: S,
    values: V,
    facts: Facts,
    before: &[Triple],
    page: &[u8],
) -> Result<Outcome, Fail> {
    let rows = two_labels();
    let capacity = usize::from(store.capacity());
    let mut book = Book::new(heap, rows.draft(), facts, store.node_count(), capacity)?;
    start(rt, &mut store, &mut book, before)?;
    let mut validator = Validator::new(schema(), store, values);
    sweep_both(rt, heap, &mut validator, &mut book)?;
    load_both(rt, heap, &mut validator, &mut book, page)
}
