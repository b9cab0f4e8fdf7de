// Whether a validator and its store are as the book says.
use crate::book::Book;
use refusal::Fault;
use replay::Answer;
use std::alloc::AllocError;
use triple::{Store, Triple};
use validate::Validate;

pub fn same(a: Answer, b: Answer) -> bool {
    match (a, b) {
        (Answer::Accepted, Answer::Accepted) => true,
        (Answer::Verdict(x), Answer::Verdict(y)) => x == y,
        (Answer::Held(x), Answer::Held(y)) => x == y,
        (Answer::Pairs(x), Answer::Pairs(y)) => x == y,
        (Answer::Refused(x, n), Answer::Refused(y, m)) => x == y && n == m,
        _ => false,
    }
}

// Whether the store has the triple, by its questions alone.
pub fn has_arc<S: Store>(store: &S, triple: Triple) -> bool {
    let arc = Some((triple.property, triple.object));
    (0..store.fan(triple.subject)).any(|place| store.arc(triple.subject, place) == arc)
}

// Whether the store has the book's triples, and no other.
pub fn same_triples<S: Store>(store: &S, book: &Book) -> bool {
    usize::from(store.total()) == book.triples.len()
        && book.triples.iter().all(|triple| has_arc(store, *triple))
}

// Whether the validator holds the book's pairs, each with the book's verdict, and no other.
pub fn same_held<A: Validate>(validator: &A, book: &mut Book) -> Result<bool, AllocError> {
    for node in 0..book.nodes {
        for label in 0..32u8 {
            let given = match validator.held(node, label) {
                Ok(verdict) => Answer::Held(verdict),
                Err(fault) => Answer::Refused(fault.layer(), fault.number()),
            };
            if !same(given, book.held(node, label)?) {
                return Ok(false);
            }
        }
    }
    Ok(true)
}
