// Nodes of several kinds: as a term table, as the bytes of an answer sheet, and as plain facts.
use model::Facts;
use std::alloc::{AllocError, Global};
use triple::Triple;
use values::{Term, TermKind, Test};

pub(crate) fn t(subject: u16, property: u8, object: u16) -> Triple {
    Triple {
        subject,
        property,
        object,
    }
}

pub(crate) const TESTS: [Test; 4] = [
    Test::Whole(0, 9),
    Test::Whole(0, 99),
    Test::Iri,
    Test::Node(2, 5),
];

fn kind(node: u16) -> TermKind {
    match node % 8 {
        2 => TermKind::Blank,
        3 => TermKind::Whole(5),
        4 => TermKind::Whole(50),
        6 => TermKind::Text,
        _ => TermKind::Iri,
    }
}

pub(crate) fn terms(heap: Global, records: u16) -> Result<Vec<Term>, AllocError> {
    let mut terms = Vec::new(heap);
    for node in 0..records {
        terms.push(Term { kind: kind(node) })?;
    }
    Ok(terms)
}

// Which of the four tests hold at a node that has a record, read off the table above by hand.
fn passes(node: u16) -> [bool; 4] {
    let numbered = 2 <= node && node <= 5;
    match node % 8 {
        0 | 1 | 5 | 7 => [false, false, true, numbered],
        3 => [true, true, false, numbered],
        4 => [false, true, false, numbered],
        _ => [false, false, false, numbered],
    }
}

pub(crate) fn facts(heap: Global, records: u16) -> Result<Facts, AllocError> {
    let mut literals = Vec::new(heap);
    let mut answers = Vec::new(heap);
    for node in 0..records {
        literals.push(matches!(node % 8, 3 | 4 | 6))?;
        for answer in passes(node) {
            answers.push(answer)?;
        }
    }
    Ok(Facts {
        literals,
        passes: answers,
        tests: 4,
    })
}

// The bytes of an answer sheet: 1 for yes, and several others for no.
pub(crate) fn bytes(heap: Global, answers: &[bool]) -> Result<Vec<u8>, AllocError> {
    let mut bytes = Vec::new(heap);
    for (i, answer) in answers.iter().enumerate() {
        let no = match i % 3 {
            0 => 0,
            1 => 2,
            _ => 255,
        };
        bytes.push(if *answer { 1 } else { no })?;
    }
    Ok(bytes)
}
