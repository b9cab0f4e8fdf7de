// Which label refers to which, found by going down each definition; and strata of the labels.
use draft::{Draft, ShapeRow, TripleRow};
use std::alloc::{AllocError, Global};

// An ARC in the definition of a label.
#[derive(Clone, Copy)]
pub struct Reference {
    pub from: u8,
    pub set: u8,
    pub to: u8,
    pub negated: bool,
}

// No definition of a draft is deeper.
pub(crate) const DEEPEST: u8 = 130;

pub fn find_references(heap: Global, draft: &Draft) -> Result<Vec<Reference>, AllocError> {
    let mut found = Vec::new(heap);
    for (label, row) in (0..32).zip(draft.definitions) {
        in_shape(draft, DEEPEST, *row, label, false, &mut found)?;
    }
    Ok(found)
}

fn in_shape(
    draft: &Draft,
    depth: u8,
    row: u8,
    from: u8,
    negated: bool,
    found: &mut Vec<Reference>,
) -> Result<(), AllocError> {
    if depth == 0 {
        return Ok(());
    }
    match draft.shapes.get(usize::from(row)).copied() {
        Some(ShapeRow::Hood(triple)) => in_triple(draft, DEEPEST, triple, from, negated, found),
        Some(ShapeRow::And(a, b)) | Some(ShapeRow::Or(a, b)) => {
            in_shape(draft, depth - 1, a, from, negated, found)?;
            in_shape(draft, depth - 1, b, from, negated, found)
        }
        Some(ShapeRow::Not(a)) => in_shape(draft, depth - 1, a, from, true, found),
        Some(ShapeRow::Value(_)) | None => Ok(()),
    }
}

fn in_triple(
    draft: &Draft,
    depth: u8,
    row: u8,
    from: u8,
    negated: bool,
    found: &mut Vec<Reference>,
) -> Result<(), AllocError> {
    if depth == 0 {
        return Ok(());
    }
    match draft.triples.get(usize::from(row)).copied() {
        Some(TripleRow::Arc(set, to)) => {
            found.push(Reference {
                from,
                set,
                to,
                negated,
            })?;
            Ok(())
        }
        Some(TripleRow::Each(a, b)) | Some(TripleRow::Some(a, b)) => {
            in_triple(draft, depth - 1, a, from, negated, found)?;
            in_triple(draft, depth - 1, b, from, negated, found)
        }
        Some(TripleRow::Times(a, _, _)) => in_triple(draft, depth - 1, a, from, negated, found),
        Some(TripleRow::Empty) | None => Ok(()),
    }
}

// The number that a stratification by these bytes gives the label; 0 if there is none.
fn number(bytes: &[u8], label: u8) -> u8 {
    bytes.get(usize::from(label)).copied().unwrap_or(0)
}

// The lowest number that the reference leaves to its label.
fn lowest(bytes: &[u8], reference: Reference) -> u8 {
    number(bytes, reference.to).saturating_add(u8::from(reference.negated))
}

// Whether the first bytes, one for each label, are from 1 to 32.
fn within(bytes: &[u8], labels: usize) -> bool {
    bytes
        .iter()
        .take(labels)
        .all(|byte| *byte >= 1 && *byte <= 32)
}

// Whether the first bytes, one for each label, are a stratification.
pub fn stratifies(references: &[Reference], labels: usize, bytes: &[u8]) -> bool {
    bytes.len() >= labels
        && within(bytes, labels)
        && references.iter().all(|reference| number(bytes, reference.from)
            >= lowest(bytes, *reference))
}

// Raises each label that is too low for its references, once.
fn raise(references: &[Reference], strata: &mut [u8; 32]) {
    for reference in references {
        let least = lowest(strata, *reference);
        if let Some(stratum) = strata.get_mut(usize::from(reference.from)) {
            *stratum = least.max(*stratum);
        }
    }
}

// The lowest stratification; the bytes are none if a negated reference lies on a cycle.
pub fn strata(references: &[Reference]) -> [u8; 32] {
    let mut strata = [1; 32];
    for _ in 0..40 {
        raise(references, &mut strata);
    }
    strata
}
