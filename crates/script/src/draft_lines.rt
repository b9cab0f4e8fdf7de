// The lines of a script that build a draft, row by row.
use crate::expected::Expected;
use crate::words::read_number;
use draft::{PropertySet, ShapeRow, TripleRow};
use std::str::SplitWhitespace;

#[derive(Clone, Copy)]
pub enum DraftLine {
    New,
    Set(PropertySet),
    Triple(TripleRow),
    Shape(ShapeRow),
    Label(u8),
    Accept,
    Strata,
}

fn read_row(words: &mut SplitWhitespace) -> Result<u8, Expected> {
    read_number(words, Expected::Row)
}

fn read_most(words: &mut SplitWhitespace) -> Result<Option<u8>, Expected> {
    match words.next() {
        Some("*") => Ok(None),
        Some(word) => word.parse().map(Some).map_err(|_| Expected::Most),
        None => Err(Expected::Most),
    }
}

fn read_triple_row(words: &mut SplitWhitespace) -> Result<TripleRow, Expected> {
    match words.next() {
        Some("empty") => Ok(TripleRow::Empty),
        Some("arc") => Ok(TripleRow::Arc(read_row(words)?, read_number(words, Expected::Label)?)),
        Some("each") => Ok(TripleRow::Each(read_row(words)?, read_row(words)?)),
        Some("some") => Ok(TripleRow::Some(read_row(words)?, read_row(words)?)),
        Some("times") => {
            let row = read_row(words)?;
            let least = read_number(words, Expected::Least)?;
            Ok(TripleRow::Times(row, least, read_most(words)?))
        }
        _ => Err(Expected::TripleRow),
    }
}

fn read_shape_row(words: &mut SplitWhitespace) -> Result<ShapeRow, Expected> {
    match words.next() {
        Some("value") => Ok(ShapeRow::Value(read_number(words, Expected::TestNumber)?)),
        Some("hood") => Ok(ShapeRow::Hood(read_row(words)?)),
        Some("and") => Ok(ShapeRow::And(read_row(words)?, read_row(words)?)),
        Some("or") => Ok(ShapeRow::Or(read_row(words)?, read_row(words)?)),
        Some("not") => Ok(ShapeRow::Not(read_row(words)?)),
        _ => Err(Expected::ShapeRow),
    }
}

// None where the name is of no such line.
pub(crate) fn read_draft_line(
    name: &str,
    words: &mut SplitWhitespace,
) -> Result<Option<DraftLine>, Expected> {
    Ok(Some(match name {
        "draft" => DraftLine::New,
        "set" => DraftLine::Set(read_set(words)?),
        "triple" => DraftLine::Triple(read_triple_row(words)?),
        "shape" => DraftLine::Shape(read_shape_row(words)?),
        "label" => DraftLine::Label(read_row(words)?),
        "accept" => DraftLine::Accept,
        "strata" => DraftLine::Strata,
        _ => return Ok(None),
    }))
}

// The bits of the properties that the words are, up to the end of the line.
fn read_bits<'a>(
    first: Option<&'a str>,
    words: &mut SplitWhitespace<'a>,
) -> Result<[u64; 4], Expected> {
    let mut bits = [0; 4];
    for word in first.into_iter().chain(words) {
        let property = word.parse::<u8>().map_err(|_| Expected::Set)?;
        bits[usize::from(property / 64)] |= 1 << (property % 64);
    }
    Ok(bits)
}

// All words up to the end of the line: properties, `any`, or `any but` properties.
fn read_set(words: &mut SplitWhitespace) -> Result<PropertySet, Expected> {
    let bits = match words.next() {
        Some("any") => match words.next() {
            Some("but") => read_bits(None, words)?.map(|word| !word),
            Some(_) => return Err(Expected::Set),
            None => [u64::MAX; 4],
        },
        first => read_bits(first, words)?,
    };
    Ok(PropertySet::from_words(bits))
}
