// What a script asks of a store, its value tests and its typing.
use crate::expected::Expected;
use crate::words::{read_node, read_number};
use std::str::SplitWhitespace;

#[derive(Clone, Copy)]
pub enum Question {
    Fan(u16),
    Arc(u16, u8),
    Arcs(u16),
    Total,
    Literal(u16),
    Holds(u16, u16),
    Typed(u16, u8),
    Untyped,
    Satisfies(u16, u8),
    Satisfied,
}

fn read_label(words: &mut SplitWhitespace) -> Result<u8, Expected> {
    read_number(words, Expected::Label)
}

// None where the name is of no question.
pub(crate) fn read_question(
    name: &str,
    words: &mut SplitWhitespace,
) -> Result<Option<Question>, Expected> {
    Ok(Some(match name {
        "fan" => Question::Fan(read_node(words)?),
        "arc" => Question::Arc(read_node(words)?, read_number(words, Expected::Place)?),
        "arcs" => Question::Arcs(read_node(words)?),
        "total" => Question::Total,
        "literal" => Question::Literal(read_node(words)?),
        "holds" => Question::Holds(read_node(words)?, read_number(words, Expected::TestNumber)?),
        "typed" => Question::Typed(read_node(words)?, read_label(words)?),
        "untyped" => Question::Untyped,
        "satisfies" => Question::Satisfies(read_node(words)?, read_label(words)?),
        "satisfied" => Question::Satisfied,
        _ => return Ok(None),
    }))
}
