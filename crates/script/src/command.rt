// What a line of a script asks for.
use crate::draft_lines::{DraftLine, read_draft_line};
use crate::expected::Expected;
use crate::question::{Question, read_question};
use crate::words::{read_node, read_number, read_triple};
use std::convert::Infallible;
use std::str::SplitWhitespace;
use triple::Triple;
use values::{TermKind, Test};

// `O` is the commands that only one program has.
#[derive(Clone, Copy)]
pub enum Command<O> {
    Store(StoreKind),
    Term(TermKind),
    Test(Test),
    Draft(DraftLine),
    Edit(Edit),
    Question(Question),
    Own(O),
}

// Each kind with its number of nodes, and the row store with its number of rows.
#[derive(Clone, Copy)]
pub enum StoreKind {
    Chain(u16),
    Rows(u16, u16),
}

#[derive(Clone, Copy)]
pub enum Edit {
    Put(Triple),
    Take(Triple),
}

// The commands that only one program has.
pub trait OwnCommand<'a>: Copy {
    // Reads the words behind the name, which is of no command that every program has.
    fn read_own(name: &str, words: &mut SplitWhitespace<'a>) -> Result<Self, Expected>;
}

// A program with no command of its own.
impl<'a> OwnCommand<'a> for Infallible {
    fn read_own(_name: &str, _words: &mut SplitWhitespace<'a>) -> Result<Infallible, Expected> {
        Err(Expected::Command)
    }
}

fn read_value(words: &mut SplitWhitespace) -> Result<i32, Expected> {
    read_number(words, Expected::Value)
}

fn read_store(words: &mut SplitWhitespace) -> Result<StoreKind, Expected> {
    match words.next() {
        Some("chain") => Ok(StoreKind::Chain(read_number(words, Expected::NodeCount)?)),
        Some("rows") => {
            let nodes = read_number(words, Expected::NodeCount)?;
            Ok(StoreKind::Rows(nodes, read_number(words, Expected::RowCount)?))
        }
        _ => Err(Expected::StoreKind),
    }
}

fn read_term(words: &mut SplitWhitespace) -> Result<TermKind, Expected> {
    match words.next() {
        Some("iri") => Ok(TermKind::Iri),
        Some("blank") => Ok(TermKind::Blank),
        Some("text") => Ok(TermKind::Text),
        Some("whole") => Ok(TermKind::Whole(read_value(words)?)),
        _ => Err(Expected::Term),
    }
}

fn read_test(words: &mut SplitWhitespace) -> Result<Test, Expected> {
    match words.next() {
        Some("iri") => Ok(Test::Iri),
        Some("blank") => Ok(Test::Blank),
        Some("literal") => Ok(Test::Literal),
        Some("text") => Ok(Test::Text),
        Some("whole") => Ok(Test::Whole(read_value(words)?, read_value(words)?)),
        Some("node") => Ok(Test::Node(read_node(words)?, read_node(words)?)),
        _ => Err(Expected::Test),
    }
}

fn read_named<'a, O: OwnCommand<'a>>(
    name: &str,
    words: &mut SplitWhitespace<'a>,
) -> Result<Command<O>, Expected> {
    match name {
        "store" => return Ok(Command::Store(read_store(words)?)),
        "term" => return Ok(Command::Term(read_term(words)?)),
        "test" => return Ok(Command::Test(read_test(words)?)),
        "put" => return Ok(Command::Edit(Edit::Put(read_triple(words)?))),
        "take" => return Ok(Command::Edit(Edit::Take(read_triple(words)?))),
        _ => {}
    }
    if let Some(line) = read_draft_line(name, words)? {
        return Ok(Command::Draft(line));
    }
    if let Some(question) = read_question(name, words)? {
        return Ok(Command::Question(question));
    }
    Ok(Command::Own(O::read_own(name, words)?))
}

// What the line asks for; nothing where it is blank. The line is without its comment.
pub(crate) fn read_command<'a, O: OwnCommand<'a>>(
    line: &'a str,
) -> Result<Option<Command<O>>, Expected> {
    let mut words = line.split_whitespace();
    let Some(name) = words.next() else {
        return Ok(None);
    };
    let command = read_named(name, &mut words)?;
    match words.next() {
        None => Ok(Some(command)),
        Some(_) => Err(Expected::End),
    }
}

impl<O> Command<O> {
    // Whether it is a line of a description.
    pub(crate) fn describes(&self) -> bool {
        matches!(
            self,
            Command::Store(_) | Command::Term(_) | Command::Test(_) | Command::Draft(_)
        )
    }
}
