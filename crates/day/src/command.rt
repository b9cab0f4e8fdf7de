// The commands that only a day has.
use crate::call_lines::{CallLine, read_call};
use script::{Command, Expected, OwnCommand};
use std::str::SplitWhitespace;

pub type Line<'t, 'a> = script::Line<'t, DayCommand<'a>>;

#[derive(Clone, Copy)]
pub enum DayCommand<'a> {
    House,
    Call(CallLine),
    Load(&'a str),
    Page(PageQuestion<'a>),
}

// What changes neither the store nor a verdict; a page is saved to a file, or to none.
#[derive(Clone, Copy)]
pub enum PageQuestion<'a> {
    Save(Option<&'a str>),
    List(&'a str),
}

fn read_file<'a>(words: &mut SplitWhitespace<'a>) -> Result<&'a str, Expected> {
    words.next().ok_or(Expected::File)
}

impl<'a> OwnCommand<'a> for DayCommand<'a> {
    fn read_own(name: &str, words: &mut SplitWhitespace<'a>) -> Result<DayCommand<'a>, Expected> {
        match name {
            "house" => Ok(DayCommand::House),
            "load" => Ok(DayCommand::Load(read_file(words)?)),
            "save" => Ok(DayCommand::Page(PageQuestion::Save(words.next()))),
            "list" => Ok(DayCommand::Page(PageQuestion::List(read_file(words)?))),
            _ => Ok(DayCommand::Call(read_call(name, words)?)),
        }
    }
}

pub fn is_house(line: &Line) -> bool {
    matches!(line.command, Ok(Command::Own(DayCommand::House)))
}

// The call on the validator that the line is, if it is one.
pub fn call_on(line: &Line) -> Option<CallLine> {
    match line.command {
        Ok(Command::Own(DayCommand::Call(call))) => Some(call),
        _ => None,
    }
}
