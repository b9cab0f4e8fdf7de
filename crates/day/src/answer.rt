// What a line of a day answers.
use crate::call_answer::{CallAnswer, Refusal};
use crate::pages::PageAnswer;
use script::Answer;
use std::fmt;

#[derive(Drop)]
pub enum DayAnswer {
    Common(Answer),
    Call(Result<CallAnswer, Refusal>),
    Page(PageAnswer),
}

impl fmt::Display for DayAnswer {
    fn fmt<W: fmt::Write>(&self, f: &mut fmt::Formatter<W>) -> fmt::Result {
        match self {
            DayAnswer::Common(answer) => write!(f, "{answer}"),
            DayAnswer::Call(Ok(answer)) => write!(f, "{answer}"),
            DayAnswer::Call(Err(refusal)) => write!(f, "{refusal}"),
            DayAnswer::Page(answer) => write!(f, "{answer}"),
        }
    }
}
