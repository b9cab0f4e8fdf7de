// Lines of a script, carried out one after the other.
use crate::command::{Command, OwnCommand};
use crate::described::{RunOver, run_described};
use crate::description::Description;
use crate::line::{Line, read_line};
use crate::telling::tell;
use crate::trouble::Trouble;
use std::fmt;
use triple::Store;

// What carries out lines, up to the first that it leaves to what comes after.
pub trait CarryOut<O> {
    type Answer: fmt::Display + Drop;

    type Failure: fmt::Display + Drop;

    // None where the line is left.
    fn carry_out(
        &mut self,
        command: Command<O>,
    ) -> Option<Result<Self::Answer, Trouble<Self::Failure>>>;
}

// Whether the line is carried out; one that is left prints nothing.
fn carry_out_line<R: Print, O: Copy, C: CarryOut<O>>(
    rt: &R,
    to: &mut C,
    line: &Line<O>,
) -> anyhow::Result<bool> {
    let result = match line.command {
        Ok(command) => match to.carry_out(command) {
            Some(result) => result,
            None => return Ok(false),
        },
        Err(expected) => Err(Trouble::Unreadable(expected)),
    };
    tell(rt, line, result)?;
    Ok(true)
}

// Answers the lines from the first that is left on.
pub fn carry_out_all<'l, 'a, R: Print, O: Copy, C: CarryOut<O>>(
    rt: &R,
    to: &mut C,
    lines: &'l [Line<'a, O>],
) -> anyhow::Result<&'l [Line<'a, O>]> {
    for (index, line) in lines.iter().enumerate() {
        if !carry_out_line(rt, to, line)? {
            return Ok(&lines[index..]);
        }
    }
    Ok(&[])
}

// Passes over so many lines, reads each of the others when it is carried out, and answers how many come before the
// first that is left.
pub fn carry_out_text<'a, R: Print, O: OwnCommand<'a>, C: CarryOut<O>>(
    rt: &R,
    to: &mut C,
    text: &'a str,
    passed: usize,
) -> anyhow::Result<Option<usize>> {
    for (index, line) in text.lines().enumerate().skip(passed) {
        if let Some(line) = read_line::<O>(index, line)
            && !carry_out_line(rt, to, &line)?
        {
            return Ok(Some(index));
        }
    }
    Ok(None)
}

// What a program does with a house once it is described.
pub trait OverStore<O> {
    // Carries out the lines behind the description over the house's store, which is still empty.
    fn run_over<S: Store + Drop>(
        &self,
        store: S,
        house: &mut Description,
        lines: &[Line<O>],
    ) -> anyhow::Result<()>;
}

// A program with the lines behind the description.
#[derive(Clone, Copy)]
struct OverLines<'p, 'l, 'a, P, O> {
    program: &'p P,
    lines: &'l [Line<'a, O>],
}

impl<O: Copy, P: OverStore<O>> RunOver for OverLines<'_, '_, '_, P, O> {
    fn run_over<S: Store + Drop>(&self, store: S, house: &mut Description) -> anyhow::Result<()> {
        self.program.run_over(store, house, self.lines)
    }
}

// Carries out the lines of one house, its description first.
pub fn run_house<R: Print + AllocGlobal, O: Copy, P: OverStore<O>>(
    rt: &R,
    program: &P,
    lines: &[Line<O>],
) -> anyhow::Result<()> {
    let mut house = Description::new(rt.alloc());
    let rest = carry_out_all(rt, &mut house, lines)?;
    let program = OverLines {
        program,
        lines: rest,
    };
    run_described(rt, &program, &mut house)
}
