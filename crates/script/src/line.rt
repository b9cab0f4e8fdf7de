// A script as lines, each read into what it asks for.
ghost use Rattle.std.specs.Prelude.{◌≤◌, length, IfOk};

use crate::command::{Command, OwnCommand, read_command};
use crate::expected::Expected;
use std::alloc::{AllocError, Global};

// A line that is not blank, with its number in the script, from 1, and without its comment.
#[derive(Clone, Copy)]
pub struct Line<'a, O> {
    pub number: usize,
    pub text: &'a str,
    pub command: Result<Command<O>, Expected>,
}

// The line without its comment, which begins with #, and without the blanks around it.
fn uncommented(line: &str) -> &str {
    line.split_once('#').map_or(line, |(text, _)| text).trim()
}

// The line, or nothing where it is blank.
pub fn read_line<'a, O: OwnCommand<'a>>(index: usize, line: &'a str) -> Option<Line<'a, O>> {
    let text = uncommented(line);
    let command = read_command(text).transpose()?;
    Some(Line {
        number: index.saturating_add(1),
        text,
        command,
    })
}

// All lines of a script that are not blank, in order.
pub fn read_lines<'a, O: OwnCommand<'a>>(
    heap: Global,
    text: &'a str,
) -> Result<Vec<Line<'a, O>>, AllocError>
    ensures { IfOk result (λ lines. length lines.items ≤ length text.now) }
{
    // A loop: a closure is not proved that calls by a bound with a lifetime.
    let mut lines = Vec::new(heap);
    for (index, line) in text.lines().enumerate() {
        if let Some(line) = read_line(index, line) {
            lines.push(line)?;
        }
    }
    Ok(lines)
}
