// The lines of a script that call the validator.
use script::{Expected, read_node, read_number, read_triple};
use std::str::SplitWhitespace;
use triple::Triple;

#[derive(Clone, Copy)]
pub enum CallLine {
    Add(Triple),
    Withdraw(Triple),
    Look(u16, u8),
    Held(u16, u8),
    Sweep(SweepLine),
}

// A sweep by strata that are proposed, or by the schema's own; into a table of so many bytes, or one that is as
// long as it has to be.
#[derive(Clone, Copy)]
pub struct SweepLine {
    pub strata: Option<Proposal>,
    pub room: Option<u16>,
}

// The first `given` bytes are proposed. An array and a count, as in the sweep of a list of calls, which is made of it.
#[derive(Clone, Copy)]
pub struct Proposal {
    pub strata: [u8; 33],
    pub given: u8,
}

impl CallLine {
    pub fn is_edit(&self) -> bool {
        matches!(self, CallLine::Add(_) | CallLine::Withdraw(_))
    }
}

impl Proposal {
    // Takes one stratum more; past the 33rd they are read and left out.
    fn read(&mut self, word: &str) -> Result<(), Expected> {
        let stratum = word.parse().map_err(|_| Expected::Strata)?;
        if let Some(place) = self.strata.get_mut(usize::from(self.given)) {
            *place = stratum;
            self.given = self.given.saturating_add(1);
        }
        Ok(())
    }
}

fn read_label(words: &mut SplitWhitespace) -> Result<u8, Expected> {
    read_number(words, Expected::Label)
}

pub fn read_call(name: &str, words: &mut SplitWhitespace) -> Result<CallLine, Expected> {
    match name {
        "add" => Ok(CallLine::Add(read_triple(words)?)),
        "withdraw" => Ok(CallLine::Withdraw(read_triple(words)?)),
        "look" => Ok(CallLine::Look(read_node(words)?, read_label(words)?)),
        "held" => Ok(CallLine::Held(read_node(words)?, read_label(words)?)),
        "sweep" => Ok(CallLine::Sweep(read_sweep(words)?)),
        _ => Err(Expected::DayCommand),
    }
}

// All words up to the end of the line, of which the first is already read.
fn read_proposal<'a>(
    first: Option<&'a str>,
    words: &mut SplitWhitespace<'a>,
) -> Result<Proposal, Expected> {
    let mut proposal = Proposal {
        strata: [0; 33],
        given: 0,
    };
    for word in first.into_iter().chain(words) {
        proposal.read(word)?;
    }
    Ok(proposal)
}

// All words up to the end of the line: `own` or strata, and before them perhaps `room` with a number of bytes.
fn read_sweep(words: &mut SplitWhitespace) -> Result<SweepLine, Expected> {
    let mut first = words.next();
    let mut room = None;
    if first == Some("room") {
        room = Some(read_number(words, Expected::Room)?);
        first = words.next();
    }
    let strata = match first {
        Some("own") => None,
        _ => Some(read_proposal(first, words)?),
    };
    Ok(SweepLine { strata, room })
}
