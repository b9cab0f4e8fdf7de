// Calls that stand next to each other in a script, as one list.
use crate::call_answer::{CallAnswer, Refusal};
use crate::call_lines::{CallLine, SweepLine};
use crate::command::{Line, call_on};
use replay::{Answer, Call, Sweep, replay};
use schema::Schema;
use std::alloc::{AllocError, Global};
use validate::Validate;

// The calls with a place for each answer, and the tables of the sweeps one after the other: a run of a list takes
// the three side by side.
#[derive(Drop)]
pub struct Batch {
    pub calls: Vec<Call>,
    pub answers: Vec<Answer>,
    pub tables: Vec<u8>,
}

// Calls that stand next to each other are one list; an edit is a list of its own.
pub fn are_one_list(line: &Line, next: &Line) -> bool {
    is_listed(line) && is_listed(next)
}

fn is_listed(line: &Line) -> bool {
    call_on(line).is_some_and(|call| !call.is_edit())
}

// What a call line means under a schema and over so many nodes.
fn call_of(line: CallLine, schema: &Schema, nodes: u16) -> Call {
    match line {
        CallLine::Add(triple) => Call::Add(triple),
        CallLine::Withdraw(triple) => Call::Withdraw(triple),
        CallLine::Look(node, label) => Call::Look(node, label),
        CallLine::Held(node, label) => Call::Held(node, label),
        CallLine::Sweep(sweep) => Call::Sweep(sweep_of(sweep, schema, nodes)),
    }
}

fn sweep_of(line: SweepLine, schema: &Schema, nodes: u16) -> Sweep {
    let labels = schema.label_count();
    let pairs = usize::from(nodes).saturating_mul(labels);
    let room = line
        .room
        .unwrap_or(u16::try_from(pairs).unwrap_or(u16::MAX));
    match line.strata {
        Some(proposal) => {
            let strata = proposal.strata;
            let given = proposal.given;
            Sweep {
                strata,
                given,
                room,
            }
        }
        None => {
            let mut strata = [0; 33];
            let _ = schema.strata(&mut strata);
            let given = u8::try_from(labels).unwrap_or(u8::MAX);
            Sweep {
                strata,
                given,
                room,
            }
        }
    }
}

impl Batch {
    // The calls that the lines are.
    pub fn new(
        heap: Global,
        lines: &[Line],
        schema: &Schema,
        nodes: u16,
    ) -> Result<Batch, AllocError> {
        let calls = lines.iter().filter_map(call_on);
        let calls: Vec<Call> = calls
            .map(|call| call_of(call, schema, nodes))
            .collect(heap)?;
        let rooms = calls.iter().map(|call| usize::from(call.room()));
        let room = rooms.fold(0usize, |sum, room| sum.saturating_add(room));
        Ok(Batch {
            answers: vec![in heap; Answer::Accepted; calls.len()]?,
            tables: vec![in heap; 0; room]?,
            calls,
        })
    }

    pub fn run_on<A: Validate>(&mut self, validator: &mut A) -> anyhow::Result<()> {
        replay(
            validator,
            self.calls.as_slice(),
            self.answers.as_mut_slice(),
            self.tables.as_mut_slice(),
        )?;
        Ok(())
    }
}

// What is told of a call and its answer: an edit with the verdicts that it dropped, a sweep with the pairs of its table.
pub fn told(
    heap: Global,
    call: Call,
    answer: Answer,
    table: &[u8],
    labels: usize,
    dropped: usize,
) -> Result<Result<CallAnswer, Refusal>, AllocError> {
    Ok(Ok(match answer {
        Answer::Accepted => CallAnswer::Edited(dropped),
        Answer::Verdict(verdict) => CallAnswer::Verdict(verdict),
        Answer::Held(verdict) => CallAnswer::Held(verdict),
        Answer::Pairs(count) => CallAnswer::Swept(count, pairs_of(heap, table, labels)?),
        Answer::Refused(layer, number) => {
            return Ok(Err(Refusal {
                call,
                layer,
                number,
            }));
        }
    }))
}

// The pairs of a table, each a node and a label.
fn pairs_of(heap: Global, table: &[u8], labels: usize) -> Result<Vec<(usize, usize)>, AllocError> {
    let labels = labels.max(1);
    let held = table.iter().enumerate().filter(|(_, byte)| **byte == 1);
    held.map(|(place, _)| (place / labels, place % labels))
        .collect(heap)
}
