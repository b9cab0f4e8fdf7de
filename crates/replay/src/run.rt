// A list of calls, made one after the other.
ghost use Rattle.std.specs.Prelude.{◌≡◌, ℕ, length, take, drop, OnOk, OnErr};
ghost use Rattle.shapes.specs.References.{Stratification};
ghost use Rattle.ledger.specs.Ledger.{graph};
ghost use Rattle.validate.specs.Faults.{told};
ghost use Rattle.validate.specs.Promise.{Under, Keeps};
ghost use Rattle.replay.specs.Runs.{all_lent, reply, room_for, Step, Runs, Best};

use crate::call::{Answer, Call};
use thiserror::Error;
use validate::{Validate, ValidatorFault};

/// What there is too little of for a list of calls.
#[derive(Clone, Copy, PartialEq, Eq, Debug, Error)]
pub enum Short {
    #[error("there are fewer answers than calls")]
    Answers,
    #[error("there are fewer bytes than the tables of the sweeps have")]
    Tables,
}

// Whether there is an answer for each call, and room for the tables of all sweeps.
fn fits(calls: &[Call], answers: usize, bytes: usize) -> Result<(), Short>
    ensures { result ≡ room_for calls.now answers bytes }
{
    if answers < calls.len() {
        return Err(Short::Answers);
    }
    let mut left = bytes;
    for call in calls {
        let Some(rest) = left.checked_sub(usize::from(call.room())) else {
            return Err(Short::Tables);
        };
        left = rest;
    }
    Ok(())
}

// What a call answers, or the fault that refuses it.
fn attempt<A: Validate>(
    validator: &mut A,
    call: Call,
    table: &mut [u8],
) -> Result<Answer, ValidatorFault>
    ensures step { Under (A.Validate.state validator.old) (λ σ. Step (A.Validate.state validator.old).schema σ (A.Validate.state validator.old).ledger call (reply (λ a. a) (told result)) table.old table.new (A.Validate.state validator.new).ledger) }
    ensures kept { Keeps (A.Validate.state validator.old) (A.Validate.state validator.new) }
{
    Ok(match call {
        Call::Add(triple) => {
            validator.add(triple)?;
            Answer::Accepted
        }
        Call::Withdraw(triple) => {
            validator.withdraw(triple)?;
            Answer::Accepted
        }
        Call::Look(node, label) => Answer::Verdict(validator.look(node, label)?),
        Call::Held(node, label) => Answer::Held(validator.held(node, label)?),
        Call::Sweep(sweep) => Answer::Pairs(validator.sweep(sweep.proposed(), table)?),
    })
}

fn perform<A: Validate>(validator: &mut A, call: Call, table: &mut [u8]) -> Answer
    ensures step { Under (A.Validate.state validator.old) (λ σ. Step (A.Validate.state validator.old).schema σ (A.Validate.state validator.old).ledger call result table.old table.new (A.Validate.state validator.new).ledger) }
    ensures kept { Keeps (A.Validate.state validator.old) (A.Validate.state validator.new) }
{
    attempt(validator, call, table).unwrap_or_else(|fault| Answer::from(fault))
}

/// Makes the calls in their order. The answer to each stands at its own place; the tables of the sweeps
/// stand one after the other. Does nothing if there are fewer answers than calls, or fewer bytes than tables.
pub fn replay<A: Validate>(
    validator: &mut A,
    calls: &[Call],
    answers: &mut [Answer],
    tables: &mut [u8],
) -> Result<(), Short>
    ensures answer { result ≡ room_for calls.now (length answers.old) (length tables.old) }
    ensures refused { OnErr result ((validator.new ≡ validator.old) × (answers.new ≡ answers.old) × (tables.new ≡ tables.old)) }
    ensures runs { OnOk result (Under (A.Validate.state validator.old) (λ σ. Runs (A.Validate.state validator.old).schema σ (A.Validate.state validator.old).ledger calls.now (take (length calls.now) answers.new) tables.old tables.new (A.Validate.state validator.new).ledger)) }
    ensures kept { Keeps (A.Validate.state validator.old) (A.Validate.state validator.new) }
    ensures typing { (σ : ℕ → ℕ) → Stratification (A.Validate.state validator.old).schema σ → Best (A.Validate.state validator.old).schema (graph (A.Validate.state validator.new).ledger) σ }
    ensures same { (drop (length calls.now) answers.new ≡ drop (length calls.now) answers.old) × (drop (all_lent calls.now) tables.new ≡ drop (all_lent calls.now) tables.old) }
{
    fits(calls, answers.len(), tables.len())?;
    // The answers by their places: what a loop over `zip` writes through `iter_mut` is not known to the check.
    let mut at = 0;
    for (i, call) in calls.iter().enumerate() {
        let end = at + usize::from(call.room());
        answers[i] = perform(validator, *call, &mut tables[at..end]);
        at = end;
    }
    Ok(())
}
