// A validator from its making on, over a whole list of calls.
#![tactic(auto)]

ghost use Rattle.std.specs.Prelude.{◌≡◌, ℕ, length, take, drop, OnOk, OnErr};
ghost use Rattle.shapes.specs.References.{Stratification};
ghost use Rattle.ledger.specs.Sound.{Sound};
ghost use Rattle.schema.specs.Accepted.{meaning};
ghost use Rattle.validator.specs.Books.{opening};
ghost use Rattle.replay.specs.Runs.{all_lent, room_for};
ghost use Rattle.runs.specs.Promise.{Kept};

use replay::{Answer, Call, Short, replay};
use schema::Schema;
use triple::Store;
use validate::Validate;
use validator::Validator;
use values::ValueTest;

/// Makes a validator, and then the calls in their order. The answer to each stands at its own place; the tables
/// of the sweeps stand one after the other. No call is made if there are fewer answers than calls, or fewer
/// bytes than tables.
pub fn run<S: Store + Drop, V: ValueTest + Drop>(
    schema: Schema,
    store: S,
    values: V,
    calls: &[Call],
    answers: &mut [Answer],
    tables: &mut [u8],
) -> (Validator<S, V>, Result<(), Short>)
    ensures answer { result.1 ≡ room_for calls.now (length answers.old) (length tables.old) }
    ensures refused { OnErr result.1 (((⟦<Validator<S, V> as Validate>⟧.state result.0).ledger ≡ opening (S.Store.nodes store) (S.Store.capacity store) (S.Store.arcs store) (V.ValueTest.literals values) (V.ValueTest.passes values)) × (answers.new ≡ answers.old) × (tables.new ≡ tables.old)) }
    ensures kept { OnOk result.1 (Kept (meaning schema) (opening (S.Store.nodes store) (S.Store.capacity store) (S.Store.arcs store) (V.ValueTest.literals values) (V.ValueTest.passes values)) calls.now (take (length calls.now) answers.new) tables.old tables.new (⟦<Validator<S, V> as Validate>⟧.state result.0).ledger (⟦<Validator<S, V> as Validate>⟧.state result.0).verdicts) }
    ensures sound { (σ : ℕ → ℕ) → Stratification (meaning schema) σ → Sound (meaning schema) σ (⟦<Validator<S, V> as Validate>⟧.state result.0).ledger (⟦<Validator<S, V> as Validate>⟧.state result.0).verdicts }
    ensures same { (drop (length calls.now) answers.new ≡ drop (length calls.now) answers.old) × (drop (all_lent calls.now) tables.new ≡ drop (all_lent calls.now) tables.old) }
    ensures schema { (⟦<Validator<S, V> as Validate>⟧.state result.0).schema ≡ meaning schema }
{
    let mut validator = Validator::new(schema, store, values);
    let done = replay(&mut validator, calls, answers, tables);
    (validator, done)
}
