// What a validator is made of: an accepted schema, a store, a value test, and fixed memory.
ghost use Rattle.std.specs.Prelude.{◌≡◌, ℕ};
ghost use Rattle.ledger.specs.Sound.{Sound};
ghost use Rattle.schema.specs.Accepted.{meaning};
ghost use Rattle.validator.specs.Books.{book, opening};

use node_check::Scratch;
use schema::Schema;
use stack::Goal;
use triple::Store;
use values::ValueTest;

// A byte for each pair of at most 256 nodes and 32 labels.
pub(crate) const PAIRS: usize = 8192;

// A pair is held if its byte in `held` is 1; then its byte in `verdicts` is 1 for yes. The rest is memory to work in.
// Bytes, and no `Option<bool>` for each pair: the check of a node reads the verdicts as a table in its callers' format.
#[derive(Drop)]
pub(crate) struct Memory {
    pub(crate) held: [u8; PAIRS],
    pub(crate) verdicts: [u8; PAIRS],
    pub(crate) wanted: [u8; PAIRS],
    pub(crate) goals: [Goal; PAIRS],
    pub(crate) scratch: Scratch,
}

#[derive(Drop)]
pub struct Validator<S: Store + Drop, V: ValueTest + Drop> {
    pub(crate) schema: Schema,
    pub(crate) store: S,
    pub(crate) values: V,
    pub(crate) memory: Memory,
}

impl<S: Store + Drop, V: ValueTest + Drop> Validator<S, V> {
    // A validator that holds no verdict.
    pub fn new(schema: Schema, store: S, values: V) -> Validator<S, V>
        ensures schema { result.schema ≡ schema }
        ensures store { result.store ≡ store }
        ensures values { result.values ≡ values }
        ensures ledger { book (S.Store.nodes store) (S.Store.capacity store) (S.Store.arcs store) (V.ValueTest.literals values) (V.ValueTest.passes values) (meaning schema).labels result.memory.held ≡ opening (S.Store.nodes store) (S.Store.capacity store) (S.Store.arcs store) (V.ValueTest.literals values) (V.ValueTest.passes values) }
        ensures sound { (σ : ℕ → ℕ) → Sound (meaning schema) σ (opening (S.Store.nodes store) (S.Store.capacity store) (S.Store.arcs store) (V.ValueTest.literals values) (V.ValueTest.passes values)) result.memory.verdicts }
    {
        let memory = Memory {
            held: [0; PAIRS],
            verdicts: [0; PAIRS],
            wanted: [0; PAIRS],
            goals: [Goal { node: 0, label: 0 }; PAIRS],
            scratch: Scratch::new(),
        };
        Validator {
            schema,
            store,
            values,
            memory,
        }
    }

    pub fn schema(&self) -> &Schema
        ensures { result.now ≡ self.now.schema }
    {
        &self.schema
    }

    pub fn store(&self) -> &S
        ensures { result.now ≡ self.now.store }
    {
        &self.store
    }

    pub fn values(&self) -> &V
        ensures { result.now ≡ self.now.values }
    {
        &self.values
    }
}
