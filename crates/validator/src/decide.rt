// How verdicts are decided and held.
ghost use Rattle.std.specs.Prelude.{◌≡◌, ℕ, ◌*◌, ◌<◌, ◌≤◌, Bool, length, if◌then◌else◌, nat_eq, slice_index};
ghost use Rattle.shapes.specs.Bytes.{byte_typing};
ghost use Rattle.node_check.specs.Answers.{graph as graph_of};
ghost use Rattle.schema.specs.Accepted.{meaning};
ghost use Rattle.validator.specs.Marks.{Joined, Widens, LookedAt, AllDecided};

use crate::memory::{Memory, PAIRS};
use leaning::reach;
use node_check::{Checker, Scratch};
use refine::{NodeCheck, decide};
use schema::Schema;
use stack::Goal;
use triple::Store;
use values::ValueTest;

// Sets the bytes of the wanted pairs. Here and below one slice is written by place: what a loop over `zip` writes
// through `iter_mut` is not known to the check.
fn hold(size: usize, wanted: &[u8], held: &mut [u8])
    requires wanted_long { size ≤ length wanted.now }
    requires held_long { size ≤ length held.old }
    ensures { Joined size wanted.now held.old held.new }
{
    for (place, want) in wanted[..size].iter().enumerate() {
        if *want == 1 {
            held[place] = 1;
        }
    }
}

// Wants every pair that is not held.
fn want_unheld(size: usize, held: &[u8], wanted: &mut [u8])
    requires held_long { size ≤ length held.now }
    requires wanted_long { size ≤ length wanted.old }
    ensures { (k : ℕ) → k < size → slice_index wanted.new k ≡ (if nat_eq (slice_index held.now k) 1 then 0 else 1) }
{
    for (place, byte) in held[..size].iter().enumerate() {
        wanted[place] = u8::from(*byte != 1);
    }
}

// Decides the wanted pairs.
fn widen<'a, S: Store, V: ValueTest>(
    schema: &'a Schema,
    store: &'a S,
    values: &'a V,
    scratch: &'a mut Scratch,
    held: &[u8; PAIRS],
    wanted: &[u8; PAIRS],
    verdicts: &mut [u8; PAIRS],
)
    ensures { Widens (meaning schema.now) (graph_of (S.Store.nodes store.now) (S.Store.arcs store.now) (V.ValueTest.passes values.now)) (byte_typing (S.Store.nodes store.now) (meaning schema.now).labels held.now) (byte_typing (S.Store.nodes store.now) (meaning schema.now).labels wanted.now) (byte_typing (S.Store.nodes store.now) (meaning schema.now).labels verdicts.old) (byte_typing (S.Store.nodes store.now) (meaning schema.now).labels verdicts.new) }
{
    schema.lawful();
    store.lawful();
    let mut strata = [0; 32];
    let _ = schema.strata(&mut strata);
    let mut check = Checker {
        tables: schema.tables(),
        store,
        values,
        scratch,
    };
    decide(&mut check, &strata, held, wanted, verdicts);
}

// Schema, store and values stand one by one: with a struct of the three borrows the borrow check does not cover these calls (tried).
impl Memory {
    // Decides the wanted pairs, and holds them.
    fn decide_wanted<S: Store, V: ValueTest>(&mut self, schema: &Schema, store: &S, values: &V)
        ensures change { Joined (S.Store.nodes store.now * (meaning schema.now).labels) self.old.wanted self.old.held self.new.held }
        ensures value { Widens (meaning schema.now) (graph_of (S.Store.nodes store.now) (S.Store.arcs store.now) (V.ValueTest.passes values.now)) (byte_typing (S.Store.nodes store.now) (meaning schema.now).labels self.old.held) (byte_typing (S.Store.nodes store.now) (meaning schema.now).labels self.old.wanted) (byte_typing (S.Store.nodes store.now) (meaning schema.now).labels self.old.verdicts) (byte_typing (S.Store.nodes store.now) (meaning schema.now).labels self.new.verdicts) }
    {
        schema.lawful();
        store.lawful();
        widen(
            schema,
            store,
            values,
            &mut self.scratch,
            &self.held,
            &self.wanted,
            &mut self.verdicts,
        );
        let size = usize::from(store.node_count()) * schema.label_count();
        hold(size, &self.wanted, &mut self.held);
    }

    // Decides every pair that the asked pair reaches by leaning, and holds it; a pair that is held reaches held pairs only.
    pub(crate) fn decide_reached<S: Store, V: ValueTest>(
        &mut self,
        schema: &Schema,
        store: &S,
        values: &V,
        goal: Goal,
    )
        requires { (goal.node < S.Store.nodes store.now) × (goal.label < (meaning schema.now).labels) }
        ensures { LookedAt (meaning schema.now) (graph_of (S.Store.nodes store.now) (S.Store.arcs store.now) (V.ValueTest.passes values.now)) goal.node goal.label (byte_typing (S.Store.nodes store.now) (meaning schema.now).labels self.old.held) (byte_typing (S.Store.nodes store.now) (meaning schema.now).labels self.old.verdicts) (byte_typing (S.Store.nodes store.now) (meaning schema.now).labels self.new.held) (byte_typing (S.Store.nodes store.now) (meaning schema.now).labels self.new.verdicts) }
    {
        schema.lawful();
        store.lawful();
        let place = usize::from(goal.node) * schema.label_count() + usize::from(goal.label);
        if self.held[place] == 1 {
            return;
        }
        let _ = reach(
            schema.tables(),
            store,
            &self.held,
            goal,
            &mut self.wanted,
            &mut self.goals,
        );
        self.decide_wanted(schema, store, values);
    }

    // Decides every pair that is not held, and holds it.
    pub(crate) fn decide_all<S: Store, V: ValueTest>(
        &mut self,
        schema: &Schema,
        store: &S,
        values: &V,
    )
        ensures { AllDecided (meaning schema.now) (graph_of (S.Store.nodes store.now) (S.Store.arcs store.now) (V.ValueTest.passes values.now)) (byte_typing (S.Store.nodes store.now) (meaning schema.now).labels self.old.held) (byte_typing (S.Store.nodes store.now) (meaning schema.now).labels self.old.verdicts) (byte_typing (S.Store.nodes store.now) (meaning schema.now).labels self.new.held) (byte_typing (S.Store.nodes store.now) (meaning schema.now).labels self.new.verdicts) }
    {
        schema.lawful();
        store.lawful();
        let size = usize::from(store.node_count()) * schema.label_count();
        want_unheld(size, &self.held, &mut self.wanted);
        self.decide_wanted(schema, store, values);
    }
}
