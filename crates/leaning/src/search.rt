// The search along what pairs lean on.
ghost use Rattle.std.specs.Prelude.{◌≡◌, ℕ, ◌+◌, ◌*◌, ◌<◌, ◌≤◌, ◌↔◌, Bool, true, false, length, drop, is_ok, Err, OnOk, OnErr};
ghost use Rattle.shapes.specs.Leaning.{Leans};
ghost use Rattle.stack.specs.Entries.{entries};
ghost use Rattle.stack.specs.declared.Goal.{Goal};
ghost use Rattle.labels.specs.Members.{member};
ghost use Rattle.leaning.specs.Labels.{schema_in};
ghost use Rattle.shapes.specs.Bytes.{byte_typing};
ghost use Rattle.shapes.specs.Lists.{Member};
ghost use Rattle.leaning.specs.Pairs.{Clean, graph_of, accepted};
ghost use Rattle.leaning.specs.Search.{count, unmarked, Shown, Looked};

use crate::admitted::admitted;
use crate::fault::ReachFault;
use crate::pairs::Pairs;
use labels::LabelSet;
use stack::{Goal, Stack};
use tables::LawfulTables;
use triple::{CountedArcs, Store};

// The pairs that were marked, none of them held, and those that wait for their visit.
// The stack is borrowed, since a lent slice beside a field that itself holds a lent slice is lost to the lender's proof.
#[derive(Drop)]
struct Search<'a, 'b> {
    pairs: Pairs,
    held: &'a [u8],
    marks: &'a mut [u8],
    waiting: &'a mut Stack<'b, Goal>,
    ghost held_long: { count pairs ≤ length held.now },
    ghost marks_long: { count pairs ≤ length marks.now },
    ghost clean: { Clean (count pairs) marks.now },
    ghost apart: { (g : Goal) → Shown pairs marks.now g → ¬ Shown pairs held.now g },
    ghost waits: { (g : Goal) → Member g (entries waiting.now.slots.now waiting.now.len) → Shown pairs marks.now g },
    ghost room: { length (entries waiting.now.slots.now waiting.now.len) + unmarked (count pairs) marks.now ≤ length waiting.now.slots.now },
}

impl<'a, 'b> Search<'a, 'b> {
    ghost use Rattle.leaning.specs.Marking.{Frame, Begun, Grown, Covered, Popped};

    // No pair is marked.
    fn over(
        pairs: Pairs,
        held: &'a [u8],
        marks: &'a mut [u8],
        waiting: &'a mut Stack<'b, Goal>,
    ) -> Search<'a, 'b>
        requires idle { waiting.old.len ≡ 0 }
        requires held_long { count pairs ≤ length held.now }
        requires marks_long { count pairs ≤ length marks.old }
        requires goals_long { count pairs ≤ length waiting.old.slots.now }
        ensures begun { Begun pairs held.now marks.old result }
        ensures lent { result.marks.ghost_name ≡ marks.entry.ghost_name }
    {
        marks[..pairs.count()].fill(0);
        Search {
            pairs,
            held,
            marks,
            waiting,
        }
    }

    // Marks the pair and lets it wait, unless it is held or marked already.
    fn mark(&mut self, pair: Goal)
        requires { (pair.node < self.old.pairs.nodes) × (pair.label < self.old.pairs.labels) }
        ensures change { Grown (λ g. g ≡ pair) self.old self.new }
        ensures made { Covered self.new pair }
    {
        let place = self.pairs.place(pair);
        if self.held[place] == 1 || self.marks[place] == 1 {
            return;
        }
        self.marks[place] = 1;
        let _ = self.waiting.push(pair);
    }

    // Marks the object with each of the labels.
    fn mark_labels(&mut self, object: u16, labels: LabelSet)
        requires { object < self.old.pairs.nodes }
        ensures change { Grown (λ g. (g.node ≡ object) × (member labels g.label ≡ true)) self.old self.new }
        ensures made { (k : ℕ) → k < self.old.pairs.labels → member labels k ≡ true → Covered self.new (record { node = object; label = k }) }
    {
        for label in 0..self.pairs.labels as u8 {
            if labels.contains(label) {
                self.mark(Goal {
                    node: object,
                    label,
                });
            }
        }
    }

    // Marks the pairs that the pair leans on.
    fn mark_next<S: Store>(&mut self, tables: &LawfulTables, store: &S, pair: Goal)
        requires pairs { (self.old.pairs.nodes ≡ S.Store.nodes store.now) × (self.old.pairs.labels ≡ (schema_in tables.now).labels) }
        requires within { (pair.node < self.old.pairs.nodes) × (pair.label < self.old.pairs.labels) }
        ensures change { Grown (λ g. Leans (schema_in tables.now) (graph_of (S.Store.nodes store.now) (S.Store.arcs store.now) (λ n t. true)) pair.node pair.label g.node g.label) self.old self.new }
        ensures made { (g : Goal) → Leans (schema_in tables.now) (graph_of (S.Store.nodes store.now) (S.Store.arcs store.now) (λ n t. true)) pair.node pair.label g.node g.label → Covered self.new g }
    {
        tables.lawful();
        store.lawful();
        for (property, object) in CountedArcs::of(store, pair.node) {
            self.mark_labels(object, admitted(tables, pair.label, property));
        }
    }

    // The newest pair that waits, which no longer does.
    fn pop(&mut self) -> Option<Goal>
        ensures { Popped result self.old self.new }
    {
        self.waiting.pop()
    }
}

// Marks the pairs that leaning leads to from the asked one, itself included, through pairs that are not held; other bytes become 0.
// Refuses, and changes nothing, if there is no such pair, or if a slice has fewer elements than there are pairs.
pub fn reach<S: Store>(
    tables: &LawfulTables,
    store: &S,
    held: &[u8],
    goal: Goal,
    marks: &mut [u8],
    goals: &mut [Goal],
) -> Result<(), ReachFault>
    ensures answer { is_ok result ≡ accepted (S.Store.nodes store.now) (schema_in tables.now).labels (length held.now) (length marks.old) (length goals.old) goal.node goal.label }
    ensures no_pair { (result ≡ Err ReachFault.NoPair) ↔ ¬ ((goal.node < S.Store.nodes store.now) × (goal.label < (schema_in tables.now).labels)) }
    ensures same { OnErr result ((marks.new ≡ marks.old) × (goals.new ≡ goals.old)) }
    ensures clean { OnOk result (Clean (S.Store.nodes store.now * (schema_in tables.now).labels) marks.new) }
    ensures rest { drop (S.Store.nodes store.now * (schema_in tables.now).labels) marks.new ≡ drop (S.Store.nodes store.now * (schema_in tables.now).labels) marks.old }
    ensures change { OnOk result ((passes : ℕ → ℕ → Bool) → Looked (schema_in tables.now) (graph_of (S.Store.nodes store.now) (S.Store.arcs store.now) passes) (byte_typing (S.Store.nodes store.now) (schema_in tables.now).labels held.now) goal.node goal.label (byte_typing (S.Store.nodes store.now) (schema_in tables.now).labels marks.new)) }
{
    tables.lawful();
    store.lawful();
    let pairs = Pairs {
        nodes: usize::from(store.node_count()),
        labels: tables.definitions().len(),
    };
    pairs.fit(goal, held.len(), marks.len(), goals.len())?;
    let mut waiting = Stack::over(goals);
    let mut search = Search::over(pairs, held, marks, &mut waiting);
    search.mark(goal);
    while let Some(pair) = search.pop() {
        search.mark_next(tables, store, pair);
    }
    Ok(())
}
