// The search against the arcs.
ghost use Rattle.std.specs.Prelude.{◌≡◌, ℕ, ◌+◌, ◌<◌, ◌≤◌, Bool, true, false, length, Decides, slice_index_or};
ghost use Rattle.shapes.specs.Leaning.{Reaches};
ghost use Rattle.stack.specs.Entries.{entries};
ghost use Rattle.upstream.specs.Nodes.{Has};
ghost use Rattle.upstream.specs.Search.{graph_of, marked, unmarked, Grown};

use crate::backward::Backward;
use crate::node_set::NodeSet;
use stack::Stack;
use triple::Store;

// Marks the node and lets it wait, unless it is marked already.
fn mark(node: u16, marks: &mut [bool; 256], waiting: &mut Stack<u16>)
    requires within { node < 256 }
    requires room { length (entries waiting.old.slots.now waiting.old.len) + unmarked marks.old ≤ length waiting.old.slots.now }
    ensures change { Grown (λ n. n ≡ node) marks.old (entries waiting.old.slots.now waiting.old.len) marks.new (entries waiting.new.slots.now waiting.new.len) }
    ensures made { marked marks.new node ≡ true }
    ensures kept { length waiting.new.slots.now ≡ length waiting.old.slots.now }
{
    let place = usize::from(node);
    if !marks[place] {
        marks[place] = true;
        let _ = waiting.push(node);
    }
}

// Marks the nodes of the set.
fn mark_all(nodes: &NodeSet, marks: &mut [bool; 256], waiting: &mut Stack<u16>)
    requires room { length (entries waiting.old.slots.now waiting.old.len) + unmarked marks.old ≤ length waiting.old.slots.now }
    ensures change { Grown (Has nodes.now) marks.old (entries waiting.old.slots.now waiting.old.len) marks.new (entries waiting.new.slots.now waiting.new.len) }
    ensures made { (n : ℕ) → Has nodes.now n → marked marks.new n ≡ true }
    ensures kept { length waiting.new.slots.now ≡ length waiting.old.slots.now }
{
    let mut seen = NodeSet::NONE;
    while let Some(node) = nodes.first_outside(&seen) {
        seen.insert(node);
        mark(node, marks, waiting);
    }
}

// Marks the nodes from which triples lead to the subject, itself included, and no others; none, where the store has no such node.
pub fn upstream<S: Store>(store: &S, subject: u16, marks: &mut [bool; 256])
    ensures { (passes : ℕ → ℕ → Bool) (n : ℕ) → Decides (slice_index_or marks.new n false) ((subject < S.Store.nodes store.now) × Reaches (graph_of (S.Store.nodes store.now) (S.Store.arcs store.now) passes) subject n) }
{
    store.lawful();
    *marks = [false; 256];
    if subject >= store.node_count() {
        return;
    }
    let backward = Backward::of(store);
    let mut slots = [0; 256];
    let mut waiting = Stack::over(&mut slots);
    mark(subject, marks, &mut waiting);
    while let Some(node) = waiting.pop() {
        mark_all(backward.sources(node), marks, &mut waiting);
    }
}
