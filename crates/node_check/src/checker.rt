// The check of a node, over what it reads and with the memory that it works in.
ghost use Rattle.std.specs.Prelude.{◌≡◌, ℕ, ◌<◌, true, ◌↔◌, length};
ghost use Rattle.draft.specs.Tables.{schema_of};
ghost use Rattle.tables.specs.Held.{held};
ghost use Rattle.masks.specs.Masks.{On};
ghost use Rattle.node_check.specs.Answers.{graph as graph_of, Answered};

use crate::asked::asked_rows;
use crate::shape::shape_rows;
use hoods::{Neighbourhood, NodeArcs, Scratch};
use refine::NodeCheck;
use tables::LawfulTables;
use triple::{CountedArcs, Store};
use values::ValueTest;

// What a call leaves as it was stands in each `kept`: it speaks of two states, so no type can hold it.
#[derive(Drop)]
pub struct Checker<'a, S, V> {
    pub tables: &'a LawfulTables,
    pub store: &'a S,
    pub values: &'a V,
    pub scratch: &'a mut Scratch,
}

impl<'a, S: Store, V: ValueTest> Checker<'a, S, V> {
    // Which of the wanted labels' definitions the node satisfies, by label.
    fn answers_of(&mut self, typing: &[u8], node: u16, wanted: &[bool; 32]) -> [bool; 32]
        ensures answers { (l : ℕ) → On result l ↔ (On wanted.now l × Answered (held self.old.tables.now) (graph_of (S.Store.nodes self.old.store.now) (S.Store.arcs self.old.store.now) (V.ValueTest.passes self.old.values.now)) typing.now node l) }
        ensures kept { (self.new.tables ≡ self.old.tables) × (self.new.store ≡ self.old.store) × (self.new.values ≡ self.old.values) }
    {
        let mut answers = [false; 32];
        if node >= self.store.node_count() {
            return answers;
        }
        self.tables.lawful();
        let arcs = NodeArcs::of(self.store, node);
        let asked = asked_rows(self.tables, wanted);
        let neighbourhood = Neighbourhood {
            tables: self.tables,
            arcs: &arcs,
            typing,
        };
        let met = neighbourhood.met_asked(&asked, self.scratch);
        let holds = shape_rows(self.tables, self.values, node, &met);
        for (label, row) in self.tables.definitions().iter().enumerate() {
            if wanted[label] {
                answers[label] = holds[usize::from(*row)];
            }
        }
        answers
    }

    // Which labels' definitions the node satisfies, by label; the typing is read by rows of one byte a label.
    pub fn satisfied(&mut self, typing: &[u8], node: u16) -> [bool; 32]
        ensures answers { (l : ℕ) → On result l ↔ Answered (held self.old.tables.now) (graph_of (S.Store.nodes self.old.store.now) (S.Store.arcs self.old.store.now) (V.ValueTest.passes self.old.values.now)) typing.now node l }
        ensures kept { (self.new.tables ≡ self.old.tables) × (self.new.store ≡ self.old.store) × (self.new.values ≡ self.old.values) }
    {
        self.tables.lawful();
        self.answers_of(typing, node, &[true; 32])
    }

    // Whether the node satisfies the label's definition; a node or a label that is missing does not.
    pub fn satisfies(&mut self, typing: &[u8], node: u16, label: u8) -> bool
        ensures answer { (result ≡ true) ↔ Answered (held self.old.tables.now) (graph_of (S.Store.nodes self.old.store.now) (S.Store.arcs self.old.store.now) (V.ValueTest.passes self.old.values.now)) typing.now node label }
        ensures kept { (self.new.tables ≡ self.old.tables) × (self.new.store ≡ self.old.store) × (self.new.values ≡ self.old.values) }
    {
        self.tables.lawful();
        if label >= 32 {
            return false;
        }
        let mut wanted = [false; 32];
        wanted[usize::from(label)] = true;
        let answers = self.answers_of(typing, node, &wanted);
        answers[usize::from(label)]
    }
}

impl<'a, S: Store, V: ValueTest> NodeCheck for Checker<'a, S, V> {
    ghost schema = { λ c. schema_of (held c.tables.now) };

    ghost graph = { λ c. graph_of (S.Store.nodes c.store.now) (S.Store.arcs c.store.now) (V.ValueTest.passes c.values.now) };

    fn node_count(&self) -> u16 {
        self.store.lawful();
        self.store.node_count()
    }

    fn label_count(&self) -> u8 {
        self.tables.lawful();
        self.tables.definitions().len() as u8
    }

    fn satisfied(&mut self, typing: &[u8], node: u16) -> [bool; 32] {
        self.store.lawful();
        self.satisfied(typing, node)
    }

    fn leads_to(&self, node: u16, object: u16) -> bool {
        CountedArcs::of(self.store, node).any(|(_, found)| found == object)
    }
}
