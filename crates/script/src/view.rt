// What a script asks of a store, under a schema and a value test.
use crate::answer::Answer;
use crate::question::Question;
use crate::typing::Typing;
use node_check::{Checker, Scratch};
use schema::Schema;
use std::alloc::{AllocError, Global};
use triple::{CountedArcs, Store};
use values::ValueTest;

#[derive(Drop)]
pub struct View<'a, S: Store, V: ValueTest> {
    pub schema: &'a Schema,
    pub store: &'a S,
    pub values: &'a V,
}

// A node's arcs by property, then by object: a store's own order is free.
pub(crate) fn sorted_arcs<S: Store>(
    heap: Global,
    store: &S,
    node: u16,
) -> Result<Vec<(u8, u16)>, AllocError> {
    let mut arcs = CountedArcs::of(store, node).collect::<Vec<_>>(heap)?;
    arcs.sort()?;
    Ok(arcs)
}

impl<S: Store, V: ValueTest> View<'_, S, V> {
    // Whether one node satisfies one definition under the typing.
    fn satisfies(&self, typing: &Typing, node: u16, label: u8) -> Result<bool, AllocError> {
        let table = typing.table(self.store.node_count(), self.schema.label_count())?;
        let mut scratch = Scratch::new();
        let mut checker = Checker {
            tables: self.schema.tables(),
            store: self.store,
            values: self.values,
            scratch: &mut scratch,
        };
        Ok(checker.satisfies(table.as_slice(), node, label))
    }

    // Every pair of a node and a label whose definition it satisfies under the typing.
    fn satisfied(&self, heap: Global, typing: &Typing) -> Result<Vec<(u16, u8)>, AllocError> {
        let nodes = self.store.node_count();
        let table = typing.table(nodes, self.schema.label_count())?;
        let mut scratch = Scratch::new();
        let mut checker = Checker {
            tables: self.schema.tables(),
            store: self.store,
            values: self.values,
            scratch: &mut scratch,
        };
        let mut pairs = Vec::new(heap);
        for node in 0..nodes {
            let found = checker.satisfied(table.as_slice(), node);
            push_pairs(&mut pairs, node, &found)?;
        }
        Ok(pairs)
    }

    pub fn answer(
        &self,
        heap: Global,
        typing: &mut Typing,
        question: Question,
    ) -> Result<Answer, AllocError> {
        Ok(match question {
            Question::Fan(node) => Answer::Fan(self.store.fan(node)),
            Question::Arc(node, place) => Answer::Arc(self.store.arc(node, place)),
            Question::Arcs(node) => Answer::Arcs(sorted_arcs(heap, self.store, node)?),
            Question::Total => Answer::Total(self.store.total(), self.store.capacity()),
            Question::Literal(node) => Answer::Truth(self.values.literal(node)),
            Question::Holds(node, test) => Answer::Truth(self.values.holds(node, test)),
            Question::Typed(node, label) => Answer::Typed(typing.put(node, label)?),
            Question::Untyped => {
                typing.clear();
                Answer::Typed(0)
            }
            Question::Satisfies(node, label) => {
                Answer::Truth(self.satisfies(typing, node, label)?)
            }
            Question::Satisfied => Answer::Pairs(self.satisfied(heap, typing)?),
        })
    }
}

// The pairs of the node with the labels whose place says yes.
fn push_pairs(pairs: &mut Vec<(u16, u8)>, node: u16, found: &[bool; 32]) -> Result<(), AllocError> {
    for (label, _) in (0..32).zip(found).filter(|(_, yes)| **yes) {
        pairs.push((node, label))?;
    }
    Ok(())
}
