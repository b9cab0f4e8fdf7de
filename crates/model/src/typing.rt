// The maximal typing: stratum by stratum, from all pairs, those that are not satisfied are deleted until none is left.
use crate::book::Book;
use crate::pairs::Pairs;
use crate::references::{DEEPEST, strata};
use crate::satisfy::Node;
use std::alloc::AllocError;

impl<'a> Book<'a> {
    fn arcs(&self, node: u16) -> Result<Vec<(u8, u16)>, AllocError> {
        self.triples
            .iter()
            .filter(|t| t.subject == node)
            .map(|t| (t.property, t.object))
            .collect(self.heap)
    }

    // The labels of the stratum, each with its definition.
    fn definitions(&self, strata: &[u8; 32], stratum: u8) -> Result<Vec<(u8, u8)>, AllocError> {
        let mut found = Vec::new(self.heap);
        for ((label, row), own) in (0..32).zip(self.draft.definitions).zip(strata) {
            if *own == stratum {
                found.push((label, *row))?;
            }
        }
        Ok(found)
    }

    fn start(&self, labels: &[(u8, u8)], typing: &mut Pairs) {
        for node in 0..self.nodes {
            for (label, _) in labels {
                let _ = typing.set(node, *label, true);
            }
        }
    }

    // Deletes the node's pairs that are not satisfied; answers whether there were any.
    fn delete_at(
        &self,
        node: u16,
        labels: &[(u8, u8)],
        typing: &mut Pairs,
    ) -> Result<bool, AllocError> {
        let draft = self.draft;
        let arcs = self.arcs(node)?;
        let mut changed = false;
        for (label, row) in labels {
            let view = Node {
                draft,
                facts: &self.facts,
                typing: &*typing,
                node,
                arcs: arcs.as_slice(),
            };
            let kept = !typing.has(node, *label) || view.satisfies(DEEPEST, *row);
            if !kept {
                changed = true;
                let _ = typing.set(node, *label, false);
            }
        }
        Ok(changed)
    }

    fn delete(&self, labels: &[(u8, u8)], typing: &mut Pairs) -> Result<bool, AllocError> {
        let mut changed = false;
        for node in 0..self.nodes {
            changed = self.delete_at(node, labels, typing)? || changed;
        }
        Ok(changed)
    }

    fn refine(&self, labels: &[(u8, u8)], typing: &mut Pairs) -> Result<(), AllocError> {
        self.start(labels, typing);
        for _ in 0..10000 {
            if !self.delete(labels, typing)? {
                return Ok(());
            }
        }
        Ok(())
    }

    pub(crate) fn maximal(&self) -> Result<Pairs, AllocError> {
        let mut typing = Pairs::new(self.heap, self.nodes, self.labels())?;
        let strata = strata(self.references.as_slice());
        for stratum in 1..33 {
            let labels = self.definitions(&strata, stratum)?;
            if !labels.is_empty() {
                self.refine(labels.as_slice(), &mut typing)?;
            }
        }
        Ok(typing)
    }
}
