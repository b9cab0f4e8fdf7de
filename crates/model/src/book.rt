// The ledger's rules: a list of triples, a set of held pairs, and what each call answers and changes.
use crate::facts::Facts;
use crate::pairs::Pairs;
use crate::references::{Reference, find_references, stratifies};
use draft::Draft;
use refusal::Layer;
use replay::{Answer, Call};
use std::alloc::{AllocError, Global};
use triple::Triple;

#[derive(Drop)]
pub struct Book<'a> {
    pub(crate) heap: Global,
    pub draft: Draft<'a>,
    pub references: Vec<Reference>,
    pub facts: Facts,
    pub nodes: u16,
    pub capacity: usize,
    pub triples: Vec<Triple>,
    pub held: Pairs,
    // the typing of the triples, if they have not changed since it was computed
    typing: Option<Pairs>,
}

impl<'a> Book<'a> {
    pub fn new(
        heap: Global,
        draft: Draft<'a>,
        facts: Facts,
        nodes: u16,
        capacity: usize,
    ) -> Result<Book<'a>, AllocError> {
        let labels = draft.definitions.len();
        Ok(Book {
            heap,
            draft,
            references: find_references(heap, &draft)?,
            facts,
            nodes,
            capacity,
            triples: Vec::new(heap),
            held: Pairs::new(heap, nodes, labels)?,
            typing: None,
        })
    }

    pub fn labels(&self) -> usize {
        self.draft.definitions.len()
    }

    pub fn has(&self, triple: Triple) -> bool {
        self.triples.contains(&triple)
    }

    pub fn fan(&self, node: u16) -> usize {
        self.triples.iter().filter(|t| t.subject == node).count()
    }

    // The maximal typing of the triples, computed if they changed since it was last computed.
    fn typing(&mut self) -> Result<&Pairs, AllocError> {
        let typing = match self.typing.take() {
            Some(typing) => typing,
            None => self.maximal()?,
        };
        Ok(self.typing.insert(typing))
    }

    // Whether the pair is in the maximal typing.
    fn verdict(&mut self, node: u16, label: u8) -> Result<bool, AllocError> {
        Ok(self.typing()?.has(node, label))
    }

    // The refusal of an add, if there is one.
    fn add_refusal(&self, triple: Triple) -> Option<Answer> {
        let (layer, number) = if triple.subject >= self.nodes {
            (Layer::Validator, 7)
        } else if triple.object >= self.nodes {
            (Layer::Validator, 8)
        } else if self.facts.literal(triple.subject) {
            (Layer::Validator, 9)
        } else if self.has(triple) {
            (Layer::Store, 10)
        } else if self.fan(triple.subject) == 12 {
            (Layer::Store, 11)
        } else if self.triples.len() == self.capacity {
            (Layer::Store, 12)
        } else {
            return None;
        };
        Some(Answer::Refused(layer, number))
    }

    fn withdraw_refusal(&self, triple: Triple) -> Option<Answer> {
        let number = if triple.subject >= self.nodes {
            7
        } else if triple.object >= self.nodes {
            8
        } else if !self.has(triple) {
            13
        } else {
            return None;
        };
        Some(Answer::Refused(Layer::Store, number))
    }

    fn pair_refusal(&self, node: u16, label: u8) -> Option<Answer> {
        if node >= self.nodes {
            return Some(Answer::Refused(Layer::Validator, 7));
        }
        if usize::from(label) >= self.labels() {
            return Some(Answer::Refused(Layer::Validator, 14));
        }
        None
    }

    fn sweep_refusal(&self, strata: &[u8], room: usize) -> Option<Answer> {
        let number = if strata.len() < self.labels() {
            15
        } else if !stratifies(self.references.as_slice(), self.labels(), strata) {
            16
        } else if room < self.held.marks().len() {
            17
        } else {
            return None;
        };
        Some(Answer::Refused(Layer::Validator, number))
    }

    // Marks the subjects of the triples whose objects are marked; answers whether a mark is new.
    fn spread(&self, marks: &mut [bool; 256]) -> bool {
        let mut changed = false;
        for t in self.triples.as_slice() {
            let reaches = marks.get(usize::from(t.object)).copied();
            if let Some(mark) = marks.get_mut(usize::from(t.subject)) {
                if !*mark && reaches == Some(true) {
                    *mark = true;
                    changed = true;
                }
            }
        }
        changed
    }

    // The nodes that reach the node by triples, itself included.
    fn reaching(&self, node: u16) -> [bool; 256] {
        let mut marks = [false; 256];
        if let Some(mark) = marks.get_mut(usize::from(node)) {
            *mark = true;
        }
        for _ in 0..256 {
            if !self.spread(&mut marks) {
                return marks;
            }
        }
        marks
    }

    fn drop_node(&mut self, node: u16) {
        for label in (0..32).take(self.labels()) {
            let _ = self.held.set(node, label, false);
        }
    }

    // Drops the pairs of every node that reaches the subject.
    fn edited(&mut self, subject: u16) {
        self.typing = None;
        let marks = self.reaching(subject);
        for (node, reaches) in (0..self.nodes).zip(marks) {
            if reaches {
                self.drop_node(node);
            }
        }
    }

    pub fn add(&mut self, triple: Triple) -> Result<Answer, AllocError> {
        if let Some(refusal) = self.add_refusal(triple) {
            return Ok(refusal);
        }
        self.triples.push(triple)?;
        self.edited(triple.subject);
        Ok(Answer::Accepted)
    }

    pub fn withdraw(&mut self, triple: Triple) -> Result<Answer, AllocError> {
        if let Some(refusal) = self.withdraw_refusal(triple) {
            return Ok(refusal);
        }
        self.triples.retain(|t| *t != triple);
        self.edited(triple.subject);
        Ok(Answer::Accepted)
    }

    // Puts every pair into the set that a pair of it leans on by this triple; answers whether one is new.
    fn lean(&self, t: Triple, reached: &mut Pairs) -> bool {
        let mut changed = false;
        for r in self.references.as_slice() {
            let set = self.draft.sets.get(usize::from(r.set));
            let admitted = set.is_some_and(|properties| properties.contains(t.property));
            if admitted && reached.has(t.subject, r.from) {
                changed = reached.set(t.object, r.to, true) || changed;
            }
        }
        changed
    }

    fn lean_all(&self, reached: &mut Pairs) -> bool {
        let mut changed = false;
        for t in self.triples.as_slice() {
            changed = self.lean(*t, reached) || changed;
        }
        changed
    }

    // The pairs that the pair reaches by leaning, itself included.
    pub fn reached(&self, node: u16, label: u8) -> Result<Pairs, AllocError> {
        let mut reached = Pairs::new(self.heap, self.nodes, self.labels())?;
        let _ = reached.set(node, label, true);
        for _ in 0..8192 {
            if !self.lean_all(&mut reached) {
                return Ok(reached);
            }
        }
        Ok(reached)
    }

    pub fn look(&mut self, node: u16, label: u8) -> Result<Answer, AllocError> {
        if let Some(refusal) = self.pair_refusal(node, label) {
            return Ok(refusal);
        }
        let reached = self.reached(node, label)?;
        self.held.join(&reached);
        Ok(Answer::Verdict(self.verdict(node, label)?))
    }

    pub fn held(&mut self, node: u16, label: u8) -> Result<Answer, AllocError> {
        if let Some(refusal) = self.pair_refusal(node, label) {
            return Ok(refusal);
        }
        if !self.held.has(node, label) {
            return Ok(Answer::Held(None));
        }
        Ok(Answer::Held(Some(self.verdict(node, label)?)))
    }

    pub fn sweep(&mut self, strata: &[u8], table: &mut [u8]) -> Result<Answer, AllocError> {
        if let Some(refusal) = self.sweep_refusal(strata, table.len()) {
            return Ok(refusal);
        }
        let typing = self.typing()?;
        for (byte, mark) in table.iter_mut().zip(typing.marks()) {
            *byte = u8::from(*mark);
        }
        let pairs = typing.count();
        self.held.fill();
        Ok(Answer::Pairs(pairs))
    }

    pub fn perform(&mut self, call: Call, table: &mut [u8]) -> Result<Answer, AllocError> {
        match call {
            Call::Add(triple) => self.add(triple),
            Call::Withdraw(triple) => self.withdraw(triple),
            Call::Look(node, label) => self.look(node, label),
            Call::Held(node, label) => self.held(node, label),
            Call::Sweep(sweep) => {
                let given = usize::from(sweep.given.min(33));
                self.sweep(&sweep.strata[0..given], table)
            }
        }
    }
}
