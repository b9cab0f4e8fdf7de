// An example: a draft, a value test and triples; what sweep, look and held answer for it.
use crate::builder::DraftBuilder;
use chain::ChainStore;
use node_check::{Checker, Scratch};
use schema::Schema;
use std::alloc::{AllocError, Global};
use std::process::Abort;
use std::test::*;
use tables::LawfulTables;
use triple::{Store, Triple};
use validate::Validate;
use validator::Validator;
use values::ValueTest;

// What the byte past a table keeps.
const MARK: u8 = 77;

#[derive(Drop)]
pub(crate) struct Example<'a, V: ValueTest + Copy + Drop> {
    pub(crate) draft: DraftBuilder,
    pub(crate) values: V,
    pub(crate) nodes: u16,
    pub(crate) triples: &'a [(u16, u8, u16)],
}

pub(crate) fn triple(subject: u16, property: u8, object: u16) -> Triple {
    Triple {
        subject,
        property,
        object,
    }
}

impl<'a, V: ValueTest + Copy + Drop> Example<'a, V> {
    fn size(&self) -> usize {
        usize::from(self.nodes).saturating_mul(self.draft.label_count())
    }

    // The pair whose byte stands at this place of a table.
    fn pair(&self, place: usize) -> (u16, u8) {
        let labels = self.draft.label_count().max(1);
        let node = u16::try_from(place / labels).unwrap_or(u16::MAX);
        let label = u8::try_from(place % labels).unwrap_or(u8::MAX);
        (node, label)
    }

    // A new validator that the triples were added to.
    pub(crate) fn validator(&self, rt: &impl Abort) -> Result<Validator<ChainStore, V>, Fail> {
        let mut schema = Schema::new();
        assert!(rt; schema.accept(&self.draft.draft()).is_ok(), "accept");
        let store = ChainStore::new(self.nodes);
        let mut validator = Validator::new(schema, store, self.values);
        for (subject, property, object) in self.triples {
            let added = validator.add(triple(*subject, *property, *object));
            assert!(rt; added.is_ok(), "add");
        }
        Ok(validator)
    }

    // A sweep by these strata writes and holds exactly the typing.
    pub(crate) fn sweeps_to(
        &self,
        rt: &impl Abort,
        heap: Global,
        strata: &[u8],
        typing: &[(u16, u8)],
    ) -> Result<(), Fail> {
        let mut validator = self.validator(rt)?;
        let size = self.size();
        let mut table = vec![in heap; MARK; size.saturating_add(1)]?;
        let count = validator.sweep(strata, table.as_mut_slice()).ok();
        assert_eq!(rt; count, Some(typing.len()), "the number of pairs");
        assert_eq!(rt; table.get(size).copied(), Some(MARK));
        for (place, byte) in table.iter().take(size).enumerate() {
            let (node, label) = self.pair(place);
            let expected = typing.contains(&(node, label));
            let held = validator.held(node, label).ok();
            assert_eq!(rt; *byte, u8::from(expected), "sweep {node} {label}");
            assert_eq!(rt; held, Some(Some(expected)), "held {node} {label}");
        }
        Ok(())
    }

    // Looks at all pairs, one after the other, on one validator.
    fn looks_in_turn(&self, rt: &impl Abort, typing: &[(u16, u8)]) -> Result<(), Fail> {
        let mut validator = self.validator(rt)?;
        for place in 0..self.size() {
            let (node, label) = self.pair(place);
            let answer = validator.look(node, label).ok();
            let expected = Some(typing.contains(&(node, label)));
            assert_eq!(rt; answer, expected, "look {node} {label}");
        }
        Ok(())
    }

    // Looks at each pair on a validator of its own, which held nothing before.
    fn looks_alone(&self, rt: &impl Abort, typing: &[(u16, u8)]) -> Result<(), Fail> {
        for place in 0..self.size() {
            let mut validator = self.validator(rt)?;
            let (node, label) = self.pair(place);
            assert_eq!(rt; validator.held(node, label).ok(), Some(None));
            let answer = validator.look(node, label).ok();
            let expected = typing.contains(&(node, label));
            assert_eq!(rt; answer, Some(expected), "look {node} {label} alone");
            assert_eq!(rt; validator.held(node, label).ok(), Some(Some(expected)));
        }
        Ok(())
    }

    // A sweep by the schema's own strata, and looks at every pair, answer exactly the typing.
    pub(crate) fn has_typing(
        &self,
        rt: &impl Abort,
        heap: Global,
        typing: &[(u16, u8)],
    ) -> Result<(), Fail> {
        let mut strata = [0; 32];
        let validator = self.validator(rt)?;
        let labels = validator.schema().strata(&mut strata).ok();
        assert_eq!(rt; labels, Some(self.draft.label_count()));
        self.sweeps_to(rt, heap, &strata, typing)?;
        self.looks_in_turn(rt, typing)?;
        self.looks_alone(rt, typing)
    }

    // The typing as a table of bytes.
    fn bytes(&self, heap: Global, typing: &[(u16, u8)]) -> Result<Vec<u8>, AllocError> {
        (0..self.size())
            .map(|place| u8::from(typing.contains(&self.pair(place))))
            .collect(heap)
    }

    fn store(&self) -> Result<ChainStore, Fail> {
        let mut store = ChainStore::new(self.nodes);
        for (subject, property, object) in self.triples {
            store.put(triple(*subject, *property, *object))?;
        }
        Ok(store)
    }

    // Whether each pair of the typing has a node that satisfies its label's definition under it; asks nothing of accept.
    pub(crate) fn is_correct(&self, heap: Global, typing: &[(u16, u8)]) -> Result<bool, Fail> {
        let Ok(tables) = LawfulTables::of(&self.draft.draft()) else {
            return Err(Fail::new("the rows are refused"));
        };
        let store = self.store()?;
        let bytes = self.bytes(heap, typing)?;
        let mut scratch = Scratch::new();
        let mut check = Checker {
            tables: &tables,
            store: &store,
            values: &self.values,
            scratch: &mut scratch,
        };
        // A loop: the borrow checker does not cover the checker in a closure of `all`.
        for (node, label) in typing {
            if !check.satisfies(bytes.as_slice(), *node, *label) {
                return Ok(false);
            }
        }
        Ok(true)
    }
}
