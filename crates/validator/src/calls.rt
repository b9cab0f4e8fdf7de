// The calls on a validator.
ghost use Rattle.std.specs.Prelude.{◌≡◌, Some, MatchResult};
ghost use Rattle.ledger.specs.Ledger.{pair_refusal};
ghost use Rattle.schema.specs.Accepted.{meaning};
ghost use Rattle.validate.specs.Faults.{code};
ghost use Rattle.validator.specs.Books.{book};
ghost use Rattle.validator.specs.Marks.{Placed};

use crate::forget::forget_upstream;
use crate::memory::Validator;
use crate::write::write_table;
use stack::Goal;
use triple::{Store, Triple};
use validate::{Validate, ValidatorFault};
use values::ValueTest;

impl<S: Store + Drop, V: ValueTest + Drop> Validator<S, V> {
    // The place of the pair's byte, or how the pair is refused.
    fn place(&self, node: u16, label: u8) -> Result<usize, ValidatorFault>
        ensures { MatchResult result (Placed (S.Store.nodes self.now.store) (meaning self.now.schema).labels node label) (λ fault. pair_refusal (⟦<Validator<S, V> as Validate>⟧.state self.now).schema (⟦<Validator<S, V> as Validate>⟧.state self.now).ledger node label ≡ Some (code fault)) }
    {
        if node >= self.store.node_count() {
            return Err(ValidatorFault::NoNode);
        }
        let labels = self.schema.label_count();
        if usize::from(label) >= labels {
            return Err(ValidatorFault::NoLabel);
        }
        self.schema.lawful();
        self.store.lawful();
        Ok(usize::from(node) * labels + usize::from(label))
    }
}

impl<S: Store + Drop, V: ValueTest + Drop> Validate for Validator<S, V> {
    ghost state = { λ v. record { schema = meaning v.schema; ledger = book (S.Store.nodes v.store) (S.Store.capacity v.store) (S.Store.arcs v.store) (V.ValueTest.literals v.values) (V.ValueTest.passes v.values) (meaning v.schema).labels v.memory.held; verdicts = v.memory.verdicts } };

    fn node_count(&self) -> u16 {
        self.store.node_count()
    }

    fn label_count(&self) -> usize {
        self.schema.label_count()
    }

    fn add(&mut self, triple: Triple) -> Result<(), ValidatorFault> {
        if triple.subject >= self.store.node_count() {
            return Err(ValidatorFault::NoSubject);
        }
        if triple.object >= self.store.node_count() {
            return Err(ValidatorFault::NoObject);
        }
        if self.values.literal(triple.subject) {
            return Err(ValidatorFault::Literal);
        }
        self.schema.lawful();
        self.store.lawful();
        self.store.put(triple)?;
        self.store.lawful();
        forget_upstream(
            &self.store,
            self.schema.label_count(),
            triple.subject,
            &mut self.memory.held,
        );
        Ok(())
    }

    fn withdraw(&mut self, triple: Triple) -> Result<(), ValidatorFault> {
        self.schema.lawful();
        self.store.lawful();
        let subject = triple.subject;
        self.store.take(triple)?;
        self.store.lawful();
        forget_upstream(
            &self.store,
            self.schema.label_count(),
            subject,
            &mut self.memory.held,
        );
        Ok(())
    }

    fn look(&mut self, node: u16, label: u8) -> Result<bool, ValidatorFault> {
        let place = self.place(node, label)?;
        self.memory.decide_reached(
            &self.schema,
            &self.store,
            &self.values,
            Goal { node, label },
        );
        Ok(self.memory.verdicts[place] == 1)
    }

    fn held(&self, node: u16, label: u8) -> Result<Option<bool>, ValidatorFault> {
        let place = self.place(node, label)?;
        if self.memory.held[place] == 1 {
            Ok(Some(self.memory.verdicts[place] == 1))
        } else {
            Ok(None)
        }
    }

    fn sweep(&mut self, strata: &[u8], table: &mut [u8]) -> Result<usize, ValidatorFault> {
        let labels = self.schema.label_count();
        if strata.len() < labels {
            return Err(ValidatorFault::FewStrata);
        }
        if !self.schema.stratifies(strata) {
            return Err(ValidatorFault::NoStratification);
        }
        self.schema.lawful();
        self.store.lawful();
        let size = usize::from(self.store.node_count()) * labels;
        if table.len() < size {
            return Err(ValidatorFault::ShortTable);
        }
        self.memory
            .decide_all(&self.schema, &self.store, &self.values);
        Ok(write_table(size, &self.memory.verdicts, table))
    }
}
