// What every validator means and promises, by the ledger.
ghost use Rattle.std.specs.Prelude.{◌≡◌};
ghost use Rattle.ledger.specs.Steps.{AddStep, WithdrawStep, LookStep, HeldStep, SweepStep};
ghost use Rattle.validate.specs.Faults.{told};
ghost use Rattle.validate.specs.Promise.{State, Under, Keeps};

use crate::fault::ValidatorFault;
use triple::Triple;

// The ledger of a validator has the triples of its store and the pairs whose verdicts it holds; its bytes have the verdicts.
pub trait Validate {
    ghost state: { Self → State };

    fn node_count(&self) -> u16
        ensures { result ≡ (state self.now).ledger.nodes };

    fn label_count(&self) -> usize
        ensures { result ≡ (state self.now).schema.labels };

    fn add(&mut self, triple: Triple) -> Result<(), ValidatorFault>
        ensures step { AddStep (state self.old).ledger triple.subject triple.property triple.object (told result) (state self.new).ledger }
        ensures kept { Keeps (state self.old) (state self.new) };

    fn withdraw(&mut self, triple: Triple) -> Result<(), ValidatorFault>
        ensures step { WithdrawStep (state self.old).ledger triple.subject triple.property triple.object (told result) (state self.new).ledger }
        ensures kept { Keeps (state self.old) (state self.new) };

    fn look(&mut self, node: u16, label: u8) -> Result<bool, ValidatorFault>
        ensures step { Under (state self.old) (λ σ. LookStep (state self.old).schema σ (state self.old).ledger node label (told result) (state self.new).ledger) }
        ensures kept { Keeps (state self.old) (state self.new) };

    fn held(&self, node: u16, label: u8) -> Result<Option<bool>, ValidatorFault>
        ensures step { Under (state self.now) (λ σ. HeldStep (state self.now).schema σ (state self.now).ledger node label (told result)) };

    fn sweep(&mut self, strata: &[u8], table: &mut [u8]) -> Result<usize, ValidatorFault>
        ensures step { Under (state self.old) (λ σ. SweepStep (state self.old).schema σ (state self.old).ledger strata.now table.old (told result) table.new (state self.new).ledger) }
        ensures kept { Keeps (state self.old) (state self.new) };
}
