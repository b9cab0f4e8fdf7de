// Value tests: which nodes are literals, and which tests hold at a node.
#![tactic(auto)]

ghost use Rattle.std.specs.Prelude.{◌≡◌, ℕ, Bool};

mod sheet;
mod term;

pub use sheet::AnswerSheet;
pub use term::{Term, TermKind, TermTable, Test};

// Answers for every 16-bit number; an answer alters nothing.
pub trait ValueTest {
    // whether a node is a literal
    ghost literals: { Self → ℕ → Bool };
    // whether a test holds at a node: the node first
    ghost passes: { Self → ℕ → ℕ → Bool };

    fn literal(&self, node: u16) -> bool
        ensures { result ≡ literals self.now node };

    fn holds(&self, node: u16, test: u16) -> bool
        ensures { result ≡ passes self.now node test };
}
