// The answer sheet: what a caller already knows of its nodes, one byte an answer.
ghost use Rattle.std.specs.Prelude.{◌≡◌};
ghost use Rattle.values.specs.Sheet.{literal_byte, passes_byte};

use crate::ValueTest;

// Two tables of bytes with the number of tests: the format that callers have.
// The answers stand by rows: all tests of node 0, then all tests of node 1, and so on.
#[derive(Clone, Copy, PartialEq, Eq, Debug)]
pub struct AnswerSheet<'a> {
    literals: &'a [u8],
    answers: &'a [u8],
    tests: u16,
}

impl<'a> AnswerSheet<'a> {
    pub fn new(literals: &'a [u8], answers: &'a [u8], tests: u16) -> AnswerSheet<'a>
        ensures value { (result.literals.now ≡ literals.now) × (result.answers.now ≡ answers.now) × (result.tests ≡ tests) }
    {
        AnswerSheet {
            literals,
            answers,
            tests,
        }
    }
}

impl<'a> ValueTest for AnswerSheet<'a> {
    ghost literals = { λ sheet node. literal_byte sheet.literals.now node };

    ghost passes = { λ sheet node test. passes_byte sheet.answers.now sheet.tests node test };

    fn literal(&self, node: u16) -> bool {
        self.literals.get(usize::from(node)) == Some(&1)
    }

    fn holds(&self, node: u16, test: u16) -> bool {
        let at = usize::from(node) * usize::from(self.tests) + usize::from(test);
        test < self.tests && self.answers.get(at) == Some(&1)
    }
}
