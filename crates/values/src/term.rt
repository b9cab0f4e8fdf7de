// The term table: one record a node, and tests on what it says.
ghost use Rattle.std.specs.Prelude.{◌≡◌};
ghost use Rattle.values.specs.Terms.{literal_kind, meets, literal_term, passes_term};

use crate::ValueTest;

#[derive(Clone, Copy, PartialEq, Eq, Debug)]
pub struct Term {
    pub kind: TermKind,
}

#[derive(Clone, Copy, PartialEq, Eq, Debug)]
pub enum TermKind {
    Iri,
    Blank,
    Text,
    Whole(i32),
}

// Both ends of `Whole` (values) and of `Node` (node numbers) are included.
#[derive(Clone, Copy, PartialEq, Eq, Debug)]
pub enum Test {
    Iri,
    Blank,
    Literal,
    Text,
    Whole(i32, i32),
    Node(u16, u16),
}

#[derive(Clone, Copy, PartialEq, Eq, Debug)]
pub struct TermTable<'a> {
    terms: &'a [Term],
    tests: &'a [Test],
}

impl TermKind {
    fn is_literal(self) -> bool
        ensures { result ≡ literal_kind self }
    {
        matches!(self, TermKind::Text | TermKind::Whole(_))
    }
}

impl Test {
    fn met_by(self, node: u16, kind: TermKind) -> bool
        ensures { result ≡ meets self node kind }
    {
        match self {
            Test::Iri => matches!(kind, TermKind::Iri),
            Test::Blank => matches!(kind, TermKind::Blank),
            Test::Literal => kind.is_literal(),
            Test::Text => matches!(kind, TermKind::Text),
            Test::Whole(lo, hi) => match kind {
                TermKind::Whole(value) => (lo..=hi).contains(&value),
                _ => false,
            },
            Test::Node(first, last) => (first..=last).contains(&node),
        }
    }
}

impl<'a> TermTable<'a> {
    pub fn new(terms: &'a [Term], tests: &'a [Test]) -> TermTable<'a>
        ensures value { (result.terms.now ≡ terms.now) × (result.tests.now ≡ tests.now) }
    {
        TermTable { terms, tests }
    }
}

impl<'a> ValueTest for TermTable<'a> {
    ghost literals = { λ table node. literal_term table.terms.now node };

    ghost passes = { λ table node test. passes_term table.terms.now table.tests.now node test };

    fn literal(&self, node: u16) -> bool {
        self.terms
            .get(usize::from(node))
            .is_some_and(|term| term.kind.is_literal())
    }

    fn holds(&self, node: u16, test: u16) -> bool {
        let term = self.terms.get(usize::from(node));
        let test = self.tests.get(usize::from(test));
        match (term, test) {
            (Some(term), Some(test)) => test.met_by(node, term.kind),
            _ => false,
        }
    }
}
