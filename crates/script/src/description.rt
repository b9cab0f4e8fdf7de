// The house that a script describes before its first call.
ghost use Rattle.std.specs.Prelude.{◌≡◌, [], IsNone};

use crate::answer::Answer;
use crate::carrying::CarryOut;
use crate::command::{Command, StoreKind};
use crate::drafting::{Drafting, add};
use crate::expected::Expected;
use crate::trouble::Trouble;
use crate::typing::Typing;
use std::alloc::Global;
use std::convert::Infallible;
use triple::MAX_NODES;
use values::{Term, Test};

#[derive(Drop)]
pub struct Description {
    pub terms: Vec<Term>,
    pub tests: Vec<Test>,
    pub store: Option<StoreKind>,
    pub session: Session,
}

// What a script keeps beside its store: the draft and the schema, and the typing that nodes are checked under.
#[derive(Drop)]
pub struct Session {
    pub heap: Global,
    pub drafting: Drafting,
    pub typing: Typing,
}

impl Description {
    pub fn new(heap: Global) -> Description
        ensures { (result.terms.items ≡ []) × (result.tests.items ≡ []) × IsNone result.store }
    {
        Description {
            terms: Vec::new(heap),
            tests: Vec::new(heap),
            store: None,
            session: Session {
                heap,
                drafting: Drafting::new(heap),
                typing: Typing::new(heap),
            },
        }
    }

    fn set_store(&mut self, store: StoreKind) -> Result<Answer, Expected> {
        if self.store.is_some() {
            return Err(Expected::OneStore);
        }
        self.store = Some(store);
        let (StoreKind::Chain(nodes) | StoreKind::Rows(nodes, _)) = store;
        Ok(Answer::Nodes(nodes.min(MAX_NODES)))
    }

    // Adds what the command describes; all else comes too early.
    fn add<O: Drop>(&mut self, command: Command<O>) -> Result<Answer, Trouble<Infallible>> {
        Ok(match command {
            Command::Store(store) => self.set_store(store)?,
            Command::Term(kind) => Answer::Node(add(&mut self.terms, Term { kind })?),
            Command::Test(test) => Answer::Test(add(&mut self.tests, test)?),
            Command::Draft(line) => self.session.drafting.perform(line)?,
            _ => return Err(Trouble::Unreadable(Expected::Store)),
        })
    }
}

// Once there is a store, the first line that describes nothing ends the description.
impl<O: Copy> CarryOut<O> for Description {
    type Answer = Answer;

    type Failure = Infallible;

    fn carry_out(&mut self, command: Command<O>) -> Option<Result<Answer, Trouble<Infallible>>> {
        if self.store.is_some() && !command.describes() {
            return None;
        }
        Some(self.add(command))
    }
}
