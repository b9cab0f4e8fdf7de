// A house whose store the script may still change.
ghost use Rattle.std.specs.Prelude.{◌≡◌};

use crate::answer::Answer;
use crate::carrying::CarryOut;
use crate::command::{Command, Edit};
use crate::description::Session;
use crate::expected::Expected;
use crate::trouble::Trouble;
use crate::view::View;
use std::convert::Infallible;
use triple::Store;
use values::ValueTest;

#[derive(Drop)]
pub struct OpenHouse<'a, S: Store, V: ValueTest> {
    pub store: &'a mut S,
    pub values: &'a V,
    pub session: &'a mut Session,
}

impl<S: Store, V: ValueTest> OpenHouse<'_, S, V> {
    pub fn store(&self) -> &S
        ensures { result.now ≡ self.now.store.now }
    {
        &*self.store
    }

    pub fn perform<O: Drop, F>(&mut self, command: Command<O>) -> Result<Answer, Trouble<F>> {
        self.session.perform(self.store, self.values, command)
    }
}

impl Session {
    // Carries out a command that every program has.
    fn perform<S: Store, V: ValueTest, O: Drop, F>(
        &mut self,
        store: &mut S,
        values: &V,
        command: Command<O>,
    ) -> Result<Answer, Trouble<F>> {
        Ok(match command {
            Command::Draft(line) => self.drafting.perform(line)?,
            Command::Edit(Edit::Put(triple)) => Answer::Edit(store.put(triple)),
            Command::Edit(Edit::Take(triple)) => Answer::Edit(store.take(triple)),
            Command::Question(question) => {
                let view = View {
                    schema: self.drafting.schema(),
                    store,
                    values,
                };
                view.answer(self.heap, &mut self.typing, question)?
            }
            _ => return Err(Trouble::Unreadable(Expected::Call)),
        })
    }
}

// A program with no command of its own leaves no line.
impl<S: Store, V: ValueTest> CarryOut<Infallible> for OpenHouse<'_, S, V> {
    type Answer = Answer;

    type Failure = Infallible;

    fn carry_out(
        &mut self,
        command: Command<Infallible>,
    ) -> Option<Result<Answer, Trouble<Infallible>>> {
        Some(self.perform(command))
    }
}
