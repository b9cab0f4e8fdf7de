// The day of a house: the lines from the first call on its validator on.
use crate::answer::DayAnswer;
use crate::batch::{Batch, are_one_list, told};
use crate::command::{DayCommand, Line, call_on};
use crate::failure::{FileFailure, Trouble};
use crate::pages::{PageAnswer, answer_page, load_file};
use crate::tally::{Tally, count_held};
use runs::run;
use script::{
    Answer, CarryOut, Command, Expected, Question, Session, Typing, View, carry_out_all, list, tell,
};
use std::alloc::{AllocError, Global};
use triple::Store;
use validate::Validate;
use validator::Validator;
use values::ValueTest;

#[derive(Drop)]
struct Day<'r, 'v, 's, S: Store + Drop, V: ValueTest + Drop> {
    rt: &'r HostRuntime,
    validator: &'v mut Validator<S, V>,
    session: &'s mut Session,
    tally: Tally,
}

impl<S: Store + Drop, V: ValueTest + Drop> Day<'_, '_, '_, S, V> {
    // Makes the calls of one list.
    fn run_list(&mut self, lines: &[Line]) -> anyhow::Result<()> {
        let nodes = self.validator.store().node_count();
        let before = count_held(self.validator);
        let mut batch = Batch::new(self.rt.alloc(), lines, self.validator.schema(), nodes)?;
        batch.run_on(self.validator)?;
        let dropped = before.saturating_sub(count_held(self.validator));
        self.tell(lines, &batch, dropped)
    }

    // Prints the calls of a list with their answers, and counts them.
    fn tell(&mut self, lines: &[Line], batch: &Batch, dropped: usize) -> anyhow::Result<()> {
        let labels = self.validator.schema().label_count();
        let pairs = usize::from(self.validator.store().node_count()).saturating_mul(labels);
        let mut tables = batch.tables.as_slice();
        let calls = batch.calls.iter().zip(batch.answers.iter());
        for (line, (call, answer)) in lines.iter().zip(calls) {
            let (table, rest) = tables.split_at(usize::from(call.room()).min(tables.len()));
            let table = &table[..pairs.min(table.len())];
            let told = told(self.rt.alloc(), *call, *answer, table, labels, dropped)?;
            self.tally.ask(told.is_err());
            tell(self.rt, line, Ok::<_, Trouble>(DayAnswer::Call(told)))?;
            tables = rest;
        }
        self.tally.lose(dropped);
        Ok(())
    }

    fn load(&mut self, path: &str) -> Result<PageAnswer, Trouble> {
        let before = count_held(self.validator);
        let result = load_file(self.rt, self.validator, path)?;
        self.tally.ask(result.is_err());
        let after = count_held(self.validator);
        self.tally.lose(before.saturating_sub(after));
        Ok(PageAnswer::Loaded(result))
    }

    fn perform(&mut self, command: Command<DayCommand>) -> Result<DayAnswer, Trouble> {
        Ok(match command {
            Command::Draft(line) => DayAnswer::Common(self.session.drafting.perform(line)?),
            Command::Question(question) => DayAnswer::Common(ask(
                self.rt.alloc(),
                self.validator,
                &mut self.session.typing,
                question,
            )?),
            Command::Own(DayCommand::Page(question)) => {
                DayAnswer::Page(answer_page(self.rt, self.validator.store(), question)?)
            }
            Command::Own(DayCommand::Load(path)) => DayAnswer::Page(self.load(path)?),
            Command::Edit(_) => return Err(Trouble::Unreadable(Expected::ValidatorEdit)),
            _ => return Err(Trouble::Unreadable(Expected::Call)),
        })
    }

    fn summarize(&self) -> anyhow::Result<()> {
        let rt = self.rt;
        let tally = self.tally;
        let held = count_held(self.validator);
        let dropped = tally.dropped;
        println!(rt; "calls: {tally}; {held} verdicts held, {dropped} dropped")?;
        list(rt, self.validator.store())
    }
}

// Asks the validator's store, under its schema.
fn ask<S: Store + Drop, V: ValueTest + Drop>(
    heap: Global,
    validator: &Validator<S, V>,
    typing: &mut Typing,
    question: Question,
) -> Result<Answer, AllocError> {
    let view = View {
        schema: validator.schema(),
        store: validator.store(),
        values: validator.values(),
    };
    view.answer(heap, typing, question)
}

// A call is left: it is made in a list.
impl<'a, S: Store + Drop, V: ValueTest + Drop> CarryOut<DayCommand<'a>> for Day<'_, '_, '_, S, V> {
    type Answer = DayAnswer;

    type Failure = FileFailure;

    fn carry_out(
        &mut self,
        command: Command<DayCommand<'a>>,
    ) -> Option<Result<DayAnswer, Trouble>> {
        match command {
            Command::Own(DayCommand::Call(_)) => None,
            _ => Some(self.perform(command)),
        }
    }
}

// Makes the validator by the first list of calls, and carries out the rest.
pub fn run_day<S: Store + Drop, V: ValueTest + Drop>(
    rt: &HostRuntime,
    store: S,
    values: V,
    session: &mut Session,
    lines: &[Line],
) -> anyhow::Result<()> {
    let mut lists = lines.chunk_by(are_one_list).peekable();
    let first = lists
        .next_if(|list| list.iter().any(|line| call_on(line).is_some()))
        .unwrap_or(&[]);
    let schema = session.drafting.take_schema();
    let mut batch = Batch::new(rt.alloc(), first, &schema, store.node_count())?;
    // The day borrows the validator, which is large, and does not move it.
    let (mut validator, done) = run(
        schema,
        store,
        values,
        batch.calls.as_slice(),
        batch.answers.as_mut_slice(),
        batch.tables.as_mut_slice(),
    );
    done?;
    let mut day = Day {
        rt,
        validator: &mut validator,
        session,
        tally: Tally::default(),
    };
    day.tell(first, &batch, 0)?;
    for list in lists {
        let calls = carry_out_all(rt, &mut day, list)?;
        if !calls.is_empty() {
            day.run_list(calls)?;
        }
    }
    day.summarize()
}
