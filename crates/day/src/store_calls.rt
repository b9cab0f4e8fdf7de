// The lines of a house up to its day.
use crate::answer::DayAnswer;
use crate::command::{DayCommand, Line};
use crate::day::run_day;
use crate::failure::{FileFailure, Trouble};
use crate::pages::answer_page;
use script::{
    CarryOut, Command, Description, OpenHouse, RunOver, Session, carry_out_all, list, run_described,
};
use triple::Store;
use values::{TermTable, ValueTest};

#[derive(Drop)]
struct StoreCalls<'a, S: Store, V: ValueTest> {
    rt: &'a HostRuntime,
    open: OpenHouse<'a, S, V>,
}

// The first call on the validator is left, and all behind it.
impl<'a, S: Store, V: ValueTest> CarryOut<DayCommand<'a>> for StoreCalls<'_, S, V> {
    type Answer = DayAnswer;

    type Failure = FileFailure;

    fn carry_out(
        &mut self,
        command: Command<DayCommand<'a>>,
    ) -> Option<Result<DayAnswer, Trouble>> {
        match command {
            Command::Own(DayCommand::Call(_) | DayCommand::Load(_)) => None,
            Command::Own(DayCommand::Page(question)) => {
                Some(answer_page(self.rt, self.open.store(), question).map(DayAnswer::Page))
            }
            _ => Some(self.open.perform(command).map(DayAnswer::Common)),
        }
    }
}

// Answers the lines from the first call on the validator on.
fn run_store<'s, 'l, 't, 'a, S: Store, V: ValueTest>(
    rt: &'s HostRuntime,
    store: &'s mut S,
    values: &'s V,
    session: &'s mut Session,
    lines: &'l [Line<'t, 'a>],
) -> anyhow::Result<&'l [Line<'t, 'a>]> {
    let open = OpenHouse {
        store,
        values,
        session,
    };
    carry_out_all(rt, &mut StoreCalls { rt, open }, lines)
}

// What a day does over a store: the calls on it, and then those on a validator, if there are any.
#[derive(Drop)]
struct Calls<'r, 'l, 't, 'a> {
    rt: &'r HostRuntime,
    lines: &'l [Line<'t, 'a>],
}

impl RunOver for Calls<'_, '_, '_, '_> {
    fn run_over<S: Store + Drop>(&self, store: S, house: &mut Description) -> anyhow::Result<()> {
        let mut store = store;
        let values = TermTable::new(house.terms.as_slice(), house.tests.as_slice());
        let rest = run_store(self.rt, &mut store, &values, &mut house.session, self.lines)?;
        if rest.is_empty() {
            list(self.rt, &store)
        } else {
            run_day(self.rt, store, values, &mut house.session, rest)
        }
    }
}

// Carries out the lines of one house, its description first.
pub fn run_lines(rt: &HostRuntime, lines: &[Line]) -> anyhow::Result<()> {
    let mut house = Description::new(rt.alloc());
    let lines = carry_out_all(rt, &mut house, lines)?;
    run_described(rt, &Calls { rt, lines }, &mut house)
}
