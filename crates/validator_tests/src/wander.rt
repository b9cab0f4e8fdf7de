// A list of calls on the book and on a validator: equal answers, equal tables, equal state.
use crate::calls::Source;
use model::{Book, same_held, same_triples};
use replay::{Answer, Call, replay};
use std::alloc::{AllocError, Global};
use std::process::Abort;
use std::test::Fail;
use triple::Store;
use validate::Validate;
use validator::Validator;
use values::ValueTest;

// How many answers of each kind there were.
#[derive(Clone, Copy, Default)]
pub(crate) struct Tally {
    pub(crate) accepted: usize,
    pub(crate) yes: usize,
    pub(crate) no: usize,
    pub(crate) held: usize,
    pub(crate) not_held: usize,
    pub(crate) swept: usize,
    pub(crate) refused: usize,
}

impl Tally {
    fn count(&mut self, answer: Answer) {
        match answer {
            Answer::Accepted => self.accepted = self.accepted.saturating_add(1),
            Answer::Verdict(true) => self.yes = self.yes.saturating_add(1),
            Answer::Verdict(false) => self.no = self.no.saturating_add(1),
            Answer::Held(Some(_)) => self.held = self.held.saturating_add(1),
            Answer::Held(None) => self.not_held = self.not_held.saturating_add(1),
            Answer::Pairs(_) => self.swept = self.swept.saturating_add(1),
            Answer::Refused(_, _) => self.refused = self.refused.saturating_add(1),
        }
    }

    // Each kind of answer came at least so often.
    pub(crate) fn is_mixed(&self, least: usize) -> bool {
        self.accepted >= least
            && self.yes >= least
            && self.no >= least
            && self.held >= least
            && self.not_held >= least
            && self.swept >= least
            && self.refused >= least
    }
}

// A list of calls, with what the book answers and writes.
#[derive(Drop)]
struct Expected {
    calls: Vec<Call>,
    answers: Vec<Answer>,
    tables: Vec<u8>,
}

impl Expected {
    // Makes the call on the book; its table, 9 before the call, goes behind the others.
    fn extend(&mut self, heap: Global, book: &mut Book, call: Call) -> Result<(), AllocError> {
        let mut table = vec![in heap; 9; usize::from(call.room())]?;
        self.calls.push(call)?;
        self.answers
            .push(book.perform(call, table.as_mut_slice())?)?;
        self.tables.extend_from_slice(table.as_slice())?;
        Ok(())
    }
}

fn expect(
    heap: Global,
    book: &mut Book,
    source: &mut Source,
    calls: u16,
    crowd: usize,
) -> Result<Expected, AllocError> {
    let mut list = Expected {
        calls: Vec::new(heap),
        answers: Vec::new(heap),
        tables: Vec::new(heap),
    };
    for _ in 0..calls {
        let call = source.call(book, crowd);
        list.extend(heap, book, call)?;
    }
    Ok(list)
}

// The validator gives the answers and writes the tables that the book gives and writes.
fn compare_answers<A: Validate>(
    rt: &impl Abort,
    heap: Global,
    validator: &mut A,
    list: &Expected,
    tally: &mut Tally,
) -> Result<(), Fail> {
    let mut answers = vec![in heap; Answer::Accepted; list.calls.len()]?;
    let mut tables = vec![in heap; 9; list.tables.len()]?;
    let ran = replay(
        validator,
        list.calls.as_slice(),
        answers.as_mut_slice(),
        tables.as_mut_slice(),
    );
    assert!(rt; ran.is_ok());
    assert!(rt;
        answers.as_slice() == list.answers.as_slice(),
        "the answers"
    );
    for answer in list.answers.as_slice() {
        tally.count(*answer);
    }
    assert!(rt; tables.as_slice() == list.tables.as_slice(), "a table");
    Ok(())
}

pub(crate) fn wander<S: Store + Drop, V: ValueTest + Drop>(
    rt: &impl Abort,
    heap: Global,
    validator: &mut Validator<S, V>,
    book: &mut Book,
    source: &mut Source,
    calls: u16,
    crowd: usize,
    tally: &mut Tally,
) -> Result<(), Fail> {
    let list = expect(heap, book, source, calls, crowd)?;
    compare_answers(rt, heap, validator, &list, tally)?;
    assert!(rt; same_triples(validator.store(), book), "the triples");
    assert!(rt; same_held(validator, book)?, "the held verdicts");
    Ok(())
}
