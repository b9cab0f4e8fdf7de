// An issue tracker: issues reported by clients that are users, reproduced by programmers, and related to issues.
use crate::builder::{DraftBuilder, all_but, only};
use crate::example::{Example, triple};
use draft::ShapeRow;
use std::alloc::{AllocError, Global};
use std::process::Abort;
use std::test::*;
use validate::Validate;
use values::{Term, TermKind, TermTable, Test, ValueTest};

const REPORTED_BY: u8 = 0;

const REPRODUCED_BY: u8 = 1;

const RELATED_TO: u8 = 2;

const CLIENT_NUMBER: u8 = 3;

const CLIENT_AFFILIATION: u8 = 4;

const NAME: u8 = 5;

const MAILBOX: u8 = 6;

const EXPERTISE: u8 = 7;

const EXPERIENCE: u8 = 8;

const USER: u8 = 0;

const PROGRAMMER: u8 = 1;

const CLIENT: u8 = 2;

const ISSUE: u8 = 3;

const ANYTHING: u8 = 4;

const CLIENT_AND_USER: u8 = 5;

const TEXT: u8 = 6;

const IRI: u8 = 7;

const LEVEL: u8 = 8;

const WHOLE: u8 = 9;

const ISSUE_1: u16 = 0;

const ISSUE_2: u16 = 1;

const FATIMA: u16 = 2;

const REN: u16 = 3;

const NOA: u16 = 4;

const EMIN: u16 = 5;

const SEMANTIC_WEB: u16 = 6;

const SENIOR: u16 = 7;

const JUNIOR: u16 = 8;

const EMINS_MAILBOX: u16 = 9;

const ONE: u16 = 10;

const FATIMA_SMITH: u16 = 11;

const ABC: u16 = 12;

const EMIN_V_PETROV: u16 = 13;

const TERMS: [Term; 14] = [
    Term {
        kind: TermKind::Iri,
    },
    Term {
        kind: TermKind::Iri,
    },
    Term {
        kind: TermKind::Iri,
    },
    Term {
        kind: TermKind::Iri,
    },
    Term {
        kind: TermKind::Iri,
    },
    Term {
        kind: TermKind::Iri,
    },
    Term {
        kind: TermKind::Iri,
    },
    Term {
        kind: TermKind::Iri,
    },
    Term {
        kind: TermKind::Iri,
    },
    Term {
        kind: TermKind::Iri,
    },
    Term {
        kind: TermKind::Whole(1),
    },
    Term {
        kind: TermKind::Text,
    },
    Term {
        kind: TermKind::Text,
    },
    Term {
        kind: TermKind::Text,
    },
];

const TESTS: [Test; 4] = [
    Test::Text,
    Test::Iri,
    Test::Node(SENIOR, JUNIOR),
    Test::Whole(i32::MIN, i32::MAX),
];

const TRIPLES: [(u16, u8, u16); 15] = [
    (ISSUE_1, REPORTED_BY, FATIMA),
    (ISSUE_1, REPRODUCED_BY, REN),
    (ISSUE_1, REPRODUCED_BY, NOA),
    (ISSUE_1, RELATED_TO, ISSUE_2),
    (ISSUE_2, REPORTED_BY, EMIN),
    (ISSUE_2, REPRODUCED_BY, REN),
    (ISSUE_2, RELATED_TO, ISSUE_1),
    (FATIMA, CLIENT_NUMBER, ONE),
    (FATIMA, NAME, FATIMA_SMITH),
    (REN, EXPERTISE, SEMANTIC_WEB),
    (REN, EXPERIENCE, SENIOR),
    (NOA, EXPERIENCE, JUNIOR),
    (EMIN, CLIENT_AFFILIATION, ABC),
    (EMIN, NAME, EMIN_V_PETROV),
    (EMIN, MAILBOX, EMINS_MAILBOX),
];

// One name, and at most one mailbox.
fn user(draft: &mut DraftBuilder) -> Result<u8, AllocError> {
    let name = draft.arc(only(&[NAME]), TEXT)?;
    let mailbox = draft.arc(only(&[MAILBOX]), IRI)?;
    let mailbox = draft.times(mailbox, 0, Some(1))?;
    draft.each(name, mailbox)
}

// Any expertise, and one level of experience.
fn programmer(draft: &mut DraftBuilder) -> Result<u8, AllocError> {
    let expertise = draft.arcs(only(&[EXPERTISE]), IRI)?;
    let experience = draft.arc(only(&[EXPERIENCE]), LEVEL)?;
    draft.each(expertise, experience)
}

// A number or an affiliation, and not both.
fn client(draft: &mut DraftBuilder) -> Result<u8, AllocError> {
    let number = draft.arc(only(&[CLIENT_NUMBER]), WHOLE)?;
    let affiliation = draft.arc(only(&[CLIENT_AFFILIATION]), ANYTHING)?;
    draft.some(number, affiliation)
}

// One reporter, one to five programmers, any related issues.
fn issue(draft: &mut DraftBuilder) -> Result<u8, AllocError> {
    let reported = draft.arc(only(&[REPORTED_BY]), CLIENT_AND_USER)?;
    let reproduced = draft.arc(only(&[REPRODUCED_BY]), PROGRAMMER)?;
    let reproduced = draft.times(reproduced, 1, Some(5))?;
    let related = draft.arcs(only(&[RELATED_TO]), ISSUE)?;
    let people = draft.each(reported, reproduced)?;
    draft.each(people, related)
}

// Each side lets the properties of the other pass.
fn define_client_and_user(
    draft: &mut DraftBuilder,
    client: u8,
    user: u8,
) -> Result<(), AllocError> {
    let beside_client = draft.arcs(all_but(&[CLIENT_NUMBER, CLIENT_AFFILIATION]), ANYTHING)?;
    let client = draft.each(client, beside_client)?;
    let client = draft.shape(ShapeRow::Hood(client))?;
    let beside_user = draft.arcs(all_but(&[NAME, MAILBOX]), ANYTHING)?;
    let user = draft.each(user, beside_user)?;
    let user = draft.shape(ShapeRow::Hood(user))?;
    draft.define(ShapeRow::And(client, user))?;
    Ok(())
}

fn tracker(heap: Global) -> Result<Example<'static, TermTable<'static>>, AllocError> {
    let mut draft = DraftBuilder::new(heap);
    let user = user(&mut draft)?;
    let programmer = programmer(&mut draft)?;
    let client = client(&mut draft)?;
    let issue = issue(&mut draft)?;
    let anything = draft.arcs(all_but(&[]), ANYTHING)?;
    for row in [user, programmer, client, issue, anything] {
        draft.define(ShapeRow::Hood(row))?;
    }
    define_client_and_user(&mut draft, client, user)?;
    for test in 0..4 {
        draft.define(ShapeRow::Value(test))?;
    }
    Ok(Example {
        draft,
        values: TermTable::new(&TERMS, &TESTS),
        nodes: 14,
        triples: &TRIPLES,
    })
}

const TYPING: [(u16, u8); 36] = [
    (ISSUE_1, ISSUE),
    (ISSUE_2, ISSUE),
    (FATIMA, CLIENT_AND_USER),
    (EMIN, CLIENT_AND_USER),
    (REN, PROGRAMMER),
    (NOA, PROGRAMMER),
    (ISSUE_1, ANYTHING),
    (ISSUE_2, ANYTHING),
    (FATIMA, ANYTHING),
    (REN, ANYTHING),
    (NOA, ANYTHING),
    (EMIN, ANYTHING),
    (SEMANTIC_WEB, ANYTHING),
    (SENIOR, ANYTHING),
    (JUNIOR, ANYTHING),
    (EMINS_MAILBOX, ANYTHING),
    (ONE, ANYTHING),
    (FATIMA_SMITH, ANYTHING),
    (ABC, ANYTHING),
    (EMIN_V_PETROV, ANYTHING),
    (FATIMA_SMITH, TEXT),
    (ABC, TEXT),
    (EMIN_V_PETROV, TEXT),
    (ISSUE_1, IRI),
    (ISSUE_2, IRI),
    (FATIMA, IRI),
    (REN, IRI),
    (NOA, IRI),
    (EMIN, IRI),
    (SEMANTIC_WEB, IRI),
    (SENIOR, IRI),
    (JUNIOR, IRI),
    (EMINS_MAILBOX, IRI),
    (SENIOR, LEVEL),
    (JUNIOR, LEVEL),
    (ONE, WHOLE),
];

// Nobody is a user or a client alone: the shapes are closed, and Fatima and Emin have the arcs of both.
#[test]
fn issue_tracker(rt: HostRuntime) -> Result<(), Fail> {
    tracker(rt.alloc())?.has_typing(&rt, rt.alloc(), &TYPING)
}

// A client has a number or an affiliation and not both, a user has a name; closed shapes have nothing else.
fn clients_and_users<V: ValueTest + Copy + Drop>(
    rt: &impl Abort,
    example: &Example<'_, V>,
) -> Result<(), Fail> {
    let mut validator = example.validator(rt)?;
    assert!(rt;
        validator
            .withdraw(triple(FATIMA, NAME, FATIMA_SMITH))
            .is_ok()
    );
    assert_eq!(rt; validator.look(FATIMA, CLIENT).ok(), Some(true));
    assert_eq!(rt; validator.look(FATIMA, CLIENT_AND_USER).ok(), Some(false));
    assert!(rt; validator.add(triple(FATIMA, NAME, FATIMA_SMITH)).is_ok());
    assert_eq!(rt; validator.look(FATIMA, CLIENT).ok(), Some(false));
    assert_eq!(rt; validator.look(FATIMA, CLIENT_AND_USER).ok(), Some(true));
    assert!(rt;
        validator
            .add(triple(FATIMA, CLIENT_AFFILIATION, ABC))
            .is_ok()
    );
    assert_eq!(rt; validator.look(FATIMA, CLIENT_AND_USER).ok(), Some(false));
    assert!(rt;
        validator
            .withdraw(triple(FATIMA, CLIENT_AFFILIATION, ABC))
            .is_ok()
    );
    assert!(rt;
        validator
            .withdraw(triple(FATIMA, CLIENT_NUMBER, ONE))
            .is_ok()
    );
    assert_eq!(rt; validator.look(FATIMA, USER).ok(), Some(true));
    assert_eq!(rt; validator.look(FATIMA, CLIENT_AND_USER).ok(), Some(false));
    Ok(())
}

// Each issue is related to the other, so what spoils one spoils both.
fn issues<V: ValueTest + Copy + Drop>(
    rt: &impl Abort,
    example: &Example<'_, V>,
) -> Result<(), Fail> {
    let mut validator = example.validator(rt)?;
    assert_eq!(rt; validator.look(ISSUE_1, ISSUE).ok(), Some(true));
    assert!(rt;
        validator
            .withdraw(triple(EMIN, NAME, EMIN_V_PETROV))
            .is_ok()
    );
    assert_eq!(rt; validator.held(ISSUE_1, ISSUE).ok(), Some(None));
    assert_eq!(rt; validator.look(ISSUE_1, ISSUE).ok(), Some(false));
    assert_eq!(rt; validator.look(ISSUE_2, ISSUE).ok(), Some(false));
    assert!(rt; validator.add(triple(EMIN, NAME, EMIN_V_PETROV)).is_ok());
    assert_eq!(rt; validator.look(ISSUE_1, ISSUE).ok(), Some(true));
    assert!(rt;
        validator
            .withdraw(triple(ISSUE_2, REPRODUCED_BY, REN))
            .is_ok()
    );
    assert_eq!(rt; validator.look(ISSUE_2, ISSUE).ok(), Some(false));
    assert_eq!(rt; validator.look(ISSUE_1, ISSUE).ok(), Some(false));
    Ok(())
}

#[test]
fn changes(rt: HostRuntime) -> Result<(), Fail> {
    let example = tracker(rt.alloc())?;
    clients_and_users(&rt, &example)?;
    issues(&rt, &example)
}
