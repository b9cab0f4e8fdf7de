// Users of a service who own accounts and have access to accounts.
use crate::builder::{DraftBuilder, all_but, only};
use crate::example::Example;
use draft::ShapeRow;
use std::alloc::{AllocError, Global};
use std::test::*;
use values::AnswerSheet;

const OWNS: u8 = 0;

const HAS_ACCESS: u8 = 1;

const INVITED: u8 = 2;

const ANYTHING: u8 = 0;

const OWNER: u8 = 1;

const SERVED: u8 = 2;

const LAWFUL: u8 = 3;

// User 4 × o + a owns the first o of three accounts, and has access to the first a of them.
const USERS: u16 = 16;

const ACCOUNTS: u16 = 3;

// Owns an account at least; the rows are closed, so further arcs are written out.
fn owner(draft: &mut DraftBuilder) -> Result<u8, AllocError> {
    let owned = draft.arc(only(&[OWNS]), ANYTHING)?;
    let owned = draft.times(owned, 1, None)?;
    let others = draft.arcs(all_but(&[OWNS]), ANYTHING)?;
    draft.each(owned, others)
}

// Any accesses, and any pairs of an owned account and an access. That the shape is open is written as any arcs of
// other properties; there are no inverse properties, so arcs from other nodes are left out.
fn served(draft: &mut DraftBuilder) -> Result<u8, AllocError> {
    let owned = draft.arc(only(&[OWNS]), ANYTHING)?;
    let access = draft.arc(only(&[HAS_ACCESS]), ANYTHING)?;
    let accesses = draft.times(access, 0, None)?;
    let pair = draft.each(owned, access)?;
    let pairs = draft.times(pair, 0, None)?;
    let counted = draft.each(accesses, pairs)?;
    let others = draft.arcs(all_but(&[OWNS, HAS_ACCESS]), ANYTHING)?;
    draft.each(counted, others)
}

// Lawful is who is no owner or is served.
fn service(heap: Global) -> Result<DraftBuilder, AllocError> {
    let mut draft = DraftBuilder::new(heap);
    let anything = draft.arcs(all_but(&[]), ANYTHING)?;
    let owner = owner(&mut draft)?;
    let served = served(&mut draft)?;
    for row in [anything, owner, served] {
        draft.define(ShapeRow::Hood(row))?;
    }
    let owner = draft.shape(ShapeRow::Hood(owner))?;
    let served = draft.shape(ShapeRow::Hood(served))?;
    let no_owner = draft.shape(ShapeRow::Not(owner))?;
    draft.define(ShapeRow::Or(no_owner, served))?;
    Ok(draft)
}

// What a user owns, what it has access to, and one user that it invited.
fn push_user(triples: &mut Vec<(u16, u8, u16)>, user: u16) -> Result<(), AllocError> {
    triples.push((user, INVITED, user / 2))?;
    for account in 0..ACCOUNTS {
        if account < user / 4 {
            triples.push((user, OWNS, USERS + account))?;
        }
        if account < user % 4 {
            triples.push((user, HAS_ACCESS, USERS + account))?;
        }
    }
    Ok(())
}

fn all_triples(heap: Global) -> Result<Vec<(u16, u8, u16)>, AllocError> {
    let mut triples = Vec::new(heap);
    for user in 0..USERS {
        push_user(&mut triples, user)?;
    }
    Ok(triples)
}

// By counting: an account, which has no arcs, owns nothing and has no access.
fn counted_typing(heap: Global) -> Result<Vec<(u16, u8)>, AllocError> {
    let mut typing = Vec::new(heap);
    for node in 0..USERS + ACCOUNTS {
        let owned = if node < USERS { node / 4 } else { 0 };
        let access = if node < USERS { node % 4 } else { 0 };
        typing.push((node, ANYTHING))?;
        if owned > 0 {
            typing.push((node, OWNER))?;
        }
        if access >= owned {
            typing.push((node, SERVED))?;
        }
        if owned == 0 || access >= owned {
            typing.push((node, LAWFUL))?;
        }
    }
    Ok(typing)
}

#[test]
fn access_at_least_as_often_as_owned(rt: HostRuntime) -> Result<(), Fail> {
    let triples = all_triples(rt.alloc())?;
    let typing = counted_typing(rt.alloc())?;
    let example = Example {
        draft: service(rt.alloc())?,
        values: AnswerSheet::new(&[], &[], 0),
        nodes: USERS + ACCOUNTS,
        triples: triples.as_slice(),
    };
    example.has_typing(&rt, rt.alloc(), typing.as_slice())
}
