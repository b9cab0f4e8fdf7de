// Every refusal of a page, and which comes first where two apply.
use crate::damage::one_literal;
use crate::format::Outcome;
use crate::loads::{load_fresh, t};
use chain::ChainStore;
use page::save;
use refusal::{Fault, Layer};
use std::alloc::Global;
use std::process::Abort;
use std::test::Fail;
use triple::Store;
use values::AnswerSheet;

// A load into a store of so many nodes that has no triple; node 1 is a literal.
fn check_load(
    rt: &impl Abort,
    heap: Global,
    nodes: u16,
    page: &[u8],
    expected: Outcome,
) -> Result<(), Fail> {
    let sheet = AnswerSheet::new(&[0, 1], &[], 0);
    let facts = one_literal(heap)?;
    let given = load_fresh(rt, heap, ChainStore::new(nodes), sheet, facts, &[], page)?;
    assert_eq!(rt; given, expected);
    Ok(())
}

const SHORT: Outcome = Outcome::Refused(18);

const COUNT: Outcome = Outcome::Refused(19);

const LENGTH: Outcome = Outcome::Refused(21);

#[test]
fn single_refusals(rt: HostRuntime) -> Result<(), Fail> {
    let heap = rt.alloc();
    check_load(&rt, heap, 3, &[3, 0, 0, 0], SHORT)?;
    check_load(&rt, heap, 3, &[2, 0, 0, 0, 0], COUNT)?;
    check_load(&rt, heap, 3, &[3, 1, 0, 0, 0], COUNT)?;
    check_load(&rt, heap, 3, &[3, 0, 0, 13, 0], Outcome::Fan(20, 1))?;
    check_load(&rt, heap, 3, &[3, 0, 0, 0, 0, 5], LENGTH)?;
    check_load(&rt, heap, 3, &[3, 0, 0, 0, 1, 5], LENGTH)?;
    let past = Outcome::Entry(22, 0, Layer::Validator, 8);
    check_load(&rt, heap, 3, &[3, 0, 1, 0, 0, 5, 3], past)?;
    let literal = Outcome::Entry(22, 0, Layer::Validator, 9);
    check_load(&rt, heap, 3, &[3, 0, 0, 1, 0, 5, 0], literal)?;
    let twice = Outcome::Entry(22, 1, Layer::Store, 10);
    check_load(&rt, heap, 3, &[3, 0, 2, 0, 0, 5, 5, 2, 2], twice)
}

#[test]
fn pairs_of_refusals(rt: HostRuntime) -> Result<(), Fail> {
    let heap = rt.alloc();
    // 18 with 19, with 20, and with both
    check_load(&rt, heap, 3, &[2, 0, 0, 0], SHORT)?;
    check_load(&rt, heap, 3, &[3, 0, 13, 0], SHORT)?;
    check_load(&rt, heap, 3, &[1, 0, 13], SHORT)?;
    // 19 with 20, with 21 and with 22
    check_load(&rt, heap, 3, &[4, 0, 0, 13, 0], COUNT)?;
    check_load(&rt, heap, 3, &[4, 0, 0, 0, 0, 1], COUNT)?;
    check_load(&rt, heap, 3, &[4, 0, 1, 0, 0, 1, 200], COUNT)?;
    // 20 with 21 and with 22; the lowest of two nodes
    check_load(&rt, heap, 3, &[3, 0, 0, 0, 13, 1], Outcome::Fan(20, 2))?;
    check_load(&rt, heap, 3, &[3, 0, 1, 13, 0, 1, 200], Outcome::Fan(20, 1))?;
    check_load(&rt, heap, 3, &[3, 0, 255, 13, 14], Outcome::Fan(20, 0))?;
    // 21 with 22
    check_load(&rt, heap, 3, &[3, 0, 1, 0, 0, 1, 200, 0], LENGTH)?;
    check_load(&rt, heap, 3, &[3, 0, 1, 0, 0, 200], LENGTH)
}

#[test]
fn no_nodes_and_one(rt: HostRuntime) -> Result<(), Fail> {
    let heap = rt.alloc();
    check_load(&rt, heap, 0, &[], SHORT)?;
    check_load(&rt, heap, 0, &[0], SHORT)?;
    check_load(&rt, heap, 0, &[0, 0], Outcome::Loaded(0))?;
    check_load(&rt, heap, 0, &[1, 0], COUNT)?;
    check_load(&rt, heap, 0, &[0, 0, 0], LENGTH)?;
    check_load(&rt, heap, 1, &[1, 0], SHORT)?;
    check_load(&rt, heap, 1, &[1, 0, 0], Outcome::Loaded(0))?;
    check_load(&rt, heap, 1, &[0, 1, 0], COUNT)?;
    check_load(&rt, heap, 1, &[1, 0, 2, 5, 6, 0, 0], Outcome::Loaded(2))?;
    check_load(
        &rt,
        heap,
        1,
        &[1, 0, 1, 5, 1],
        Outcome::Entry(22, 0, Layer::Validator, 8),
    )
}

// A save into a buffer that is too short refuses and writes nothing.
#[test]
fn short_buffers(rt: HostRuntime) -> Result<(), Fail> {
    let mut store = ChainStore::new(3);
    assert!(rt; store.put(t(2, 9, 1)).is_ok());
    assert!(rt; store.put(t(0, 4, 2)).is_ok());
    for length in 0..9usize {
        let mut buffer = [171; 9];
        let Err(fault) = save(&store, &mut buffer[0..length]) else {
            return Err(Fail::new("a save into a short buffer"));
        };
        assert!(rt; fault.number() == 23 && matches!(fault.layer(), Layer::Page));
        assert!(rt; buffer == [171; 9]);
    }
    let mut buffer = [171; 11];
    assert!(rt; matches!(save(&store, &mut buffer), Ok(9)));
    assert!(rt; buffer == [3, 0, 1, 0, 1, 4, 9, 2, 1, 171, 171]);
    Ok(())
}
