// The format of a page, read and written once more: two bytes of count, a byte of fan a node, properties, objects.
use page::PageFault;
use refusal::{Fault, Layer};
use std::alloc::{AllocError, Global};
use triple::{Store, Triple};

// What a load answers: each refusal by its number, with the node, or the entry and the refusal of its add.
// Not a Result with the fault: these tests hold the numbers.
#[derive(Clone, Copy, PartialEq, Debug)]
pub(crate) enum Outcome {
    Loaded(usize),
    Refused(u8),
    Fan(u8, u16),
    Entry(u8, usize, Layer, u8),
}

pub(crate) fn told(res: Result<usize, PageFault>) -> Outcome {
    match res {
        Ok(total) => Outcome::Loaded(total),
        Err(fault) => {
            let number = fault.number();
            match fault {
                PageFault::Fan(node) => Outcome::Fan(number, node),
                PageFault::Add(entry) => {
                    Outcome::Entry(number, entry.at, entry.fault.layer(), entry.fault.number())
                }
                _ => Outcome::Refused(number),
            }
        }
    }
}

fn byte(page: &[u8], at: usize) -> u8 {
    page.get(at).copied().unwrap_or(0)
}

// The fan of a node that the page tells.
fn fan(page: &[u8], node: u16) -> usize {
    usize::from(byte(page, usize::from(node).saturating_add(2)))
}

fn find_large_fan(page: &[u8], nodes: u16) -> Option<u16> {
    (0..nodes).find(|node| fan(page, *node) > 12)
}

fn sum_fans(page: &[u8], nodes: u16) -> usize {
    (0..nodes).fold(0usize, |sum, node| sum.saturating_add(fan(page, node)))
}

// The refusal of the page as a whole, if there is one.
pub(crate) fn refusal(page: &[u8], nodes: u16) -> Option<Outcome> {
    let head = usize::from(nodes).saturating_add(2);
    if page.len() < head {
        return Some(Outcome::Refused(18));
    }
    if u16::from_le_bytes([byte(page, 0), byte(page, 1)]) != nodes {
        return Some(Outcome::Refused(19));
    }
    if let Some(node) = find_large_fan(page, nodes) {
        return Some(Outcome::Fan(20, node));
    }
    let total = sum_fans(page, nodes);
    if page.len() != head.saturating_add(total.saturating_mul(2)) {
        return Some(Outcome::Refused(21));
    }
    None
}

// The triples of a page that is not refused as a whole, entry by entry.
pub(crate) fn entries(heap: Global, page: &[u8], nodes: u16) -> Result<Vec<Triple>, AllocError> {
    let total = sum_fans(page, nodes);
    let mut triples = Vec::new(heap);
    let mut at = usize::from(nodes).saturating_add(2);
    for subject in 0..nodes {
        for _ in 0..fan(page, subject) {
            triples.push(Triple {
                subject,
                property: byte(page, at),
                object: u16::from(byte(page, at.saturating_add(total))),
            })?;
            at = at.saturating_add(1);
        }
    }
    Ok(triples)
}

// The arcs of a store, node by node, in its own order.
pub(crate) fn arcs<S: Store>(heap: Global, store: &S) -> Result<Vec<(u8, u16)>, AllocError> {
    let mut arcs = Vec::new(heap);
    for node in 0..store.node_count() {
        for place in 0..store.fan(node) {
            if let Some(arc) = store.arc(node, place) {
                arcs.push(arc)?;
            }
        }
    }
    Ok(arcs)
}

// The page that a store's save is to write.
pub(crate) fn written<S: Store>(heap: Global, store: &S) -> Result<Vec<u8>, AllocError> {
    let mut page = store.node_count().to_le_bytes().to_vec(heap)?;
    for node in 0..store.node_count() {
        page.push(store.fan(node))?;
    }
    let all = arcs(heap, store)?;
    for (property, _) in all.as_slice() {
        page.push(*property)?;
    }
    for (_, object) in all.as_slice() {
        page.push((*object & 0xff) as u8)?;
    }
    Ok(page)
}
