// Loading: the triples of a page, added through a validator.
ghost use Rattle.std.specs.Prelude.{◌≡◌, ℕ, ◌+◌, ◌<◌, ◌≤◌, [], ◌∷◌, length, Some, sum};
ghost use Rattle.validate.specs.Promise.{Keeps};
ghost use Rattle.page.specs.Faults.{Told, told};
ghost use Rattle.page.specs.Format.{of_node, triples_of};
ghost use Rattle.page.specs.Loading.{page_refusal, Loads, Restores};
ghost use Rattle.page.specs.Reading.{Outcome, pairs, rows};

use crate::fault::{Entry, PageFault};
use crate::head::read_head;
use triple::Triple;
use validate::Validate;

// Adds the triples of the page, one by one, and answers how many they are.
pub fn load<A: Validate>(validator: &mut A, page: &[u8]) -> Result<usize, PageFault>
    ensures step { Loads (A.Validate.state validator.old).ledger page.now (told result) (A.Validate.state validator.new).ledger }
    ensures restored { Restores (A.Validate.state validator.old).ledger page.now (told result) (A.Validate.state validator.new).ledger }
    ensures same { (e : Told) → page_refusal (A.Validate.state validator.old).ledger.nodes page.now ≡ Some e → validator.new ≡ validator.old }
    ensures kept { Keeps (A.Validate.state validator.old) (A.Validate.state validator.new) }
{
    let nodes = validator.node_count();
    let total = read_head(page, nodes)?;
    let (fans, arcs) = page[2..].split_at(usize::from(nodes));
    let (properties, objects) = arcs.split_at(total);
    add_page(validator, fans, properties, objects)?;
    Ok(total)
}

// The adds of a whole page.
fn add_page<A: Validate>(
    validator: &mut A,
    fans: &[u8],
    properties: &[u8],
    objects: &[u8],
) -> Result<(), Entry>
    requires few { length fans.now < 65536 }
    requires properties { length properties.now ≡ sum fans.now }
    requires objects { length objects.now ≡ sum fans.now }
    ensures step { Outcome (A.Validate.state validator.old).ledger (triples_of (length fans.now) (rows fans.now properties.now objects.now)) 0 (A.Validate.state validator.new).ledger result }
    ensures kept { Keeps (A.Validate.state validator.old) (A.Validate.state validator.new) }
{
    let mut at = 0;
    for (node, fan) in fans.iter().enumerate() {
        let end = at + usize::from(*fan);
        add_node(
            validator,
            node as u16,
            at,
            &properties[at..end],
            &objects[at..end],
        )?;
        at = end;
    }
    Ok(())
}

// The adds of one node, whose first entry is `start`.
fn add_node<A: Validate>(
    validator: &mut A,
    node: u16,
    start: usize,
    properties: &[u8],
    objects: &[u8],
) -> Result<(), Entry>
    requires level { length objects.now ≡ length properties.now }
    requires fits { start + length properties.now < 18446744073709551616 }
    ensures step { Outcome (A.Validate.state validator.old).ledger (of_node node (pairs properties.now objects.now)) start (A.Validate.state validator.new).ledger result }
    ensures kept { Keeps (A.Validate.state validator.old) (A.Validate.state validator.new) }
{
    for (i, (property, object)) in properties.iter().zip(objects).enumerate() {
        let triple = Triple {
            subject: node,
            property: *property,
            object: u16::from(*object),
        };
        add_entry(validator, start + i, triple)?;
    }
    Ok(())
}

// The add of one entry, whose fault keeps the entry's number.
fn add_entry<A: Validate>(validator: &mut A, at: usize, triple: Triple) -> Result<(), Entry>
    ensures step { Outcome (A.Validate.state validator.old).ledger ((triple.subject, triple.property, triple.object) ∷ []) at (A.Validate.state validator.new).ledger result }
    ensures kept { Keeps (A.Validate.state validator.old) (A.Validate.state validator.new) }
{
    validator.add(triple).map_err(|fault| Entry { at, fault })
}
