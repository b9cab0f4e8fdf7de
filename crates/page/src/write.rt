// Saving: the page of a store, written into a buffer.
ghost use Rattle.std.specs.Prelude.{◌≡◌, ℕ, ◌+◌, ◌<◌, ◌≤◌, List, ◌++◌, length};
ghost use Rattle.triple.specs.Arcs.{Arc};
ghost use Rattle.triple.specs.Stores.{total};
ghost use Rattle.page.specs.Faults.{told};
ghost use Rattle.page.specs.Format.{fans_of, arcs_of, properties_of, objects_of, save_answer, save_after};
ghost use Rattle.page.specs.Laying.{laid};

use crate::fault::PageFault;
use triple::{CountedArcs, Store};

// Writes the page of the store at the start of the buffer, and answers its length.
pub fn save<S: Store>(store: &S, page: &mut [u8]) -> Result<usize, PageFault>
    ensures answer { told result ≡ save_answer page.old (S.Store.nodes store.now) (S.Store.arcs store.now) }
    ensures after { page.new ≡ save_after page.old (S.Store.nodes store.now) (S.Store.arcs store.now) }
{
    store.lawful();
    let nodes = store.node_count();
    let fans_end = 2 + usize::from(nodes);
    let length = fans_end + 2 * usize::from(store.total());
    if page.len() < length {
        return Err(PageFault::SmallBuffer);
    }
    let [low, high] = nodes.to_le_bytes();
    page[0] = low;
    page[1] = high;
    write_fans(store, &mut page[2..fans_end]);
    write_arcs(store, &mut page[fans_end..length]);
    Ok(length)
}

fn write_fans<S: Store>(store: &S, fans: &mut [u8])
    requires { length fans.old ≡ S.Store.nodes store.now }
    ensures { fans.new ≡ fans_of (S.Store.nodes store.now) (S.Store.arcs store.now) }
{
    store.lawful();
    for (node, fan) in fans.iter_mut().enumerate() {
        *fan = store.fan(node as u16);
    }
}

// Writes all properties, then all objects.
fn write_arcs<S: Store>(store: &S, arcs: &mut [u8])
    requires { length arcs.old ≡ total (S.Store.nodes store.now) (S.Store.arcs store.now) + total (S.Store.nodes store.now) (S.Store.arcs store.now) }
    ensures { arcs.new ≡ properties_of (arcs_of (S.Store.nodes store.now) (S.Store.arcs store.now)) ++ objects_of (arcs_of (S.Store.nodes store.now) (S.Store.arcs store.now)) }
{
    let mut at = 0;
    for node in 0..store.node_count() {
        at = write_node(store, node, arcs, at);
    }
}

// Writes one node's properties from `at` on, and its objects as far from the middle on; answers where the next node's go.
fn write_node<S: Store>(store: &S, node: u16, arcs: &mut [u8], at: usize) -> usize
    requires half { length arcs.old ≡ total (S.Store.nodes store.now) (S.Store.arcs store.now) + total (S.Store.nodes store.now) (S.Store.arcs store.now) }
    requires fits { at + length (S.Store.arcs store.now node) ≤ total (S.Store.nodes store.now) (S.Store.arcs store.now) }
    ensures value { result ≡ at + length (S.Store.arcs store.now node) }
    ensures after { (buffer : List ℕ) (done : List Arc) → length buffer ≡ length arcs.old → at ≡ length done → arcs.old ≡ laid buffer (total (S.Store.nodes store.now) (S.Store.arcs store.now)) done → arcs.new ≡ laid buffer (total (S.Store.nodes store.now) (S.Store.arcs store.now)) (done ++ S.Store.arcs store.now node) }
{
    store.lawful();
    let total = usize::from(store.total());
    let mut end = at;
    for (place, (property, object)) in CountedArcs::of(store, node).enumerate() {
        arcs[at + place] = property;
        arcs[total + at + place] = object as u8;
        end = at + place + 1;
    }
    end
}
