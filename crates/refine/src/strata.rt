// The decision of wanted pairs, given the verdicts on held ones.
ghost use Rattle.std.specs.Prelude.{◌≡◌, ◌↔◌, length, Decides, IsOk, OnErr};
ghost use Rattle.refine.specs.Deciding.{size, Room, Decided, Untouched, Written};

use crate::check::NodeCheck;
use crate::due::Due;
use crate::narrow::narrow;
use crate::write::write_where;
use thiserror::Error;

const LAST_STRATUM: u8 = 32;

/// A slice does not have a byte for each label or pair.
#[derive(Clone, Copy, PartialEq, Eq, Debug, Error)]
#[error("a slice is too short")]
pub struct TooShort;

// Whether the slices have a stratum for each label and a byte for each pair.
fn has_room(
    size: usize,
    labels: usize,
    strata: &[u8],
    held: &[u8],
    wanted: &[u8],
    typing: &[u8],
) -> bool
    ensures { Decides result (Room size labels strata.now held.now wanted.now typing.now) }
{
    labels <= strata.len() && size <= held.len() && size <= wanted.len() && size <= typing.len()
}

/// Writes the verdict on each wanted pair: 1 if the node conforms to the label, else 0.
/// The held pairs have theirs in the table already.
pub fn try_decide<C: NodeCheck>(
    check: &mut C,
    strata: &[u8],
    held: &[u8],
    wanted: &[u8],
    typing: &mut [u8],
) -> Result<(), TooShort>
    ensures kept { (C.NodeCheck.schema check.new ≡ C.NodeCheck.schema check.old) × (C.NodeCheck.graph check.new ≡ C.NodeCheck.graph check.old) }
    ensures ok { IsOk result ↔ Room (size (C.NodeCheck.schema check.old) (C.NodeCheck.graph check.old)) (C.NodeCheck.schema check.old).labels strata.now held.now wanted.now typing.old }
    ensures err { OnErr result (typing.new ≡ typing.old) }
    ensures same { Untouched (C.NodeCheck.schema check.old) (C.NodeCheck.graph check.old) wanted.now typing.old typing.new }
    ensures bound { Written (C.NodeCheck.schema check.old) (C.NodeCheck.graph check.old) strata.now held.now wanted.now typing.old typing.new }
    ensures long { length typing.new ≡ length typing.old }
    ensures value { Decided (C.NodeCheck.schema check.old) (C.NodeCheck.graph check.old) strata.now held.now wanted.now typing.old typing.new }
{
    let nodes = usize::from(check.node_count());
    let labels = usize::from(check.label_count());
    let size = nodes * labels;
    if !has_room(size, labels, strata, held, wanted, typing) {
        return Err(TooShort);
    }
    write_where(&mut typing[..size], 0, |place, _| wanted[place] == 1);
    for stratum in 1..=LAST_STRATUM {
        if strata[..labels].contains(&stratum) {
            let due = Due {
                nodes,
                labels,
                strata,
                wanted,
                stratum,
            };
            due.raise(typing);
            narrow(check, &due, typing);
        }
    }
    Ok(())
}

/// The same, where the caller knows that the slices are long enough; those that are too short leave all as it is.
pub fn decide<C: NodeCheck>(
    check: &mut C,
    strata: &[u8],
    held: &[u8],
    wanted: &[u8],
    typing: &mut [u8],
)
    ensures kept { (C.NodeCheck.schema check.new ≡ C.NodeCheck.schema check.old) × (C.NodeCheck.graph check.new ≡ C.NodeCheck.graph check.old) }
    ensures same { Untouched (C.NodeCheck.schema check.old) (C.NodeCheck.graph check.old) wanted.now typing.old typing.new }
    ensures bound { Written (C.NodeCheck.schema check.old) (C.NodeCheck.graph check.old) strata.now held.now wanted.now typing.old typing.new }
    ensures long { length typing.new ≡ length typing.old }
    ensures value { Decided (C.NodeCheck.schema check.old) (C.NodeCheck.graph check.old) strata.now held.now wanted.now typing.old typing.new }
{
    let _ = try_decide(check, strata, held, wanted, typing);
}
