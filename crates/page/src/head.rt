// Reading the head of a page: its node count and its fans.
ghost use Rattle.std.specs.Prelude.{◌≡◌, ◌*◌, ◌<◌, ◌≤◌, length, IfOk, sum};
ghost use Rattle.page.specs.Faults.{told};
ghost use Rattle.page.specs.Loading.{page_refusal, fan_refusal, fan_bytes, answered};
ghost use Rattle.page.specs.Reading.{Whole};

use crate::fault::PageFault;
use triple::MAX_FAN;

// The number of arcs on a page that is lawful for so many nodes.
pub(crate) fn read_head(page: &[u8], nodes: u16) -> Result<usize, PageFault>
    ensures answer { told result ≡ answered (page_refusal nodes page.now) (sum (fan_bytes nodes page.now)) }
    ensures made { IfOk result (λ t. Whole nodes t page.now) }
{
    let [low, high, rest @ ..] = page else {
        return Err(PageFault::Short);
    };
    let fans = usize::from(nodes);
    if rest.len() < fans {
        return Err(PageFault::Short);
    }
    let count = u16::from_le_bytes([*low, *high]);
    if count != nodes {
        return Err(PageFault::OtherCount);
    }
    let total = count_arcs(&rest[0..fans])?;
    if rest.len() != fans + 2 * total {
        return Err(PageFault::Length);
    }
    Ok(total)
}

// The sum of the fans, if none is above 12.
fn count_arcs(fans: &[u8]) -> Result<usize, PageFault>
    requires { length fans.now < 65536 }
    ensures answer { told result ≡ answered (fan_refusal fans.now) (sum fans.now) }
    ensures bound { IfOk result (λ t. t ≤ 12 * length fans.now) }
{
    let mut total = 0;
    for (node, fan) in fans.iter().enumerate() {
        if *fan > MAX_FAN {
            return Err(PageFault::Fan(node as u16));
        }
        total += usize::from(*fan);
    }
    Ok(total)
}
