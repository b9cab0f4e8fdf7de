// What is printed of a measurement.
use crate::timing::CallTime;

// A call of the library, and the plain way to the same answer. `yes` is how many pairs hold, of all that were
// asked about, and `same` whether both ways gave the same answers.
#[derive(Clone, Copy)]
pub struct Measured {
    pub time: CallTime,
    pub plain: CallTime,
    pub yes: usize,
    pub same: bool,
}

impl Measured {
    // Before the first round.
    pub const NONE: Measured = Measured {
        time: CallTime::MAX,
        plain: CallTime::MAX,
        yes: 0,
        same: true,
    };

    // One round more: the least times count, and the answers of every round have to be the same.
    pub fn and(self, round: Measured) -> Measured {
        Measured {
            time: self.time.least(round.time),
            plain: self.plain.least(round.plain),
            yes: round.yes,
            same: self.same && round.same,
        }
    }
}

pub fn print_head(rt: &HostRuntime, rounds: u32) -> anyhow::Result<()> {
    println!(rt;
        "the least of {rounds} rounds, in nanoseconds a call; the ratio is plain to library"
    )?;
    println!(rt;
        "{:<34}{:>6}{:>13}{:>13}{:>12}",
        "case", "yes", "library", "plain", "ratio"
    )?;
    Ok(())
}

pub fn print_measured(rt: &HostRuntime, name: &str, measured: Measured) -> anyhow::Result<()> {
    let Measured {
        time,
        plain,
        yes,
        same,
    } = measured;
    let end = if same { "" } else { "  differs" };
    let ratio = time.ratio(plain);
    let whole = ratio / 1000;
    let part = ratio % 1000;
    println!(rt; "{name:<34}{yes:>6}{time}{plain}{whole:>8}.{part:03}{end}")?;
    Ok(())
}
