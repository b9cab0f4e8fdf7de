// The arguments of a command, word by word.
ghost use Rattle.std.specs.Prelude.{◌≡◌, IfErr};

use crate::expected::Expected;
use std::str::{FromStr, SplitWhitespace};
use triple::Triple;

// The next word as a number.
pub fn read_number<N: FromStr>(
    words: &mut SplitWhitespace,
    expected: Expected,
) -> Result<N, Expected>
where
    N::Err: Drop,
    ensures { IfErr result (λ e. e ≡ expected) }
{
    let word = words.next().ok_or(expected)?;
    word.parse::<N>().map_err(|_| expected)
}

pub fn read_node(words: &mut SplitWhitespace) -> Result<u16, Expected>
    ensures { IfErr result (λ e. e ≡ Expected.Node) }
{
    read_number(words, Expected::Node)
}

pub fn read_triple(words: &mut SplitWhitespace) -> Result<Triple, Expected> {
    let subject = read_node(words)?;
    let property = read_number(words, Expected::Property)?;
    let object = read_node(words)?;
    Ok(Triple {
        subject,
        property,
        object,
    })
}
