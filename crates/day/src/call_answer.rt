// What a call on the validator answers, and how it is printed.
use refusal::Layer;
use replay::Call;
use script::Items;
use std::fmt;

#[derive(Drop)]
pub enum CallAnswer {
    Edited(usize),
    Verdict(bool),
    Held(Option<bool>),
    Swept(usize, Vec<(usize, usize)>),
}

// A call that was refused, with the layer and the number.
#[derive(Clone, Copy)]
pub struct Refusal {
    pub call: Call,
    pub layer: Layer,
    pub number: u8,
}

impl Refusal {
    // A list of calls answers a refusal by its number. 7 is told of a subject by the edits, and of a node by the
    // questions.
    fn sentence(&self) -> &'static str {
        match self.number {
            7 if matches!(self.call, Call::Look(_, _) | Call::Held(_, _)) =>
                "there is no such node",
            7 => "the subject is not a node of the store",
            8 => "the object is not a node of the store",
            9 => "the subject is a literal",
            10 => "the triple is present",
            11 => "the subject has 12 arcs",
            12 => "the store is full",
            13 => "the triple is absent",
            14 => "there is no such label",
            15 => "there are fewer strata than labels",
            16 => "the strata are no stratification",
            17 => "the table has fewer bytes than pairs",
            _ => "no call is refused so",
        }
    }
}

impl fmt::Display for Refusal {
    fn fmt<W: fmt::Write>(&self, f: &mut fmt::Formatter<W>) -> fmt::Result {
        let number = self.number;
        let layer = self.layer;
        let sentence = self.sentence();
        write!(f, "refused with {number} by the {layer}: {sentence}")
    }
}

impl fmt::Display for CallAnswer {
    fn fmt<W: fmt::Write>(&self, f: &mut fmt::Formatter<W>) -> fmt::Result {
        match self {
            CallAnswer::Edited(dropped) => write!(f, "accepted, {dropped} verdicts dropped"),
            CallAnswer::Verdict(true) | CallAnswer::Held(Some(true)) => write!(f, "yes"),
            CallAnswer::Verdict(false) | CallAnswer::Held(Some(false)) => write!(f, "no"),
            CallAnswer::Held(None) => write!(f, "not held"),
            CallAnswer::Swept(count, pairs) if pairs.is_empty() => write!(f, "{count} pairs"),
            CallAnswer::Swept(count, pairs) => {
                let pairs = Items {
                    items: pairs.as_slice(),
                    none: "",
                };
                write!(f, "{count} pairs: {pairs}")
            }
        }
    }
}
