// The houses of the cases: their nodes, triples, terms and schemas.
use crate::schemas;
use anyhow::anyhow;
use chain::ChainStore;
use schema::Schema;
use triple::{Store, Triple};
use values::{Term, TermKind, Test};

pub const TESTS: [Test; 4] = [
    Test::Iri,
    Test::Whole(1, 400),
    Test::Text,
    Test::Whole(1, 1000),
];

// Where each kind of node of the day begins; 128 shows come first.
const FEATURES: u16 = 128;

const SCREENS: u16 = 152;

const KEYS: u16 = 160;

const NUMBERS: u16 = 180;

const TITLES: u16 = 204;

const ENDS: u16 = 236;

#[derive(Clone, Copy)]
pub enum House {
    Day,
    Line,
    Ring,
    Crowd,
}

fn put<S: Store>(store: &mut S, subject: u16, property: u8, object: u16) -> anyhow::Result<()> {
    let triple = Triple {
        subject,
        property,
        object,
    };
    match store.put(triple) {
        Ok(()) => Ok(()),
        Err(_) => Err(anyhow!("a triple is refused")),
    }
}

// A show has a feature, a screen, and all but the last on a screen have a next show there.
fn put_shows<S: Store>(store: &mut S) -> anyhow::Result<()> {
    for show in 0..128u16 {
        put(store, show, 1, FEATURES + show % 24)?;
        put(store, show, 2, SCREENS + show % 8)?;
        if show < 120 {
            put(store, show, 3, show + 8)?;
        }
    }
    Ok(())
}

// A feature has a running time, a title, and one or two keys.
fn put_features<S: Store>(store: &mut S) -> anyhow::Result<()> {
    for i in 0..24u16 {
        put(store, FEATURES + i, 4, NUMBERS + i)?;
        put(store, FEATURES + i, 5, TITLES + i)?;
        put(store, FEATURES + i, 6, KEYS + i % 20)?;
        if i < 8 {
            put(store, FEATURES + i, 6, KEYS + (i + 10) % 20)?;
        }
    }
    Ok(())
}

// A screen has seats and a title; a key opens a feature, until an hour.
fn put_screens_and_keys<S: Store>(store: &mut S) -> anyhow::Result<()> {
    for i in 0..20u16 {
        if i < 8 {
            put(store, SCREENS + i, 7, NUMBERS + i)?;
            put(store, SCREENS + i, 5, TITLES + 24 + i)?;
        }
        put(store, KEYS + i, 8, FEATURES + i)?;
        put(store, KEYS + i, 9, ENDS + i)?;
    }
    Ok(())
}

// Each of the first nodes has an arc to the next, and in a ring the last has one to the first.
fn put_line<S: Store>(store: &mut S, closed: bool) -> anyhow::Result<()> {
    for node in 0..255u16 {
        put(store, node, 1, node + 1)?;
    }
    if closed {
        put(store, 255, 1, 0)?;
    }
    Ok(())
}

// Each of the first nodes has the same arcs: as many objects behind them as the fan says.
pub fn put_alike<S: Store>(
    store: &mut S,
    nodes: u16,
    fan: u16,
    properties: [u8; 12],
) -> anyhow::Result<()> {
    for node in 0..nodes {
        for (object, property) in (nodes..u16::MAX).zip(properties).take(usize::from(fan)) {
            put(store, node, property, object)?;
        }
    }
    Ok(())
}

fn kind(node: u16) -> TermKind {
    if node < NUMBERS {
        TermKind::Iri
    } else if node == NUMBERS + 21 {
        TermKind::Whole(500)
    } else if node < TITLES || node >= ENDS {
        TermKind::Whole(90)
    } else {
        TermKind::Text
    }
}

impl House {
    pub fn nodes(self) -> u16 {
        match self {
            House::Crowd => 28,
            _ => 256,
        }
    }

    pub fn schema(self) -> anyhow::Result<Schema> {
        match self {
            House::Day => schemas::house(),
            House::Line | House::Ring => schemas::line(),
            House::Crowd => schemas::overlap(),
        }
    }

    pub fn fill<S: Store>(self, store: &mut S) -> anyhow::Result<()> {
        match self {
            House::Day => {
                put_shows(store)?;
                put_features(store)?;
                put_screens_and_keys(store)
            }
            House::Line => put_line(store, false),
            House::Ring => put_line(store, true),
            House::Crowd => put_alike(store, 16, 12, [1; 12]),
        }
    }

    pub fn chain_store(self) -> anyhow::Result<ChainStore> {
        let mut store = ChainStore::new(self.nodes());
        self.fill(&mut store)?;
        Ok(store)
    }

    // In the day all features but one run for 90 minutes; elsewhere all nodes are IRIs.
    pub fn terms(self) -> [Term; 256] {
        let mut terms = [Term {
            kind: TermKind::Iri,
        }; 256];
        if matches!(self, House::Day) {
            for (node, term) in (0..256u16).zip(&mut terms) {
                term.kind = kind(node);
            }
        }
        terms
    }
}
