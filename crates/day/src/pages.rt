// Graph pages: loaded from files, saved, and listed in words.
use crate::command::PageQuestion;
use crate::failure::{FileFailure, Trouble};
use crate::listing::{Listing, count_of};
use page::{Entry, PageFault, load, save};
use refusal::Fault;
use rows::RowStore;
use schema::Schema;
use script::{Items, Refused};
use std::alloc::{AllocError, Global};
use std::{fmt, fs};
use triple::Store;
use validate::Validate;
use validator::Validator;
use values::TermTable;

// The most triples that a store of any kind can hold.
const MOST_TRIPLES: usize = 1024;

// A page that is not listed is not lawful.
#[derive(Drop)]
pub enum PageAnswer {
    Bytes(Result<Vec<u8>, PageFault>),
    Saved(Result<usize, PageFault>),
    Loaded(Result<usize, PageFault>),
    Listed(Result<Listing, PageFault>),
}

impl fmt::Display for PageAnswer {
    fn fmt<W: fmt::Write>(&self, f: &mut fmt::Formatter<W>) -> fmt::Result {
        match self {
            PageAnswer::Bytes(Ok(bytes)) => {
                let length = bytes.len();
                let bytes = Items {
                    items: bytes.as_slice(),
                    none: "none",
                };
                write!(f, "{length} bytes: {bytes}")
            }
            PageAnswer::Saved(Ok(length)) => write!(f, "{length} bytes"),
            PageAnswer::Loaded(Ok(total)) => write!(f, "{total} triples added"),
            PageAnswer::Listed(Ok(listing)) => write!(f, "{listing}"),
            PageAnswer::Listed(Err(fault)) => {
                write!(f, "not a lawful page: ")?;
                write_fault(f, *fault)
            }
            PageAnswer::Bytes(Err(fault))
            | PageAnswer::Saved(Err(fault))
            | PageAnswer::Loaded(Err(fault)) => write_fault(f, *fault),
        }
    }
}

// A fault of a page, whole: for a refused add also the entry with the add's own layer and number.
fn write_fault<W: fmt::Write>(f: &mut fmt::Formatter<W>, fault: PageFault) -> fmt::Result {
    let PageFault::Add(Entry { at, fault: cause }) = fault else {
        let refusal = Refused(fault);
        return write!(f, "{refusal}");
    };
    let number = fault.number();
    let layer = fault.layer();
    let cause = Refused(cause);
    write!(
        f,
        "refused with {number} by the {layer}: entry {at} was {cause}"
    )
}

// The page of the store, in a buffer that is just long enough.
fn page_of<S: Store>(heap: Global, store: &S) -> Result<Result<Vec<u8>, PageFault>, AllocError> {
    let head = usize::from(store.node_count()).saturating_add(2);
    let arcs = usize::from(store.total()).saturating_mul(2);
    let mut bytes = vec![in heap; 0; head.saturating_add(arcs)]?;
    match save(store, bytes.as_mut_slice()) {
        Ok(_) => Ok(Ok(bytes)),
        Err(fault) => Ok(Err(fault)),
    }
}

fn write_file(rt: &HostRuntime, path: &str, page: &[u8]) -> Result<usize, Trouble> {
    match fs::write(rt, path, page) {
        Ok(()) => Ok(page.len()),
        Err(_) => Err(Trouble::Failed(FileFailure::NotWritten)),
    }
}

fn read_file(rt: &HostRuntime, path: &str) -> Result<Vec<u8>, Trouble> {
    fs::read(rt, path).map_err(|_| Trouble::Failed(FileFailure::NotRead))
}

pub fn load_file<A: Validate>(
    rt: &HostRuntime,
    validator: &mut A,
    path: &str,
) -> Result<Result<usize, PageFault>, Trouble> {
    let bytes = read_file(rt, path)?;
    Ok(load(validator, bytes.as_slice()))
}

// Loads the page into a store of nodes that are no literals, and answers how many triples it has.
fn load_into<S: Store + Drop>(store: S, page: &[u8]) -> Result<usize, PageFault> {
    let values = TermTable::new(&[], &[]);
    let mut validator = Validator::new(Schema::new(), store, values);
    load(&mut validator, page)
}

// A page is lawful if it loads into an empty store of its own number of nodes, none of them a literal.
fn list_file(rt: &HostRuntime, path: &str) -> Result<Result<Listing, PageFault>, Trouble> {
    let bytes = read_file(rt, path)?;
    let nodes = count_of(bytes.as_slice());
    let mut rows = vec![in rt.alloc(); None; MOST_TRIPLES]?;
    let store = RowStore::new(rows.as_mut_slice(), nodes);
    match load_into(store, bytes.as_slice()) {
        Ok(total) => Ok(Ok(Listing::new(rt.alloc(), bytes.as_slice(), nodes, total)?)),
        Err(fault) => Ok(Err(fault)),
    }
}

pub fn answer_page<S: Store>(
    rt: &HostRuntime,
    store: &S,
    question: PageQuestion,
) -> Result<PageAnswer, Trouble> {
    Ok(match question {
        PageQuestion::Save(None) => PageAnswer::Bytes(page_of(rt.alloc(), store)?),
        PageQuestion::Save(Some(path)) => PageAnswer::Saved(match page_of(rt.alloc(), store)? {
            Ok(bytes) => Ok(write_file(rt, path, bytes.as_slice())?),
            Err(fault) => Err(fault),
        }),
        PageQuestion::List(path) => PageAnswer::Listed(list_file(rt, path)?),
    })
}
