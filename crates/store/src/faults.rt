//! Refusals: what a store says no with, and how that is handed up.
ghost use Rattle.std.specs.Prelude.{◌≡◌, Some};
ghost use Rattle.store.specs.Faults.{layer_number, fault_of, with_file, named, text_of};

use std::error::Error;
use std::fmt;

// Files are numbers and no enum: a caller may name any, and a narrower type would refuse him.
/// No file, in a fault.
pub const NO_FILE: u8 = 0;

/// The file of mother records: one for each gyle (a brew) or stock item.
pub const MOTHER_FILE: u8 = 1;

/// The file of movements: what became of a gyle or an item, such as a racking.
pub const MOVEMENT_FILE: u8 = 2;

/// Who refuses: as a number, 1 a store, 2 a file, 3 a ledger.
#[derive(Clone, Copy, PartialEq, Eq, Debug)]
pub enum Layer {
    Store,
    File,
    Ledger,
}

impl From<Layer> for u8 {
    ghost from_gives = { λ layer n. n ≡ layer_number layer };

    fn from(layer: Layer) -> u8 {
        match layer {
            Layer::Store => 1,
            Layer::File => 2,
            Layer::Ledger => 3,
        }
    }
}

/// A refusal, as every layer hands it up.
#[derive(Clone, Copy, PartialEq, Eq, Debug)]
pub struct Fault {
    /// The question that was answered no.
    // A number and no enum: each layer has questions of its own.
    pub number: u8,
    /// 1 for a store, 2 for a file, 3 for a ledger.
    // A number, as `file` is: a caller may name any, and `Layer` would refuse him. `Layer` has those that we give.
    pub layer: u8,
    /// `NO_FILE`, `MOTHER_FILE` or `MOVEMENT_FILE`.
    pub file: u8,
    /// The segment in question, 0 where there is none.
    pub segment: usize,
}

/// The refusals of a store.
#[derive(Clone, Copy, PartialEq, Eq, Debug)]
pub enum Refusal {
    /// 11: the buffer is not 512 bytes, or for a span no whole number of segments.
    WrongBuffer,
    /// 12: the segment's number is not below the count.
    NoSegment(usize),
    /// 13: the segment is bad.
    BadSegment(usize),
    /// 14: the memory is not 1 to 65,535 whole segments or pages.
    UnfitMemory,
    /// 15: the chain leaves the pool, meets a page twice, or has a wrong mark or zero byte.
    BrokenChain,
}

impl From<Refusal> for Fault {
    ghost from_gives = { λ refusal fault. fault ≡ fault_of refusal };

    fn from(refusal: Refusal) -> Fault {
        let (number, segment) = match refusal {
            Refusal::WrongBuffer => (11, 0),
            Refusal::NoSegment(segment) => (12, segment),
            Refusal::BadSegment(segment) => (13, segment),
            Refusal::UnfitMemory => (14, 0),
            Refusal::BrokenChain => (15, 0),
        };
        Fault {
            number,
            layer: Layer::Store.into(),
            file: NO_FILE,
            segment,
        }
    }
}

impl Fault {
    /// The same refusal, of a store that holds this file.
    pub fn in_file(self, file: u8) -> Fault
        ensures { result ≡ with_file file self }
    {
        Fault { file, ..self }
    }
}

/// What a store answered, with the file that it holds put into a refusal.
pub fn of_file(file: u8, outcome: Result<(), Fault>) -> Result<(), Fault>
    ensures { result ≡ named file outcome }
{
    outcome.map_err(|fault| fault.in_file(file))
}

// By hand, since a derived message promises no text.
impl fmt::Display for Fault {
    ghost output = { λ f. Some (text_of f) };

    fn fmt<W: fmt::Write>(&self, f: &mut fmt::Formatter<W>) -> fmt::Result {
        let number = self.number;
        let layer = self.layer;
        let file = self.file;
        let segment = self.segment;
        write!(
            f,
            "refused {number} layer {layer} file {file} segment {segment}"
        )
    }
}

impl Error for Fault {}
