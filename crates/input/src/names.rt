//! Gyles by name, as they stand in a text and in a key.
ghost use Rattle.std.specs.Prelude.{◌≡◌, ℕ, ◌<◌, List, ◌++◌, length, drop, IfOk, Some, MatchResult, OnOk};
ghost use Rattle.input.specs.Names.{Spelled, SpellsNone, written, Means, IsRecordOf, Enters};
ghost use Rattle.std.specs.Str.Lines.{lines};
ghost use Rattle.kinds.specs.Fields.{signed_of};

use kinds::gyles::Gyles;
use std::alloc::{AllocError, Global};
use std::fmt;
use std::num::ParseIntError;
use std::str::FromStr;
use thiserror::Error;

/// A gyle's name: the year in which it was brewed, and its number.
#[derive(Clone, Copy, PartialEq, Eq, Debug)]
pub struct GyleName {
    pub year: i16,
    pub number: i32,
}

impl GyleName {
    // A method and no `From`: `&name.key()` says more at a call than `&<[u8; 6]>::from(name)`.
    pub fn key(self) -> [u8; 6]
        ensures year { signed_of 2 result ≡ self.year }
        ensures number { signed_of 4 (drop 2 result) ≡ self.number }
    {
        Gyles::key(self.year, self.number)
    }
}

// By hand, since a derived message promises no text.
impl fmt::Display for GyleName {
    ghost output = { λ name. Some (written name) };

    fn fmt<W: fmt::Write>(&self, f: &mut fmt::Formatter<W>) -> fmt::Result {
        write!(f, "{}/{}", self.year, self.number)
    }
}

/// The text does not spell a gyle's name.
#[derive(PartialEq, Eq, Debug, Drop, Error)]
pub enum NotAGyle {
    #[error("no stroke between a year and a number")]
    NoStroke,
    #[error("the year or the number: {0}")]
    NoNumber(#[from] ParseIntError),
}

/// Reads `YEAR/NUMBER`.
impl FromStr for GyleName {
    type Err = NotAGyle;

    ghost from_str_gives = { λ text r. MatchResult r (Spelled text) (λ _. SpellsNone text) };

    fn from_str(text: &str) -> Result<GyleName, NotAGyle> {
        let (year, number) = text.split_once('/').ok_or(NotAGyle::NoStroke)?;
        Ok(GyleName {
            year: year.parse()?,
            number: number.parse()?,
        })
    }
}

/// The record or key is too short to begin with a gyle's key.
#[derive(Clone, Copy, PartialEq, Eq, Debug, Error)]
#[error("too short for a gyle's key")]
pub struct TooShort;

/// The name of the gyle whose record or key begins so.
impl TryFrom<&[u8]> for GyleName {
    type Error = TooShort;

    ghost try_from_gives = { λ bytes r. MatchResult r
        (λ name. (name.year ≡ signed_of 2 bytes.now) × (name.number ≡ signed_of 4 (drop 2 bytes.now)))
        (λ _. length bytes.now < 6) };

    fn try_from(record: &[u8]) -> Result<GyleName, TooShort> {
        let [a, b, c, d, e, f, ..] = *record else {
            return Err(TooShort);
        };
        Ok(GyleName {
            year: i16::from_be_bytes([a, b]),
            number: i32::from_be_bytes([c, d, e, f]),
        })
    }
}

/// A line of the text: a gyle to be entered, one to be sought, or nothing of the kind.
#[derive(Clone, Copy, PartialEq, Eq, Debug)]
pub enum Line {
    Enter(GyleName),
    Seek(GyleName),
    Words,
}

/// `YEAR/NUMBER` enters a gyle, and `seek YEAR/NUMBER` seeks one.
impl From<&str> for Line {
    ghost from_gives = { λ text line. Means text.now line };

    fn from(text: &str) -> Line {
        match text.strip_prefix("seek ") {
            Some(name) => name.parse().map_or(Line::Words, Line::Seek),
            None => text.parse().map_or(Line::Words, Line::Enter),
        }
    }
}

/// Adds the record of a gyle: its key, and zeros.
fn push_record(records: &mut Vec<u8>, name: GyleName) -> Result<(), AllocError>
    ensures { OnOk result ((bytes : List ℕ) × (records.new.items ≡ records.old.items ++ bytes) × IsRecordOf name bytes) }
{
    records.extend_from_slice(&name.key())?;
    records.extend_from_slice(&[0; 26])
}

/// The records of the gyles that a text enters, in the order of their lines.
pub fn entered(heap: Global, text: &str) -> Result<Vec<u8>, AllocError>
    ensures { IfOk result (λ records. Enters (lines text.now) records.items) }
{
    let mut records = Vec::new(heap);
    for line in text.lines() {
        if let Line::Enter(name) = Line::from(line) {
            push_record(&mut records, name)?;
        }
    }
    Ok(records)
}

#[cfg(test)]
mod tests {
    use super::*;
    use std::process::Abort;
    use std::test::Fail;

    fn reads(rt: &impl Abort, text: &str, line: Line) {
        assert_eq!(rt; Line::from(text), line);
    }

    #[test]
    fn lines(rt: HostRuntime) {
        let least = GyleName {
            year: i16::MIN,
            number: i32::MIN,
        };
        reads(&rt, "-32768/-2147483648", Line::Enter(least));
        reads(&rt, "seek -32768/-2147483648", Line::Seek(least));
        reads(&rt, "+7/007", Line::Enter(GyleName { year: 7, number: 7 }));
        reads(&rt, "-32769/1", Line::Words);
        reads(&rt, "1/2147483648", Line::Words);
        reads(&rt, "/", Line::Words);
        reads(&rt, "1/2/3", Line::Words);
        reads(&rt, " 1/2", Line::Words);
        reads(&rt, "seek 1", Line::Words);
        reads(&rt, "", Line::Words);
    }

    #[test]
    fn records(rt: HostRuntime) -> Result<(), Fail> {
        let all = entered(rt.alloc(), "a\n-1/5\nseek 3/3\n0/-3")?;
        assert_eq!(rt; all.len(), 64);
        let most = GyleName {
            year: i16::MAX,
            number: i32::MAX,
        };
        assert_eq!(rt; GyleName::try_from(most.key().as_slice()), Ok(most));
        assert_eq!(rt; GyleName::try_from([0; 5].as_slice()), Err(TooShort));
        let text = format!(in rt.alloc(); "{most}")?;
        assert!(rt; text.as_str() == "32767/2147483647");
        Ok(())
    }
}
