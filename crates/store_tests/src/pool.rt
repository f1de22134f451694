//! Pools of five pages to make chains in, and what a call said.
use areas::index::PAGE;
use store::faults::Fault;

/// The bytes of five pages.
pub(crate) const SIZE: usize = 2580;

/// Puts the number of the next page and the mark into a page's leading bytes.
pub(crate) fn link(pool: &mut [u8; SIZE], page: u16, next: u16, mark: u8) {
    if page == 0 || page > 5 {
        return;
    }
    let base = (usize::from(page) - 1) * PAGE;
    pool[base..base + 2].copy_from_slice(&next.to_be_bytes());
    pool[base + 2] = mark;
}

/// The number of a refusal, if it is one.
pub(crate) fn number(outcome: Result<(), Fault>) -> Option<u8> {
    outcome.err().map(|fault| fault.number)
}

/// The number, file and segment of a refusal, if it is one.
pub(crate) fn said(outcome: Result<(), Fault>) -> Option<(u8, u8, usize)> {
    let fault = outcome.err()?;
    Some((fault.number, fault.file, fault.segment))
}
