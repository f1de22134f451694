//! Stores a text from standard input in a chained area, copies it into a plain one,
//! reads it back, and shows each refusal that a store can give. Then it brings the gyles
//! that the text enters into key order, and finds those that it seeks.

#![tactic(auto)]

mod gyles;
mod report;
mod text;

use anyhow::{Context, ensure};
use areas::chained::ChainedArea;
use areas::index::Chain;
use areas::lends::{fill_chain, unchain};
use areas::plain::PlainArea;
use gyles::show_gyles;
use report::report;
use std::io::Read;
use store::faults::NO_FILE;
use store::spans::read_span;
use store::{SEGMENT, SegmentStore};
use text::{laid_out, padded, segments_for};

fn input(rt: &HostRuntime) -> anyhow::Result<Vec<u8>> {
    let mut bytes = Vec::new(rt.alloc());
    rt.stdin().read_to_end(&mut bytes)?;
    Ok(bytes)
}

/// Stores `n` segments in a chain, copies them to a plain area, and reads them back.
fn round_trip(
    rt: &HostRuntime,
    pool: &mut [u8],
    chain: &Chain,
    bytes: &[u8],
    n: u16,
) -> anyhow::Result<()> {
    let n = usize::from(n);
    report(
        rt,
        "store in the chain",
        fill_chain(pool, chain, NO_FILE, 0, bytes),
    )?;
    let mut memory = vec![in rt.alloc(); 0u8; n * SEGMENT]?;
    let mut back = vec![in rt.alloc(); 0u8; n * SEGMENT]?;
    report(
        rt,
        "copy to a plain area",
        unchain(pool, chain, &mut memory, NO_FILE, n),
    )?;
    let area = PlainArea::new(&mut memory);
    report(rt, "read back", read_span(&area, NO_FILE, 0, &mut back))?;
    ensure!(
        back.as_slice() == bytes,
        "what was read back is not what was stored"
    );
    println!(rt; "what was read back is what was stored")?;
    Ok(())
}

/// Asks an area whose last segment is bad for what it has to refuse.
fn show_refusals(rt: &HostRuntime, pool: &mut [u8], chain: &Chain) -> anyhow::Result<()> {
    let mut buffer = [0; SEGMENT];
    let area = ChainedArea::new(pool, chain);
    let count = area.count();
    report(
        rt,
        "a buffer of 511 bytes",
        area.read(0, &mut buffer[0..511]),
    )?;
    report(rt, "a segment past the last", area.read(count, &mut buffer))?;
    report(rt, "the bad segment", area.read(count - 1, &mut buffer))?;
    report(
        rt,
        "a plain area of no bytes",
        PlainArea::look(&buffer[0..0]),
    )?;
    report(rt, "a chain from page 0", ChainedArea::look(pool, 0))
}

fn run(rt: &HostRuntime) -> anyhow::Result<()> {
    let heap = rt.alloc();
    let text = input(rt)?;
    let length = text.len();
    let n = segments_for(length).context("the text is too long for an area")?;
    println!(rt; "a text of {length} bytes, {n} segments")?;
    let bytes = padded(heap, &text, n)?;
    let first = n + 1;
    let pages = n + 2;
    let mut pool = laid_out(heap, pages)?;
    println!(rt; "a pool of {pages} pages, chained backwards from page {first}")?;
    report(rt, "look at the chain", ChainedArea::look(&pool, first))?;
    let chain = Chain::of(heap, &pool, first)?;
    round_trip(rt, &mut pool, &chain, &bytes, n)?;
    show_refusals(rt, &mut pool, &chain)?;
    show_gyles(rt, &text)
}

fn main(rt: HostRuntime) -> anyhow::Result<()> {
    run(&rt)
}
