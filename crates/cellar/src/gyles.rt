//! The gyles that a text names, in key order, and where those stand that it seeks.
use input::names::{GyleName, Line, entered};
use kinds::RecordKind;
use kinds::gyles::Gyles;
use kinds::search::find;
use sorting::sorted;
use std::str::from_utf8;

fn show_order(rt: &HostRuntime, block: &[u8]) -> anyhow::Result<()> {
    for (place, record) in block.chunks_exact(Gyles::record_len() + 2).enumerate() {
        if let Ok(name) = GyleName::try_from(record) {
            println!(rt; "gyle {name} has place {place}")?;
        }
    }
    Ok(())
}

fn show_place(rt: &HostRuntime, block: &[u8], name: GyleName) -> anyhow::Result<()> {
    match find::<Gyles>(block, &name.key()) {
        Ok(at) => println!(rt; "seek {name}: there, at place {at}")?,
        Err(at) => println!(rt; "seek {name}: not there, its place is {at}")?,
    }
    Ok(())
}

/// Text that is not UTF-8 names no gyles.
pub(crate) fn show_gyles(rt: &HostRuntime, bytes: &[u8]) -> anyhow::Result<()> {
    let Ok(text) = from_utf8(bytes) else {
        return Ok(());
    };
    let records = entered(rt.alloc(), text)?;
    let block = sorted::<Gyles>(rt.alloc(), &records)?;
    show_order(rt, &block)?;
    for line in text.lines() {
        if let Line::Seek(name) = Line::from(line) {
            show_place(rt, &block, name)?;
        }
    }
    Ok(())
}
