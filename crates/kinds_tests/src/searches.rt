//! Places in blocks and tables.
use super::casks::Casks;
use kinds::RecordKind;
use kinds::gyles::Gyles;
use kinds::items::Items;
use kinds::search::{Entry, find, last_not_above};
use std::process::Abort;

fn finds<K: RecordKind>(rt: &impl Abort, block: &[u8], key: &[u8], place: Result<usize, usize>) {
    assert_eq!(rt; find::<K>(block, key), place);
}

/// Puts a key at the head of a record.
fn put<const P: usize>(bytes: &mut [u8], key: &[u8; P]) {
    if let Some(head) = bytes.first_chunk_mut() {
        *head = *key;
    }
}

#[test]
fn a_block_of_one_record(rt: HostRuntime) {
    let mut block = [0; 512];
    put(&mut block, &Gyles::key(-5, 7));
    finds::<Gyles>(&rt, &block[0..34], &Gyles::key(-5, 7), Ok(0));
    finds::<Gyles>(&rt, &block[0..34], &Gyles::key(-5, 6), Err(0));
    finds::<Gyles>(&rt, &block[0..34], &Gyles::key(-5, 8), Err(1));
    assert_eq!(rt;
        find::<Gyles>(&block[0..33], &Gyles::key(-5, 7)),
        Err(0),
        "no whole record"
    );
    finds::<Gyles>(&rt, &[], &[], Err(0));
}

/// As many gyles as 512 bytes hold: number 7 of each other year from -14 on.
fn full() -> [u8; 512] {
    let mut block = [255; 512];
    for (record, year) in block.chunks_exact_mut(34).zip((-14..).step_by(2)) {
        put(record, &Gyles::key(year, 7));
    }
    block
}

#[test]
fn a_full_block(rt: HostRuntime) {
    let block = full();
    for (i, year) in (-14..15).step_by(2).enumerate() {
        finds::<Gyles>(&rt, &block, &Gyles::key(year, 7), Ok(i));
    }
    for (i, year) in (-15..14).step_by(2).enumerate() {
        finds::<Gyles>(&rt, &block, &Gyles::key(year, 7), Err(i));
    }
    finds::<Gyles>(&rt, &block, &Gyles::key(i16::MIN, i32::MIN), Err(0));
    assert_eq!(rt;
        find::<Gyles>(&block, &Gyles::key(i16::MAX, i32::MAX)),
        Err(15),
        "two bytes are left over"
    );
}

#[test]
fn blocks_of_other_kinds(rt: HostRuntime) {
    let mut items = [0; 512];
    put(&mut items, &Items::key([9; 8], 2024));
    put(&mut items[42..], &Items::key([9; 8], 2023));
    finds::<Items>(&rt, &items[0..84], &Items::key([9; 8], 2025), Err(0));
    finds::<Items>(&rt, &items[0..84], &Items::key([9; 8], 2023), Ok(1));
    finds::<Items>(&rt, &items[0..84], &Items::key([9; 8], 2022), Err(2));
    let mut casks = [0; 512];
    put(&mut casks[256..], &[1; 16]);
    finds::<Casks>(&rt, &casks, &[0; 16], Ok(0));
    finds::<Casks>(&rt, &casks, &[1; 16], Ok(1));
    finds::<Casks>(&rt, &casks, &[2; 16], Err(2));
}

#[test]
fn keys_of_a_wrong_length_are_looked_for(rt: HostRuntime) {
    let mut block = [0; 512];
    put(&mut block, &Gyles::key(1, 7));
    finds::<Gyles>(&rt, &block[0..34], &[0, 1, 0, 0, 0, 7, 9], Ok(0));
    finds::<Gyles>(&rt, &block[0..34], &[0, 1], Err(0));
    finds::<Gyles>(&rt, &block[0..34], &[0, 2], Err(1));
}

fn leads(rt: &impl Abort, table: &[Entry], key: &[u8], at: usize) {
    assert_eq!(rt; last_not_above::<Gyles>(table, key), at);
}

fn entry(year: i16) -> Entry {
    let mut bound = [255; 16];
    bound[0..6].copy_from_slice(&Gyles::key(year, 0));
    Entry {
        count: 1,
        first: 2,
        bound,
    }
}

#[test]
fn a_table_of_one_entry(rt: HostRuntime) {
    let one = [entry(2023)];
    leads(&rt, &one, &Gyles::key(i16::MIN, 0), 0);
    leads(&rt, &one, &Gyles::key(2023, 0), 0);
    leads(&rt, &one, &Gyles::key(i16::MAX, 0), 0);
    leads(&rt, &[], &Gyles::key(2023, 0), 0);
}

#[test]
fn a_table_of_four(rt: HostRuntime) {
    let table = [entry(-2), entry(0), entry(1), entry(2024)];
    assert_eq!(rt;
        last_not_above::<Gyles>(&table, &Gyles::key(i16::MIN, 0)),
        0,
        "below every bound"
    );
    leads(&rt, &table, &Gyles::key(-2, -1), 0);
    leads(&rt, &table, &Gyles::key(-2, 0), 0);
    leads(&rt, &table, &Gyles::key(0, -1), 0);
    leads(&rt, &table, &Gyles::key(0, 0), 1);
    leads(&rt, &table, &Gyles::key(2023, i32::MAX), 2);
    leads(&rt, &table, &Gyles::key(2024, 0), 3);
    assert_eq!(rt;
        last_not_above::<Gyles>(&table, &Gyles::key(i16::MAX, i32::MAX)),
        3,
        "above every bound"
    );
    assert_eq!(rt;
        last_not_above::<Gyles>(&table[1..3], &Gyles::key(5, 5)),
        1,
        "a part of a table"
    );
}
