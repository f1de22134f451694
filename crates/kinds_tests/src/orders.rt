//! The orders of the kinds, at their edges.
use super::casks::Casks;
use kinds::RecordKind;
use kinds::gyles::{Gyles, year_decides};
use kinds::items::{Items, latest_price_first};
use std::cmp::Ordering;
use std::process::Abort;

#[test]
fn numbers_and_lengths(rt: HostRuntime) {
    let gyles = (Gyles::number(), Gyles::record_len(), Gyles::key_len());
    let items = (Items::number(), Items::record_len(), Items::key_len());
    let casks = (Casks::number(), Casks::record_len(), Casks::key_len());
    assert_eq!(rt;
        [gyles, items, casks],
        [(1, 32, 6), (2, 40, 10), (9, 254, 16)]
    );
}

/// Each key is below those behind it.
fn ascend<K: RecordKind, const P: usize>(rt: &impl Abort, keys: &[[u8; P]]) {
    for (i, a) in keys.iter().enumerate() {
        for (j, b) in keys.iter().enumerate() {
            assert!(rt; K::compare(a, b) == i.cmp(&j));
        }
    }
}

#[test]
fn gyles_ascend(rt: HostRuntime) {
    let keys = [
        Gyles::key(i16::MIN, i32::MIN),
        Gyles::key(i16::MIN, i32::MAX),
        Gyles::key(-1, 5),
        Gyles::key(0, i32::MIN),
        Gyles::key(0, -3),
        Gyles::key(0, 0),
        Gyles::key(1, -1),
        Gyles::key(i16::MAX, i32::MIN),
        Gyles::key(i16::MAX, i32::MAX),
    ];
    ascend::<Gyles, 6>(&rt, &keys);
    assert!(rt; year_decides() == Ordering::Less);
}

#[test]
fn items_ascend_by_code_and_descend_by_year(rt: HostRuntime) {
    let keys = [
        Items::key([0; 8], 0),
        Items::key([0, 0, 0, 0, 0, 0, 0, 1], i16::MAX),
        Items::key([0, 0, 0, 0, 0, 0, 0, 1], 1),
        Items::key([0, 0, 0, 0, 0, 0, 0, 1], 0),
        Items::key([0, 0, 0, 0, 0, 0, 0, 1], -1),
        Items::key([0, 0, 0, 0, 0, 0, 0, 1], i16::MIN),
        Items::key([127, 255, 255, 255, 255, 255, 255, 255], 7),
        Items::key([128, 0, 0, 0, 0, 0, 0, 0], 7),
        Items::key([255; 8], 7),
    ];
    ascend::<Items, 10>(&rt, &keys);
    assert!(rt; latest_price_first([255; 8]) == Ordering::Greater);
}

#[test]
fn casks_descend_by_day(rt: HostRuntime) {
    let mut early = [3; 16];
    let mut late = [3; 16];
    early[12] = 255;
    late[15] = 4;
    assert!(rt;
        Casks::compare(&late, &early) == Ordering::Less,
        "a day before day 0"
    );
    assert!(rt; Casks::compare(&[3; 16], &late) == Ordering::Greater);
    late[0] = 2;
    early[11] = 200;
    assert!(rt;
        Casks::compare(&late, &early) == Ordering::Less,
        "the number comes first"
    );
    assert!(rt; Casks::compare(&early, &[3; 16]) == Ordering::Greater);
}

#[test]
fn keys_of_a_wrong_length(rt: HostRuntime) {
    assert!(rt; Gyles::compare(&[], &[]) == Ordering::Equal);
    assert!(rt;
        Gyles::compare(&[], &[0; 6]) == Ordering::Equal,
        "filled up with zeros"
    );
    assert!(rt; Gyles::compare(&[255], &[]) == Ordering::Less, "year -256");
    assert!(rt; Gyles::compare(&[0, 0, 0, 1], &[0; 40]) == Ordering::Greater);
    assert!(rt;
        Gyles::compare(&[7, 7, 7, 7, 7, 7, 1], &[7; 6]) == Ordering::Equal,
        "what lies behind the fields is not looked at"
    );
}
