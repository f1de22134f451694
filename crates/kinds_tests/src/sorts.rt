//! Records brought into key order.
use kinds::gyles::Gyles;
use sorting::sorted;
use std::alloc::{AllocError, Global};
use std::test::Fail;

/// Records of gyles, each with a mark of its own in its last byte.
fn marked(heap: Global, years: &[i16]) -> Result<Vec<u8>, AllocError> {
    let mut records = Vec::new(heap);
    for (mark, year) in (1..).zip(years) {
        records.extend_from_slice(&Gyles::key(*year, 1))?;
        records.extend_from_slice(&[0; 25])?;
        records.push(mark)?;
    }
    Ok(records)
}

#[test]
fn nothing_to_sort(rt: HostRuntime) -> Result<(), Fail> {
    assert_eq!(rt; sorted::<Gyles>(rt.alloc(), &[])?.len(), 0);
    assert_eq!(rt;
        sorted::<Gyles>(rt.alloc(), &[7; 31])?.len(),
        0,
        "no whole record"
    );
    assert_eq!(rt;
        sorted::<Gyles>(rt.alloc(), &[7; 63])?.len(),
        34,
        "one, and some bytes more"
    );
    Ok(())
}

#[test]
fn the_first_of_a_key_is_taken(rt: HostRuntime) -> Result<(), Fail> {
    let records = marked(rt.alloc(), &[3, -2, 3, 0, -2, i16::MIN, i16::MAX])?;
    let block = sorted::<Gyles>(rt.alloc(), &records)?;
    assert_eq!(rt; block.len(), 170);
    assert!(rt; block.iter().skip(31).step_by(34).eq(&[6, 2, 4, 1, 7]));
    assert_eq!(rt;
        [block.get(32), block.get(169)],
        [Some(&0), Some(&0)],
        "no movement hangs behind one"
    );
    Ok(())
}
