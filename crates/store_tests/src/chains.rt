//! Which chains are accepted, and which are not.
use super::pool::{SIZE, link, number};
use areas::chained::ChainedArea;
use areas::index::Chain;
use std::test::Fail;
use store::SegmentStore;

#[test]
fn a_pool_is_whole_pages(rt: HostRuntime) {
    let pool = [0; 1033];
    let looks = [
        number(ChainedArea::look(&pool[0..0], 0)),
        number(ChainedArea::look(&pool[0..512], 1)),
        number(ChainedArea::look(&pool[0..516], 1)),
        number(ChainedArea::look(&pool[0..1032], 2)),
        number(ChainedArea::look(&pool, 2)),
    ];
    assert_eq!(rt;
        looks,
        [Some(14), Some(14), None, None, Some(14)],
        "14 before 15, and a byte too many"
    );
}

#[test]
fn all_pages(rt: HostRuntime) -> Result<(), Fail> {
    let mut pool = [0; SIZE];
    link(&mut pool, 3, 5, 0);
    link(&mut pool, 5, 1, 0);
    link(&mut pool, 1, 4, 0);
    link(&mut pool, 4, 2, 0);
    let chain = Chain::of(rt.alloc(), &pool, 3)?;
    let mut area = ChainedArea::new(&mut pool, &chain);
    assert_eq!(rt; (area.count(), number(area.write(3, &[8; 512]))), (5, None));
    assert_eq!(rt;
        (number(ChainedArea::look(&pool, 3)), pool[1552]),
        (None, 8),
        "segment 3 is page 4"
    );
    Ok(())
}

#[test]
fn a_chain_that_bites_its_tail(rt: HostRuntime) -> Result<(), Fail> {
    let mut pool = [0; SIZE];
    link(&mut pool, 1, 2, 0);
    link(&mut pool, 2, 3, 0);
    link(&mut pool, 3, 1, 0);
    link(&mut pool, 4, 4, 0);
    let looks = [
        number(ChainedArea::look(&pool, 1)),
        number(ChainedArea::look(&pool, 4)),
    ];
    assert_eq!(rt; looks, [Some(15), Some(15)]);
    let chain = Chain::of(rt.alloc(), &pool, 1)?;
    let area = ChainedArea::new(&mut pool, &chain);
    assert_eq!(rt;
        (area.count(), number(area.read(0, &mut [0; 512]))),
        (1, Some(13))
    );
    Ok(())
}

#[test]
fn pages_outside(rt: HostRuntime) {
    let mut pool = [0; SIZE];
    link(&mut pool, 1, 6, 0);
    link(&mut pool, 2, 256, 0);
    let looks = [
        number(ChainedArea::look(&pool, 0)),
        number(ChainedArea::look(&pool, 6)),
        number(ChainedArea::look(&pool, 1)),
        number(ChainedArea::look(&pool, 2)),
        number(ChainedArea::look(&pool, 5)),
    ];
    assert_eq!(rt; looks, [Some(15), Some(15), Some(15), Some(15), None]);
}

#[test]
fn marks_and_zero_bytes(rt: HostRuntime) {
    let mut pool = [0; SIZE];
    link(&mut pool, 1, 3, 1);
    link(&mut pool, 2, 4, 0);
    link(&mut pool, 4, 0, 2);
    pool[4 * 516 + 3] = 1;
    let looks = [
        number(ChainedArea::look(&pool, 1)),
        number(ChainedArea::look(&pool, 2)),
        number(ChainedArea::look(&pool, 5)),
    ];
    assert_eq!(rt;
        looks,
        [None, Some(15), Some(15)],
        "a bad page may stand on a chain; other pages are not looked at"
    );
}

#[test]
fn an_index_is_for_its_own_pool(rt: HostRuntime) -> Result<(), Fail> {
    let mut pool = [0; SIZE];
    link(&mut pool, 1, 2, 0);
    let chain = Chain::of(rt.alloc(), &pool, 1)?;
    assert_eq!(rt; ChainedArea::new(&mut pool, &chain).count(), 2);
    link(&mut pool, 2, 3, 0);
    let area = ChainedArea::new(&mut pool, &chain);
    assert_eq!(rt;
        (area.count(), number(area.read(0, &mut [0; 512]))),
        (1, Some(13)),
        "the chain is longer now"
    );
    Ok(())
}
