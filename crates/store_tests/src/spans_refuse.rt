//! Spans over both makes: what they hold, what they refuse, and that a refusal leaves all as it was.
use super::pool::{SIZE, link, said};
use areas::chained::ChainedArea;
use areas::index::Chain;
use areas::lends::{fill_chain, unchain};
use areas::plain::PlainArea;
use std::test::Fail;
use store::faults::{MOTHER_FILE, MOVEMENT_FILE};
use store::spans::{copy_span, probe_span, read_span, write_span};

#[test]
fn spans_of_a_plain_area(rt: HostRuntime) {
    let mut memory = [1; 2048];
    let mut buffer = [2; 1024];
    let mut area = PlainArea::new(&mut memory);
    let asked = [
        said(probe_span(&area, MOTHER_FILE, 0, 4)),
        said(probe_span(&area, MOTHER_FILE, 3, 2)),
        said(probe_span(&area, MOTHER_FILE, usize::MAX, usize::MAX)),
        said(read_span(&area, MOTHER_FILE, 3, &mut buffer)),
        said(write_span(&mut area, MOTHER_FILE, 1, &buffer[0..1023])),
    ];
    assert_eq!(rt;
        asked,
        [
            None,
            Some((12, 1, 4)),
            Some((12, 1, usize::MAX)),
            Some((12, 1, 4)),
            Some((11, 1, 0)),
        ]
    );
    assert_eq!(rt; buffer[0], 2, "a refused span leaves the whole buffer");
    let done = [
        said(write_span(&mut area, MOTHER_FILE, 1, &buffer)),
        said(read_span(&area, MOTHER_FILE, 0, &mut buffer)),
    ];
    assert_eq!(rt; done, [None, None]);
    assert_eq!(rt;
        [buffer[511], buffer[512], memory[1535], memory[1536]],
        [1, 2, 2, 1]
    );
}

#[test]
fn a_bad_segment_in_a_span(rt: HostRuntime) -> Result<(), Fail> {
    let mut pool = [0; SIZE];
    link(&mut pool, 5, 4, 0);
    link(&mut pool, 4, 3, 1);
    let chain = Chain::of(rt.alloc(), &pool, 5)?;
    let wide = [6; 1536];
    let mut memory = [0; 1536];
    assert_eq!(rt;
        said(fill_chain(&mut pool, &chain, MOVEMENT_FILE, 0, &wide)),
        Some((13, 2, 1))
    );
    assert_eq!(rt; pool[2068], 0, "nothing of a refused span is written");
    let calls = [
        said(fill_chain(&mut pool, &chain, MOVEMENT_FILE, 2, &wide[0..512])),
        said(unchain(&mut pool, &chain, &mut memory, MOTHER_FILE, 3)),
        said(unchain(&mut pool, &chain, &mut memory, MOTHER_FILE, 1)),
        said(unchain(&mut pool, &chain, &mut memory[0..512], MOTHER_FILE, 2)),
    ];
    assert_eq!(rt; calls, [None, Some((13, 1, 1)), None, Some((13, 1, 1))]);
    assert_eq!(rt; pool[1036], 6, "segment 2 is page 3");
    Ok(())
}

#[test]
fn copies_go_either_way(rt: HostRuntime) -> Result<(), Fail> {
    let mut pool = [0; SIZE];
    link(&mut pool, 2, 1, 0);
    let chain = Chain::of(rt.alloc(), &pool, 2)?;
    let mut memory = [3; 1024];
    let from = PlainArea::new(&mut memory);
    let mut to = ChainedArea::new(&mut pool, &chain);
    let calls = [
        said(copy_span(&from, &mut to, MOTHER_FILE, 0, 3)),
        said(copy_span(&from, &mut to, MOTHER_FILE, 1, 1)),
    ];
    assert_eq!(rt; calls, [Some((12, 1, 2)), None]);
    assert_eq!(rt; [pool[4], pool[520]], [3, 0], "segment 1 is page 1");
    Ok(())
}
