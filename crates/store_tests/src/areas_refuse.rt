//! What the areas refuse, one call after another, and that the first no decides.
use super::pool::{SIZE, link, number, said};
use areas::chained::ChainedArea;
use areas::index::Chain;
use areas::plain::PlainArea;
use std::test::Fail;
use store::SegmentStore;
use store::faults::{Fault, Refusal};

#[test]
fn a_fault_says_all(rt: HostRuntime) -> Result<(), Fail> {
    let fault = Fault::from(Refusal::BadSegment(70_000)).in_file(2);
    assert_eq!(rt;
        fault,
        Fault {
            number: 13,
            layer: 1,
            file: 2,
            segment: 70_000,
        }
    );
    let text = format!(in rt.alloc(); "{fault}")?;
    assert!(rt; text.as_str() == "refused 13 layer 1 file 2 segment 70000");
    let all = [
        said(Err(Fault::from(Refusal::WrongBuffer))),
        said(Err(Fault::from(Refusal::NoSegment(9)))),
        said(Err(Fault::from(Refusal::UnfitMemory))),
        said(Err(Fault::from(Refusal::BrokenChain))),
    ];
    assert_eq!(rt;
        all,
        [
            Some((11, 0, 0)),
            Some((12, 0, 9)),
            Some((14, 0, 0)),
            Some((15, 0, 0))
        ]
    );
    Ok(())
}

#[test]
fn plain_memory_is_whole_segments(rt: HostRuntime) -> Result<(), Fail> {
    let memory = vec![in rt.alloc(); 0u8; 33_554_432]?;
    assert!(rt; memory.len() == 33_554_432);
    let looks = [
        number(PlainArea::look(&memory[0..0])),
        number(PlainArea::look(&memory[0..511])),
        number(PlainArea::look(&memory[0..512])),
        number(PlainArea::look(&memory[0..1025])),
        number(PlainArea::look(&memory[0..33_553_920])),
        number(PlainArea::look(&memory)),
    ];
    assert_eq!(rt;
        looks,
        [Some(14), Some(14), None, Some(14), None, Some(14)],
        "from 1 to 65,535 segments"
    );
    Ok(())
}

#[test]
fn plain_calls_refuse_in_order(rt: HostRuntime) {
    let mut memory = [7; 1024];
    let mut buffer = [0; 600];
    let mut area = PlainArea::new(&mut memory);
    let refused = [
        said(area.read(2, &mut buffer[0..511])),
        said(area.write(9, &buffer[0..513])),
        said(area.read(2, &mut buffer[0..512])),
        said(area.write(usize::MAX, &buffer[0..512])),
    ];
    assert_eq!(rt;
        refused,
        [
            Some((11, 0, 0)),
            Some((11, 0, 0)),
            Some((12, 0, 2)),
            Some((12, 0, usize::MAX))
        ]
    );
    assert_eq!(rt;
        (area.count(), buffer[0]),
        (2, 0),
        "a refused read leaves the buffer"
    );
    let done = [
        said(area.write(1, &buffer[0..512])),
        said(area.read(0, &mut buffer[0..512])),
    ];
    assert_eq!(rt; done, [None, None]);
    assert_eq!(rt; [buffer[511], memory[511], memory[512]], [7, 7, 0]);
}

#[test]
fn made_after_a_no_it_is_one_bad_segment(rt: HostRuntime) {
    let mut memory = [7; 1023];
    let mut buffer = [0; 512];
    let mut area = PlainArea::new(&mut memory);
    let refused = [
        said(area.read(1, &mut buffer)),
        said(area.read(0, &mut buffer)),
        said(area.write(0, &buffer)),
    ];
    assert_eq!(rt;
        refused,
        [Some((12, 0, 1)), Some((13, 0, 0)), Some((13, 0, 0))]
    );
    assert_eq!(rt; (area.count(), memory[0]), (1, 7));
}

#[test]
fn chained_calls_refuse_in_order(rt: HostRuntime) -> Result<(), Fail> {
    let mut pool = [0; SIZE];
    let mut buffer = [9; 512];
    link(&mut pool, 4, 2, 0);
    link(&mut pool, 2, 0, 1);
    let chain = Chain::of(rt.alloc(), &pool, 4)?;
    let mut area = ChainedArea::new(&mut pool, &chain);
    let calls = [
        said(area.read(2, &mut buffer[0..0])),
        said(area.read(2, &mut buffer)),
        said(area.read(1, &mut buffer)),
        said(area.write(1, &buffer)),
        said(area.write(0, &buffer)),
    ];
    assert_eq!(rt;
        calls,
        [
            Some((11, 0, 0)),
            Some((12, 0, 2)),
            Some((13, 0, 1)),
            Some((13, 0, 1)),
            None
        ]
    );
    assert_eq!(rt; area.count(), 2);
    assert_eq!(rt;
        [pool[1552], pool[1549], pool[520]],
        [9, 2, 0],
        "page 4 written, its link and page 2 not"
    );
    Ok(())
}
