//! The lines of the worked memo's plans, written out by hand, there and back.

use crate::memo_files::{WORKED, opened};
use crate::number_tests::make_buffers;
use numbering::ranking::rank;
use numbering::refusal::Refusal;
use std::test::Fail;
use texts::error::TextError;
use texts::read::read_plan;
use texts::report::{line, report};

const LINES: &[u8] =
    b"0 H0@2(S1@0,S2@1)\n1 H0@2(I1@0,S2@1)\n2 H0@2(S2@1,S1@0)\n3 H0@2(S2@1,I1@0)\n4 M0@2(S1@0,S2@1)\n5 M0@2(I1@0,S2@1)\n";

const TEXTS: [&[u8]; 6] = [
    b"H0@2(S1@0,S2@1)",
    b"H0@2(I1@0,S2@1)",
    b"H0@2(S2@1,S1@0)",
    b"H0@2(S2@1,I1@0)",
    b"M0@2(S1@0,S2@1)",
    b"M0@2(I1@0,S2@1)",
];

#[test]
fn worked_report(rt: HostRuntime) -> Result<(), Fail> {
    let heap = rt.alloc();
    let space = opened(&rt, heap, &WORKED);
    let mut b = make_buffers(heap, 3, 3, 3)?;
    let mut text = vec![in heap; 7u8; 109]?;
    assert_eq!(rt; LINES.len(), 108);
    assert_eq!(rt;
        report(
            &space,
            &[0, 1, 2, 3, 4, 5],
            &mut b.tallies,
            &mut b.work,
            &mut b.plan,
            &mut text,
        ),
        Ok(108)
    );
    assert!(rt; text.len() == 109);
    assert_eq!(rt; &text[0..108] == LINES, true);
    assert_eq!(rt; text[108], 7);
    // a bad number comes before a short buffer, and a refusal changes nothing
    let mut short = vec![in heap; 7u8; 107]?;
    assert_eq!(rt;
        report(
            &space,
            &[0, 1, 2, 3, 4, 5],
            &mut b.tallies,
            &mut b.work,
            &mut b.plan,
            &mut short,
        ),
        Err(Refusal::TextShort)
    );
    assert_eq!(rt;
        report(
            &space,
            &[0, 1, 2, 3, 4, 5, 6],
            &mut b.tallies,
            &mut b.work,
            &mut b.plan,
            &mut short,
        ),
        Err(Refusal::NoSuchPlan)
    );
    assert_eq!(rt;
        line(
            &space,
            6,
            &mut b.tallies,
            &mut b.work,
            &mut b.plan,
            &mut short,
        ),
        Err(Refusal::NoSuchPlan)
    );
    for byte in short.iter() {
        assert_eq!(rt; *byte, 7);
    }
    assert_eq!(rt;
        report(
            &space,
            &[],
            &mut b.tallies,
            &mut b.work,
            &mut b.plan,
            &mut short,
        ),
        Ok(0)
    );
    Ok(())
}

#[test]
fn read_back(rt: HostRuntime) -> Result<(), Fail> {
    let heap = rt.alloc();
    let space = opened(&rt, heap, &WORKED);
    let mut b = make_buffers(heap, 3, 3, 3)?;
    for (number, text) in (0..6u64).zip(TEXTS.iter()) {
        let nodes = read_plan(heap, text)?;
        assert_eq!(rt;
            rank(&space, &nodes, &mut b.tallies, &mut b.work),
            Ok(number)
        );
    }
    Ok(())
}

fn error_of(heap: std::alloc::Global, text: &[u8]) -> Option<TextError> {
    read_plan(heap, text).err()
}

#[test]
fn bad_texts(rt: HostRuntime) {
    let heap = rt.alloc();
    assert_eq!(rt; error_of(heap, b""), Some(TextError::NoNode(0)));
    assert_eq!(rt; error_of(heap, b"X0@2"), Some(TextError::NoNode(0)));
    assert_eq!(rt;
        error_of(heap, b"H0@2(S1@0;S2@1)"),
        Some(TextError::NoMark(9))
    );
    assert_eq!(rt; error_of(heap, b"S1@0)"), Some(TextError::BytesFollow(4)));
}
