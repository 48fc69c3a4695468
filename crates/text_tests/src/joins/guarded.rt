// Which edges of a drawing cross first.
use loop_join::guard;
use loops_text::read_loops;
use std::test::Fail;

// Each drawing with the first two of its edges that cross.
const CASES: [(&[u8], Option<(u32, u32)>); 4] = [
    (
        b"0,0 200,0 200,200 0,200\n100,100 300,100 300,300 100,300\n",
        Some((1, 4)),
    ),
    (b"0,0 1,0\n", Some((0, 1))),
    (
        b"0,0 100,0 100,100 0,100\n100,100 200,100 200,200 100,200\n",
        None,
    ),
    (b"", None),
];

#[test]
fn guards_as_worked_by_hand(rt: HostRuntime) -> Result<(), Fail> {
    for (text, want) in CASES.iter() {
        assert!(rt; text.len() < 100);
        let drawing = read_loops(rt.alloc(), text).ok().expect(&rt, "a drawing");
        assert_eq!(rt; guard(&drawing), *want, "at {text:?}");
    }
    Ok(())
}
