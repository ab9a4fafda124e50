//! Runs of `batch`.
use crate::runs::{DELAY, LOW, Row, TOGGLE, answers_so, case};
use std::test::Fail;

// A batch over the files `left` and `right`, and its list in the file `trace`.
fn batch(
    words: &'static str,
    right: &'static str,
    list: &'static str,
    status: u8,
    out: &'static str,
    err: &'static str,
) -> Row {
    Row {
        trace: list,
        ..case(words, TOGGLE, right, status, out, err)
    }
}

#[test]
fn each_pair_of_a_list_has_a_line(rt: HostRuntime) -> Result<(), Fail> {
    const THREE: &str = "left left\nleft right\nleft trace\n";
    const LINES: &str =
        "1 equivalent k=1 signals=3 classes=2\n2 undecided k=1 signals=2 classes=2 unpaired=0\n3 sec: trace: header at byte 0\n";
    const TWO: &str = "1 different k=2 frame=1 output=0\n2 equivalent k=2 signals=3 classes=2\n";
    const LISTS: &[(&str, &str, u8, &str)] = &[
        ("sec batch trace", THREE, 4, LINES),
        ("sec batch trace -j 3", THREE, 4, LINES),
        ("sec batch trace -k 2", "left right\nleft left\n", 1, TWO),
        (
            "sec batch trace -j 64 -k 2",
            "left right\nleft left\n",
            1,
            TWO,
        ),
        (
            "sec batch trace",
            "right left\n",
            2,
            "1 undecided k=1 signals=2 classes=2 unpaired=0\n",
        ),
        ("sec batch trace", "", 0, ""),
    ];
    let alloc = rt.alloc();
    for &(words, list, status, out) in LISTS {
        assert!(rt;
            answers_so(&rt, alloc, &batch(words, LOW, list, status, out, ""))?,
            "{words}"
        );
    }
    let counts = "1 sec: inputs differ: 0 and 1\n2 equivalent k=1 signals=3 classes=2\n";
    assert!(rt;
        answers_so(
            &rt,
            alloc,
            &batch(
                "sec batch trace",
                DELAY,
                "left right\nleft left\n",
                4,
                counts,
                ""
            )
        )?
    );
    Ok(())
}

#[test]
fn a_list_or_a_file_may_end_the_batch(rt: HostRuntime) -> Result<(), Fail> {
    const ENDINGS: &[(&str, &str, u8, &str)] = &[
        ("sec batch none", "", 5, "sec: none: read failed\n"),
        (
            "sec batch trace",
            "left left\nright z\ny y\n",
            5,
            "sec: z: read failed\n",
        ),
        (
            "sec batch trace",
            "left  left\n",
            4,
            "sec: trace: line at line 1\n",
        ),
        (
            "sec batch trace",
            "left left\nleft right",
            4,
            "sec: trace: truncated at line 2\n",
        ),
    ];
    let alloc = rt.alloc();
    for &(words, list, status, err) in ENDINGS {
        assert!(rt;
            answers_so(&rt, alloc, &batch(words, LOW, list, status, "", err))?,
            "{words} {list}"
        );
    }
    Ok(())
}
