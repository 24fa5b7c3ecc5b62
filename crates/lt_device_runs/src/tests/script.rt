// Thirty calls, of which fourteen are moments, and the images of ten moments that tell most.
ghost use Rattle.std.specs.Prelude.{◌≡◌, length};

use super::bench;
use super::steps::{Step, run};
use lt_memdev::{Fail, Op};
use std::test::Fail as Broken;

/// Each step, and whether it fails.
static SCRIPT: [(Step, bool); 18] = [
    (Step::Write(1, "a"), false),
    (Step::Enter(0), false),
    (Step::Write(2, "bb"), false),
    (Step::Enter(1), false),
    (Step::Point(1), false),
    (Step::Settle, true),
    (Step::Settle, false),
    (Step::Write(4, "ccc"), false),
    (Step::Enter(2), true),
    (Step::Enter(2), false),
    (Step::Point(2), true),
    (Step::Remove(1), false),
    (Step::Settle, false),
    (Step::Point(2), true),
    (Step::Write(5, "dddd"), false),
    (Step::Point(0), false),
    (Step::Settle, false),
    (Step::Remove(2), true),
];

fn script() -> &'static [(Step, bool)]
    ensures { length result.now ≡ 18 }
{
    SCRIPT.as_slice()
}

/// The calls of the script that fail. The first `point` of them leaves the descriptor as it was, the second one doesn't.
const FAILS: [Fail; 5] = [
    Fail {
        op: Op::Settle,
        nth: 1,
        done: true,
    },
    Fail {
        op: Op::Enter,
        nth: 3,
        done: false,
    },
    Fail {
        op: Op::Point,
        nth: 2,
        done: false,
    },
    Fail {
        op: Op::Point,
        nth: 3,
        done: true,
    },
    Fail {
        op: Op::Remove,
        nth: 2,
        done: true,
    },
];

/// A moment, which descriptor, whether loose files are filled, and the image.
type Row = (u64, u64, bool, &'static str);

static ROWS: [Row; 32] = [
    // Nothing is entered. Number 1 is lent, so 0 and 1 are loose.
    (0, 0, false, "-"),
    (0, 0, true, "- 0=? 1=?"),
    // File 1 is entered, and number 2 lent.
    (1, 0, false, "- 1=a"),
    (1, 0, true, "- 0=? 1=a 2=?"),
    // A descriptor joins that there is none.
    (3, 0, false, "- 1=a 2=bb"),
    (3, 0, true, "- 0=? 1=a 2=bb"),
    (3, 1, false, "bb 1=a 2=bb"),
    (3, 1, true, "bb 0=? 1=a 2=bb"),
    (3, 2, false, "- 1=a 2=bb"),
    // A settle failed: both stay possible.
    (4, 0, false, "- 1=a 2=bb"),
    (4, 0, true, "- 0=? 1=a 2=bb"),
    (4, 1, false, "bb 1=a 2=bb"),
    (4, 1, true, "bb 0=? 1=a 2=bb"),
    // It is settled, and number 4 lent.
    (5, 0, false, "bb 1=a 2=bb"),
    (5, 0, true, "bb 0=? 1=a 2=bb 3=? 4=?"),
    (5, 1, false, "bb 1=a 2=bb"),
    // The file failed to be entered, and is loose.
    (6, 0, false, "bb 1=a 2=bb"),
    (6, 0, true, "bb 0=? 1=a 2=bb 3=? 4=?"),
    // It was entered, a point failed, and file 1 was removed.
    (9, 0, false, "bb 2=bb 4=ccc"),
    (9, 0, true, "bb 0=? 1=? 2=bb 3=? 4=ccc"),
    (9, 1, false, "ccc 2=bb 4=ccc"),
    (9, 1, true, "ccc 0=? 1=? 2=bb 3=? 4=ccc"),
    // What is read is settled, and that is the older descriptor.
    (10, 1, false, "bb 2=bb 4=ccc"),
    (10, 0, true, "bb 0=? 1=? 2=bb 3=? 4=ccc"),
    // Three descriptors are possible, and number 5 is lent.
    (12, 0, false, "bb 2=bb 4=ccc"),
    (12, 0, true, "bb 0=? 1=? 2=bb 3=? 4=ccc 5=?"),
    (12, 1, false, "ccc 2=bb 4=ccc"),
    (12, 1, true, "ccc 0=? 1=? 2=bb 3=? 4=ccc 5=?"),
    (12, 2, false, "a 2=bb 4=ccc"),
    (12, 2, true, "a 0=? 1=? 2=bb 3=? 4=ccc 5=?"),
    // A remove failed, and its file is loose.
    (14, 0, false, "a 4=ccc"),
    (14, 1, true, "a 0=? 1=? 2=? 3=? 4=ccc 5=?"),
];

fn rows() -> &'static [Row]
    ensures { length result.now ≡ 32 }
{
    ROWS.as_slice()
}

#[test]
fn thirty_calls_leave_the_images_of_the_table(rt: HostRuntime) -> Result<(), Broken> {
    let alloc = rt.alloc();
    let dir = run(alloc, FAILS.as_slice(), script())?.dir;
    let read = bench::shown(alloc, &dir)?;
    assert_eq!(rt;
        (dir.moments(), read.as_str()),
        (14, "a 4=ccc"),
        "at the end"
    );
    for (moment, which, filled, wanted) in rows() {
        let found = bench::image_shown(alloc, &dir, *moment, *which, *filled)?;
        assert_eq!(rt;
            found.as_str(),
            *wanted,
            "moment {moment}, descriptor {which}, filled {filled}"
        );
    }
    Ok(())
}
