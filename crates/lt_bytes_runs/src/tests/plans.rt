use lt_plan::{Weigh, plan};
use std::process::Abort;

// A tablet of today's four hours with that number, from 0 to 5.
fn tablet(hours: u64, bytes: u64) -> Weigh {
    let today = 1_499_990_400_000_000;
    let low = today + (hours % 6) * 14_400_000_000;
    Weigh {
        file: 1,
        low,
        high: low + 14_399_999_999,
        bytes,
    }
}

const CAP: u64 = 134_217_728;

const NOW: u64 = 1_500_000_000_000_000;

fn told(rt: &impl Abort, list: &[Weigh], run: Option<(u64, u64)>, case: &str) {
    let found = plan(list, NOW).map(|run| (run.first, run.count));
    assert_eq!(rt; found, run, "{case}");
}

static SIZES: [(&str, [u64; 4], Option<(u64, u64)>); 9] = [
    ("a front that is too large", [100, 45, 30, 20], Some((1, 3))),
    ("almost as large", [100, 95, 1, 0], Some((0, 4))),
    ("each less than half", [100, 49, 24, 11], None),
    ("exactly half", [100, 50, 24, 11], Some((0, 4))),
    ("two at the cap", [CAP / 2, CAP / 2, 1, 1], Some((0, 2))),
    (
        "one byte past the cap",
        [CAP / 2 + 1, CAP / 2, 1, 1],
        Some((2, 2)),
    ),
    (
        "the third passes the cap",
        [CAP / 2, CAP / 4, CAP / 4 + 1, 0],
        Some((0, 2)),
    ),
    (
        "the third reaches the cap",
        [CAP / 2, CAP / 4, CAP / 4, 0],
        Some((0, 4)),
    ),
    (
        "the largest numbers",
        [u64::MAX, u64::MAX, u64::MAX, u64::MAX],
        None,
    ),
];

fn of_one_home(sizes: &[u64; 4]) -> [Weigh; 4] {
    let [a, b, c, d] = *sizes;
    [tablet(1, a), tablet(1, b), tablet(1, c), tablet(1, d)]
}

#[test]
fn sizes_choose_the_run(rt: HostRuntime) {
    for (case, sizes, run) in SIZES.iter() {
        told(&rt, &of_one_home(sizes), *run, *case);
    }
}

#[test]
fn a_run_has_one_home(rt: HostRuntime) {
    told(
        &rt,
        &[tablet(0, 9), tablet(1, 9), tablet(2, 9)],
        None,
        "none of one",
    );
    told(
        &rt,
        &[tablet(0, 9), tablet(1, 9), tablet(1, 9)],
        Some((1, 2)),
        "the last two",
    );
    told(
        &rt,
        &[tablet(0, 9), tablet(0, 9), tablet(1, 9)],
        Some((0, 2)),
        "the first two",
    );
}

// In no one period.
const ASTRIDE: Weigh = Weigh {
    file: 1,
    low: 1_499_990_400_000_000,
    high: 1_500_004_800_000_000,
    bytes: 9,
};

#[test]
fn few_tablets_and_one_astride(rt: HostRuntime) {
    told(
        &rt,
        &[tablet(0, 9), ASTRIDE, tablet(0, 9)],
        None,
        "one without a home",
    );
    told(&rt, &[], None, "no tablets");
    told(&rt, &[tablet(0, 1)], None, "one tablet");
    told(
        &rt,
        &[tablet(0, 100), tablet(0, 95)],
        Some((0, 2)),
        "a pair",
    );
    told(
        &rt,
        &[tablet(0, 100), tablet(0, 49)],
        None,
        "a pair of which the first is too large",
    );
}
