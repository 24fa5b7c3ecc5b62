use lt_deps::Deps;
use lt_rec::TabletId;
use std::alloc::Global;
use std::test::Fail;

fn note_all(deps: &mut Deps, tablets: &[u64]) -> Result<(), Fail> {
    for tablet in tablets {
        deps.ready()?;
        deps.note(TabletId(*tablet));
    }
    Ok(())
}

fn ids(alloc: Global, numbers: &[u64]) -> Result<Vec<TabletId>, Fail> {
    let mut ids = Vec::new(alloc);
    for number in numbers {
        ids.push(TabletId(*number))?;
    }
    Ok(ids)
}

// Tablets that are gone, those of the rows that are noted then, a tablet, and those that it goes out with.
type Case = (
    &'static str,
    &'static [u64],
    &'static [u64],
    u64,
    &'static [u64],
);

static CASES: [Case; 6] = [
    ("no rows", &[], &[], 4, &[4]),
    ("the second of three", &[], &[0, 1, 2], 1, &[0, 1]),
    ("after one more row for it", &[], &[1], 1, &[0, 1, 2]),
    ("after the others are gone", &[0, 1, 2], &[3], 3, &[3]),
    (
        "numbers with a gap, out of order",
        &[],
        &[9, 5, 9],
        5,
        &[3, 5, 9],
    ),
    (
        "a lesser number, and one that is gone",
        &[3, 5, 9],
        &[0, 0, 7],
        7,
        &[0, 7],
    ),
];

#[test]
fn tablets_go_out_with_those_of_the_rows_before(rt: HostRuntime) -> Result<(), Fail> {
    let mut deps = Deps::new(rt.alloc());
    for (name, gone, rows, tablet, wanted) in CASES.iter() {
        deps.gone(ids(rt.alloc(), *gone)?.as_slice());
        note_all(&mut deps, *rows)?;
        let found = deps.closure(TabletId(*tablet))?;
        let wanted = ids(rt.alloc(), *wanted)?;
        assert_eq!(rt; found.as_slice(), wanted.as_slice(), "{name}");
    }
    Ok(())
}
