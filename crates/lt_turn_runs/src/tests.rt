use super::*;
use std::test::*;

#[test]
fn two_threads_end_with_what_both_added(rt: HostRuntime) -> Result<(), Fail> {
    let Some(ends) = total_of_two(&rt, rt.alloc(), (3, 5), 10_000) else {
        panic!(rt; "no memory")
    };
    assert_eq!(rt; (ends.first, ends.second), (30_000, 50_000));
    assert_eq!(rt; ends.total, 80_000);
    Ok(())
}

#[test]
fn many_threads_end_with_what_all_added(rt: HostRuntime) -> Result<(), Fail> {
    let cases: [(u32, u64); 4] = [(0, 0), (2, 2_000), (4, 4_000), (66, 66_000)];
    for (threads, wanted) in cases {
        let (total, gave) = total_of_many(&rt, rt.alloc(), threads, 1_000)?;
        assert_eq!(rt; (total, gave), (wanted, wanted), "{threads} threads");
    }
    Ok(())
}

#[test]
fn a_turn_ends_as_its_seats_do(rt: HostRuntime) -> Result<(), Fail> {
    let cases = [
        ("joined in another order", Ending::InAnotherOrder, 7),
        ("closed with others left", Ending::OthersLeft, 7),
        ("adds, where two turns add nothing", Ending::NothingAdded, 1),
        ("one ended early", Ending::EndedEarly, 1_024),
        ("dropped in its turn", Ending::InTurn, 0),
    ];
    for (name, ending, wanted) in cases {
        assert_eq!(rt; end_of(&rt, rt.alloc(), ending)?, wanted, "{name}");
    }
    Ok(())
}
