use lt_period::period_of;

#[test]
fn the_farther_back_the_longer(rt: HostRuntime) {
    for (ts, now, start, len) in [
        (1_499_990_400, 1_500_000_000, 1_499_990_400, 14_400),
        (1_499_990_399, 1_500_000_000, 1_499_904_000, 86_400),
        (1_499_904_000, 1_500_000_000, 1_499_904_000, 86_400),
        (1_499_903_999, 1_500_000_000, 1_499_299_200, 604_800),
        (1_500_100_000, 1_500_000_000, 1_500_091_200, 14_400),
        (0, 0, 0, 14_400),
    ] {
        let period = period_of(ts * 1_000_000, now * 1_000_000);
        let wanted = (start * 1_000_000, len * 1_000_000);
        assert_eq!(rt;
            (period.start(), period.len()),
            wanted,
            "{ts} at {now}, in seconds"
        );
    }
}
