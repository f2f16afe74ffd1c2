use net_base::backoff_delay;

#[test]
fn seven_failures(rt: HostRuntime) {
    for (failures, delay) in [
        (1, 5000),
        (2, 10_000),
        (3, 20_000),
        (4, 40_000),
        (5, 80_000),
        (6, 160_000),
        (7, 160_000),
    ] {
        assert!(rt;
            failures >= 1 && backoff_delay(5000, failures) == delay,
            "after {failures}"
        );
    }
}
