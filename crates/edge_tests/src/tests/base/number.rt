use net_base::read_number;

#[test]
fn a_number_has_one_spelling(rt: HostRuntime) {
    let rows: [(&[u8], u64, Option<u64>); 11] = [
        (b"0", 10, Some(0)),
        (b"10", 10, Some(10)),
        (b"18446744073709551615", u64::MAX, Some(u64::MAX)),
        (b"", 10, None),
        (b"01", 10, None),
        (b"00", 10, None),
        (b"+1", 10, None),
        (b"1 ", 10, None),
        (b"11", 10, None),
        (b"18446744073709551616", u64::MAX, None),
        (b"99999999999999999999999999999999999999999", u64::MAX, None),
    ];
    for (word, most, number) in rows {
        assert!(rt; read_number(word, most) == number, "at {word:?}");
    }
}
