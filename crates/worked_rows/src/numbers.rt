//! Decimal texts with their numbers.

use iv_base::read_number;

#[test]
fn reads_decimal_texts(rt: HostRuntime) {
    let texts = [
        ("0", Some(0)),
        ("-007", Some(-7)),
        ("170141183460469231731687303715884105727", Some(i128::MAX)),
        ("-170141183460469231731687303715884105728", Some(i128::MIN)),
        ("170141183460469231731687303715884105728", None),
        ("999999999999999999999999999999999999999", None),
        ("0000000000000000000000000000000000000000", None),
        ("", None),
        ("-", None),
        ("+1", None),
        ("--1", None),
        ("1 ", None),
    ];
    for (text, number) in texts {
        assert_eq!(rt; read_number(text.as_bytes()), number);
    }
}
