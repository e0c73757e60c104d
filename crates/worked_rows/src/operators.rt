use int_ops::{Op, Range, Stop, allowed, apply, fits};
use iv_words::IntKind;
use std::process::Abort;

type Answer = Result<i128, Stop>;

const OVER: Answer = Err(Stop::Overflow);

const ZERO: Answer = Err(Stop::DivZero);

const SHIFT: Answer = Err(Stop::Shift);

fn answer(rt: &impl Abort, op: Op, kind: IntKind, a: i128, b: i128) -> Answer {
    assert!(rt;
        allowed(op, kind) && fits(kind, a) && fits(kind, b),
        "{op:?} of {kind:?} at {a}, {b}"
    );
    apply(op, kind, a, b)
}

// A row has an operator's answers at the least number twice, the least and the greatest, the greatest and the least, and the
// greatest twice.
fn walk(rt: &impl Abort, kind: IntKind, least: i128, greatest: i128, rows: &[(Op, [Answer; 4])]) {
    for &(op, answers) in rows {
        let found = [
            answer(rt, op, kind, least, least),
            answer(rt, op, kind, least, greatest),
            answer(rt, op, kind, greatest, least),
            answer(rt, op, kind, greatest, greatest),
        ];
        assert_eq!(rt; found, answers, "{op:?} of {kind:?}");
    }
}

const U8_ROWS: [(Op, [Answer; 4]); 20] = [
    (Op::Add, [Ok(0), Ok(255), Ok(255), OVER]),
    (Op::Sub, [Ok(0), OVER, Ok(255), Ok(0)]),
    (Op::Mul, [Ok(0), Ok(0), Ok(0), OVER]),
    (Op::Div, [ZERO, Ok(0), ZERO, Ok(1)]),
    (Op::Rem, [ZERO, Ok(0), ZERO, Ok(0)]),
    (Op::Shl, [Ok(0), SHIFT, Ok(255), SHIFT]),
    (Op::Shr, [Ok(0), SHIFT, Ok(255), SHIFT]),
    (Op::And, [Ok(0), Ok(0), Ok(0), Ok(255)]),
    (Op::Or, [Ok(0), Ok(255), Ok(255), Ok(255)]),
    (Op::Xor, [Ok(0), Ok(255), Ok(255), Ok(0)]),
    (Op::Not, [Ok(255), Ok(255), Ok(0), Ok(0)]),
    (Op::WrapAdd, [Ok(0), Ok(255), Ok(255), Ok(254)]),
    (Op::WrapSub, [Ok(0), Ok(1), Ok(255), Ok(0)]),
    (Op::WrapMul, [Ok(0), Ok(0), Ok(0), Ok(1)]),
    (Op::Eq, [Ok(1), Ok(0), Ok(0), Ok(1)]),
    (Op::Ne, [Ok(0), Ok(1), Ok(1), Ok(0)]),
    (Op::Lt, [Ok(0), Ok(1), Ok(0), Ok(0)]),
    (Op::Le, [Ok(1), Ok(1), Ok(0), Ok(1)]),
    (Op::Gt, [Ok(0), Ok(0), Ok(1), Ok(0)]),
    (Op::Ge, [Ok(1), Ok(0), Ok(1), Ok(1)]),
];

const U16_ROWS: [(Op, [Answer; 4]); 20] = [
    (Op::Add, [Ok(0), Ok(65535), Ok(65535), OVER]),
    (Op::Sub, [Ok(0), OVER, Ok(65535), Ok(0)]),
    (Op::Mul, [Ok(0), Ok(0), Ok(0), OVER]),
    (Op::Div, [ZERO, Ok(0), ZERO, Ok(1)]),
    (Op::Rem, [ZERO, Ok(0), ZERO, Ok(0)]),
    (Op::Shl, [Ok(0), SHIFT, Ok(65535), SHIFT]),
    (Op::Shr, [Ok(0), SHIFT, Ok(65535), SHIFT]),
    (Op::And, [Ok(0), Ok(0), Ok(0), Ok(65535)]),
    (Op::Or, [Ok(0), Ok(65535), Ok(65535), Ok(65535)]),
    (Op::Xor, [Ok(0), Ok(65535), Ok(65535), Ok(0)]),
    (Op::Not, [Ok(65535), Ok(65535), Ok(0), Ok(0)]),
    (Op::WrapAdd, [Ok(0), Ok(65535), Ok(65535), Ok(65534)]),
    (Op::WrapSub, [Ok(0), Ok(1), Ok(65535), Ok(0)]),
    (Op::WrapMul, [Ok(0), Ok(0), Ok(0), Ok(1)]),
    (Op::Eq, [Ok(1), Ok(0), Ok(0), Ok(1)]),
    (Op::Ne, [Ok(0), Ok(1), Ok(1), Ok(0)]),
    (Op::Lt, [Ok(0), Ok(1), Ok(0), Ok(0)]),
    (Op::Le, [Ok(1), Ok(1), Ok(0), Ok(1)]),
    (Op::Gt, [Ok(0), Ok(0), Ok(1), Ok(0)]),
    (Op::Ge, [Ok(1), Ok(0), Ok(1), Ok(1)]),
];

const U32_ROWS: [(Op, [Answer; 4]); 20] = [
    (Op::Add, [Ok(0), Ok(4294967295), Ok(4294967295), OVER]),
    (Op::Sub, [Ok(0), OVER, Ok(4294967295), Ok(0)]),
    (Op::Mul, [Ok(0), Ok(0), Ok(0), OVER]),
    (Op::Div, [ZERO, Ok(0), ZERO, Ok(1)]),
    (Op::Rem, [ZERO, Ok(0), ZERO, Ok(0)]),
    (Op::Shl, [Ok(0), SHIFT, Ok(4294967295), SHIFT]),
    (Op::Shr, [Ok(0), SHIFT, Ok(4294967295), SHIFT]),
    (Op::And, [Ok(0), Ok(0), Ok(0), Ok(4294967295)]),
    (
        Op::Or,
        [Ok(0), Ok(4294967295), Ok(4294967295), Ok(4294967295)],
    ),
    (Op::Xor, [Ok(0), Ok(4294967295), Ok(4294967295), Ok(0)]),
    (Op::Not, [Ok(4294967295), Ok(4294967295), Ok(0), Ok(0)]),
    (
        Op::WrapAdd,
        [Ok(0), Ok(4294967295), Ok(4294967295), Ok(4294967294)],
    ),
    (Op::WrapSub, [Ok(0), Ok(1), Ok(4294967295), Ok(0)]),
    (Op::WrapMul, [Ok(0), Ok(0), Ok(0), Ok(1)]),
    (Op::Eq, [Ok(1), Ok(0), Ok(0), Ok(1)]),
    (Op::Ne, [Ok(0), Ok(1), Ok(1), Ok(0)]),
    (Op::Lt, [Ok(0), Ok(1), Ok(0), Ok(0)]),
    (Op::Le, [Ok(1), Ok(1), Ok(0), Ok(1)]),
    (Op::Gt, [Ok(0), Ok(0), Ok(1), Ok(0)]),
    (Op::Ge, [Ok(1), Ok(0), Ok(1), Ok(1)]),
];

const U64_ROWS: [(Op, [Answer; 4]); 20] = [
    (
        Op::Add,
        [
            Ok(0),
            Ok(18446744073709551615),
            Ok(18446744073709551615),
            OVER,
        ],
    ),
    (Op::Sub, [Ok(0), OVER, Ok(18446744073709551615), Ok(0)]),
    (Op::Mul, [Ok(0), Ok(0), Ok(0), OVER]),
    (Op::Div, [ZERO, Ok(0), ZERO, Ok(1)]),
    (Op::Rem, [ZERO, Ok(0), ZERO, Ok(0)]),
    (Op::Shl, [Ok(0), SHIFT, Ok(18446744073709551615), SHIFT]),
    (Op::Shr, [Ok(0), SHIFT, Ok(18446744073709551615), SHIFT]),
    (Op::And, [Ok(0), Ok(0), Ok(0), Ok(18446744073709551615)]),
    (
        Op::Or,
        [
            Ok(0),
            Ok(18446744073709551615),
            Ok(18446744073709551615),
            Ok(18446744073709551615),
        ],
    ),
    (
        Op::Xor,
        [
            Ok(0),
            Ok(18446744073709551615),
            Ok(18446744073709551615),
            Ok(0),
        ],
    ),
    (
        Op::Not,
        [
            Ok(18446744073709551615),
            Ok(18446744073709551615),
            Ok(0),
            Ok(0),
        ],
    ),
    (
        Op::WrapAdd,
        [
            Ok(0),
            Ok(18446744073709551615),
            Ok(18446744073709551615),
            Ok(18446744073709551614),
        ],
    ),
    (Op::WrapSub, [Ok(0), Ok(1), Ok(18446744073709551615), Ok(0)]),
    (Op::WrapMul, [Ok(0), Ok(0), Ok(0), Ok(1)]),
    (Op::Eq, [Ok(1), Ok(0), Ok(0), Ok(1)]),
    (Op::Ne, [Ok(0), Ok(1), Ok(1), Ok(0)]),
    (Op::Lt, [Ok(0), Ok(1), Ok(0), Ok(0)]),
    (Op::Le, [Ok(1), Ok(1), Ok(0), Ok(1)]),
    (Op::Gt, [Ok(0), Ok(0), Ok(1), Ok(0)]),
    (Op::Ge, [Ok(1), Ok(0), Ok(1), Ok(1)]),
];

const I8_ROWS: [(Op, [Answer; 4]); 12] = [
    (Op::Add, [OVER, Ok(-1), Ok(-1), OVER]),
    (Op::Sub, [Ok(0), OVER, OVER, Ok(0)]),
    (Op::Mul, [OVER, OVER, OVER, OVER]),
    (Op::Div, [Ok(1), Ok(-1), Ok(0), Ok(1)]),
    (Op::Rem, [Ok(0), Ok(-1), Ok(127), Ok(0)]),
    (Op::Neg, [OVER, OVER, Ok(-127), Ok(-127)]),
    (Op::Eq, [Ok(1), Ok(0), Ok(0), Ok(1)]),
    (Op::Ne, [Ok(0), Ok(1), Ok(1), Ok(0)]),
    (Op::Lt, [Ok(0), Ok(1), Ok(0), Ok(0)]),
    (Op::Le, [Ok(1), Ok(1), Ok(0), Ok(1)]),
    (Op::Gt, [Ok(0), Ok(0), Ok(1), Ok(0)]),
    (Op::Ge, [Ok(1), Ok(0), Ok(1), Ok(1)]),
];

const I16_ROWS: [(Op, [Answer; 4]); 12] = [
    (Op::Add, [OVER, Ok(-1), Ok(-1), OVER]),
    (Op::Sub, [Ok(0), OVER, OVER, Ok(0)]),
    (Op::Mul, [OVER, OVER, OVER, OVER]),
    (Op::Div, [Ok(1), Ok(-1), Ok(0), Ok(1)]),
    (Op::Rem, [Ok(0), Ok(-1), Ok(32767), Ok(0)]),
    (Op::Neg, [OVER, OVER, Ok(-32767), Ok(-32767)]),
    (Op::Eq, [Ok(1), Ok(0), Ok(0), Ok(1)]),
    (Op::Ne, [Ok(0), Ok(1), Ok(1), Ok(0)]),
    (Op::Lt, [Ok(0), Ok(1), Ok(0), Ok(0)]),
    (Op::Le, [Ok(1), Ok(1), Ok(0), Ok(1)]),
    (Op::Gt, [Ok(0), Ok(0), Ok(1), Ok(0)]),
    (Op::Ge, [Ok(1), Ok(0), Ok(1), Ok(1)]),
];

const I32_ROWS: [(Op, [Answer; 4]); 12] = [
    (Op::Add, [OVER, Ok(-1), Ok(-1), OVER]),
    (Op::Sub, [Ok(0), OVER, OVER, Ok(0)]),
    (Op::Mul, [OVER, OVER, OVER, OVER]),
    (Op::Div, [Ok(1), Ok(-1), Ok(0), Ok(1)]),
    (Op::Rem, [Ok(0), Ok(-1), Ok(2147483647), Ok(0)]),
    (Op::Neg, [OVER, OVER, Ok(-2147483647), Ok(-2147483647)]),
    (Op::Eq, [Ok(1), Ok(0), Ok(0), Ok(1)]),
    (Op::Ne, [Ok(0), Ok(1), Ok(1), Ok(0)]),
    (Op::Lt, [Ok(0), Ok(1), Ok(0), Ok(0)]),
    (Op::Le, [Ok(1), Ok(1), Ok(0), Ok(1)]),
    (Op::Gt, [Ok(0), Ok(0), Ok(1), Ok(0)]),
    (Op::Ge, [Ok(1), Ok(0), Ok(1), Ok(1)]),
];

const I64_ROWS: [(Op, [Answer; 4]); 12] = [
    (Op::Add, [OVER, Ok(-1), Ok(-1), OVER]),
    (Op::Sub, [Ok(0), OVER, OVER, Ok(0)]),
    (Op::Mul, [OVER, OVER, OVER, OVER]),
    (Op::Div, [Ok(1), Ok(-1), Ok(0), Ok(1)]),
    (Op::Rem, [Ok(0), Ok(-1), Ok(9223372036854775807), Ok(0)]),
    (
        Op::Neg,
        [
            OVER,
            OVER,
            Ok(-9223372036854775807),
            Ok(-9223372036854775807),
        ],
    ),
    (Op::Eq, [Ok(1), Ok(0), Ok(0), Ok(1)]),
    (Op::Ne, [Ok(0), Ok(1), Ok(1), Ok(0)]),
    (Op::Lt, [Ok(0), Ok(1), Ok(0), Ok(0)]),
    (Op::Le, [Ok(1), Ok(1), Ok(0), Ok(1)]),
    (Op::Gt, [Ok(0), Ok(0), Ok(1), Ok(0)]),
    (Op::Ge, [Ok(1), Ok(0), Ok(1), Ok(1)]),
];

#[test]
fn answers_at_the_ends_of_each_kind(rt: HostRuntime) {
    walk(&rt, IntKind::U8, 0, 255, &U8_ROWS);
    walk(&rt, IntKind::U16, 0, 65535, &U16_ROWS);
    walk(&rt, IntKind::U32, 0, 4294967295, &U32_ROWS);
    walk(&rt, IntKind::U64, 0, 18446744073709551615, &U64_ROWS);
    walk(&rt, IntKind::I8, -128, 127, &I8_ROWS);
    walk(&rt, IntKind::I16, -32768, 32767, &I16_ROWS);
    walk(&rt, IntKind::I32, -2147483648, 2147483647, &I32_ROWS);
    walk(
        &rt,
        IntKind::I64,
        -9223372036854775808,
        9223372036854775807,
        &I64_ROWS,
    );
}

#[test]
fn answers_one_by_one(rt: HostRuntime) {
    let rows = [
        (Op::Mul, IntKind::U16, 65535, 65535, OVER),
        (Op::WrapMul, IntKind::U16, 65535, 65535, Ok(1)),
        (
            Op::Mul,
            IntKind::U64,
            18446744073709551615,
            18446744073709551615,
            OVER,
        ),
        (Op::Rem, IntKind::I64, -9223372036854775808, -1, OVER),
        (Op::Div, IntKind::I8, -128, 0, ZERO),
        (Op::Shl, IntKind::U8, 255, 7, Ok(128)),
        (Op::Shl, IntKind::U8, 1, 8, SHIFT),
        (Op::Shr, IntKind::U8, 255, 7, Ok(1)),
        (Op::Div, IntKind::I8, -7, 2, Ok(-3)),
        (Op::Rem, IntKind::I8, -7, 2, Ok(-1)),
        (Op::Rem, IntKind::I8, 7, -2, Ok(1)),
        (Op::Neg, IntKind::I8, -128, 0, OVER),
    ];
    for (op, kind, a, b, wanted) in rows {
        assert_eq!(rt;
            answer(&rt, op, kind, a, b),
            wanted,
            "{op:?} of {kind:?} at {a}, {b}"
        );
    }
}

#[test]
fn ranges_end_where_they_should(rt: HostRuntime) {
    let unsigned = [
        (Range::<8, false>::least(), Range::<8, false>::greatest()),
        (Range::<16, false>::least(), Range::<16, false>::greatest()),
        (Range::<32, false>::least(), Range::<32, false>::greatest()),
        (Range::<64, false>::least(), Range::<64, false>::greatest()),
    ];
    let signed = [
        (Range::<8, true>::least(), Range::<8, true>::greatest()),
        (Range::<16, true>::least(), Range::<16, true>::greatest()),
        (Range::<32, true>::least(), Range::<32, true>::greatest()),
        (Range::<64, true>::least(), Range::<64, true>::greatest()),
    ];
    assert_eq!(rt;
        unsigned,
        [
            (0, 255),
            (0, 65535),
            (0, 4294967295),
            (0, 18446744073709551615)
        ]
    );
    assert_eq!(rt;
        signed,
        [
            (-128, 127),
            (-32768, 32767),
            (-2147483648, 2147483647),
            (-9223372036854775808, 9223372036854775807)
        ]
    );
}
