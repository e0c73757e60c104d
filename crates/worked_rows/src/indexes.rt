use index_types::{in_range, to_index, wrap_index};

#[test]
fn an_index_is_below_its_length(rt: HostRuntime) {
    assert_eq!(rt; to_index(4, 0), Some(0));
    assert_eq!(rt; to_index(4, 3), Some(3));
    assert_eq!(rt; to_index(4, 4), None);
    assert_eq!(rt; to_index(4, -1), None);
    assert!(rt; in_range(65_535, 65_534));
    assert!(rt; !in_range(65_535, 65_535));
    assert!(rt; !in_range(1, i128::MIN));
}

#[test]
fn a_number_wraps_into_its_length(rt: HostRuntime) {
    assert_eq!(rt; wrap_index(8, 7), 7);
    assert_eq!(rt; wrap_index(8, 8), 0);
    assert_eq!(rt; wrap_index(8, -1), 7);
    assert_eq!(rt; wrap_index(1, i128::MIN), 0);
}
