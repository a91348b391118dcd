use fd_words::*;
use std::test::Fail;

#[test]
fn values_wrap(rt: HostRuntime) {
    assert_eq!(rt; plus(i64::MAX, 1), i64::MIN);
    assert_eq!(rt; minus(i64::MIN, 1), i64::MAX);
    assert_eq!(rt; times(i64::MAX, 2), -2);
    assert_eq!(rt; negated(i64::MIN), i64::MIN);
    assert_eq!(rt; remainder(-1, 4), 3);
    assert_eq!(rt; remainder(7, 4), 3);
    assert_eq!(rt; remainder(0, 4), 0);
    assert_eq!(rt; remainder(2, 4), 2);
    assert_eq!(rt; remainder(i64::MIN, 3), 1);
}

#[test]
fn combining(rt: HostRuntime) {
    assert_eq!(rt; Combine::Add.apply(i64::MAX, 1), i64::MIN);
    assert_eq!(rt; Combine::Min.apply(5, -9), -9);
    assert_eq!(rt; Combine::Max.apply(5, -9), 5);
    assert_eq!(rt; Combine::Min.unit(), 9223372036854775807);
    combining_laws(Combine::Add);
}
