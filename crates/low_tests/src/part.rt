use chaos_part::*;
use fd_words::Place;

#[test]
fn ranges_in_blocks(rt: HostRuntime) {
    assert_eq!(rt; provisional_home(1, 12, 4, 4), 1);
    assert_eq!(rt; provisional_home(1, 3, 2, 2), 0);
    assert_eq!(rt; provisional_home(1, 3, 2, 3), 1);
    assert_eq!(rt; provisional_home(-2, 4, 3, 0), 0);
    assert_eq!(rt; provisional_home(-2, 4, 3, 4), 2);
    assert_eq!(rt; provisional_home(5, 5, 16, 5), 0);
    assert_eq!(rt; provisional_home(i64::MIN, i64::MAX, 1, i64::MAX), 0);
    assert_eq!(rt; provisional_home(i64::MIN, i64::MAX, 16, -1), 7);
    assert_eq!(rt; provisional_home(i64::MIN, i64::MAX, 16, i64::MAX), 15);
}

#[test]
fn homes_by_rule(rt: HostRuntime) {
    let target = Place { owner: 3, local: 1 };
    assert_eq!(rt; home_by_owner(target), 3);
    assert_eq!(rt; home_by_most([2].as_slice(), 4), 2);
    assert_eq!(rt; home_by_most([3, 1, 1, 3].as_slice(), 4), 1);
    assert_eq!(rt; home_by_most([0, 3, 3].as_slice(), 4), 3);
    assert_eq!(rt; home_by_most([15, 0, 15].as_slice(), 16), 15);
}
