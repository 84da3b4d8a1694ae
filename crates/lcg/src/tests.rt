// The numbers of the published constants, reckoned by hand.
use crate::Lcg;

#[test]
fn the_first_numbers_of_two_seeds(rt: HostRuntime) {
    let mut zero = Lcg::new(0);
    assert_eq!(rt; zero.next(), 335_903_614);
    assert_eq!(rt; zero.next(), 436_792_849);
    let mut last = Lcg::new(u64::MAX);
    assert_eq!(rt; last.next(), 3_149_104_977);
}
