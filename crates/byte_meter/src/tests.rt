// What a meter shows.
use crate::Meter;

#[test]
fn a_count_is_shown_at_each_mebibyte_and_taken_off_at_the_end(rt: HostRuntime) {
    let mut meter = Meter::new(Some(Vec::new(rt.alloc())));
    meter.pass((1 << 20) - 1);
    meter.pass(1);
    meter.pass(5);
    meter.pass(2 << 20);
    meter.clear();
    let shown = meter.screen.expect(&rt, "it has a screen");
    assert!(&rt; shown.as_slice() == b"1 MiB\r3 MiB\r            \r".as_slice());
}
