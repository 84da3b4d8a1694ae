// What streams in memory do at the calls that fail, and after them.
use crate::{MemSink, MemSource, Sink, Source, write_all};

#[test]
fn a_source_goes_on_after_a_call_that_fails(rt: HostRuntime) {
    let mut source = MemSource::new(rt.alloc(), b"abcde", &[1]).expect(&rt, "there is memory");
    let mut buffer = [0; 3];
    assert!(rt; matches!(source.read(&mut buffer), Ok(3)));
    assert!(rt; buffer == *b"abc");
    assert!(rt; source.read(&mut buffer).is_err());
    assert_eq!(rt; source.faults(), 1);
    assert!(rt; matches!(source.read(&mut buffer), Ok(2)));
    assert!(rt; buffer == *b"dec");
    assert!(rt; matches!(source.read(&mut buffer), Ok(0)));
    assert_eq!(rt; source.faults(), 1);
}

#[test]
fn a_sink_goes_on_after_a_call_that_fails(rt: HostRuntime) {
    let mut sink = MemSink::new(rt.alloc(), &[1]).expect(&rt, "there is memory");
    assert!(rt; write_all(&mut sink, b"ab").is_ok());
    assert!(rt; write_all(&mut sink, b"cd").is_err());
    assert!(rt; write_all(&mut sink, b"ef").is_ok());
    assert!(rt; sink.bytes() == b"abef".as_slice());
    assert_eq!(rt; sink.faults(), 1);
}
