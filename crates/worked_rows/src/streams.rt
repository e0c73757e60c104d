//! The streams of the system take what they are given.

use iv_base::{Sink, StreamSink};

#[test]
fn streams_take_pieces(rt: HostRuntime) {
    let mut output = StreamSink::output(rt.stdout());
    assert_eq!(rt; output.put(b"to standard output\n"), Ok(()));
    let mut error = StreamSink::error(rt.stderr());
    assert_eq!(rt; error.put(b"to standard error\n"), Ok(()));
}
