//! What no clause says: a line as a reader sees it.

use crate::report_decode;
use trapeze_io::MemSink;
use wasm_decode::DecodeError;

#[test]
fn bytes_of_no_function_have_their_line(rt: HostRuntime) {
    let mut err = MemSink::new(rt.alloc());
    report_decode(&mut err, DecodeError::Malformed(82));
    assert!(rt; err.written() == b"module: malformed 82\n".as_slice());
}
