//! Texts that are written, and a sink that has no room left.

use command_promise::{Status, Turned, finish, put_text};
use std::test::Fail;
use sx_io::MemSink;

#[test]
fn texts(rt: HostRuntime) -> Result<(), Fail> {
    let mut sink = MemSink::new(rt.alloc(), 10, vec![in rt.alloc()]?)?;
    assert!(rt; put_text(&mut sink, b"trace\n") == Turned::On);
    assert!(rt; finish(&mut sink, b"end\n", Status::Done) == Status::Done);
    assert!(rt; sink.written() == b"trace\nend\n".as_slice());
    assert!(rt; put_text(&mut sink, b"more\n") == Turned::Stop(Status::WriteFailed));
    assert!(rt; finish(&mut sink, b"end\n", Status::Done) == Status::WriteFailed);
    Ok(())
}
