// Sinks in memory and of the host, and the gate that is always open.
use brace_io::{ErrSink, Failed, Gate, HostSink, MemSink, OpenGate, OutSink, Sink, write_whole};
use std::io::{self, Read};
use std::test::Fail;

// A room, the number of the call that fails, and what stands of two pieces after a failure.
const SPENT: [(u64, u64, &[u8]); 2] = [(3, 0, b"abc"), (9, 2, b"ab")];

#[test]
fn writes_until_the_room_is_spent_or_a_call_fails(rt: HostRuntime) -> Result<(), Fail> {
    for &(room, number, written) in &SPENT {
        let mut sink = MemSink::make(rt.alloc(), room, vec![in rt.alloc(); number]?)?;
        write_whole(&mut sink, b"ab")?;
        assert!(rt; write_whole(&mut sink, b"cd") == Err(Failed));
        assert_eq!(rt; sink.bytes(), written);
    }
    Ok(())
}

#[test]
fn hands_bytes_to_the_host(rt: HostRuntime) -> Result<(), Fail> {
    let (mut reader, writer) = io::pipe(&rt)?;
    let mut sink = HostSink::make(writer);
    write_whole(&mut sink, b"ab")?;
    write_whole(&mut sink, b"c\n")?;
    sink.flush()?;
    let mut bytes = [0; 4];
    reader.read_exact(&mut bytes)?;
    assert_eq!(rt; bytes.as_slice(), b"abc\n".as_slice());
    let mut out: OutSink = HostSink::make(rt.stdout());
    write_whole(&mut out, b"out\n")?;
    out.flush()?;
    let mut err: ErrSink = HostSink::make(rt.stderr());
    write_whole(&mut err, b"err\n")?;
    err.flush()?;
    OpenGate.pass(0, 0);
    Ok(())
}
