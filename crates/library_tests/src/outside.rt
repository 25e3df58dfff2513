// Files and streams, in memory and of the system.

use std::fs;
use std::test::Fail;
use vale_outside::{
    FetchFault, FileStore, MemSink, MemStore, NoFaultSink, NoFaultStore, PutFault, Sink, Store,
    StreamSink,
};

#[test]
fn fetches_the_newer_file_of_a_name(rt: HostRuntime) -> Result<(), Fail> {
    let alloc = rt.alloc();
    let mut store = MemStore::new(alloc);
    for text in ["old", "new"] {
        let bytes = Vec::from_slice(alloc, text.as_bytes())?;
        store.hold(String::from_str(alloc, "a.vale")?, bytes)?;
    }
    store.fail_at(2)?;
    let mut bytes = Vec::new(alloc);
    assert_eq!(rt; store.fetch("a.vale", 3, &mut bytes), Ok(()));
    assert_eq!(rt; bytes.as_slice(), b"new".as_slice());
    let mut nothing = Vec::new(alloc);
    assert_eq!(rt;
        store.fetch("a.vale", 3, &mut nothing),
        Err(FetchFault::Failed)
    );
    let mut missing = Vec::new(alloc);
    assert_eq!(rt;
        store.fetch("b.vale", 3, &mut missing),
        Err(FetchFault::Failed)
    );
    Ok(())
}

#[test]
fn takes_half_of_a_failing_put(rt: HostRuntime) -> Result<(), Fail> {
    let mut sink = MemSink::new(rt.alloc());
    sink.fail_at(2)?;
    assert_eq!(rt; sink.put(b"one "), Ok(()));
    assert_eq!(rt; sink.put(b"three"), Err(PutFault::Failed));
    assert_eq!(rt; sink.put(b" four"), Ok(()));
    assert_eq!(rt; sink.bytes(), b"one th four".as_slice());
    Ok(())
}

#[test]
fn fetches_what_is_held(rt: HostRuntime) -> Result<(), Fail> {
    let alloc = rt.alloc();
    let mut store = NoFaultStore::new(alloc);
    store.hold(
        String::from_str(alloc, "a.cert")?,
        Vec::from_slice(alloc, b"[]")?,
    )?;
    let mut bytes = Vec::new(alloc);
    assert_eq!(rt; store.fetch("a.cert", 2, &mut bytes), Ok(()));
    assert_eq!(rt; bytes.as_slice(), b"[]".as_slice());
    assert_eq!(rt; NoFaultSink.put(b"ret"), Ok(()));
    Ok(())
}

#[test]
fn files_of_the_system_hold_what_streams_were_given(rt: HostRuntime) -> Result<(), Fail> {
    let name = "/tmp/vale_files_of_the_system_hold_what_streams_were_given";
    let mut sink = StreamSink::new(fs::create(&rt, name)?);
    let first = sink.put(b"Add64(rax");
    let second = sink.put(b", 1);\n");
    let mut store = FileStore::new(&rt);
    let mut whole = Vec::new(rt.alloc());
    let fetched = store.fetch(name, 15, &mut whole);
    let mut front = Vec::new(rt.alloc());
    let too_long = store.fetch(name, 14, &mut front);
    fs::remove_file(&rt, name)?;
    let mut gone = Vec::new(rt.alloc());
    let failed = store.fetch(name, 15, &mut gone);
    assert_eq!(rt; (first, second), (Ok(()), Ok(())));
    assert_eq!(rt; fetched, Ok(()));
    assert_eq!(rt; whole.as_slice(), b"Add64(rax, 1);\n".as_slice());
    assert_eq!(rt; too_long, Err(FetchFault::TooLong));
    assert_eq!(rt; front.as_slice(), b"Add64(rax, 1);".as_slice());
    assert_eq!(rt; failed, Err(FetchFault::Failed));
    Ok(())
}
