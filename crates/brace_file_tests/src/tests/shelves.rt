// Whole reads, writes and saves over shelves in memory and of the host, and their failures.
use brace_io::{DirShelf, Failed, MemShelf, Shelf, WholeFault, read_whole, save_whole};
use std::alloc::Global;
use std::fs::{exists, remove_file, write};
use std::rt::Files;
use std::test::Fail;

// A limit, the number of the call that fails, what is read of five bytes, and why not the whole.
const WHOLE: [(u64, u64, &[u8], Option<WholeFault>); 6] = [
    (5, 0, b"abcde", None),
    (4, 0, b"", Some(WholeFault::TooLong)),
    (5, 1, b"", Some(WholeFault::Failed)),
    (5, 2, b"", Some(WholeFault::Failed)),
    (5, 3, b"", Some(WholeFault::Failed)),
    (5, 4, b"abcde", None),
];

fn found(alloc: Global, limit: u64, number: u64) -> Result<(Vec<u8>, Option<WholeFault>), Fail> {
    let mut shelf = MemShelf::make(alloc, vec![in alloc; number]?);
    shelf.hold("s", b"abcde")?;
    match read_whole(alloc, &mut shelf, "s", limit) {
        Ok(bytes) => Ok((bytes, None)),
        Err(fault) => Ok((Vec::new(alloc), Some(fault))),
    }
}

#[test]
fn reads_a_file_whole_or_says_why(rt: HostRuntime) -> Result<(), Fail> {
    for &(limit, number, bytes, fault) in &WHOLE {
        let (read, why) = found(rt.alloc(), limit, number)?;
        assert!(rt;
            read.as_slice() == bytes && why == fault,
            "limit {limit}, call {number}"
        );
    }
    Ok(())
}

#[test]
fn saves_where_room_is_prepared(rt: HostRuntime) -> Result<(), Fail> {
    let mut shelf = MemShelf::make(rt.alloc(), Vec::new(rt.alloc()));
    assert!(rt; save_whole(&mut shelf, "n", b"abc") == Err(Failed));
    assert!(rt; shelf.file("n").is_none());
    shelf.prepare("n", 3)?;
    save_whole(&mut shelf, "n", b"abc")?;
    assert!(rt; shelf.file("n") == Some(b"abc".as_slice()));
    Ok(())
}

// A host file of at most three bytes.
fn host_file<R: Files>(rt: &R, alloc: Global, name: &str) -> Result<Vec<u8>, WholeFault> {
    let mut shelf = DirShelf::make(alloc, rt);
    read_whole(alloc, &mut shelf, name, 3)
}

#[test]
fn keeps_a_host_file_until_the_new_one_is_whole(rt: HostRuntime) -> Result<(), Fail> {
    let mut shelf = DirShelf::make(rt.alloc(), &rt);
    save_whole(&mut shelf, "brace_io_kept", b"old")?;
    shelf.create("brace_io_kept")?;
    assert_eq!(rt; shelf.append(b"new")?, 3);
    let old = host_file(&rt, rt.alloc(), "brace_io_kept")?;
    shelf.finish()?;
    let new = host_file(&rt, rt.alloc(), "brace_io_kept")?;
    assert_eq!(rt;
        (old.as_slice(), new.as_slice()),
        (b"old".as_slice(), b"new".as_slice())
    );
    remove_file(&rt, "brace_io_kept")?;
    let absent = host_file(&rt, rt.alloc(), "brace_io_kept");
    assert!(rt; absent == Err(WholeFault::Absent));
    Ok(())
}

const OTHERS: [&str; 3] = ["brace_io_saved.part", ".brace-part-0", ".brace-part-1"];

#[test]
fn changes_no_other_host_file(rt: HostRuntime) -> Result<(), Fail> {
    for &other in &OTHERS {
        write(&rt, other, b"old".as_slice())?;
    }
    let mut shelf = DirShelf::make(rt.alloc(), &rt);
    save_whole(&mut shelf, "brace_io_saved", b"new")?;
    assert!(rt; save_whole(&mut shelf, "brace_io_saved/n", b"new") == Err(Failed));
    assert!(rt; !exists(&rt, ".brace-part-2")?);
    remove_file(&rt, "brace_io_saved")?;
    for &other in &OTHERS {
        let old = host_file(&rt, rt.alloc(), other)?;
        assert_eq!(rt; old.as_slice(), b"old".as_slice(), "{other}");
        remove_file(&rt, other)?;
    }
    Ok(())
}
