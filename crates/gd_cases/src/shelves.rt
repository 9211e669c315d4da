// What no clause says of shelves and sinks: that calls succeed, what real files do, and faults in mid-stream.
use crate::slow_files::SlowFiles;
use gd_base::{Memory, Name2};
use gd_world::{
    FileShelf, LoadFault, MemShelf, MemSink, PutFault, Shelf, Sink, StdSink, StoreFault, SureShelf,
};
use std::alloc::Global;
use std::cell::Cell;
use std::fmt::Display;
use std::io::ErrorKind;
use std::test::Fail;
use std::{fs, io};

// What a name holds.
fn loaded<S: Shelf>(alloc: Global, shelf: &mut S, name: &str) -> Result<Vec<u8>, LoadFault> {
    let mut into = Vec::new(alloc);
    shelf.load(alloc, name, &mut into)?;
    Ok(into)
}

// A file with its name.
fn file(alloc: Global, name: &str, text: &str) -> Result<(Name2, Vec<u8>), Memory> {
    let name = Name2::of(alloc, name)?;
    Ok((name, Vec::from_slice(alloc, text.as_bytes())?))
}

// Older bytes under `a`, with one call due to fail, which then leaves so many bytes.
fn shelf_due(alloc: Global, due: u64, prefix: u64) -> Result<MemShelf, Memory> {
    let mut shelf = MemShelf::new(alloc);
    let (name, bytes) = file(alloc, "a", "older")?;
    shelf.add(name, bytes)?;
    shelf.fail.push(due)?;
    shelf.prefix = prefix;
    Ok(shelf)
}

// Which of four calls fail: a load, a store of five bytes, a load of a name that isn't there, and a store under it.
fn failures(alloc: Global, shelf: &mut MemShelf) -> (bool, bool, bool, bool) {
    let load = loaded(alloc, shelf, "a").is_err();
    let store = shelf.store(alloc, "a", b"fresh").is_err();
    let missing = loaded(alloc, shelf, "b").is_err();
    let last = shelf.store(alloc, "b", b"other").is_err();
    (load, store, missing, last)
}

#[test]
fn calls_in_memory_fail_in_turn(rt: HostRuntime) -> Result<(), Fail> {
    let alloc = rt.alloc();
    let cases = [
        (0, 0, "fresh", 1, false),
        (1, 3, "fresh", 2, false),
        (2, 0, "", 2, false),
        (2, 3, "fre", 2, false),
        (2, 1000, "fresh", 2, false),
        (3, 3, "fresh", 1, false),
        (4, 3, "fresh", 2, true),
    ];
    for (due, prefix, want, faults, storing) in cases {
        let mut shelf = shelf_due(alloc, due, prefix)?;
        let failed = failures(alloc, &mut shelf);
        assert_eq!(rt; failed, (due == 1, due == 2, true, due == 4), "due {due}");
        let noted = (shelf.faults, shelf.storing, shelf.failed.as_slice());
        assert_eq!(rt; noted, (faults, storing, b"b".as_slice()), "due {due}");
        let left = loaded(alloc, &mut shelf, "a")?;
        assert_eq!(rt;
            left.as_slice(),
            want.as_bytes(),
            "due {due}, {prefix} bytes"
        );
    }
    Ok(())
}

#[test]
fn sure_names_hold_an_entry_or_the_default(rt: HostRuntime) -> Result<(), Fail> {
    let alloc = rt.alloc();
    let mut files = Vec::new(alloc);
    files.push(file(alloc, "a", "first")?)?;
    files.push(file(alloc, "a", "second")?)?;
    let mut shelf = SureShelf::with(files, Vec::from_slice(alloc, b"default")?);
    shelf.store(alloc, "c", b"stored")?;
    for (name, want) in [("a", "first"), ("b", "default"), ("c", "stored")] {
        let held = loaded(alloc, &mut shelf, name)?;
        assert_eq!(rt; held.as_slice(), want.as_bytes(), "{name}");
    }
    Ok(())
}

#[test]
fn puts_in_memory_fail_in_turn(rt: HostRuntime) -> Result<(), Fail> {
    let alloc = rt.alloc();
    let mut sink = MemSink::new(alloc);
    sink.fail.push(2)?;
    sink.put(alloc, b"one,")?;
    assert_eq!(rt; sink.put(alloc, b"three"), Err(PutFault::Failed));
    sink.put(alloc, b",two")?;
    assert_eq!(rt; sink.bytes.as_slice(), b"one,th,two".as_slice());
    assert_eq!(rt; sink.faults, 1);
    Ok(())
}

const NAME: &str = "gd_cases_test_file";

#[test]
fn real_files(rt: HostRuntime) -> Result<(), Fail> {
    let alloc = rt.alloc();
    let mut shelf = FileShelf::new(&rt, alloc);
    shelf.store(alloc, NAME, b"a longer text")?;
    shelf.store(alloc, NAME, b"a text")?;
    let held = loaded(alloc, &mut shelf, NAME)?;
    assert_eq!(rt; held.as_slice(), b"a text".as_slice());
    fs::remove_file(&rt, NAME)?;
    Ok(())
}

#[test]
fn names_of_no_file(rt: HostRuntime) -> Result<(), Fail> {
    let alloc = rt.alloc();
    let mut shelf = FileShelf::new(&rt, alloc);
    for name in ["", ".", "no such file", "a zero \0 byte"] {
        let fault = loaded(alloc, &mut shelf, name).err();
        assert_eq!(rt; fault, Some(LoadFault::Failed), "{name}");
    }
    for name in ["", ".", "no such folder/file", "a zero \0 byte"] {
        let store = shelf.store(alloc, name, b"a text");
        assert_eq!(rt; store, Err(StoreFault::Failed), "{name}");
    }
    Ok(())
}

const LONG_NAME: &str = "gd_cases_long_test_file";

#[test]
fn long_files(rt: HostRuntime) -> Result<(), Fail> {
    let alloc = rt.alloc();
    let mut shelf = FileShelf::new(&rt, alloc);
    let file = fs::create(&rt, LONG_NAME)?;
    file.set_len(134_217_728)?;
    assert_eq!(rt; loaded(alloc, &mut shelf, LONG_NAME)?.len(), 134_217_728);
    file.set_len(134_217_729)?;
    let fault = loaded(alloc, &mut shelf, LONG_NAME).err();
    assert_eq!(rt; fault, Some(LoadFault::TooLong));
    fs::remove_file(&rt, LONG_NAME)?;
    Ok(())
}

#[test]
fn a_read_fails_in_mid_stream(rt: HostRuntime) -> Result<(), Fail> {
    let failed = Some(LoadFault::Failed);
    for (fault, want) in [(0, None), (4, failed), (7, failed)] {
        let files = SlowFiles { fault, length: 3 };
        let mut shelf = FileShelf::new(&files, rt.alloc());
        let got = loaded(rt.alloc(), &mut shelf, "a").err();
        assert_eq!(rt; got, want, "fault {fault}");
    }
    Ok(())
}

// An output that takes two bytes a write, after an interruption, until it is full.
#[derive(Drop)]
struct Narrow {
    writes: Cell<usize>,
    room: Cell<usize>,
}

impl Print for Narrow {
    fn print<D: Display + Drop>(&self, _value: D) -> io::Result<()> {
        Err(io::Error::from(ErrorKind::Unsupported))
    }

    fn println<D: Display + Drop>(&self, _value: D) -> io::Result<()> {
        Err(io::Error::from(ErrorKind::Unsupported))
    }

    fn write_all(&self, _bytes: &[u8]) -> io::Result<()> {
        Err(io::Error::from(ErrorKind::Unsupported))
    }

    fn write_some(&self, bytes: &[u8]) -> io::Result<usize> {
        self.writes.set(self.writes.get().saturating_add(1));
        if self.writes.get() % 2 == 1 {
            return Err(io::Error::from(ErrorKind::Interrupted));
        }
        let room = self.room.get();
        let count = bytes.len().min(2).min(room);
        self.room.set(room - count);
        Ok(count)
    }
}

#[test]
fn an_output_that_gets_full(rt: HostRuntime) -> Result<(), Fail> {
    let alloc = rt.alloc();
    let narrow = Narrow {
        writes: Cell::new(0),
        room: Cell::new(7),
    };
    let mut sink = StdSink::new(&narrow);
    assert_eq!(rt; sink.put(alloc, b""), Ok(()));
    assert_eq!(rt; sink.put(alloc, b"seven"), Ok(()));
    assert_eq!(rt; narrow.room.get(), 2);
    assert_eq!(rt; sink.put(alloc, b"three"), Err(PutFault::Failed));
    assert_eq!(rt; narrow.room.get(), 0);
    Ok(())
}
