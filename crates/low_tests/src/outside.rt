use fd_outside::*;
use fd_words::{Bytes, Memory, Numbers};
use std::alloc::Global;
use std::fs;
use std::test::Fail;

fn numbers(alloc: Global, list: &[i64]) -> Result<Numbers, Memory> {
    let mut numbers = Numbers::new(alloc);
    numbers.append(list)?;
    Ok(numbers)
}

fn bytes(alloc: Global, list: &[u8]) -> Result<Bytes, Memory> {
    let mut bytes = Bytes::new(alloc);
    bytes.append(list)?;
    Ok(bytes)
}

#[test]
fn files_are_read_whole(rt: HostRuntime) -> Result<(), Fail> {
    let rows: [(&str, u64, i64, Result<&[u8], ReadStop>); 7] = [
        ("x.csv", 5, -1, Ok(b"1\n22\n".as_slice())),
        ("x.csv", 4, -1, Err(ReadStop::TooLong)),
        ("x.csv", 9, 0, Err(ReadStop::Failed)),
        ("x.csv", 9, 1, Err(ReadStop::Failed)),
        ("x.csv", 9, 2, Ok(b"1\n22\n".as_slice())),
        ("y.csv", 0, -1, Ok(b"".as_slice())),
        ("z.csv", 9, -1, Err(ReadStop::Failed)),
    ];
    for (name, limit, failing, want) in rows {
        let failing = numbers(rt.alloc(), [failing].as_slice())?;
        let mut files = MemoryFiles::new(rt.alloc(), failing);
        files.add(rt.alloc(), "x.csv", bytes(rt.alloc(), b"first".as_slice())?)?;
        files.add(rt.alloc(), "y.csv", Bytes::new(rt.alloc()))?;
        files.add(
            rt.alloc(),
            "x.csv",
            bytes(rt.alloc(), b"1\n22\n".as_slice())?,
        )?;
        match (read_whole(rt.alloc(), &mut files, name, limit), want) {
            (Ok(whole), Ok(want)) => assert_eq!(rt; whole.as_slice(), want),
            (Err(stop), Err(want)) => assert_eq!(rt; stop, want),
            _ => assert!(rt; false, "{name} up to {limit}"),
        }
    }
    Ok(())
}

#[test]
fn pieces_are_written_whole(rt: HostRuntime) -> Result<(), Fail> {
    let rows: [(u64, u64, i64, bool, &[u8]); 6] = [
        (100, 5, -1, true, b"X = 20 30 40".as_slice()),
        (100, 5, 0, false, b"".as_slice()),
        (100, 5, 1, false, b"X = 2".as_slice()),
        (7, 5, -1, false, b"X = 20 ".as_slice()),
        (12, 1, -1, true, b"X = 20 30 40".as_slice()),
        (0, 5, -1, false, b"".as_slice()),
    ];
    for (room, per_call, failing, whole, want) in rows {
        let failing = numbers(rt.alloc(), [failing].as_slice())?;
        assert!(rt; 1 <= per_call);
        let mut sink = MemorySink::new(rt.alloc(), room, per_call, failing)?;
        let answer = write_whole(&mut sink, b"X = 20 30 40".as_slice());
        assert_eq!(rt; answer.is_ok(), whole);
        assert_eq!(rt; sink.written(), want);
    }
    Ok(())
}

#[test]
fn host_files_are_read(rt: HostRuntime) -> Result<(), Fail> {
    fs::write(&rt, "x.csv", "10\n20\n")?;
    let mut files = HostFiles::new(&rt);
    let whole = read_whole(rt.alloc(), &mut files, "x.csv", 6)?;
    assert_eq!(rt; whole.as_slice(), b"10\n20\n".as_slice());
    for (name, limit, want) in [
        ("x.csv", 5, ReadStop::TooLong),
        ("y.csv", 5, ReadStop::Failed),
    ] {
        let stop = read_whole(rt.alloc(), &mut files, name, limit).err();
        assert_eq!(rt; stop, Some(want));
    }
    Ok(())
}

#[test]
fn host_sink_takes_all(rt: HostRuntime) {
    let mut sink = HostSink::new(&rt);
    assert!(rt; write_whole(&mut sink, b"X = 20 30 40 40\n".as_slice()).is_ok());
    OpenGate.pass(0, 1);
}
