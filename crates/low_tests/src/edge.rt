use fd_data::DataFault;
use fd_edge::*;
use fd_outside::{MemoryFiles, MemorySink};
use fd_spell::{is_name, number};
use fd_words::{Bytes, Memory, Numbers};
use std::alloc::Global;
use std::test::Fail;

fn failing(alloc: Global, call: i64) -> Result<Numbers, Memory> {
    let mut numbers = Numbers::new(alloc);
    numbers.push(call)?;
    Ok(numbers)
}

#[test]
fn numbers_are_read_by_name(rt: HostRuntime) -> Result<(), Fail> {
    let rows: [(&str, u64, i64, Result<&[i64], FileStop>); 5] = [
        ("x.csv", 2, -1, Ok([7, -3].as_slice())),
        (
            "x.csv",
            3,
            -1,
            Err(FileStop::Fault(DataFault::Count { have: 2, want: 3 })),
        ),
        ("x.csv", 2, 0, Err(FileStop::Unread)),
        (
            "y.csv",
            1,
            -1,
            Err(FileStop::Fault(DataFault::Number { row: 1 })),
        ),
        ("z.csv", 1, -1, Err(FileStop::Unread)),
    ];
    for (name, count, call, want) in rows {
        let mut files = MemoryFiles::new(rt.alloc(), failing(rt.alloc(), call)?);
        let mut bytes = Bytes::new(rt.alloc());
        bytes.append(b"7\n-3\n".as_slice())?;
        files.add(rt.alloc(), "x.csv", bytes)?;
        let mut bytes = Bytes::new(rt.alloc());
        bytes.append(b"a\n".as_slice())?;
        files.add(rt.alloc(), "y.csv", bytes)?;
        match (read_numbers(rt.alloc(), &mut files, name, count), want) {
            (Ok(numbers), Ok(want)) => assert_eq!(rt; numbers.as_slice(), want),
            (Err(stop), Err(want)) => assert_eq!(rt; stop, want),
            _ => assert!(rt; false, "{name}"),
        }
    }
    Ok(())
}

#[test]
fn lines_end_a_program(rt: HostRuntime) -> Result<(), Fail> {
    let mut out = MemorySink::new(rt.alloc(), 999, 5, failing(rt.alloc(), -1)?)?;
    let fault = fault_line(rt.alloc(), b"X".as_slice(), DataFault::Range { row: 12 });
    assert_eq!(rt; end_stop(&mut out, Stop::of(66, fault)), 66);
    let record = record_line(
        rt.alloc(),
        b"b.csv".as_slice(),
        2,
        b"no such bin".as_slice(),
    )?;
    assert_eq!(rt; end(&mut out, 66, record.as_slice()), 66);
    assert_eq!(rt; end_unread(rt.alloc(), "v.csv", &mut out), 69);
    assert_eq!(rt; end_stop(&mut out, Stop::Memory), 70);
    let want =
        b"data X: record 12: out of range\ndata b.csv: record 2: no such bin\ncannot read v.csv\n";
    assert_eq!(rt; out.written(), want.as_slice());
    let mut full = MemorySink::new(rt.alloc(), 4, 5, failing(rt.alloc(), -1)?)?;
    assert_eq!(rt; end(&mut full, 0, b"X = 20\n".as_slice()), 74);
    assert_eq!(rt; full.written(), b"X = ".as_slice());
    Ok(())
}

#[test]
fn words_spell(rt: HostRuntime) -> Result<(), Fail> {
    for (text, want) in [
        ("16", Some(16)),
        ("1", Some(1)),
        ("0", None),
        ("17", None),
        ("01", None),
        ("+1", None),
        ("", None),
        ("99999999999", None),
    ] {
        assert_eq!(rt; number(1, 16, text), want);
    }
    assert_eq!(rt; number(0, 9, "0"), Some(0));
    for (word, want) in [("x.csv", true), ("", false), ("-x", false), ("x-", true)] {
        assert_eq!(rt; is_name(word), want);
    }
    for (stop, want) in [(WordsStop::NoText, 2), (WordsStop::Memory, 70)] {
        assert_eq!(rt; stop.status(), want);
    }
    Ok(())
}
