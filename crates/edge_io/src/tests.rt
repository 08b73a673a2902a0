//! Each public call once with ample memory, and the disk and a writer as they are.
use crate::{
    Cursor, DiskFiles, Failed, Files, Gate, MemFiles, MemSink, OpenGate, ReadEnd, Sink, StdSink,
    Workers,
};
use std::fs;
use std::test::Fail;

#[test]
fn reads_in_memory_fail_at_their_number_and_where_no_file_is(rt: HostRuntime) -> Result<(), Fail> {
    let alloc = rt.alloc();
    let mut files = MemFiles::new(alloc);
    files.put(alloc, "a", b"first")?;
    files.put(alloc, "a", b"one")?;
    files.put(alloc, "empty", b"")?;
    files.fail_read(alloc, 1)?;
    let wanted: [(&str, Result<&[u8], ReadEnd>); 5] = [
        ("a", Ok(b"one")),
        ("a", Err(ReadEnd::Failed)),
        ("b", Err(ReadEnd::Failed)),
        ("a", Ok(b"one")),
        ("empty", Ok(b"")),
    ];
    for (name, want) in wanted {
        match files.read(alloc, name) {
            Ok(bytes) => assert_eq!(rt; Ok(bytes.as_slice()), want, "at {name}"),
            Err(end) => assert_eq!(rt; Err(end), want, "at {name}"),
        }
    }
    Ok(())
}

#[test]
fn writes_in_memory_fail_at_their_number(rt: HostRuntime) -> Result<(), Fail> {
    let alloc = rt.alloc();
    let mut files = MemFiles::new(alloc);
    files.fail_write(alloc, 1)?;
    let wanted: [(&[u8], Result<(), Failed>, &[u8]); 3] = [
        (b"four", Ok(()), b"four"),
        (b"two", Err(Failed), b"four"),
        (b"", Ok(()), b""),
    ];
    for (bytes, want, left) in wanted {
        files.ready(alloc, "n", bytes.len())?;
        assert_eq!(rt; files.write("n", bytes), want);
        assert_eq!(rt; files.get("n"), Some(left));
    }
    assert_eq!(rt; files.get("m"), None);
    Ok(())
}

#[test]
fn a_sink_in_memory_takes_what_it_has_room_for(rt: HostRuntime) -> Result<(), Fail> {
    let alloc = rt.alloc();
    let mut sink = MemSink::new(alloc);
    sink.room(alloc, 5)?;
    sink.fail_at(alloc, 1)?;
    let wanted: [(&[u8], Result<usize, Failed>, &[u8]); 4] = [
        (b"abc", Ok(3), b"abc"),
        (b"d", Err(Failed), b"abc"),
        (b"def", Ok(2), b"abcde"),
        (b"f", Err(Failed), b"abcde"),
    ];
    for (piece, want, taken) in wanted {
        assert_eq!(rt; sink.write(piece), want);
        assert_eq!(rt; sink.bytes(), taken);
    }
    Ok(())
}

#[test]
fn a_file_of_the_disk_is_read_up_to_64_mib(rt: HostRuntime) -> Result<(), Fail> {
    let alloc = rt.alloc();
    let name = "edge_io_test_file";
    let mut files = DiskFiles::new(&rt);
    assert_eq!(rt; files.read(alloc, name).err(), Some(ReadEnd::Failed));
    files.ready(alloc, name, 5)?;
    assert_eq!(rt; files.write(name, b"longer"), Ok(()));
    assert_eq!(rt; files.write(name, b"bytes"), Ok(()));
    let bytes = files.read(alloc, name).ok();
    assert_eq!(rt;
        bytes.as_ref().map(|b| b.as_slice()),
        Some(b"bytes".as_slice())
    );
    assert_eq!(rt; files.write(name, b""), Ok(()));
    let bytes = files.read(alloc, name).ok();
    assert_eq!(rt; bytes.as_ref().map(|b| b.len()), Some(0));
    assert_eq!(rt;
        files.write("edge_io_no_folder/file", b"bytes"),
        Err(Failed)
    );
    for (len, want) in [(67_108_864, None), (67_108_865, Some(ReadEnd::TooLong))] {
        fs::create(&rt, name)?.set_len(len)?;
        assert_eq!(rt; files.read(alloc, name).err(), want, "at {len}");
    }
    fs::remove_file(&rt, name)?;
    Ok(())
}

#[test]
fn an_output_fails_where_its_writer_takes_nothing(rt: HostRuntime) -> Result<(), Fail> {
    let mut place = [0u8; 4];
    let mut sink = StdSink::new(place.as_mut_slice());
    assert_eq!(rt; sink.write(b"abc"), Ok(3));
    assert_eq!(rt; sink.write(b"def"), Ok(1));
    assert_eq!(rt; sink.write(b"ef"), Err(Failed));
    assert_eq!(rt; place, *b"abcd");
    Ok(())
}

#[test]
fn workers_are_1_to_64(rt: HostRuntime) -> Result<(), Fail> {
    for (n, want) in [(0, None), (1, Some(1)), (64, Some(64)), (65, None)] {
        assert_eq!(rt; Workers::new(n).map(|w| w.get()), want, "at {n}");
    }
    OpenGate.at(0, 0);
    Ok(())
}

#[test]
fn a_cursor_takes_fields_from_the_front(rt: HostRuntime) {
    let mut cursor = Cursor::new(&[1, 0, 0, 1, 2, 0, 0, 0, 0, 0, 0, 0, 3, 9]);
    assert_eq!(rt; cursor.take_u8(), Some(1));
    assert_eq!(rt; cursor.take_u32(), Some(258));
    assert_eq!(rt; cursor.take_u64(), Some(3));
    assert!(rt; cursor.take_bytes(2).is_none());
    assert_eq!(rt; cursor.at(), 13);
    assert!(rt; cursor.take_bytes(1) == Some([9].as_slice()));
    assert_eq!(rt; cursor.take_u8(), None);
    assert_eq!(rt; cursor.at(), 14);
}
