//! Calls with ample memory, and failures in mid-stream.

use super::*;
use std::alloc::Global;
use std::test::Fail;

const TEXT: &[u8] = b"NAME\nROWS\n";

fn word(alloc: Global, text: &str) -> Result<Word, Fail> {
    Ok(Word::from_string(String::from_str(alloc, text)?))
}

#[test]
fn words_are_compared_by_their_bytes(rt: HostRuntime) -> Result<(), Fail> {
    let name = word(rt.alloc(), "diet.mps")?;
    assert!(rt; name.is(b"diet.mps"));
    assert!(rt; !name.is(b"diet.lp"));
    assert_eq!(rt; name.copy(rt.alloc())?.as_slice(), b"diet.mps".as_slice());
    assert_eq!(rt; name.as_str(), "diet.mps");
    assert_eq!(rt; name.into_string().as_str(), "diet.mps");
    Ok(())
}

#[test]
fn a_file_is_read_a_byte_at_a_time(rt: HostRuntime) -> Result<(), Fail> {
    let mut shelf = MemoryShelf::new(rt.alloc(), 1, &[])?;
    shelf.add(rt.alloc(), word(rt.alloc(), "diet")?, b"older")?;
    shelf.add(rt.alloc(), word(rt.alloc(), "other")?, b"other")?;
    shelf.add(rt.alloc(), word(rt.alloc(), "diet")?, TEXT)?;
    let bytes = read_whole(rt.alloc(), &mut shelf, word(rt.alloc(), "diet")?, 100)?;
    assert_eq!(rt; bytes.as_slice(), TEXT);
    Ok(())
}

#[test]
fn a_failed_take_is_no_end_of_the_file(rt: HostRuntime) -> Result<(), Fail> {
    let mut shelf = MemoryShelf::new(rt.alloc(), 4, &[2])?;
    shelf.add(rt.alloc(), word(rt.alloc(), "diet")?, TEXT)?;
    let read = read_whole(rt.alloc(), &mut shelf, word(rt.alloc(), "diet")?, 100);
    assert!(rt; matches!(read, Err(ReadStop::Failed)));
    Ok(())
}

#[test]
fn a_missing_name_is_a_fault(rt: HostRuntime) -> Result<(), Fail> {
    let mut shelf = MemoryShelf::new(rt.alloc(), 4, &[])?;
    shelf.add(rt.alloc(), word(rt.alloc(), "diet")?, TEXT)?;
    let read = read_whole(rt.alloc(), &mut shelf, word(rt.alloc(), "die")?, 100);
    assert!(rt; matches!(read, Err(ReadStop::Failed)));
    Ok(())
}

#[test]
fn a_file_may_have_as_many_bytes_as_allowed(rt: HostRuntime) -> Result<(), Fail> {
    for (most, is_read) in [(10, true), (9, false), (0, false)] {
        let mut shelf = MemoryShelf::new(rt.alloc(), 4, &[])?;
        shelf.add(rt.alloc(), word(rt.alloc(), "diet")?, TEXT)?;
        let read = read_whole(rt.alloc(), &mut shelf, word(rt.alloc(), "diet")?, most);
        assert_eq!(rt; read.is_ok(), is_read, "at {most}");
        assert_eq!(rt;
            matches!(read, Err(ReadStop::TooLong)),
            !is_read,
            "at {most}"
        );
    }
    Ok(())
}

#[test]
fn a_sink_keeps_what_it_took_before_it_failed(rt: HostRuntime) -> Result<(), Fail> {
    for (room, failing, written) in [
        (20, 0, b"NAME\nROWS\n".as_slice()),
        (20, 3, b"NAME\nROW".as_slice()),
        (10, 0, b"NAME\nROWS\n".as_slice()),
        (9, 0, b"NAME\nROWS".as_slice()),
        (0, 0, b"".as_slice()),
    ] {
        let mut sink = MemorySink::new(rt.alloc(), room, 4, &[failing])?;
        let result = write_whole(&mut sink, TEXT);
        assert_eq!(rt; sink.bytes(), written, "room {room}, failing {failing}");
        assert_eq!(rt;
            result.is_ok(),
            written == TEXT,
            "room {room}, failing {failing}"
        );
    }
    Ok(())
}

#[test]
fn lines_end_at_line_feeds(rt: HostRuntime) -> Result<(), Fail> {
    let mut joined = Vec::new(rt.alloc());
    for (text, want) in [
        (b"".as_slice(), b"".as_slice()),
        (b"\n".as_slice(), b"[]".as_slice()),
        (b"a\r\n\nb\n".as_slice(), b"[a][][b]".as_slice()),
        (b"a\nb".as_slice(), b"[a][b]".as_slice()),
        (b"a\nb\r".as_slice(), b"[a][b\r]".as_slice()),
        (b"a\r\r\nb\rc\r\n".as_slice(), b"[a\r][b\rc]".as_slice()),
        (b"\r\n\r".as_slice(), b"[][\r]".as_slice()),
    ] {
        assert!(rt; text.len() < 100);
        joined.clear();
        for line in lines(rt.alloc(), text)?.iter() {
            joined.push(b'[')?;
            joined.extend_from_slice(line.of(text))?;
            joined.push(b']')?;
        }
        assert_eq!(rt; joined.as_slice(), want);
    }
    Ok(())
}

#[test]
fn a_missing_file_and_a_folder_are_faults(rt: HostRuntime) -> Result<(), Fail> {
    for path in ["/no/such/file", "/"] {
        let mut shelf = RealShelf::new(&rt);
        let read = read_whole(rt.alloc(), &mut shelf, word(rt.alloc(), path)?, 100);
        assert!(rt; matches!(read, Err(ReadStop::Failed)), "at {path}");
    }
    Ok(())
}

#[test]
fn an_output_that_takes_nothing_fails(rt: HostRuntime) -> Result<(), Fail> {
    let mut room = [0u8; 4];
    let mut sink = RealSink::new(room.as_mut_slice());
    assert!(rt; write_whole(&mut sink, TEXT).is_err());
    Ok(())
}
