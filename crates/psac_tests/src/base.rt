ghost use Rattle.std.specs.Prelude.{◌<◌};

use psac_base::{
    LineFault, Lines, MemShelf, MemSink, MemSource, NoMemory, Shelf, ShelfFault, Sink, SinkFailed,
    push_int, read_int, write_whole,
};
use std::alloc::Global;

// Whether the next line is this one.
fn is_next(lines: &mut Lines, source: &mut MemSource, line: &mut Vec<u8>, text: &[u8]) -> bool {
    lines.live() && matches!(lines.next_line(source, line), Ok(true)) && line.as_slice() == text
}

// Whether no line is left.
fn ends(lines: &mut Lines, source: &mut MemSource, line: &mut Vec<u8>) -> bool {
    lines.live() && matches!(lines.next_line(source, line), Ok(false)) && !lines.live()
}

// Whether the next line can't be read.
fn fails(lines: &mut Lines, source: &mut MemSource, line: &mut Vec<u8>) -> bool {
    let failed = lines.live() && matches!(lines.next_line(source, line), Err(LineFault::Failed));
    failed && !lines.live()
}

// Whether a text that comes in such pieces is split at its line feeds.
fn are_split(alloc: Global, piece: usize) -> bool
    requires { 0 < piece }
{
    let Ok(text) = b"a\r\n\nbc\r\r\nd\r".to_vec(alloc) else {
        return false;
    };
    let Ok(mut lines) = Lines::new(alloc) else {
        return false;
    };
    let mut source = MemSource::new(text, piece, Vec::new(alloc));
    let mut line = Vec::new(alloc);
    is_next(&mut lines, &mut source, &mut line, b"a")
        && is_next(&mut lines, &mut source, &mut line, b"")
        && is_next(&mut lines, &mut source, &mut line, b"bc\r")
        && is_next(&mut lines, &mut source, &mut line, b"d\r")
        && ends(&mut lines, &mut source, &mut line)
}

// Whether a text without bytes has no line.
fn is_empty(alloc: Global) -> bool {
    let Ok(mut lines) = Lines::new(alloc) else {
        return false;
    };
    let mut source = MemSource::new(Vec::new(alloc), 1, Vec::new(alloc));
    ends(&mut lines, &mut source, &mut Vec::new(alloc))
}

// Whether the first line of a text is given, and the next one not, where its second piece fails.
fn fails_behind_a_line(alloc: Global, piece: usize) -> bool
    requires { 0 < piece }
{
    let Ok(text) = b"a\nb\nc".to_vec(alloc) else {
        return false;
    };
    let Ok(second) = [2].to_vec(alloc) else {
        return false;
    };
    let Ok(mut lines) = Lines::new(alloc) else {
        return false;
    };
    let mut source = MemSource::new(text, piece, second);
    let mut line = Vec::new(alloc);
    is_next(&mut lines, &mut source, &mut line, b"a") && fails(&mut lines, &mut source, &mut line)
}

#[test]
fn lines_in_pieces(rt: HostRuntime) {
    let alloc = rt.alloc();
    assert!(rt; is_empty(alloc));
    assert!(rt; are_split(alloc, 1));
    assert!(rt; are_split(alloc, 2));
    assert!(rt; are_split(alloc, 3));
    assert!(rt; are_split(alloc, 4));
    assert!(rt; are_split(alloc, 5));
    assert!(rt; fails_behind_a_line(alloc, 2));
    assert!(rt; fails_behind_a_line(alloc, 3));
}

// Whether a text is a number, and printed as it was read.
fn is_number(alloc: Global, text: &str) -> bool {
    let Some(value) = read_int(text.as_bytes()) else {
        return false;
    };
    let mut printed = Vec::new(alloc);
    push_int(&mut printed, value).is_ok() && printed.as_slice() == text.as_bytes()
}

fn is_refused(text: &str) -> bool {
    read_int(text.as_bytes()).is_none()
}

#[test]
fn numbers(rt: HostRuntime) {
    let alloc = rt.alloc();
    assert!(rt; is_number(alloc, "0"));
    assert!(rt; is_number(alloc, "-1"));
    assert!(rt; is_number(alloc, "9223372036854775807"));
    assert!(rt; is_number(alloc, "-9223372036854775808"));
}

#[test]
fn no_numbers(rt: HostRuntime) {
    assert!(rt; is_refused("9223372036854775808"));
    assert!(rt; is_refused("-9223372036854775809"));
    assert!(rt; is_refused("99999999999999999999999999999999999999999999"));
    assert!(rt; is_refused("007"));
    assert!(rt; is_refused("-0"));
    assert!(rt; is_refused("-"));
    assert!(rt; is_refused("+5"));
    assert!(rt; is_refused("1.5"));
    assert!(rt; is_refused(" 5"));
    assert!(rt; is_refused(""));
}

// Whether a sink with such room, whose write of that number fails, answers so to a text of seven bytes, and holds so much of it.
fn takes(
    alloc: Global,
    room: usize,
    fails: u64,
    answer: Result<(), SinkFailed>,
    held: Option<&[u8]>,
) -> bool {
    let Ok(fails) = [fails].to_vec(alloc) else {
        return false;
    };
    let Ok(mut sink) = MemSink::new(alloc, room, 3, fails) else {
        return false;
    };
    write_whole(&mut sink, b"abcdefg") == answer && sink.bytes() == held
}

#[test]
fn text_in_pieces(rt: HostRuntime) {
    let alloc = rt.alloc();
    assert!(rt; takes(alloc, 7, 0, Ok(()), Some(b"abcdefg")));
    assert!(rt; takes(alloc, 7, 1, Err(SinkFailed), Some(b"")));
    assert!(rt; takes(alloc, 7, 3, Err(SinkFailed), Some(b"abcdef")));
    assert!(rt; takes(alloc, 6, 0, Ok(()), None));
}

fn file(alloc: Global, name: &str, text: &[u8]) -> Result<(String, Vec<u8>), NoMemory> {
    Ok((String::from_str(alloc, name)?, text.to_vec(alloc)?))
}

// The files `a` and `b`, whose fourth load fails.
fn shelf(alloc: Global) -> Option<MemShelf> {
    let a = file(alloc, "a", b"one").ok()?;
    let b = file(alloc, "b", b"three").ok()?;
    let files = vec![in alloc; a, b].ok()?;
    let fourth = [4].to_vec(alloc).ok()?;
    if MemShelf::names_differ(&files) {
        Some(MemShelf::new(files, fourth))
    } else {
        None
    }
}

fn gives(shelf: &mut MemShelf, alloc: Global, name: &str, most: u64, text: &[u8]) -> bool {
    match shelf.load(alloc, name, most) {
        Ok(bytes) => bytes.as_slice() == text,
        Err(_) => false,
    }
}

fn refuses(shelf: &mut MemShelf, alloc: Global, name: &str, most: u64, fault: ShelfFault) -> bool {
    match shelf.load(alloc, name, most) {
        Ok(_) => false,
        Err(told) => told == fault,
    }
}

fn are_loaded(alloc: Global) -> bool {
    let Some(mut shelf) = shelf(alloc) else {
        return false;
    };
    gives(&mut shelf, alloc, "b", 5, b"three")
        && refuses(&mut shelf, alloc, "b", 4, ShelfFault::TooLarge)
        && refuses(&mut shelf, alloc, "c", 5, ShelfFault::Failed)
        && refuses(&mut shelf, alloc, "a", 5, ShelfFault::Failed)
        && gives(&mut shelf, alloc, "a", 3, b"one")
}

#[test]
fn files_in_memory(rt: HostRuntime) {
    assert!(rt; are_loaded(rt.alloc()));
}
