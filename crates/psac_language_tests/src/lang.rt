use crate::programs as worked;
use psac_lang::*;
use std::alloc::{AllocError, Global};
use std::test::Fail;

type Parts<'a> = &'a [(&'a [u8], usize)];

fn repeated(alloc: Global, parts: Parts<'_>) -> Result<Vec<u8>, AllocError> {
    let mut text = Vec::new(alloc);
    for part in parts {
        for _ in 0..part.1 {
            text.extend_from_slice(part.0)?;
        }
    }
    Ok(text)
}

/// Why the text of these parts is no program.
fn fault(alloc: Global, parts: Parts<'_>) -> Result<Option<ParseFault>, AllocError> {
    let text = repeated(alloc, parts)?;
    Ok(parse(alloc, &text).err())
}

/// Whether the text is a program so many times over, and exceeds this limit with one more.
fn has_edge(
    alloc: Global,
    before: &[u8],
    part: &[u8],
    behind: &[u8],
    most: usize,
    past: ParseFault,
) -> Result<bool, AllocError> {
    let more = most.saturating_add(1);
    let at_most = fault(alloc, &[(before, 1), (part, most), (behind, 1)])?;
    let one_more = fault(alloc, &[(before, 1), (part, more), (behind, 1)])?;
    Ok(at_most == None && one_more == Some(past))
}

fn limit(which: u8, line: u32) -> ParseFault {
    ParseFault::Limit { which, line }
}

#[test]
fn edges(rt: HostRuntime) -> Result<(), Fail> {
    let edges: [(&[u8], &[u8], &[u8], usize, ParseFault); 12] = [
        (b"func main(;) {}", b" ", b"", 65_521, limit(1, 1)),
        (b"", b"func f(;) {}\n", b"", 256, limit(2, 257)),
        (
            b"func f(; a) {\n",
            b"write a = 1;\n",
            b"}",
            64,
            limit(3, 66),
        ),
        (
            b"func f(; a) { write a = 1",
            b"\n- 1",
            b"; }",
            63,
            limit(5, 65),
        ),
        (b"func f(", b"n", b";) {}", 32, limit(6, 1)),
        (b"func f(; a", b"\n, a", b") {}", 23, limit(8, 25)),
        (b"func f(a, b, c; d\n", b", a", b") {}", 20, limit(8, 2)),
        (b"func f(; a) {\n", b"let b = 1;\n", b"}", 23, limit(8, 25)),
        (b"func f(; a) {", b"new b; new a; ", b"}", 11, limit(8, 1)),
        (
            b"func f(;) { call f(1",
            b"\n, 1",
            b";); }",
            23,
            limit(9, 25),
        ),
        (
            b"func f(;) { call f(; a",
            b"\n, a",
            b"); }",
            23,
            limit(9, 25),
        ),
        (
            b"func f(; a) { write a = 922337203685477580",
            b"7",
            b"; }",
            1,
            limit(7, 1),
        ),
    ];
    for (before, part, behind, most, past) in edges.iter() {
        assert!(rt; has_edge(rt.alloc(), before, part, behind, *most, *past)?);
    }
    Ok(())
}

/// Whether these parts, each so many times, are a program, and exceed the limit with one more.
fn has_nested_edge(
    alloc: Global,
    parts: [&[u8]; 5],
    most: usize,
    past: ParseFault,
) -> Result<bool, AllocError> {
    let [before, open, inside, close, behind] = parts;
    let more = most.saturating_add(1);
    let at_most = fault(
        alloc,
        &[
            (before, 1),
            (open, most),
            (inside, 1),
            (close, most),
            (behind, 1),
        ],
    )?;
    let one_more = fault(
        alloc,
        &[
            (before, 1),
            (open, more),
            (inside, 1),
            (close, more),
            (behind, 1),
        ],
    )?;
    Ok(at_most == None && one_more == Some(past))
}

#[test]
fn nested_edges(rt: HostRuntime) -> Result<(), Fail> {
    let edges: [([&[u8]; 5], usize, ParseFault); 6] = [
        (
            [b"func f(;) {\n", b"if 1 {\n", b"", b"} else { }", b"}"],
            31,
            limit(4, 33),
        ),
        (
            [b"func f(;) {\n", b"par { } {\n", b"", b"}", b"}"],
            31,
            limit(4, 33),
        ),
        (
            [b"func f(; a) { write a =\n", b"(\n", b"1", b")", b"; }"],
            64,
            limit(5, 66),
        ),
        (
            [
                b"func f(; a) { write a =\n",
                b"(\n",
                b"cell(1, a)",
                b")",
                b"; }",
            ],
            63,
            limit(5, 66),
        ),
        (
            [
                b"func f(; a) { write a =\n",
                b"(\n",
                b"rows()",
                b")",
                b"; }",
            ],
            63,
            limit(5, 66),
        ),
        (
            [b"func f(; a) { write a =\n", b"neg(\n", b"1", b")", b"; }"],
            63,
            limit(5, 66),
        ),
    ];
    for (parts, most, past) in edges.iter() {
        assert!(rt; has_nested_edge(rt.alloc(), *parts, *most, *past)?);
    }
    Ok(())
}

// Where two faults stand beside one another.
#[test]
fn both_faults(rt: HostRuntime) -> Result<(), Fail> {
    let long: &[u8] = b"a23456789012345678901234567890123";
    let rows: [(Parts<'_>, ParseFault); 7] = [
        // Too deep, and a name that is too long.
        (
            &[
                (b"func f(; a) { write a = 1", 1),
                (b" - 1", 63),
                (b"\n- ", 1),
                (long, 1),
                (b"; }", 1),
            ],
            limit(5, 2),
        ),
        // The same behind a parenthesis, where nothing is too deep yet.
        (
            &[
                (b"func f(; a) { write a = 1", 1),
                (b" - 1", 63),
                (b"\n- (", 1),
                (long, 1),
                (b"); }", 1),
            ],
            limit(6, 2),
        ),
        // A name too long that also is one value too many, or one name too many.
        (
            &[
                (b"func f(;) { call f(1", 1),
                (b", 1", 23),
                (b", ", 1),
                (long, 1),
                (b";); }", 1),
            ],
            limit(6, 1),
        ),
        (
            &[
                (b"func f(; a", 1),
                (b", a", 23),
                (b", ", 1),
                (long, 1),
                (b") {}", 1),
            ],
            limit(6, 1),
        ),
        // What is no value goes before one value too many.
        (
            &[(b"func f(;) { call f(1", 1), (b", 1", 23), (b", ;); }", 1)],
            ParseFault::Syntax {
                line: 1,
                column: 92,
            },
        ),
        // A fault in an earlier token goes before a later one.
        (
            &[(b"func f(; a) { write a = 9223372036854775808 ) }", 1)],
            limit(7, 1),
        ),
        (
            &[(b"func f(; a) { write a ) 9223372036854775808; }", 1)],
            ParseFault::Syntax {
                line: 1,
                column: 23,
            },
        ),
    ];
    for (parts, found) in rows.iter() {
        assert!(rt; fault(rt.alloc(), parts)? == Some(*found));
    }
    Ok(())
}

#[test]
fn places_of_syntax(rt: HostRuntime) {
    let rows: [(&[u8], u32, u32); 22] = [
        (b"func main(; out) { write out = ; }", 1, 32),
        (b"", 1, 1),
        (b"func main(;) {\n", 2, 1),
        (b"func", 1, 5),
        (b"func f(a", 1, 9),
        (b"func f(a; b", 1, 12),
        (b"func f(;) { let a", 1, 18),
        (b"func f(;) { new", 1, 16),
        (b"func f(;) { read a as b", 1, 24),
        (b"func f(;) { if a { }", 1, 21),
        (b"func f(;) { par { }", 1, 20),
        (b"func f(;) { call f(a, b", 1, 24),
        (b"func f(;) { let a = cell(1,", 1, 28),
        (b"func f(;) { let a = rows(", 1, 26),
        (b"func f(;) { let a = \"b; }", 1, 21),
        (b"func f(;) { let a = \"\xFF\"; }", 1, 21),
        (b"func f(;) { let a = 1 ! 2; }", 1, 23),
        (b"func f(;) { let a = 1 < 2 == 3; }", 1, 27),
        (b"func f(;) { let read = 1; }", 1, 17),
        (
            b"func f(;) { read a as a, a as a, a as a, a as a, a as a { } }",
            1,
            48,
        ),
        (b"func f(;) { let a = not 1; }", 1, 25),
        (b"func f(;) { } }", 1, 15),
    ];
    for (text, line, column) in rows.iter() {
        let (line, column) = (*line, *column);
        assert!(rt; parse(rt.alloc(), text).err() == Some(ParseFault::Syntax { line, column }));
    }
}

// Long texts of one byte are refused at once.
#[test]
fn one_byte(rt: HostRuntime) -> Result<(), Fail> {
    let bytes: [&[u8]; 3] = [b"(", b"{", b"\""];
    for byte in bytes.iter() {
        let found = fault(rt.alloc(), &[(byte, 65_536)])?;
        assert!(rt; found == Some(ParseFault::Syntax { line: 1, column: 1 }));
    }
    Ok(())
}

#[test]
fn worked_programs(rt: HostRuntime) {
    let texts: [&[u8]; 15] = [
        worked::SUM,
        worked::DOUBLE,
        worked::NESTED_READS,
        worked::ONE_CELL_TWICE,
        worked::TWO_OUTPUTS,
        worked::DEEP_CALLS,
        worked::FAULTS_ON_BOTH_SIDES,
        worked::NOTHING,
        worked::READ_BEFORE_WRITE,
        worked::DIFFERENT_BRANCHES,
        worked::WRITTEN_ON_BOTH_SIDES,
        worked::OUTSIDE,
        worked::SUCCESSOR,
        worked::TOTAL_OF_NORTH,
        b"func f(;) { read rows() as n { let a = rows; } }",
    ];
    for text in texts.iter() {
        assert!(rt; parse(rt.alloc(), text).is_ok());
    }
}
