// The plain evaluator, on the programs that are run.
use psac_cases::programs::{
    CHAIN, DEEP, DEEP_READ, DEEPER, DEEPER_READ, DOUBLE, INNER, NEXT, QUOTIENTS, ROW_COUNT, SUM,
    TWO_FAULTS,
};
use psac_check::check;
use psac_inputs::{Interner, load_lines};
use psac_lang::parse;
use psac_model::{End, FaultKind, Shown, Size};
use psac_plain::{PlainEnd, plain_run};
use std::alloc::Global;

// The plain run over lines of a program without texts; nothing where one of them is refused.
fn run_plainly(alloc: Global, program: &str, lines: &str) -> Option<PlainEnd> {
    let Ok(parsed) = parse(alloc, program.as_bytes()) else {
        return None;
    };
    let Ok(checked) = check(alloc, parsed) else {
        return None;
    };
    let program = checked.into_program();
    if program.texts.len() > 0 {
        return None;
    }
    let mut texts = Interner::new(alloc).ok()?;
    let grid = load_lines(alloc, lines.as_bytes(), &mut texts).ok()?;
    plain_run(alloc, &program, &Vec::new(alloc), &grid).ok()
}

// Whether the plain run gives this one output, with a record of this size.
fn shows(alloc: Global, program: &str, lines: &str, output: i64, size: [u64; 5]) -> bool {
    let [s, p, r, mods, links] = size;
    let wanted = Size {
        s,
        p,
        r,
        mods,
        links,
    };
    let Some(told) = run_plainly(alloc, program, lines) else {
        return false;
    };
    told.end == End::Done
        && told.outputs.as_slice() == [Shown::Int(output)].as_slice()
        && told.size == wanted
}

// Whether the plain run stops so, without an output.
fn stops(alloc: Global, program: &str, lines: &str, kind: FaultKind, line: u32) -> bool {
    let Some(told) = run_plainly(alloc, program, lines) else {
        return false;
    };
    told.end == End::Stop(kind, line) && told.outputs.is_empty()
}

#[test]
fn plain_runs(rt: HostRuntime) {
    let alloc = rt.alloc();
    assert!(rt; shows(alloc, DOUBLE, "21\n", 42, [1, 0, 1, 0, 1]));
    assert!(rt; shows(alloc, SUM, "1\n2\n", 3, [10, 1, 3, 2, 4]));
    assert!(rt; shows(alloc, SUM, "1\n2\n3\n4\n", 10, [24, 3, 7, 6, 10]));
    assert!(rt; shows(alloc, INNER, "11\n", 1, [3, 0, 3, 2, 3]));
    assert!(rt; shows(alloc, ROW_COUNT, "1\n2\n", 2, [1, 0, 1, 0, 1]));
    assert!(rt; shows(alloc, NEXT, "-1\n", 0, [1, 0, 1, 0, 1]));
}

#[test]
fn deep_plain_runs(rt: HostRuntime) {
    let alloc = rt.alloc();
    assert!(rt; shows(alloc, DEEP, "", 148, [298, 0, 0, 0, 0]));
    assert!(rt; shows(alloc, DEEP_READ, "3\n", 3, [299, 0, 1, 0, 1]));
    assert!(rt; shows(alloc, CHAIN, "", 70, [282, 70, 70, 70, 70]));
}

#[test]
fn plain_faults(rt: HostRuntime) {
    let alloc = rt.alloc();
    assert!(rt;
        stops(
            alloc,
            DOUBLE,
            "4611686018427387904\n",
            FaultKind::Overflow,
            3
        )
    );
    assert!(rt; stops(alloc, DOUBLE, "", FaultKind::Range, 2));
    assert!(rt; stops(alloc, NEXT, "9223372036854775808\n", FaultKind::Kind, 3));
    assert!(rt; stops(alloc, NEXT, "9223372036854775807\n", FaultKind::Overflow, 3));
    assert!(rt; stops(alloc, TWO_FAULTS, "", FaultKind::DivZero, 3));
}

#[test]
fn plain_faults_of_parts(rt: HostRuntime) {
    let alloc = rt.alloc();
    assert!(rt; stops(alloc, QUOTIENTS, "1\n0\n", FaultKind::DivZero, 5));
    assert!(rt; stops(alloc, QUOTIENTS, "0\n0\n", FaultKind::DivZero, 3));
    assert!(rt; stops(alloc, DEEPER, "", FaultKind::TooDeep, 4));
    assert!(rt; stops(alloc, DEEPER_READ, "3\n", FaultKind::TooDeep, 4));
}
