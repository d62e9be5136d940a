// The plain evaluator on programs that the checker refuses. Those that it accepts are run from their texts, in psac_run_tests.
use psac_inputs::Grid;
use psac_model::{End, FaultKind, Shown, main_of};
use psac_plain::{PlainEnd, plain_run};
use psac_syntax::{Expr, Func, Program, ReadItem, Stmt, Word};
use sqlite_items::Items;
use std::alloc::Global;

// The numbers of names: the function's, its destination's and a value's.
const MAIN: u16 = 0;

const OUT: u16 = 1;

const X: u16 = 2;

// The plain run of a main with this body, over no cells.
fn told(alloc: Global, body: Vec<Stmt>) -> Option<PlainEnd> {
    let main = Func {
        name: MAIN,
        values: Items::new(alloc),
        dests: Items::from_vec(vec![in alloc; OUT].ok()?),
        body: Items::from_vec(body),
        line: 1,
    };
    let word = Word::from_bytes(alloc, b"main").ok()?;
    let program = Program {
        names: Items::from_vec(vec![in alloc; word].ok()?),
        texts: Items::new(alloc),
        funcs: Items::from_vec(vec![in alloc; main].ok()?),
        blocks: 0,
    };
    if main_of(&program).is_none() {
        return None;
    }
    let grid = Grid::new(alloc, 0, 1).ok()?;
    plain_run(alloc, &program, &[], &grid).ok()
}

fn write(line: u32, value: i64) -> Stmt {
    Stmt::Write {
        line,
        dest: OUT,
        value: Expr::Int(value),
    }
}

// Two writes of one destination.
fn written_twice(alloc: Global) -> Option<PlainEnd> {
    told(alloc, vec![in alloc; write(2, 1), write(3, 2)].ok()?)
}

// A read of what isn't written yet.
fn read_early(alloc: Global) -> Option<PlainEnd> {
    let item = ReadItem {
        from: Expr::Name(OUT),
        bound: X,
    };
    let read = Stmt::Read {
        line: 2,
        block: 0,
        items: Items::from_vec(vec![in alloc; item].ok()?),
        body: Items::new(alloc),
    };
    told(alloc, vec![in alloc; read].ok()?)
}

fn shows(told: Option<PlainEnd>, output: i64) -> bool {
    let Some(told) = told else {
        return false;
    };
    told.end == End::Done && told.outputs.as_slice() == [Shown::Int(output)].as_slice()
}

fn stops(told: Option<PlainEnd>, kind: FaultKind, line: u32) -> bool {
    let Some(told) = told else {
        return false;
    };
    told.end == End::Stop(kind, line)
}

#[test]
fn what_the_checker_refuses_runs_too(rt: HostRuntime) {
    let alloc = rt.alloc();
    assert!(rt; shows(written_twice(alloc), 2));
    assert!(rt; stops(read_early(alloc), FaultKind::Kind, 2));
}
