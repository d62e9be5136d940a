use crate::whole::gives;
use psac_cases::programs::DOUBLE;
use psac_cases::{Case, SMALL, run_of};

const CHOSEN: &str = "func main(; out) {\n  read cell(0, 1) as x { write out = x; }\n}\n";

// One run over the input.
fn once<'a>(words: &'a str, program: &'a str, input: &'a str) -> Case<'a> {
    Case {
        options: SMALL,
        ..run_of(words, program, input, "")
    }
}

#[test]
fn lines(rt: HostRuntime) {
    let words = "psac once p.psac i.txt";
    let doubled = once(words, DOUBLE, "21\n");
    assert!(rt; gives(&rt, rt.alloc(), &doubled, 0, "out = 42\n"));
    let empty = once(words, DOUBLE, "");
    assert!(rt; gives(&rt, rt.alloc(), &empty, 0, "fault range line 2\n"));
}

#[test]
fn records_of_fields(rt: HostRuntime) {
    let quoted = once("psac once p.psac i.csv", CHOSEN, "1,\"a,b\"\n2,c\n");
    assert!(rt; gives(&rt, rt.alloc(), &quoted, 0, "out = \"a,b\"\n"));
}
