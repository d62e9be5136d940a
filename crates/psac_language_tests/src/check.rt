// Programs as texts, and the first fault of each.
use CheckFault::{
    Arity, BranchesDiffer, NoMain, NotWritten, ReadBeforeWrite, Rebound, UnknownFunction,
    UnknownName, WrittenInBothSides, WrittenTwice, WrongSort,
};
use psac_check::{CheckFault, check};
use psac_lang::parse;
use std::alloc::Global;

// The first fault of a text's program; want of memory where the text is none.
fn first_fault(alloc: Global, text: &str) -> Option<CheckFault> {
    let Ok(program) = parse(alloc, text.as_bytes()) else {
        return Some(CheckFault::NoMemory);
    };
    check(alloc, program).err()
}

#[test]
fn one_line(rt: HostRuntime) {
    let rows = [
        ("func main(; a) { write a = b; }", UnknownName { line: 1 }),
        (
            "func main(; a) { let a = 1; write a = 1; }",
            Rebound { line: 1 },
        ),
        (
            "func main(; a) { write a = 1; write a = 2; }",
            WrittenTwice { line: 1 },
        ),
        ("func main(; a) { }", NotWritten { line: 1 }),
        (
            "func main(; a) { call f(; a); }",
            UnknownFunction { line: 1 },
        ),
        (
            "func main(; a) { call f(1; a); } func f(; d) { write d = 1; }",
            Arity { line: 1 },
        ),
        ("\n\nfunc f(; d) { write d = 1; }", NoMain { line: 1 }),
        ("\n\nfunc main(v; a) { }", NoMain { line: 3 }),
        ("func main(; a) { write a = a; }", WrongSort { line: 1 }),
    ];
    for (text, fault) in rows {
        assert!(rt; first_fault(rt.alloc(), text) == Some(fault));
    }
}

// Sides and branches, each with its line.
#[test]
fn sides_and_branches(rt: HostRuntime) {
    let rows = [
        (
            "func main(; a, b) {\n  par {\n    write a = 1;\n  } {\n    read a as x { write b = x; }\n  }\n}",
            ReadBeforeWrite { line: 5 },
        ),
        (
            "func main(; a, b) {\n  if 1 == 1 { write a = 1; } else { write b = 2; }\n}",
            BranchesDiffer { line: 2 },
        ),
        (
            "func main(; a) {\n  par { write a = 1; } { write a = 2; }\n}",
            WrittenInBothSides { line: 2 },
        ),
        (
            "func main(; a) {\n  par { write a = 1; } { call f(; a); }\n}\nfunc f(; d) { write d = 1; }",
            WrittenInBothSides { line: 2 },
        ),
        // An unwritten `new` of either branch goes before what the branches differ in.
        (
            "func main(; a) {\n  if true {\n    write a = 1;\n  } else {\n    new b;\n  }\n}",
            NotWritten { line: 5 },
        ),
        (
            "func main(; a) {\n  par {\n    write a = 1;\n    new b;\n  } {\n    write a = c;\n  }\n}",
            NotWritten { line: 4 },
        ),
        // The condition goes before the branches, and the first branch before the second.
        (
            "func main(; a) {\n  if b {\n    write a = c;\n  } else { }\n}",
            UnknownName { line: 2 },
        ),
        (
            "func main(; a) {\n  if true {\n    let a = 1;\n  } else {\n    write b = 1;\n  }\n}",
            Rebound { line: 3 },
        ),
        // Names leave scope at their body's end.
        (
            "func main(; a) {\n  par { let x = 1; } { }\n  write a = x;\n}",
            UnknownName { line: 3 },
        ),
        // Nothing is bound again within its scope.
        (
            "func main(; a) {\n  let x = 1;\n  if true {\n    new x;\n  } else { }\n}",
            Rebound { line: 4 },
        ),
    ];
    for (text, fault) in rows {
        assert!(rt; first_fault(rt.alloc(), text) == Some(fault));
    }
}

// A name that isn't in scope, in each place where a name may stand.
#[test]
fn unknown_names(rt: HostRuntime) {
    let rows = [
        "func main(; a) {\nlet x = n; }",
        "func main(; a) {\nlet x = cell(0, n); }",
        "func main(; a) {\nlet x = 1 + neg(n); }",
        "func main(; a) {\nwrite n = 1; }",
        "func main(; a) {\nwrite a = n; }",
        "func main(; a) {\nread n as x { } }",
        "func main(; a) {\nread 1 as x, n as y { } }",
        "func main(; a) {\nread 1 as x, x as y { } }",
        "func main(; a) {\nif n { } else { } }",
        "func main(; a) {\ncall f(n; a); } func f(v; d) { write d = v; }",
        "func main(; a) {\ncall f(1; n); } func f(v; d) { write d = v; }",
    ];
    for text in rows {
        assert!(rt; first_fault(rt.alloc(), text) == Some(UnknownName { line: 2 }));
    }
}

// A name that is there already, wherever one is bound.
#[test]
fn names_bound_again(rt: HostRuntime) {
    let rows = [
        "func main(; a) {\nlet a = 1; }",
        "func main(; a) {\nnew a; }",
        "func main(; a) {\nread 1 as a { } }",
        "func main(; a) {\nread 1 as x, 1 as x { } }",
        "func main(; a) { }\nfunc f(x, x; d) { }",
        "func main(; a) { }\nfunc f(x; d, d) { }",
        "func main(; a) { }\nfunc f(x; x) { }",
        "func main(; a) { }\nfunc main(; a) { }",
    ];
    for text in rows {
        assert!(rt; first_fault(rt.alloc(), text) == Some(Rebound { line: 2 }));
    }
}

// What is unwritten where a value is wanted, and a value where a destination is.
#[test]
fn other_sorts(rt: HostRuntime) {
    let rows = [
        "func main(; a) {\nlet x = a; }",
        "func main(; a) {\nwrite a = a; }",
        "func main(; a) {\nread a + 1 as x { } }",
        "func main(; a) {\nread cell(a, 0) as x { } }",
        "func main(; a) {\nif a { } else { } }",
        "func main(; a) {\ncall f(a; a); } func f(v; d) { write d = v; }",
        "func main(; a) { let x = 1;\nwrite x = 1; }",
        "func main(; a) { let x = 1;\ncall f(1; x); } func f(v; d) { write d = v; }",
    ];
    for text in rows {
        assert!(rt; first_fault(rt.alloc(), text) == Some(WrongSort { line: 2 }));
    }
}

// What is read or written too early, too late or twice.
#[test]
fn order_of_writes(rt: HostRuntime) {
    for text in [
        "func main(; a) {\nread a as x { } }",
        "func main(; a) {\nread 1 as x, a as y { } }",
    ] {
        assert!(rt; first_fault(rt.alloc(), text) == Some(ReadBeforeWrite { line: 2 }));
    }
    for text in [
        "func main(; a) { write a = 1;\ncall f(1; a); } func f(v; d) { write d = v; }",
        "func main(; a) { call f(1; a);\nwrite a = 1; } func f(v; d) { write d = v; }",
        "func main(; a) { read 1 as x { write a = x; }\nwrite a = 1; }",
        "func main(; a) { par { write a = 1; } { }\nwrite a = 1; }",
    ] {
        assert!(rt; first_fault(rt.alloc(), text) == Some(WrittenTwice { line: 2 }));
    }
    for text in [
        "func main(; a) {\nnew b; write a = 1; }",
        "func main(; a) { write a = 1; read 1 as x {\nnew b; } }",
        "func main(; a) { write a = 1; par { } {\nnew b; } }",
        // The earliest one, and each before the header's.
        "func main(; a) {\nnew b;\nnew c; write c = 1; }",
        "func main(; a) { write a = 1; }\nfunc f(; d) { }",
    ] {
        assert!(rt; first_fault(rt.alloc(), text) == Some(NotWritten { line: 2 }));
    }
}

// Two faults in one statement: the one that stands first.
#[test]
fn two_in_one_statement(rt: HostRuntime) {
    for text in [
        "func main(; a) {\nlet a = n; }",
        "func main(; a) {\nread 1 as a, n as x { } }",
    ] {
        assert!(rt; first_fault(rt.alloc(), text) == Some(Rebound { line: 2 }));
    }
    for text in [
        "func main(; a) {\nwrite n = a; }",
        "func main(; a) {\nread n as x, 1 as a { } }",
        "func main(; a) {\nlet x = cell(n, a); }",
    ] {
        assert!(rt; first_fault(rt.alloc(), text) == Some(UnknownName { line: 2 }));
    }
    assert!(rt;
        first_fault(rt.alloc(), "func main(; a) { write a = 1;\nwrite a = n; }")
            == Some(WrittenTwice { line: 2 })
    );
    assert!(rt;
        first_fault(rt.alloc(), "func main(; a) {\nread a as a { } }")
            == Some(ReadBeforeWrite { line: 2 })
    );
    assert!(rt;
        first_fault(rt.alloc(), "func main(; a) {\nlet x = cell(a, n); }")
            == Some(WrongSort { line: 2 })
    );
}

// The faults of a call in their order: its function, each value, their number, each destination, their number.
#[test]
fn in_a_call(rt: HostRuntime) {
    assert!(rt;
        first_fault(rt.alloc(), "func main(; a) {\ncall g(n; a); }")
            == Some(UnknownFunction { line: 2 })
    );
    assert!(rt;
        first_fault(
            rt.alloc(),
            "func main(; a) {\ncall f(a, n; a); } func f(v; d) { write d = v; }"
        ) == Some(WrongSort { line: 2 })
    );
    for text in [
        "func main(; a) {\ncall f(n, a; a); } func f(v; d) { write d = v; }",
        "func main(; a) {\ncall f(1; n, a); } func f(v; d) { write d = v; }",
    ] {
        assert!(rt; first_fault(rt.alloc(), text) == Some(UnknownName { line: 2 }));
    }
    for text in [
        "func main(; a) {\ncall f(1, 2; n); } func f(v; d) { write d = v; }",
        "func main(; a) {\ncall f(1;); } func f(v; d) { write d = v; }",
    ] {
        assert!(rt; first_fault(rt.alloc(), text) == Some(Arity { line: 2 }));
    }
    assert!(rt;
        first_fault(
            rt.alloc(),
            "func main(; a) {\ncall f(1; a, a); } func f(v; d) { write d = v; }"
        ) == Some(WrittenTwice { line: 2 })
    );
}

// Headers go before main, main before the bodies, and the bodies in text order.
#[test]
fn in_rounds(rt: HostRuntime) {
    let rows = [
        (
            "func main(x; a) { let x = 1; }\nfunc f(a; a) { }",
            Rebound { line: 2 },
        ),
        ("func f(;) { }\nfunc f(;) { }", Rebound { line: 2 }),
        (
            "func f(;) { let x = n; }\nfunc main(x;) { }",
            NoMain { line: 2 },
        ),
        (
            "func f(;) { let x = n; }\nfunc g(;) { }",
            NoMain { line: 1 },
        ),
        (
            "func f(; d) { write d = n; }\nfunc main(; a) { }",
            UnknownName { line: 1 },
        ),
    ];
    for (text, fault) in rows {
        assert!(rt; first_fault(rt.alloc(), text) == Some(fault));
    }
}

// What follows the rule is accepted.
#[test]
fn in_series(rt: HostRuntime) {
    let rows = [
        "func main(;) { }",
        "func main(; a) { new b; new c; par { let x = 1; write b = x; } { let x = 2; write c = x; } read b as x { write a = c; } }",
        "func main(; main) { if true { write main = 1; } else { call f(1; main); } } func f(x; a) { write a = x; }",
        "func main(; a) { new b; write b = 1; read b as x, b as y { write a = pair(b, b); } }",
    ];
    for text in rows {
        assert!(rt; first_fault(rt.alloc(), text) == None);
    }
}
