// The worked programs.

pub const SUM: &[u8] =
    b"func main(; out) {\n  call sum(0, rows; out);\n}\nfunc sum(lo, hi; d) {\n  if hi - lo == 1 {\n    read cell(lo, 0) as x { write d = x; }\n  } else {\n    let mid = (lo + hi) / 2;\n    new a;\n    new b;\n    par { call sum(lo, mid; a); } { call sum(mid, hi; b); }\n    read a as x, b as y { write d = x + y; }\n  }\n}\n";

pub const DOUBLE: &[u8] =
    b"func main(; out) {\n  read cell(0, 0) as x {\n    write out = x * 2;\n  }\n}\n";

pub const NESTED_READS: &[u8] =
    b"func main(; out) {\n  new p;\n  read cell(0, 0) as x {\n    new q;\n    write q = x / 10;\n    write p = q;\n  }\n  read p as r {\n    read r as y { write out = y; }\n  }\n}\n";

pub const ONE_CELL_TWICE: &[u8] =
    b"func main(; out) {\n  read cell(0, 0) as x {\n    read cell(0, 0) as y { write out = x + y; }\n  }\n}\n";

pub const TWO_OUTPUTS: &[u8] =
    b"func main(; out, other) {\n  read cell(0, 0) as x {\n    new q;\n    write q = x;\n    write out = q;\n  }\n  read cell(1, 0) as y { write other = y; }\n}\n";

pub const DEEP_CALLS: &[u8] =
    b"func main(; out) { call f(0; out); }\nfunc f(n; d) {\n  if n == 148 {\n    let k = n;\n    write d = k;\n  } else { call f(n + 1; d); }\n}\n";

pub const FAULTS_ON_BOTH_SIDES: &[u8] =
    b"func main(; a, b) {\n  par {\n    write a = 1 / 0;\n  } {\n    write b = nil + 1;\n  }\n}\n";

pub const NOTHING: &[u8] = b"func main(;) { }\n";

pub const READ_BEFORE_WRITE: &[u8] =
    b"func main(; a, b) {\n  par {\n    write a = 1;\n  } {\n    read a as x { write b = x; }\n  }\n}\n";

pub const DIFFERENT_BRANCHES: &[u8] =
    b"func main(; a, b) {\n  if 1 == 1 { write a = 1; } else { write b = 2; }\n}\n";

pub const WRITTEN_ON_BOTH_SIDES: &[u8] =
    b"func main(; a) {\n  par { write a = 1; } { write a = 2; }\n}\n";

pub const OUTSIDE: &[u8] = b"func main(; out) {\n  read cell(0, 1) as x { write out = x; }\n}\n";

pub const SUCCESSOR: &[u8] =
    b"func main(; out) {\n  read cell(0, 0) as x {\n    write out = x + 1;\n  }\n}\n";

pub const TOTAL_OF_NORTH: &[u8] =
    b"func main(; total) {\n  if rows == 0 {\n    write total = 0;\n  } else {\n    call add(0, rows; total);\n  }\n}\nfunc add(lo, hi; d) {\n  if hi - lo == 1 {\n    read cell(lo, 0) as place, cell(lo, 1) as amount {\n      if place == \"north\" { write d = amount; } else { write d = 0; }\n    }\n  } else {\n    let mid = (lo + hi) / 2;\n    new a;\n    new b;\n    par { call add(lo, mid; a); } { call add(mid, hi; b); }\n    read a as x, b as y { write d = x + y; }\n  }\n}\n";
