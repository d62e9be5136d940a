// Programs that several files run. Their main has one output, `out`.

/// Twice the first cell.
pub const DOUBLE: &str =
    "func main(; out) {\n  read cell(0, 0) as x {\n    write out = x * 2;\n  }\n}\n";

/// The first cell.
pub const COPY: &str = "func main(; out) {\n  read cell(0, 0) as x {\n    write out = x;\n  }\n}\n";

/// The present number of rows.
pub const ROW_COUNT: &str =
    "func main(; out) {\n  read rows() as x {\n    write out = x;\n  }\n}\n";

/// The sum of all cells of the first column, by halves.
pub const SUM: &str =
    "func main(; out) {\n  call sum(0, rows; out);\n}\nfunc sum(lo, hi; d) {\n  if hi - lo == 1 {\n    read cell(lo, 0) as x { write d = x; }\n  } else {\n    let mid = (lo + hi) / 2;\n    new a;\n    new b;\n    par { call sum(lo, mid; a); } { call sum(mid, hi; b); }\n    read a as x, b as y { write d = x + y; }\n  }\n}\n";

/// The number behind the first cell.
pub const NEXT: &str =
    "func main(; out) {\n  read cell(0, 0) as x {\n    write out = x + 1;\n  }\n}\n";

/// A fault on either side of a `par`, the first of them in line 3. Its outputs are `a` and `b`.
pub const TWO_FAULTS: &str =
    "func main(; a, b) {\n  par {\n    write a = 1 / 0;\n  } {\n    write b = nil + 1;\n  }\n}\n";

/// A program that is as deep as it may be.
pub const DEEP: &str =
    "func main(; out) { call f(0; out); }\nfunc f(n; d) {\n  if n == 148 {\n    let k = n;\n    write d = k;\n  } else { call f(n + 1; d); }\n}\n";

/// A program that is one deeper.
pub const DEEPER: &str =
    "func main(; out) { call f(0; out); }\nfunc f(n; d) {\n  if n == 149 {\n    let k = n;\n    write d = k;\n  } else { call f(n + 1; d); }\n}\n";

/// A tenth of the first cell, through a reference to a modifiable that the first block makes.
pub const INNER: &str =
    "func main(; out) {\n  new p;\n  read cell(0, 0) as x {\n    new q;\n    write q = x / 10;\n    write p = q;\n  }\n  read p as r {\n    read r as y { write out = y; }\n  }\n}\n";

/// A reference to a modifiable that holds the first cell, and the second cell. Its outputs are `out` and `other`.
pub const REFERENCE: &str =
    "func main(; out, other) {\n  read cell(0, 0) as x {\n    new q;\n    write q = x;\n    write out = q;\n  }\n  read cell(1, 0) as y { write other = y; }\n}\n";

/// A pair of a modifiable that holds 5 and the first cell.
pub const COUPLE: &str =
    "func main(; out) {\n  new a;\n  write a = 5;\n  write out = pair(a, cell(0, 0));\n}\n";

/// Ten divided by each of the first two cells, on either side of a `par`, in lines 3 and 5. Its outputs are `a` and `b`.
pub const QUOTIENTS: &str =
    "func main(; a, b) {\n  par {\n    read cell(0, 0) as x { write a = 10 / x; }\n  } {\n    read cell(1, 0) as y { write b = 10 / y; }\n  }\n}\n";

/// A read of the first cell, and its write at the last level.
pub const DEEP_READ: &str =
    "func main(; out) { call f(0; out); }\nfunc f(n; d) {\n  if n == 148 {\n    read cell(0, 0) as x { write d = x; }\n  } else { call f(n + 1; d); }\n}\n";

/// A read that is past the last level.
pub const DEEPER_READ: &str =
    "func main(; out) { call f(0; out); }\nfunc f(n; d) {\n  if n == 149 {\n    read cell(0, 0) as x { write d = x; }\n  } else { call f(n + 1; d); }\n}\n";

/// 70 nested `par`, each in the left side of the one around it.
pub const CHAIN: &str =
    "func main(; out) { call f(0; out); }\nfunc f(n; d) {\n  if n == 70 { write d = n; } else {\n    new a;\n    par { call f(n + 1; a); } { }\n    read a as x { write d = x; }\n  }\n}\n";
