// The sum of the cells of a column, by halves, and the files of a session over it.
use psac_base::MemShelf;
use std::alloc::{AllocError, Global};
use std::process::Abort;

const SUM: &str =
    "func main(; out) {\n  call sum(0, rows; out);\n}\nfunc sum(lo, hi; d) {\n  if hi - lo == 1 {\n    read cell(lo, 0) as x { write d = x; }\n  } else {\n    let mid = (lo + hi) / 2;\n    new a;\n    new b;\n    par { call sum(lo, mid; a); } { call sum(mid, hi; b); }\n    read a as x, b as y { write d = x + y; }\n  }\n}\n";

/// The words of a session over that program and the input, with caps that the tests keep within. Small ones make an
/// engine's tables quickly.
pub fn words(alloc: Global) -> Result<Vec<String>, AllocError> {
    let line = "psac watch p.psac i.txt --nodes 400 --mods 100 --links 100";
    let mut words = Vec::new(alloc);
    for word in line.split_whitespace() {
        words.push(String::from_str(alloc, word)?)?;
    }
    Ok(words)
}

/// A shelf with that program and an input of these lines.
pub fn shelf(rt: &impl Abort, alloc: Global, input: &str) -> Result<MemShelf, AllocError> {
    let mut files = Vec::new(alloc);
    let program = Vec::from_slice(alloc, SUM.as_bytes())?;
    files.push((String::from_str(alloc, "p.psac")?, program))?;
    let lines = Vec::from_slice(alloc, input.as_bytes())?;
    files.push((String::from_str(alloc, "i.txt")?, lines))?;
    assert!(rt; MemShelf::names_differ(&files));
    Ok(MemShelf::new(files, Vec::new(alloc)))
}
