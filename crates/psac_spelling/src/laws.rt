ghost use Rattle.std.specs.Prelude.{◌≤◌, List, ℕ, length};
ghost use Rattle.psac_syntax.specs.declared.program.Program.{Program};
ghost use Rattle.psac_grammar.specs.Language.{IsProgram};
ghost use Rattle.psac_spelling.specs.Canonical.{canonical};
ghost use Rattle.psac_spelling.specs.Unlined.{ReadsBack};

/// Where some bytes are a program, its canonical text is the same program but for its lines, unless the text is too long.
pub fn canonical_reads_back()
    ensures { (p : Program) (bytes : List ℕ) → IsProgram bytes p → length (canonical p) ≤ 65536 → ReadsBack p (canonical p) }
{}
