// Programs that meet the series rule.
ghost use Rattle.std.specs.Prelude.{◌≡◌, Ok, IsSome, IfSome, []};
ghost use Rattle.psac_grammar.specs.Language.{IsParsed};
ghost use Rattle.psac_model.specs.Series.{meets};
ghost use Rattle.psac_model.specs.Fresh.{main_of};

use psac_syntax::Program;
use std::marker::Model;

/// The program of some text of the grammar, which meets the series rule: each destination is written once, and before
/// it is read.
#[derive(Drop)]
pub struct Checked {
    program: Program,
}

impl Model for Checked {
    ghost use Rattle.std.specs.Prelude.{◌≡◌, Ok};
    ghost use Rattle.psac_grammar.specs.Language.{IsParsed};
    ghost use Rattle.std.specs.Coded.{codes};
    ghost use Rattle.psac_syntax.specs.declared.program.Program.{Program};
    ghost use Rattle.psac_syntax.specs.contracts.program.Stmt as stmt;
    ghost use Rattle.psac_syntax.specs.contracts.program.Expr as expr;
    ghost use Rattle.psac_model.specs.Series.{meets};

    ghost Value = { Program };

    ghost coded = { Prim.hlevel (codes, stmt.the_row.coded, expr.the_row.coded) };

    ghost view = { λ c. c.program };

    ghost invariant = { λ c. (meets c.program ≡ Ok tt) × IsParsed c.program };
}

impl Checked {
    pub(crate) fn of(program: Program) -> Checked
        requires met { meets program ≡ Ok tt }
        requires parsed { IsParsed program }
        ensures { result ≡ program }
    {
        Checked { program }
    }

    /// The program.
    pub fn program(&self) -> &Program
        ensures same { result.now ≡ self.now }
        ensures met { meets result.now ≡ Ok tt }
        ensures parsed { IsParsed result.now }

        // It has a main, without value parameters.
        ensures main { IsSome (main_of result.now) }
        ensures bare { IfSome (main_of result.now) (λ main. main.values ≡ []) }
    {
        &self.program
    }

    /// Gives the program back.
    pub fn into_program(self) -> Program
        ensures same { result ≡ self }
        ensures met { meets result ≡ Ok tt }
        ensures parsed { IsParsed result }
        ensures main { IsSome (main_of result) }
        ensures bare { IfSome (main_of result) (λ main. main.values ≡ []) }
    {
        self.program
    }
}
