// Names in expressions.
ghost use Rattle.std.specs.Prelude.{◌≡◌, map};
ghost use Rattle.psac_syntax.specs.declared.program.Expr.{out-Expr};
ghost use Rattle.psac_model.specs.Series.{expr_wrong, from_wrong, first_wrong};
ghost use Rattle.psac_check.specs.Faults.{told};

use crate::fault::Breach;
use crate::names::Scope;
use psac_syntax::Expr;

/// Each name of an expression must be known.
#[cycle(expression)]
#[tactic(auto, using(crate::proofs::Layers::wrong_nil, crate::proofs::Layers::wrong_bool, crate::proofs::Layers::wrong_int, crate::proofs::Layers::wrong_text, crate::proofs::Layers::wrong_name, crate::proofs::Layers::wrong_rows, crate::proofs::Layers::wrong_cols, crate::proofs::Layers::wrong_row_count, crate::proofs::Layers::wrong_cell, crate::proofs::Layers::wrong_apply, crate::proofs::Firsts::first_one))]
pub fn expression(scope: &Scope, written: &[u16], value: &Expr) -> Result<(), Breach>
    ensures { told result ≡ expr_wrong scope.now written.now value.now }
{
    match value {
        Expr::Name(name) => scope.known_name(written, *name),
        Expr::Cell(row, column) => {
            expression(scope, written, row.get())?;
            expression(scope, written, column.get())
        }
        Expr::Apply(_, arguments) => expressions(scope, written, arguments.as_slice()),
        Expr::Nil
        | Expr::Bool(_)
        | Expr::Int(_)
        | Expr::Text(_)
        | Expr::Rows
        | Expr::Cols
        | Expr::RowCount => Ok(()),
    }
}

/// Each name of some expressions must be known.
#[cycle(expression)]
pub fn expressions(scope: &Scope, written: &[u16], values: &[Expr]) -> Result<(), Breach>
    ensures { told result ≡ first_wrong (map (expr_wrong scope.now written.now) values.now) }
{
    for value in values {
        expression(scope, written, value)?;
    }
    Ok(())
}

/// The expression of a read. A destination that is the whole of it must be written.
pub fn read_from(scope: &Scope, written: &[u16], from: &Expr) -> Result<(), Breach>
    ensures { told result ≡ from_wrong scope.now written.now (out-Expr from.now) from.now }
{
    if let Expr::Name(name) = from {
        if scope.has_dest(*name) && !written.contains(name) {
            return Err(Breach::ReadBeforeWrite);
        }
    }
    expression(scope, written, from)
}
