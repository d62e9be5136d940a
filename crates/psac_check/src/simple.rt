// Statements without a body.
ghost use Rattle.std.specs.Prelude.{◌≡◌, [], ◌∷◌, ◌++◌, Ok};
ghost use Rattle.psac_syntax.specs.declared.program.Stmt.TheOpen.{Stmt-F};
ghost use Rattle.psac_model.specs.Series.{Rule, first_wrong, new_wrong, expr_wrong, dest_wrong, rule_step};
ghost use Rattle.psac_check.specs.Faults.{told};
ghost use Rattle.psac_check.specs.Follows.{Gives};

use crate::expression::expression;
use crate::fault::{Breach, CheckFault, at_line};
use crate::names::Scope;
use psac_syntax::Expr;

fn let_wrong(scope: &Scope, written: &[u16], name: u16, value: &Expr) -> Result<(), Breach>
    ensures { told result ≡ first_wrong (new_wrong scope.now name ∷ expr_wrong scope.now written.now value.now ∷ []) }
{
    scope.new_name(name)?;
    expression(scope, written, value)
}

fn write_wrong(scope: &Scope, written: &[u16], dest: u16, value: &Expr) -> Result<(), Breach>
    ensures { told result ≡ first_wrong (dest_wrong scope.now written.now dest ∷ expr_wrong scope.now written.now value.now ∷ []) }
{
    scope.unwritten_dest(written, dest)?;
    expression(scope, written, value)
}

/// `let`: the name comes into scope behind its expression.
pub fn let_statement(
    line: u32,
    name: u16,
    value: &Expr,
    scope: &mut Scope,
    written: &[u16],
) -> Result<(), CheckFault>
    ensures { Gives (λ done. (scope.new, written.now)) result (rule_step [] (Stmt-F.Let line name value.now) scope.old written.now) }
{
    at_line(line, let_wrong(scope, written, name, value))?;
    scope.add_value(name)?;
    Ok(())
}

/// `new`: a destination, which the rest of the body has to write.
pub fn new_statement(
    line: u32,
    dest: u16,
    scope: &mut Scope,
    written: &[u16],
) -> Result<(), CheckFault>
    ensures { Gives (λ done. (scope.new, written.now)) result (rule_step [] (Stmt-F.New line dest) scope.old written.now) }
{
    at_line(line, scope.new_name(dest))?;
    scope.add_dest(dest, line)?;
    Ok(())
}

/// `write`: the destination is a value from here on.
pub fn write_statement(
    line: u32,
    dest: u16,
    value: &Expr,
    scope: &Scope,
    written: &mut Vec<u16>,
) -> Result<(), CheckFault>
    ensures { Gives (λ done. (scope.now, written.new.items)) result (rule_step [] (Stmt-F.Write line dest value.now) scope.now written.old.items) }
{
    at_line(line, write_wrong(scope, written, dest, value))?;
    written.push(dest)?;
    Ok(())
}
