// How the operators are written.
ghost use Rattle.std.specs.Prelude.{◌≡◌, IsTrue, map};
ghost use Rattle.std.specs.List.{IsDistinct, list_all};
ghost use Rattle.std.specs.Str.{bytes_eq};
ghost use Rattle.psac_ops.specs.Rows.{in_order, is_right, names_of};

use crate::op::Op;

/// How an operator is written.
#[derive(Clone, Copy, Debug, PartialEq, Eq)]
pub struct OpRow {
    pub name: &'static str,
    /// The number of arguments.
    pub arity: u8,
    /// It stands between its two arguments; else it stands before them, and they in parentheses.
    pub infix: bool,
    pub op: Op,
}

macro_rules! row {
    ($name:literal, $arity:literal, $infix:literal, $op:ident) => {
        OpRow {
            name: $name,
            arity: $arity,
            infix: $infix,
            op: Op::$op,
        }
    };
}

const OPS: [OpRow; 22] = [
    row!("+", 2, true, Add),
    row!("-", 2, true, Sub),
    row!("*", 2, true, Mul),
    row!("/", 2, true, Div),
    row!("%", 2, true, Rem),
    row!("==", 2, true, Eq),
    row!("!=", 2, true, Ne),
    row!("<", 2, true, Lt),
    row!("<=", 2, true, Le),
    row!(">", 2, true, Gt),
    row!(">=", 2, true, Ge),
    row!("and", 2, true, And),
    row!("or", 2, true, Or),
    row!("not", 1, false, Not),
    row!("neg", 1, false, Neg),
    row!("abs", 1, false, Abs),
    row!("min", 2, false, Min),
    row!("max", 2, false, Max),
    row!("len", 1, false, Len),
    row!("pair", 2, false, Pair),
    row!("fst", 1, false, Fst),
    row!("snd", 1, false, Snd),
];

/// The table of the operators: each row is right, and no two rows have one name.
pub fn operators() -> [OpRow; 22]
    ensures order { map (λ row. row.op) result ≡ in_order }
    ensures rows { IsTrue (list_all is_right result) }
    ensures names { IsDistinct bytes_eq (names_of result) }
{
    OPS
}

/// The operator's row of the table.
pub fn row(op: Op) -> OpRow
    ensures operator { result.op ≡ op }
    ensures right { IsTrue (is_right result) }
{
    operators()[op as usize]
}
