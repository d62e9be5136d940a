// Each public call once. What the operators give at their edges is the table, which the contract of `apply` cites.
ghost use Rattle.std.specs.Prelude.{◌≡◌};
ghost use Rattle.psac_ops.specs.Table.{arity};

use psac_ops::{
    Handle, Op, OpFault, OpRow, Plain, TextId, apply, find, from_words, operators, row, to_words,
};

const A: Handle = Handle {
    slot: 7,
    generation: 2,
};

const B: Handle = Handle {
    slot: 4_294_967_295,
    generation: 4_294_967_295,
};

const TEXT: TextId = TextId { id: 9, len: 5 };

const LEAST: i64 = -9_223_372_036_854_775_808;

fn ints(op: Op, a: i64, b: i64) -> Result<Plain, OpFault>
    requires { arity op ≡ 2 }
{
    apply(op, &[Plain::Int(a), Plain::Int(b)])
}

#[test]
fn operators_give_what_the_table_says(rt: HostRuntime) {
    assert!(rt; ints(Op::Div, -7, 2) == Ok(Plain::Int(-3)));
    assert!(rt; ints(Op::Div, LEAST, -1) == Err(OpFault::Overflow));
    assert!(rt; apply(Op::Fst, &[Plain::Pair(A, B)]) == Ok(Plain::Ref(A)));
    assert!(rt; apply(Op::Fst, &[Plain::Ref(A)]) == Err(OpFault::Kind));
}

#[test]
fn names_lead_to_their_rows(rt: HostRuntime) {
    let rows = [row(Op::Add), row(Op::Snd)];
    assert!(rt; find(&rows, "snd") == Some(1) && find(&rows, "plus").is_none());
    assert!(rt; find(&operators(), "not") == Some(13));
}

#[test]
fn of_two_rows_of_one_name_the_first_is_found(rt: HostRuntime) {
    let sign = OpRow {
        name: "-",
        arity: 1,
        infix: false,
        op: Op::Neg,
    };
    let rows = [row(Op::Add), row(Op::Sub), sign];
    assert!(rt; find(&rows, "-") == Some(1));
}

#[test]
fn values_and_their_words(rt: HostRuntime) {
    assert!(rt; to_words(Plain::Text(TEXT)) == [3, 21_474_836_489, 0]);
    assert!(rt; from_words([1, 1, 0]) == Some(Plain::Bool(true)));
    assert!(rt; from_words([6, 0, 0]).is_none());
}
