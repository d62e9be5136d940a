use psac_lang::parse;
use psac_print::*;
use std::alloc::Global;
use std::test::Fail;

fn printed(alloc: Global, bytes: &[u8]) -> Result<Vec<u8>, Fail> {
    let program = parse(alloc, bytes)?;
    Ok(print(alloc, &program)?)
}

/// Whether the program prints as this text, and the text as itself.
fn prints_as(alloc: Global, bytes: &[u8], wanted: &[u8]) -> Result<bool, Fail> {
    let once = printed(alloc, bytes)?;
    let again = printed(alloc, &once)?;
    Ok(once.as_slice() == wanted && again.as_slice() == wanted)
}

#[test]
fn double(rt: HostRuntime) -> Result<(), Fail> {
    let written: &[u8] =
        b"func main(; out) {\n  read cell(0, 0) as x {\n    write out = x * 2;\n  }\n}\n";
    let wanted: &[u8] =
        b"func main(; out) {\n  read cell(0, 0) as x {\n    write out = (x * 2);\n  }\n}\n";
    assert!(rt; prints_as(rt.alloc(), written, wanted)?);
    assert!(rt; prints_as(rt.alloc(), b"func main(;){}", b"func main(;) {\n}\n")?);
    Ok(())
}

// Each form of an expression, as it is written and as it is printed.
#[test]
fn expressions(rt: HostRuntime) -> Result<(), Fail> {
    let forms: [(&[u8], &[u8]); 17] = [
        (b"nil", b"nil"),
        (b"true or false", b"(true or false)"),
        (b"007 and 0", b"(7 and 0)"),
        (b"9223372036854775807", b"9223372036854775807"),
        (b"\"\"", b"\"\""),
        (
            b"\"a\\\"b\\\\c\\nd#\xC3\xA9\"",
            b"\"a\\\"b\\\\c\\nd#\xC3\xA9\"",
        ),
        (b"rows( )", b"rows()"),
        (b"((rows)) + cols", b"(rows + cols)"),
        (b"cell(a,b)", b"cell(a, b)"),
        (b"1-2-3*4", b"((1 - 2) - (3 * 4))"),
        (b"a/b%c", b"((a / b) % c)"),
        (b"a==b or a!=b", b"((a == b) or (a != b))"),
        (b"a<b and a<=b", b"((a < b) and (a <= b))"),
        (b"a>b or a>=b", b"((a > b) or (a >= b))"),
        (b"not(neg(abs(len(a))))", b"not(neg(abs(len(a))))"),
        (b"pair(min(a,b),max(a,b))", b"pair(min(a, b), max(a, b))"),
        (b"fst(snd(a))", b"fst(snd(a))"),
    ];
    for (form, wanted) in forms.iter() {
        let mut written = Vec::from_slice(rt.alloc(), b"func f(a,b;){let x=")?;
        written.extend_from_slice(form)?;
        written.extend_from_slice(b";}")?;
        let mut lines = Vec::from_slice(rt.alloc(), b"func f(a, b;) {\n  let x = ")?;
        lines.extend_from_slice(wanted)?;
        lines.extend_from_slice(b";\n}\n")?;
        assert!(rt; prints_as(rt.alloc(), &written, &lines)?);
    }
    Ok(())
}

// Each statement.
#[test]
fn statements(rt: HostRuntime) -> Result<(), Fail> {
    let written: &[u8] =
        b"func main(;out,other){new d;par{write d=1;}{write other=2;}call f(1,2;d,out);call g(;);read d as x,d as y{if x==y{let z=x;}else{}}}func f(a,b;c,d){}func g(;){}";
    let wanted: &[u8] =
        b"func main(; out, other) {\n  new d;\n  par {\n    write d = 1;\n  } {\n    write other = 2;\n  }\n  call f(1, 2; d, out);\n  call g(;);\n  read d as x, d as y {\n    if (x == y) {\n      let z = x;\n    } else {\n    }\n  }\n}\nfunc f(a, b; c, d) {\n}\nfunc g(;) {\n}\n";
    assert!(rt; prints_as(rt.alloc(), written, wanted)?);
    Ok(())
}
