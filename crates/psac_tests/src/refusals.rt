use psac_inputs::InputFault;
use psac_refusals::{input_line, limit_line, syntax_line, usage_line};
use psac_script::push_count;
use std::test::Fail;

#[test]
fn lines_of_refusals(rt: HostRuntime) -> Result<(), Fail> {
    let alloc = rt.alloc();
    let usage =
        b"usage: psac MODE PROGRAM INPUT [--workers N] [--nodes N] [--mods N] [--links N] [--rows N]\n";
    assert_eq!(rt; usage_line(), usage.as_slice());
    let syntax = syntax_line(alloc, 1, 32).map_err(|_| "memory")?;
    assert_eq!(rt;
        syntax.as_slice(),
        b"program line 1 column 32 syntax\n".as_slice()
    );
    let limit = limit_line(alloc, 5, 9).map_err(|_| "memory")?;
    assert_eq!(rt; limit.as_slice(), b"program line 9 limit 5\n".as_slice());
    let rows = [
        (
            InputFault::Utf8 { at: 1 },
            b"input record 1 not utf-8\n".as_slice(),
        ),
        (InputFault::Ragged { at: 3 }, b"input record 3 ragged\n"),
        (
            InputFault::Cells { at: 65_537 },
            b"input record 65537 too many cells\n",
        ),
        (
            InputFault::Texts { at: 12 },
            b"input record 12 too many texts\n",
        ),
    ];
    for (fault, text) in rows {
        let told = input_line(alloc, fault).map_err(|_| "memory")?;
        assert_eq!(rt; told.as_slice(), text);
    }
    let mut counts = Vec::new(alloc);
    push_count(&mut counts, b"cells", 4).map_err(|_| "memory")?;
    assert_eq!(rt; counts.as_slice(), b"cells=4".as_slice());
    Ok(())
}
