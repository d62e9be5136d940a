use psac_syntax::TextConst;
use psac_tokens::*;
use std::alloc::{AllocError, Global};
use std::test::Fail;

fn lexed(alloc: Global, text: &[u8]) -> Result<Option<Lexed>, AllocError> {
    if text.len() > 65_536 {
        return Ok(None);
    }
    Ok(Some(lex(alloc, text)?))
}

// Whether the token there is of this kind, at this place.
fn is_token(tokens: &[Token], at: usize, kind: Kind, line: u32, column: u32) -> bool {
    match tokens.get(at) {
        Some(token) => token.kind == kind && token.line == line && token.column == column,
        None => false,
    }
}

// Whether the token there has this index among the names or texts, and this number.
fn tells(tokens: &[Token], at: usize, index: u16, number: i64) -> bool {
    match tokens.get(at) {
        Some(token) => token.index == index && token.number == number,
        None => false,
    }
}

#[test]
fn places(rt: HostRuntime) -> Result<(), Fail> {
    let found = lex(rt.alloc(), b"read m # x\n <= 0012 m \"a\\n\" \"b")?;
    let tokens = found.tokens.as_slice();
    assert!(rt; tokens.len() == 7);
    assert!(rt; is_token(tokens, 0, Kind::Read, 1, 1));
    assert!(rt; is_token(tokens, 2, Kind::AtMost, 2, 2));
    assert!(rt; is_token(tokens, 3, Kind::Int, 2, 5) && tells(tokens, 3, 0, 12));
    assert!(rt; is_token(tokens, 4, Kind::Name, 2, 10) && tells(tokens, 4, 0, 0));
    assert!(rt; is_token(tokens, 6, Kind::Unreadable, 2, 18));
    Ok(())
}

// Whether the text there has these bytes.
fn is_text(texts: &[TextConst], at: usize, bytes: &[u8]) -> bool {
    match texts.get(at) {
        Some(text) => text.bytes() == bytes,
        None => false,
    }
}

// Two spellings of one text, and another text.
#[test]
fn texts(rt: HostRuntime) -> Result<(), Fail> {
    let found = lex(
        rt.alloc(),
        b"\"a\\\"\\\\\\n\" \"\" \"a\\\"\\\\\\n\" \"\xC3\xA9\"",
    )?;
    let tokens = found.tokens.as_slice();
    assert!(rt; tokens.len() == 5 && found.texts.len() == 3);
    assert!(rt; is_text(found.texts.as_slice(), 0, b"a\"\\\n"));
    assert!(rt; tells(tokens, 0, 0, 0) && tells(tokens, 1, 1, 0));
    assert!(rt; tells(tokens, 2, 0, 0) && tells(tokens, 3, 2, 0));
    Ok(())
}

fn last_of(alloc: Global, text: &[u8]) -> Result<Option<(Kind, u32, u32)>, AllocError> {
    let Some(found) = lexed(alloc, text)? else {
        return Ok(None);
    };
    Ok(
        found
            .tokens
            .as_slice()
            .last()
            .map(|token| (token.kind, token.line, token.column)),
    )
}

// Where no token can be read.
#[test]
fn unreadable(rt: HostRuntime) -> Result<(), Fail> {
    let texts: [(&[u8], (Kind, u32, u32)); 8] = [
        (b"\n \"\xFF\"", (Kind::Unreadable, 2, 2)),
        (b"a \"\xC3\" b", (Kind::Unreadable, 1, 3)),
        (b"\"\\t\"", (Kind::Unreadable, 1, 1)),
        (b"\"\t\"", (Kind::Unreadable, 1, 1)),
        (b"a ! b", (Kind::Unreadable, 1, 3)),
        (b"A", (Kind::Unreadable, 1, 1)),
        (b"a\n", (Kind::End, 2, 1)),
        (b"", (Kind::End, 1, 1)),
    ];
    for (text, last) in texts.iter() {
        assert!(rt; last_of(rt.alloc(), text)? == Some(*last));
    }
    Ok(())
}
