use super::*;
use std::alloc::Global;
use std::test::Fail;

// One letter for each kind.
fn letter(kind: TokenKind) -> u8 {
    match kind {
        TokenKind::Left => b'(',
        TokenKind::Right => b')',
        TokenKind::Word => b'w',
        TokenKind::Text => b's',
    }
}

// The kinds of the tokens, a letter for each, or the offset of the fault.
fn kinds(alloc: Global, text: &[u8]) -> Result<Vec<u8>, LexError> {
    if text.len() > 4_194_304 {
        return Err(LexError::NoMemory);
    }
    let list = tokens(alloc, text)?;
    let mut letters = Vec::new(alloc);
    for token in list.as_slice() {
        letters.push(letter(token.kind))?;
    }
    Ok(letters)
}

// Whether the text has tokens of these kinds.
fn has(alloc: Global, text: &[u8], want: &[u8]) -> bool {
    match kinds(alloc, text) {
        Ok(letters) => letters.as_slice() == want,
        Err(_) => false,
    }
}

#[test]
fn texts_have_tokens(rt: HostRuntime) {
    for (text, want) in [
        (&b""[..], &b""[..]),
        (&b" \t\r\n"[..], &b""[..]),
        (&b"()"[..], &b"()"[..]),
        (&b"(module)"[..], &b"(w)"[..]),
        (&b"a b"[..], &b"ww"[..]),
        (&b"a;;b"[..], &b"w"[..]),
        (&b"a;;b\nc"[..], &b"ww"[..]),
        (&b"a;;b\n\"c\""[..], &b"ws"[..]),
        (&b"\"\"(\"\")"[..], &b"s(s)"[..]),
        (&b"\"\\00\\fF;;(\" x"[..], &b"sw"[..]),
        (&b";;\xff\x00 (\n)"[..], &b")"[..]),
        (&b"!~\\'$f=-1"[..], &b"w"[..]),
    ] {
        assert!(rt; has(rt.alloc(), text, want));
    }
}

#[test]
fn faults_have_their_offset(rt: HostRuntime) {
    for (text, at) in [
        // no token, blank or comment begins
        (&b"\x00"[..], 0),
        (&b"a\x7f"[..], 1),
        (&b"(\xc3\xa9)"[..], 1),
        (&b"; x"[..], 0),
        (&b"a ;"[..], 2),
        (&b"a;b"[..], 1),
        // a string that is not closed, or has a bad byte or escape
        (&b"x \"abc"[..], 2),
        (&b"\"a\nb\""[..], 0),
        (&b"\"\x7f\""[..], 0),
        (&b"\"\\0\""[..], 0),
        (&b"\"\\g0\""[..], 0),
        (&b"\"\\0g\""[..], 0),
        (&b"\"\\"[..], 0),
        (&b"\"\\n\""[..], 0),
        // words and strings with nothing between
        (&b"a\"b\""[..], 1),
        (&b"a\"b"[..], 1),
        (&b"\"a\"b"[..], 3),
        (&b"\"a\"\"b\""[..], 3),
        (&b"\"a\" \"b\"c d"[..], 7),
        // the first of two
        (&b"a\"b\" ;"[..], 1),
    ] {
        assert!(rt; matches!(&kinds(rt.alloc(), text), Err(LexError::At(n)) if *n == at));
    }
}

// Whether the tokens of the text begin and end at these offsets.
fn stand_at(alloc: Global, text: &[u8], places: &[(u32, u32)]) -> bool {
    if text.len() > 4_194_304 {
        return false;
    }
    let Ok(list) = tokens(alloc, text) else {
        return false;
    };
    let same = list.as_slice().len() == places.len();
    let mut pairs = list.as_slice().iter().zip(places.iter());
    same && pairs.all(|(token, place)| (token.start, token.end) == *place)
}

#[test]
fn a_token_has_its_place(rt: HostRuntime) {
    let places = [(1, 2), (2, 4), (5, 11), (15, 16)];
    assert!(rt; stand_at(rt.alloc(), b" (ab \"c\\00\";;d\n)", &places));
}

// The longest text: blanks, and a bracket at the end.
fn blanks(alloc: Global) -> Result<Vec<u8>, Fail> {
    let mut text = Vec::new(alloc);
    text.resize(4_194_303, b' ')?;
    text.push(b')')?;
    Ok(text)
}

#[test]
fn the_longest_text(rt: HostRuntime) -> Result<(), Fail> {
    let text = blanks(rt.alloc())?;
    assert!(rt; has(rt.alloc(), text.as_slice(), b")"));
    Ok(())
}
