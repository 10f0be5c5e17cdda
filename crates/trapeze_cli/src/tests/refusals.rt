//! What is refused, and what comes first where several things are wrong.

use super::calls::{FOUR, Row, SOUND, all_end, ends};
use super::longer::filled;
use std::test::Fail;

const USAGE: &str =
    "usage: trapeze run POLICY EVENTS | trace POLICY EVENTS | view POLICY EVENTS LABEL | check POLICY | exercise N\n";

/// Words of no form, between bars.
const OTHER_FORMS: &[&str] = &[
    "",
    "run",
    "run|p.toml",
    "run|p.toml|e.txt|low",
    "Run|p.toml|e.txt",
    "trace|p.toml",
    "view|p.toml|e.txt",
    "view|p.toml|e.txt|low|low",
    "check",
    "check|p.toml|e.txt",
    "walk|p.toml|e.txt",
    "exercise",
    "exercise|",
    "exercise|x",
    "exercise|0x1",
    "exercise|-1",
    "exercise|+1",
    "exercise|1 ",
    "exercise|18446744073709551616",
    "exercise|000000000000000000007",
    "exercise|1|2",
    "Exercise|1",
];

#[test]
fn words_of_another_form_give_the_usage_line(rt: HostRuntime) -> Result<(), Fail> {
    for words in OTHER_FORMS {
        let row = Row {
            words,
            policy: (FOUR, ""),
            events: "turn low\n",
            more: ("more", b""),
            code: 1,
            text: "",
            error: USAGE,
        };
        assert!(rt; ends(rt.alloc(), &row, [SOUND; 3])?, "{words}");
    }
    Ok(())
}

/// The first input that is refused decides, with what was written before it.
const REFUSED: &[&str] = &[
    // The policy first: it is not there, or refused before any module.
    "5 run|gone|e.txt
/
///cannot read gone
",
    "2 run|p.toml|gone
/labels///policy: toml
",
    // Then each module wholly before the next.
    "5 run|p.toml|e.txt
/labels = ['low']
functions = { a = 'echo.wasm', b = 'gone.wasm', c = 'other.wasm' }
/turn low
//cannot read gone.wasm
",
    "3 run|p.toml|gone
/labels = ['low']
functions = { a = 'echo.wasm', b = 'float.wasm', c = 'gone.wasm' }
///module b: float body 0
",
    "3 run|p.toml|gone
/labels = ['low']
functions = { a = 'other.wasm', b = 'ill.wasm', c = 'gone.wasm' }
///module a: malformed 0
",
    "3 run|p.toml|e.txt
/labels = ['low']
functions = { a = 'echo.wasm', b = 'spin.wasm', c = 'ill.wasm' }
/walk
//module c: ill-typed 0
",
    // Then the events.
    "5 run|p.toml|gone
/labels = ['low']
functions = { a = 'echo.wasm', b = 'spin.wasm', c = 'echo.wasm' }
///cannot read gone
",
    "4 run|p.toml|e.txt
/labels = ['low']
functions = { a = 'echo.wasm', b = 'spin.wasm', c = 'echo.wasm' }
/walk
//events line 1: word
",
    // A check refuses the same policies and modules.
    "2 check|p.toml
/labels = []///policy: lattice no-labels
",
    "5 check|p.toml
/labels = ['low']
functions = { a = 'echo.wasm', b = 'gone.wasm', c = 'gone.wasm' }
///cannot read gone.wasm
",
    "3 check|p.toml
/labels = ['low']
functions = { a = 'echo.wasm', b = 'float.wasm', c = 'gone.wasm' }
///module b: float body 0
",
    "3 check|p.toml
/labels = ['low']
functions = { a = 'echo.wasm', b = 'cut.wasm', c = 'gone.wasm' }
///module b: malformed 82
",
    // An unknown label comes behind the policy and before the modules.
    "1 view|p.toml|gone|low
/labels = ['high']///usage: trapeze run POLICY EVENTS | trace POLICY EVENTS | view POLICY EVENTS LABEL | check POLICY | exercise N
",
    "1 view|p.toml|gone|low
/labels = ['high']
functions = { a = 'gone.wasm' }///usage: trapeze run POLICY EVENTS | trace POLICY EVENTS | view POLICY EVENTS LABEL | check POLICY | exercise N
",
    "5 view|p.toml|gone|low
/labels = ['low']
functions = { a = 'gone.wasm' }///cannot read gone.wasm
",
    "2 view|p.toml|gone|low
/labels = ['high', 'high']///policy: lattice repeated 1
",
    // Before a bad line the events are played, without their facets.
    "4 run|p.toml|e.txt
/
/walk low
//events line 1: word
",
    "4 run|p.toml|e.txt
/
/put low x6b x01
turn low
put low x6g x01
/idle low 1
/events line 3: bad-hex
",
    "4 run|p.toml|e.txt
/
/turn low

# a comment
turn lox
turn low
/idle low 1
/events line 4: unknown-label
",
    "4 run|p.toml|e.txt
/
/turn bob 1000001
//events line 1: bad-number
",
    "4 run|p.toml|e.txt
/
/ask low carol hello r1 x6869
turn low
turn low 1 1/reply low carol r1 x6869
turn low 1 hello r1 ended
/events line 3: count
",
    "4 run|p.toml|e.txt
/
/turn low 2
ask low dave hello r1 x
/idle low 1
idle low 2
/events line 2: unknown-client
",
    "4 run|p.toml|e.txt
/
/ask low carol hullo r1 x
//events line 1: unknown-function
",
    "4 run|p.toml|e.txt
/
/ask low carol hello Ann x
//events line 1: bad-id
",
    // A policy's fault has its place.
    "2 run|p.toml|e.txt
/[limits.low]
queue = 0
///policy: out-of-range limits 1 4
",
    "2 run|p.toml|e.txt
/[clients.zed]
///policy: missing clients 4 1
",
    "2 run|p.toml|e.txt
/[channels.mail]
label = 'top'
///policy: missing channels 1 2
",
    "2 run|p.toml|e.txt
/[gates.g]
source = 'up'
///policy: unknown-label gates 1 1
",
    "2 run|p.toml|e.txt
/[more]
///policy: extra root 5 0
",
];

#[test]
fn the_first_input_that_is_refused_decides(rt: HostRuntime) -> Result<(), Fail> {
    all_end(&rt, rt.alloc(), REFUSED)
}

/// A file of so many bytes, and how the call ends.
const LONG: &[(&str, u8, usize, u8, &str)] = &[
    ("p.toml", b'#', 1_048_576, 2, "policy: missing labels 0 0\n"),
    ("p.toml", b'#', 1_048_577, 8, "too long: p.toml\n"),
    ("echo.wasm", 0, 4_194_304, 3, "module hello: malformed 0\n"),
    ("echo.wasm", 0, 4_194_305, 8, "too long: echo.wasm\n"),
];

#[test]
fn a_file_of_one_byte_past_its_limit_is_too_long(rt: HostRuntime) -> Result<(), Fail> {
    for (name, byte, count, code, error) in LONG {
        let bytes = filled(rt.alloc(), *byte, *count, b"")?;
        let row = Row {
            words: "run|p.toml|e.txt",
            policy: (FOUR, ""),
            events: "",
            more: (name, bytes.as_slice()),
            code: *code,
            text: "",
            error,
        };
        assert!(rt; ends(rt.alloc(), &row, [SOUND; 3])?, "{error}");
    }
    Ok(())
}
