//! Files and outputs that fail, at each of their calls in turn.

use super::calls::{FOUR, Plan, Row, SOUND, ends};
use super::longer::{idle_lines, repeated};
use std::alloc::Global;
use std::test::Fail;

/// One label, its client and one function.
const ONE: &str = "labels = ['low']
clients = { carol = { clearance = 'low' } }
functions = { hello = 'echo.wasm' }
";

/// A reply, turns, a put and a remark without a line end.
const EVENTS: &str =
    "ask low carol hello r1 x6869\nturn low 2\nput low x6b x01\nturn low\n# the end";

/// What is written of all these events, and the facet in the end.
const WHOLE: &str =
    "reply low carol r1 x6869\nturn low 1 hello r1 ended\nidle low 2\nidle low 3\nfacet low x6b x01\n";

/// What is written of the ask and its turn, before the put, and before the end of the file.
const ANSWERED: &str = "reply low carol r1 x6869\nturn low 1 hello r1 ended\n";

const REPLY: &str = "reply low carol r1 x6869\nturn low 1 hello r1 ended\nidle low 2\n";

const ALL: &str = "reply low carol r1 x6869\nturn low 1 hello r1 ended\nidle low 2\nidle low 3\n";

const TRACED: &str = "start low low hello r1\nanswer low carol r1 x6869\nreply low carol r1 x6869\n\
    turn low 1 hello r1 ended\nidle low 2\nwrite low x6b x01\nidle low 3\nfacet low x6b x01\n";

/// The events of the one label, with no fault.
const PLAYED: Row = Row {
    words: "run|p.toml|e.txt",
    policy: (ONE, ""),
    events: EVENTS,
    more: ("more", b""),
    code: 0,
    text: WHOLE,
    error: "",
};

const EVENTS_UNREAD: &str = "cannot read e.txt\n";

const UNWRITTEN: &str = "cannot write output\n";

/// Whether the turns leave this text where this call fails and a read gives 9 bytes at most: the policy is opened by call 1
/// and read by calls 2 to 4, the events are opened by call 5, and call 6 reads their first line.
fn turns_leave<'a>(alloc: Global, events: &'a str, text: &'a str, call: u32) -> Result<bool, Fail> {
    let (code, error) = match call {
        0..=4 => (5, "cannot read p.toml\n"),
        5..=106 => (5, EVENTS_UNREAD),
        _ => (0, ""),
    };
    let row = Row {
        policy: ("labels = ['low']", ""),
        events,
        code,
        text,
        error,
        ..PLAYED
    };
    ends(alloc, &row, [(call, 9), SOUND, SOUND])
}

#[test]
fn a_failed_read_leaves_the_text_of_the_lines_given(rt: HostRuntime) -> Result<(), Fail> {
    let events = repeated(rt.alloc(), "turn low\n", 100)?;
    for call in 1_u32..108 {
        let text = idle_lines(rt.alloc(), "low", call.saturating_sub(6).min(100))?;
        let (events, text) = (events.as_str(), text.as_str());
        assert!(rt; turns_leave(rt.alloc(), events, text, call)?, "call {call}");
    }
    Ok(())
}

/// The most bytes of a read, the first and the last call that fails, the status, the error line and the text. By single bytes
/// the policy's 97 are read by calls 1 to 99, with its opening and its end, the module's 99 by calls 100 to 200, and call 202
/// reads the first of the events, which have lines of 29, 11, 16, 9 and 9 bytes.
const READS: &[(u32, u32, u32, u8, &str, &str)] = &[
    (1, 202, 241, 5, EVENTS_UNREAD, ""),
    (1, 242, 266, 5, EVENTS_UNREAD, REPLY),
    (1, 267, 276, 5, EVENTS_UNREAD, ALL),
    (1, 277, 277, 0, "", WHOLE),
    // Each file whole by one read.
    (u32::MAX, 1, 3, 5, "cannot read p.toml\n", ""),
    (u32::MAX, 4, 6, 5, "cannot read echo.wasm\n", ""),
    (u32::MAX, 7, 8, 5, EVENTS_UNREAD, ""),
    (u32::MAX, 9, 9, 5, EVENTS_UNREAD, ALL),
    (u32::MAX, 10, 10, 0, "", WHOLE),
];

#[test]
fn a_failed_read_leaves_the_text_of_the_whole_lines_and_names_its_file(
    rt: HostRuntime,
) -> Result<(), Fail> {
    for (step, first, last, code, error, text) in READS {
        let row = Row {
            code: *code,
            text,
            error,
            ..PLAYED
        };
        for call in *first..=*last {
            assert!(rt;
                ends(rt.alloc(), &row, [(call, *step), SOUND, SOUND])?,
                "call {call}"
            );
        }
    }
    Ok(())
}

/// What a call writes whose output takes a byte at a time.
const WRITES: &[(&str, &str)] = &[
    ("run|p.toml|e.txt", WHOLE),
    ("view|p.toml|e.txt|low", WHOLE),
    ("trace|p.toml|e.txt", TRACED),
    (
        "check|p.toml",
        "ok: 1 labels, 1 functions, 0 channels, 1 clients\n",
    ),
];

/// Whether a call with these words whose output takes so many bytes, one at a time, and then fails, has the text of so many.
fn stops<'a>(alloc: Global, words: &'a str, text: &'a str, taken: u32) -> Result<bool, Fail> {
    let whole = text.len() <= taken as usize;
    let Some(text) = text.get(..taken as usize) else {
        return Ok(false);
    };
    let row = Row {
        words,
        code: if whole { 0 } else { 6 },
        text,
        error: if whole { "" } else { UNWRITTEN },
        ..PLAYED
    };
    ends(alloc, &row, [SOUND, (taken.saturating_add(1), 1), SOUND])
}

#[test]
fn an_output_that_fails_has_a_prefix_of_the_text(rt: HostRuntime) -> Result<(), Fail> {
    for (words, text) in WRITES {
        for taken in 0..=text.len() as u32 {
            assert!(rt; stops(rt.alloc(), words, text, taken)?, "byte {taken}");
        }
    }
    Ok(())
}

/// The plans of the output and of the error line, the events of the four labels, the status, the text and the error line.
const SINKS: &[(Plan, Plan, &str, u8, &str, &str)] = &[
    // One read gives the whole file, and one write takes the lines of one event.
    ((1, u32::MAX), SOUND, EVENTS, 6, "", UNWRITTEN),
    ((2, u32::MAX), SOUND, EVENTS, 6, ANSWERED, UNWRITTEN),
    ((3, u32::MAX), SOUND, EVENTS, 6, REPLY, UNWRITTEN),
    ((4, u32::MAX), SOUND, EVENTS, 6, ALL, UNWRITTEN),
    // An error line that fails changes no status.
    (SOUND, (1, 5), "turn low\n", 0, "idle low 1\n", ""),
    (SOUND, (1, 5), "walk\n", 4, "", ""),
    (SOUND, (2, 5), "walk\n", 4, "", "event"),
    (SOUND, (3, 5), "walk\n", 4, "", "events lin"),
];

#[test]
fn a_sink_that_fails_has_what_was_written_before(rt: HostRuntime) -> Result<(), Fail> {
    for (out, err, events, code, text, error) in SINKS {
        let row = Row {
            policy: (FOUR, ""),
            events,
            code: *code,
            text,
            error,
            ..PLAYED
        };
        assert!(rt;
            ends(rt.alloc(), &row, [SOUND, *out, *err])?,
            "{text}{error}"
        );
    }
    Ok(())
}
