//! Calls of the program over files in memory, each a row: its words, its files, and what it answers and writes.

use super::modules::MODULES;
use crate::command::trapeze;
use std::alloc::Global;
use std::process::Abort;
use std::test::Fail;
use trapeze_io::{MemFiles, MemSink};

/// Four labels, a client at three of them, and six functions, which more may follow.
pub(crate) const FOUR: &str = "\
labels = ['low', 'alice', 'bob', 'top']
flows = [['low', 'alice'], ['low', 'bob'], ['alice', 'top'], ['bob', 'top']]

[clients]
ann = { clearance = 'alice' }
carol = { clearance = 'low' }
sam = { clearance = 'top' }

[functions]
hello = 'echo.wasm'
lift = 'lift.wasm'
look = 'look.wasm'
spin = 'spin.wasm'
store = 'store.wasm'
twin = 'twin.wasm'
";

/// A call and how it ends.
#[derive(Clone, Copy)]
pub(crate) struct Row<'a> {
    /// The words, between bars.
    pub(crate) words: &'a str,
    /// The policy, and what follows it in its file.
    pub(crate) policy: (&'a str, &'a str),
    pub(crate) events: &'a str,
    /// One more file, in place of any of its name.
    pub(crate) more: (&'a str, &'a [u8]),
    pub(crate) code: u8,
    pub(crate) text: &'a str,
    pub(crate) error: &'a str,
}

/// Which call fails, if not 0, and the most bytes that a call moves.
pub(crate) type Plan = (u32, u32);

/// No call fails.
pub(crate) const SOUND: Plan = (0, u32::MAX);

/// The row of a text: its status and its words, what follows the four labels or a whole policy, its events, its text and its
/// error line, each behind a stroke.
fn row_of(case: &str) -> Option<Row<'_>> {
    let (head, rest) = case.split_once("\n/")?;
    let (code, words) = head.split_once(' ')?;
    let (policy, rest) = rest.split_once('/')?;
    let (events, rest) = rest.split_once('/')?;
    let (text, error) = rest.split_once('/')?;
    let before = if policy.starts_with("labels") {
        ""
    } else {
        FOUR
    };
    Some(Row {
        words,
        policy: (before, policy),
        events,
        more: ("more", b""),
        code: code.parse().ok()?,
        text,
        error,
    })
}

/// The words between the bars.
fn words_of(alloc: Global, line: &str) -> Result<Vec<String>, Fail> {
    let mut words = Vec::new(alloc);
    if line.is_empty() {
        return Ok(words);
    }
    for word in line.split('|') {
        words.push(String::from_str(alloc, word)?)?;
    }
    Ok(words)
}

/// The files of the row, and all modules.
fn files_of(alloc: Global, row: &Row, plan: Plan) -> Result<MemFiles, Fail> {
    let mut files = MemFiles::new(alloc);
    for (name, bytes) in MODULES {
        files.hold(name, bytes)?;
    }
    let mut policy = String::from_str(alloc, row.policy.0)?;
    policy.push_str(row.policy.1)?;
    files.hold("p.toml", policy.as_bytes())?;
    files.hold("e.txt", row.events.as_bytes())?;
    files.hold(row.more.0, row.more.1)?;
    files.step(plan.1);
    files.fail_at(plan.0)?;
    Ok(files)
}

/// An empty sink of the plan.
fn sink(alloc: Global, plan: Plan) -> Result<MemSink, Fail> {
    let mut sink = MemSink::new(alloc);
    sink.step(plan.1);
    sink.fail_at(plan.0)?;
    Ok(sink)
}

/// Whether the call, over files and sinks of these plans, ends as the row says.
pub(crate) fn ends(alloc: Global, row: &Row, plans: [Plan; 3]) -> Result<bool, Fail> {
    let words = words_of(alloc, row.words)?;
    let mut files = files_of(alloc, row, plans[0])?;
    let mut out = sink(alloc, plans[1])?;
    let mut err = sink(alloc, plans[2])?;
    let status = trapeze(alloc, words.as_slice(), &mut files, &mut out, &mut err);
    Ok(
        status.code() == row.code
            && out.written() == row.text.as_bytes()
            && err.written() == row.error.as_bytes(),
    )
}

/// What the call writes that is done over files of this plan, or nothing.
pub(crate) fn viewed(alloc: Global, row: &Row, plan: Plan) -> Result<Vec<u8>, Fail> {
    let words = words_of(alloc, row.words)?;
    let mut files = files_of(alloc, row, plan)?;
    let mut out = sink(alloc, SOUND)?;
    let mut err = sink(alloc, SOUND)?;
    let status = trapeze(alloc, words.as_slice(), &mut files, &mut out, &mut err);
    if status.code() != row.code {
        return Ok(Vec::new(alloc));
    }
    Ok(Vec::from_slice(alloc, out.written())?)
}

/// Whether the call of a row in text ends as the row says.
fn tells(alloc: Global, case: &str) -> Result<bool, Fail> {
    match row_of(case) {
        Some(row) => ends(alloc, &row, [SOUND; 3]),
        None => Ok(false),
    }
}

/// Each call ends as its row says.
pub(crate) fn all_end(rt: &impl Abort, alloc: Global, cases: &[&str]) -> Result<(), Fail> {
    for case in cases {
        assert!(rt; tells(alloc, case)?, "{case}");
    }
    Ok(())
}
