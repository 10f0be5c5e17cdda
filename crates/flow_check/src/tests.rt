//! What no clause says: a trace in which one line is changed in each way that a rule forbids, with ample memory.

ghost use Rattle.std.specs.Prelude.{IfOk};
ghost use Rattle.label_lattice.specs.Order.{count};
ghost use Rattle.trapeze_lines.specs.Lines.{IsLabelled};
ghost use Rattle.flow_check.specs.Taken.{IsFor};

use crate::{Checker, Rule, Verdict, check_lines};
use policy_toml::{Policy, read_policy};
use std::alloc::Global;
use std::test::Fail;
use trapeze_lines::{Line, ReadLine, read_text};

/// Four labels, of which alice and bob stand beside each other, a channel to the greatest and one to the least, and a gate.
const POLICY: &[u8] = b"labels = ['low', 'alice', 'bob', 'top']
flows = [['low', 'alice'], ['low', 'bob'], ['alice', 'top'], ['bob', 'top']]
functions = { hello = 'echo.wasm', look = 'look.wasm', store = 'store.wasm' }
channels.mail = { label = 'top', function = 'hello' }
channels.note = { label = 'low', function = 'hello' }
clients.ann = { clearance = 'alice' }
clients.carol = { clearance = 'low' }
gates.g = { source = 'alice', target = 'low', function = 'store', filter = 'first', count = 1 }
";

/// A sound trace in which lines of each kind stand.
const TRACE: [&[u8]; 22] = [
    b"start alice alice store r1",
    b"write alice x6b x0a",
    b"turn alice 1 store r1 ended",
    b"start alice alice look r2",
    b"read alice x6b x0a",
    b"answer alice ann r2 x0a",
    b"reply alice ann r2 x0a",
    b"send alice mail x01",
    b"start top alice hello r2",
    b"turn alice 2 look r2 ended",
    b"start low alice store -",
    b"idle bob 1",
    b"full low x6c",
    b"write low x6b x0b",
    b"read alice x6b x0b",
    b"read low x6b x0b",
    b"read bob x6c -",
    b"turn low 1 store - ended",
    b"send low mail x",
    b"drop top hello -",
    b"facet low x6b x0b",
    b"facet alice x6b x0a",
];

/// A line of the trace, from 1, what stands there in its place, and what is said of the whole: the rule that the line of a number
/// does not pass, or None.
type Change = (usize, &'static [u8], Option<(u64, Rule)>);

const READS: [Change; 7] = [
    (5, b"read alice x6b x0b", Some((5, Rule::Read))),
    (5, b"read alice x6b -", Some((5, Rule::Read))),
    (5, b"read alice x6c -", None),
    (2, b"write top x6b x0a", Some((5, Rule::Read))),
    (15, b"read alice x6b x0a", Some((15, Rule::Read))),
    (16, b"read low x6b x0a", Some((16, Rule::Read))),
    (17, b"read bob x6c x", Some((17, Rule::Read))),
];

const REPLIES: [Change; 9] = [
    (7, b"reply low ann r2 x0a", Some((7, Rule::Reply))),
    (7, b"reply alice carol r2 x0a", Some((7, Rule::Reply))),
    (7, b"reply alice zed r2 x0a", Some((7, Rule::Reply))),
    (7, b"reply alice ann r3 x0a", Some((7, Rule::Reply))),
    (7, b"reply alice ann r2 x0b", Some((7, Rule::Reply))),
    (6, b"answer top ann r2 x0a", Some((7, Rule::Reply))),
    (6, b"answer alice carol r2 x0a", Some((7, Rule::Reply))),
    (6, b"answer low ann r2 x0a", None),
    (6, b"full alice x", Some((7, Rule::Reply))),
];

const STARTS: [Change; 7] = [
    (1, b"start alice top store r1", Some((1, Rule::Start))),
    (1, b"start alice alice nothing r1", Some((1, Rule::Start))),
    (1, b"start alice low store r1", None),
    (11, b"start low alice store r9", Some((11, Rule::Start))),
    (11, b"start low alice look -", Some((11, Rule::Start))),
    (11, b"start low bob store -", Some((11, Rule::Start))),
    (11, b"start bob alice store -", Some((11, Rule::Start))),
];

const SENDS: [Change; 12] = [
    (8, b"send alice nothing x", Some((8, Rule::Send))),
    (8, b"send bob mail x", Some((8, Rule::Send))),
    (8, b"send alice note x", None),
    (9, b"start top alice look r2", Some((8, Rule::Send))),
    (9, b"start top low hello r2", Some((8, Rule::Send))),
    (9, b"start alice alice hello r2", Some((8, Rule::Send))),
    (9, b"idle bob 1", Some((8, Rule::Send))),
    (9, b"drop top hello r2", None),
    (20, b"drop top look -", Some((19, Rule::Send))),
    (20, b"drop alice hello -", Some((19, Rule::Send))),
    (22, b"send alice mail x", None),
    (22, b"send alice nothing x", Some((22, Rule::Send))),
];

const TURNS: [Change; 6] = [
    (3, b"turn alice 2 store r1 ended", Some((3, Rule::Turn))),
    (3, b"turn alice 0 store r1 ended", Some((3, Rule::Turn))),
    (10, b"turn alice 1 look r2 ended", Some((10, Rule::Turn))),
    (12, b"idle alice 2", Some((12, Rule::Turn))),
    (12, b"idle alice 3", None),
    (18, b"idle low 1", None),
];

const FACETS: [Change; 6] = [
    (21, b"facet low x6b x0a", Some((21, Rule::Facet))),
    (21, b"facet low x6b -", Some((21, Rule::Facet))),
    (21, b"facet low x6c -", Some((21, Rule::Facet))),
    (22, b"facet alice x6b x0b", Some((22, Rule::Facet))),
    (22, b"facet top x6b x0b", Some((22, Rule::Facet))),
    (22, b"facet low x6b x0b", None),
];

/// The line with the text.
fn line(alloc: Global, policy: &Policy, text: &[u8]) -> Result<Line, Fail>
    ensures { IfOk result (IsLabelled (count policy.now.lattice)) }
{
    match read_text(alloc, policy.lattice(), text) {
        ReadLine::Line(line) => Ok(line),
        ReadLine::NotALine => Err("not a line")?,
        ReadLine::NoMemory => Err("out of memory")?,
    }
}

/// Takes the line with the text.
fn take(alloc: Global, policy: &Policy, checker: &mut Checker, text: &[u8]) -> Result<(), Fail>
    requires { IsFor (count policy.now.lattice) checker.old }
    ensures { IsFor (count policy.now.lattice) checker.new }
{
    let line = line(alloc, policy, text)?;
    checker.take(policy, &line)?;
    Ok(())
}

/// The verdict of the trace with the text in the place of the line of the number, from 1.
fn verdict(alloc: Global, policy: &Policy, number: usize, text: &[u8]) -> Result<Verdict, Fail> {
    let mut checker = Checker::new(alloc, policy)?;
    'lines: for i in 0..TRACE.len() {
        let told = if i + 1 == number { text } else { TRACE[i] };
        take(alloc, policy, &mut checker, told)?;
    }
    Ok(checker.finish())
}

fn wanted(fault: &Option<(u64, Rule)>) -> Verdict {
    match fault {
        Some((line, rule)) => Verdict::Unsound {
            line: *line,
            rule: *rule,
        },
        None => Verdict::Sound,
    }
}

/// Whether each change comes to what it says.
fn are_told(alloc: Global, changes: &[Change]) -> Result<bool, Fail> {
    let policy = read_policy(alloc, POLICY)?;
    let mut all = true;
    'changes: for (number, text, fault) in changes {
        all = all && verdict(alloc, &policy, *number, *text)? == wanted(fault);
    }
    Ok(all)
}

#[test]
fn a_read_gives_the_latest_write_that_its_label_sees(rt: HostRuntime) -> Result<(), Fail> {
    assert!(&rt; are_told(rt.alloc(), &READS)?);
    Ok(())
}

#[test]
fn a_reply_follows_its_answer_to_the_client(rt: HostRuntime) -> Result<(), Fail> {
    assert!(&rt; are_told(rt.alloc(), &REPLIES)?);
    Ok(())
}

#[test]
fn a_start_comes_from_below_or_through_a_gate(rt: HostRuntime) -> Result<(), Fail> {
    assert!(&rt; are_told(rt.alloc(), &STARTS)?);
    Ok(())
}

#[test]
fn a_message_arrives_on_the_next_line(rt: HostRuntime) -> Result<(), Fail> {
    assert!(&rt; are_told(rt.alloc(), &SENDS)?);
    Ok(())
}

#[test]
fn turns_are_numbered_by_label(rt: HostRuntime) -> Result<(), Fail> {
    assert!(&rt; are_told(rt.alloc(), &TURNS)?);
    Ok(())
}

#[test]
fn a_facet_is_the_last_write_at_its_label(rt: HostRuntime) -> Result<(), Fail> {
    assert!(&rt; are_told(rt.alloc(), &FACETS)?);
    Ok(())
}

#[test]
fn a_list_of_lines_is_checked_whole(rt: HostRuntime) -> Result<(), Fail> {
    let policy = read_policy(rt.alloc(), POLICY)?;
    let low = [
        line(rt.alloc(), &policy, b"start low alice store -")?,
        line(rt.alloc(), &policy, b"idle low 2")?,
    ];
    let verdict = check_lines(rt.alloc(), &policy, &low)?;
    assert!(&rt;
        verdict
            == Verdict::Unsound {
                line: 2,
                rule: Rule::Turn
            }
    );
    Ok(())
}
