//! Puts, and the facets that are left in the end.

use super::calls::{Row, SOUND, all_end, ends};
use super::longer::filled;
use std::test::Fail;

/// Each a call that is done.
const PUTS: &[&str] = &[
    // Nothing.
    "0 run|p.toml|e.txt
/
///",
    "0 run|p.toml|e.txt
/
/# nothing

//",
    // The facets by key and label.
    "0 run|p.toml|e.txt
/
/put low x6b x01
put alice x6b x02
put low x61 -
/facet low x61 -
facet low x6b x01
facet alice x6b x02
/",
    "0 trace|p.toml|e.txt
/
/put low x6b x01
put alice x6b x02
put low x61 -
/write low x6b x01
write alice x6b x02
write low x61 -
facet low x61 -
facet low x6b x01
facet alice x6b x02
/",
    "0 view|p.toml|e.txt|alice
/
/put bob x6b x01
put top x6b x02
put alice x6c x03
put low x x
/facet low x x
facet alice x6c x03
/",
    // Digits of either case, and a last line without its end.
    "0 run|p.toml|e.txt
/
/put bob x6B xaB
put bob x6b -/facet bob x6b -
/",
    "0 run|p.toml|e.txt
/
/put low x6b x01
turn low/idle low 1
facet low x6b x01
/",
    // A write past the number of facets of its label.
    "0 run|p.toml|e.txt
/[limits.low]
facets = 1
/put low x6b x01
put low x6c x02
put low x6b x03
/full low x6c
facet low x6b x03
/",
    // Another label's limits, and another label's facets of the key, do not matter.
    "0 run|p.toml|e.txt
/[limits.alice]
facets = 0
/put low x6b x01
put alice x6b x02
put low x6c -
/full alice x6b
facet low x6b x01
facet low x6c -
/",
    // A key of one byte and values of two, one and three bytes: sizes three, two and four.
    "0 run|p.toml|e.txt
/[limits.low]
bytes = 5
/put low x6b x0102
put low x6c x03
put low x6b x010203
put low x6b -
/full low x6b
facet low x6b -
facet low x6c x03
/",
    // A trace has the line of the write that does not fit in place of the write's.
    "0 trace|p.toml|e.txt
/[limits.low]
facets = 1
/put low x6b x01
put low x6c x02
/write low x6b x01
full low x6c
facet low x6b x01
/",
    // A check counts what the policy names.
    "0 check|p.toml
/[channels]
mail = { label = 'top', function = 'hello' }
//ok: 4 labels, 6 functions, 1 channels, 3 clients
/",
    // Gates are not counted, and the event file is not read.
    "0 check|p.toml
/give = 'give.wasm'
[gates.g]
source = 'top'
target = 'low'
function = 'give'
filter = 'all'
/no event
/ok: 4 labels, 7 functions, 0 channels, 3 clients
/",
];

#[test]
fn puts_leave_their_facets(rt: HostRuntime) -> Result<(), Fail> {
    all_end(&rt, rt.alloc(), PUTS)
}

/// Two puts behind the remark of a file.
const TWO_PUTS: Row = Row {
    words: "run|p.toml|e.txt",
    policy: ("labels = ['low']", ""),
    events: "",
    more: ("e.txt", b""),
    code: 0,
    text: "facet low x6b x01\nfacet low x6c x02\n",
    error: "",
};

#[test]
fn a_line_may_lie_in_two_pieces(rt: HostRuntime) -> Result<(), Fail> {
    // A piece has at most 65,536 bytes. The line of the first put begins before that place, there, or behind it.
    for remark in [65_525, 65_535, 65_536] {
        let puts = b"\nput low x6b x01\nput low x6c x02";
        let events = filled(rt.alloc(), b'#', remark, puts)?;
        let more = ("e.txt", events.as_slice());
        assert!(rt; ends(rt.alloc(), &Row { more, ..TWO_PUTS }, [SOUND; 3])?);
    }
    Ok(())
}
