//! The exercise, whose lines another program counted, which follows the rules for its six modules alone.

use super::calls::{Row, SOUND, ends};
use std::test::Fail;

/// The call, which reads no file.
const EXERCISE: Row = Row {
    words: "exercise|0",
    policy: ("", ""),
    events: "",
    more: ("more", b""),
    code: 0,
    text: "events 20000\nreply 626\nturn 9842\nidle 9\ndrop 2712\nfull 581\nfacet 32\n",
    error: "",
};

#[test]
fn the_lines_of_each_kind_are_counted(rt: HostRuntime) -> Result<(), Fail> {
    assert!(rt; ends(rt.alloc(), &EXERCISE, [SOUND; 3])?);
    Ok(())
}
