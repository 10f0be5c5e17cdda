//! A list of steps, with ample memory.

use crate::play::FOUR;
use facet_index::{FacetIndex, StoreAnswer, StoreStep, play_steps};
use label_lattice::Label;
use label_limits::Limits;
use policy_toml::read_policy;
use std::test::Fail;
use trapeze_io::Bytes;

#[test]
fn a_write_and_a_read_are_made_in_turn(rt: HostRuntime) -> Result<(), Fail> {
    let policy = read_policy(rt.alloc(), FOUR)?;
    let lattice = policy.lattice();
    assert!(rt; lattice.count() == 4);
    let mut store = FacetIndex::new(rt.alloc(), &[Limits::usual(); 4])?;
    let put = StoreStep::Write {
        at: Label::numbered(0),
        key: Bytes::new(rt.alloc()),
        value: Some(Bytes::new(rt.alloc())),
    };
    let get = StoreStep::Read {
        at: Label::numbered(1),
        key: Bytes::new(rt.alloc()),
    };
    let answers = play_steps(rt.alloc(), &mut store, lattice, &[put, get])?;
    let answers = answers.as_slice();
    assert!(rt; answers.len() == 2);
    assert!(rt; matches!(&answers[0], StoreAnswer::Done));
    assert!(rt; matches!(&answers[1], StoreAnswer::Value(_)));
    Ok(())
}
