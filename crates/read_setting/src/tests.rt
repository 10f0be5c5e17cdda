//! A setting as a host reads it.

use crate::{Refusal, find_label, read_modules, read_policy_file};
use file_calls::FileError;
use std::test::Fail;
use trapeze_io::MemFiles;

/// Two labels, and a function that has no file.
const POLICY: &[u8] = b"labels = ['low', 'top']
flows = [['low', 'top']]
functions = { hello = 'gone.wasm' }
";

/// The same without functions.
const NO_FUNCTIONS: &[u8] = b"labels = ['low', 'top']
flows = [['low', 'top']]
";

#[test]
fn a_setting_is_read(rt: HostRuntime) -> Result<(), Fail> {
    let mut files = MemFiles::new(rt.alloc());
    files.hold("p.toml", POLICY)?;
    files.hold("q.toml", NO_FUNCTIONS)?;
    let Ok(policy) = read_policy_file(rt.alloc(), &mut files, 0, "q.toml") else {
        return Err(Fail::new("no policy"));
    };
    assert!(rt; find_label(policy.lattice(), 0, "top").is_ok());
    assert!(rt;
        find_label(policy.lattice(), 0, "bob").err()
            == Some(FileError::Refused {
                place: 0,
                refusal: Refusal::Label
            })
    );
    assert!(rt; read_modules(rt.alloc(), &mut files, 1, &policy).is_ok());
    let Ok(policy) = read_policy_file(rt.alloc(), &mut files, 0, "p.toml") else {
        return Err(Fail::new("no policy"));
    };
    assert!(rt;
        read_modules(rt.alloc(), &mut files, 1, &policy).err()
            == Some(FileError::Fault { place: 1 })
    );
    Ok(())
}
