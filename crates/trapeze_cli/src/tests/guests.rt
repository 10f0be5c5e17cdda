//! The calls of the host, one by one, as a trace tells them.

use super::calls::all_end;
use std::test::Fail;

/// Each a call that is done.
const CALLED: &[&str] = &[
    // `delete` answers 0, and the key is absent after it.
    "0 trace|p.toml|e.txt
/erase = 'erase.wasm'
/put low x6b x01
ask low carol erase r1 x
turn low
/write low x6b x01
start low low erase r1
write low x6b -
answer low carol r1 x00000000
reply low carol r1 x00000000
turn low 1 erase r1 ended
facet low x6b -
/",
    // `delete` of a key for which there is no room answers 1.
    "0 trace|p.toml|e.txt
/erase = 'erase.wasm'
[limits.low]
facets = 0
/ask low carol erase r1 x
turn low
/start low low erase r1
full low x6b
answer low carol r1 x01000000
reply low carol r1 x01000000
turn low 1 erase r1 ended
/",
    // `own_label` gives the label's name.
    "0 trace|p.toml|e.txt
/own = 'own.wasm'
/ask alice ann own r1 x
turn alice
/start alice alice own r1
answer alice ann r1 x616c6963
reply alice ann r1 x616c6963
turn alice 1 own r1 ended
/",
    // `input` and `write`: the answer is 0.
    "0 trace|p.toml|e.txt
/tell = 'tell.wasm'
/ask low carol tell r1 x0a0b
turn low
/start low low tell r1
write low x6b x0a0b
answer low carol r1 x00000000
reply low carol r1 x00000000
turn low 1 tell r1 ended
facet low x6b x0a0b
/",
    // `write` of a value that does not fit answers 1, and the guest goes on.
    "0 trace|p.toml|e.txt
/tell = 'tell.wasm'
[limits.low]
bytes = 2
/ask low carol tell r1 x0a0b
turn low
/start low low tell r1
full low x6b
answer low carol r1 x01000000
reply low carol r1 x01000000
turn low 1 tell r1 ended
/",
    // `read` answers the whole size where it copies less, and -1 where there is no value.
    "0 trace|p.toml|e.txt
/size = 'size.wasm'
/put low x6b x010203
ask low carol size r1 x
turn low
ask alice ann size r2 x
put alice x6b -
turn alice
/write low x6b x010203
start low low size r1
read low x6b x010203
answer low carol r1 x03000000
reply low carol r1 x03000000
turn low 1 size r1 ended
start alice alice size r2
write alice x6b -
read alice x6b -
answer alice ann r2 xffffffff
reply alice ann r2 xffffffff
turn alice 1 size r2 ended
facet low x6b x010203
facet alice x6b -
/",
    // A range past the memory traps.
    "0 trace|p.toml|e.txt
/past = 'past.wasm'
/ask low carol past r1 x
turn low
/start low low past r1
turn low 1 past r1 trapped memory
/",
    // A range that is too long traps, wherever it lies.
    "0 trace|p.toml|e.txt
/long = 'long.wasm'
/ask low carol long r1 x
turn low
/start low low long r1
turn low 1 long r1 trapped size
/",
    // A raise to a label that there is none traps.
    "0 trace|p.toml|e.txt
/lost = 'lost.wasm'
/ask low carol lost r1 x
turn low
/start low low lost r1
turn low 1 lost r1 trapped unknown
/",
    // An activation that runs keeps its place in its list: of two messages the second finds it full.
    "0 trace|p.toml|e.txt
/[channels]
mail = { label = 'low', function = 'hello' }
[limits.low]
queue = 2
/ask low carol twin r1 x6869
turn low 3
/start low low twin r1
send low mail x6869
start low low hello r1
send low mail x6869
drop low hello r1
turn low 1 twin r1 ended
answer low carol r1 x6869
reply low carol r1 x6869
turn low 2 hello r1 ended
idle low 3
/",
    // A raised activation goes on from its new label alone.
    "0 trace|p.toml|e.txt
/[channels]
mail = { label = 'top', function = 'hello' }
/ask low ann lift r1 x6869
turn low 2
turn alice
/start low low lift r1
turn low 1 lift r1 raised
start alice low lift r1
idle low 2
answer alice ann r1 x6869
reply alice ann r1 x6869
turn alice 1 lift r1 ended
/",
];

#[test]
fn each_call_of_the_host_does_what_it_is_for(rt: HostRuntime) -> Result<(), Fail> {
    all_end(&rt, rt.alloc(), CALLED)
}
