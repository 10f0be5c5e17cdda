//! Worked cases: what functions under four labels write.

use super::calls::all_end;
use std::test::Fail;

/// Each a call that is done.
const WORKED: &[&str] = &[
    // An ask and a turn: a reply, and the end.
    "0 run|p.toml|e.txt
/[channels]
mail = { label = 'top', function = 'hello' }
/ask low carol hello r1 x6869
turn low
/reply low carol r1 x6869
turn low 1 hello r1 ended
/",
    // Three units for each turn.
    "0 run|p.toml|e.txt
/[channels]
mail = { label = 'top', function = 'hello' }
[limits.low]
quantum = 3
/ask low carol hello r1 x6869
turn low 2
/turn low 1 hello r1 waits
reply low carol r1 x6869
turn low 2 hello r1 ended
/",
    // Idle turns are counted.
    "0 run|p.toml|e.txt
/[channels]
mail = { label = 'top', function = 'hello' }
/turn bob
turn bob 2
/idle bob 1
idle bob 2
idle bob 3
/",
    // An endless activation has its fuel, and one at low runs between its turns.
    "0 run|p.toml|e.txt
/[channels]
mail = { label = 'top', function = 'hello' }
[limits.alice]
quantum = 10
fuel = 25
/ask alice ann spin r1 x
ask low carol hello r2 x6869
turn alice
turn low
turn alice 3
/turn alice 1 spin r1 waits
reply low carol r2 x6869
turn low 1 hello r2 ended
turn alice 2 spin r1 waits
turn alice 3 spin r1 trapped fuel
idle alice 4
/",
    // No page is left.
    "0 run|p.toml|e.txt
/[channels]
mail = { label = 'top', function = 'hello' }
[limits.low]
pages = 0
/ask low carol hello r1 x
turn low
/turn low 1 hello r1 trapped pages
/",
    // A look sees the latest write that flows to it.
    "0 run|p.toml|e.txt
/[channels]
mail = { label = 'top', function = 'hello' }
/put low x6b x01
put alice x6b x02
ask bob sam look r1 x
turn bob
ask alice sam look r2 x
turn alice
ask top sam look r3 x
turn top
/reply top sam r1 x01
turn bob 1 look r1 ended
reply top sam r2 x02
turn alice 1 look r2 ended
reply top sam r3 x02
turn top 1 look r3 ended
facet low x6b x01
facet alice x6b x02
/",
    // The latest write, not the one of the highest label.
    "0 run|p.toml|e.txt
/[channels]
mail = { label = 'top', function = 'hello' }
/put low x6b x01
put alice x6b x02
put low x6b x03
ask alice sam look r1 x
turn alice
/reply top sam r1 x03
turn alice 1 look r1 ended
facet low x6b x03
facet alice x6b x02
/",
    // An absent value above a value.
    "0 run|p.toml|e.txt
/[channels]
mail = { label = 'top', function = 'hello' }
/put low x6b x01
put alice x6b -
ask alice sam look r1 x
turn alice
ask low sam look r2 x
turn low
/turn alice 1 look r1 trapped size
reply top sam r2 x01
turn low 1 look r2 ended
facet low x6b x01
facet alice x6b -
/",
    // A value is stored, and looked up.
    "0 run|p.toml|e.txt
/[channels]
mail = { label = 'top', function = 'hello' }
/ask alice ann store r1 x0a
turn alice
ask alice ann look r2 x
turn alice
/turn alice 1 store r1 ended
reply alice ann r2 x0a
turn alice 2 look r2 ended
facet alice x6b x0a
/",
    // A message to a label that it does not flow to vanishes.
    "0 run|p.toml|e.txt
/[channels]
mail = { label = 'low', function = 'hello' }
/ask alice ann twin r1 x6869
turn alice
turn low
/turn alice 1 twin r1 ended
idle low 1
/",
    // The second message finds a full list, and its sender goes on.
    "0 run|p.toml|e.txt
/[channels]
mail = { label = 'top', function = 'hello' }
[limits.top]
queue = 1
/ask low carol twin r1 x6869
turn low
/drop top hello r1
turn low 1 twin r1 ended
/",
    // Both messages find room.
    "0 run|p.toml|e.txt
/[channels]
mail = { label = 'top', function = 'hello' }
[limits.top]
queue = 9
/ask low carol twin r1 x6869
turn low
/turn low 1 twin r1 ended
/",
    // Two messages of one request: the second reply vanishes.
    "0 run|p.toml|e.txt
/[channels]
mail = { label = 'low', function = 'hello' }
/ask low carol twin r1 x6869
turn low 3
/turn low 1 twin r1 ended
reply low carol r1 x6869
turn low 2 hello r1 ended
turn low 3 hello r1 ended
/",
    // There is no channel.
    "0 run|p.toml|e.txt
/
/ask low carol twin r1 x
turn low
/turn low 1 twin r1 trapped unknown
/",
    // A raise loses the clients below.
    "0 run|p.toml|e.txt
/[channels]
mail = { label = 'top', function = 'hello' }
/ask low carol lift r1 x6869
ask low ann lift r2 x6869
turn low 2
turn alice 2
/turn low 1 lift r1 raised
turn low 2 lift r2 raised
turn alice 1 lift r1 ended
reply alice ann r2 x6869
turn alice 2 lift r2 ended
/",
    // A raise to its own label goes on.
    "0 run|p.toml|e.txt
/[channels]
mail = { label = 'top', function = 'hello' }
/ask alice ann lift r1 x6869
turn alice
/reply alice ann r1 x6869
turn alice 1 lift r1 ended
/",
    // A gate releases one byte.
    "0 run|p.toml|e.txt
/give = 'give.wasm'
[channels]
mail = { label = 'top', function = 'hello' }
[gates.g]
source = 'alice'
target = 'low'
function = 'store'
filter = 'first'
count = 1
/ask alice ann give r1 x6869
turn alice
turn low
ask low carol look r2 x
turn low
/turn alice 1 give r1 ended
turn low 1 store - ended
reply low carol r2 x68
turn low 2 look r2 ended
facet low x6b x68
/",
    // A gate of another source.
    "0 run|p.toml|e.txt
/give = 'give.wasm'
[channels]
mail = { label = 'top', function = 'hello' }
[gates.g]
source = 'alice'
target = 'low'
function = 'store'
filter = 'first'
count = 1
/ask bob sam give r1 x6869
turn bob
turn low
/turn bob 1 give r1 ended
idle low 1
/",
    // A gate releases the length.
    "0 run|p.toml|e.txt
/give = 'give.wasm'
[channels]
mail = { label = 'top', function = 'hello' }
[gates.g]
source = 'alice'
target = 'low'
function = 'store'
filter = 'length'
/ask alice ann give r1 x6869
turn alice
turn low
ask low carol look r2 x
turn low
/turn alice 1 give r1 ended
turn low 1 store - ended
reply low carol r2 x02000000
turn low 2 look r2 ended
facet low x6b x02000000
/",
    // There is no gate.
    "0 run|p.toml|e.txt
/give = 'give.wasm'
[channels]
mail = { label = 'top', function = 'hello' }
/ask alice ann give r1 x6869
turn alice
turn low
ask low carol look r2 x
turn low
/turn alice 1 give r1 trapped unknown
idle low 1
turn low 2 look r2 trapped size
/",
    // A trace of a reply.
    "0 trace|p.toml|e.txt
/[channels]
mail = { label = 'top', function = 'hello' }
/ask low carol hello r1 x6869
turn low
/start low low hello r1
answer low carol r1 x6869
reply low carol r1 x6869
turn low 1 hello r1 ended
/",
    // A trace of an absent value above a value.
    "0 trace|p.toml|e.txt
/[channels]
mail = { label = 'top', function = 'hello' }
/put low x6b x01
put alice x6b -
ask alice sam look r1 x
turn alice
ask low sam look r2 x
turn low
/write low x6b x01
write alice x6b -
start alice alice look r1
read alice x6b -
turn alice 1 look r1 trapped size
start low low look r2
read low x6b x01
answer low sam r2 x01
reply top sam r2 x01
turn low 1 look r2 ended
facet low x6b x01
facet alice x6b -
/",
    // A trace of a value that is stored, and looked up.
    "0 trace|p.toml|e.txt
/[channels]
mail = { label = 'top', function = 'hello' }
/ask alice ann store r1 x0a
turn alice
ask alice ann look r2 x
turn alice
/start alice alice store r1
write alice x6b x0a
turn alice 1 store r1 ended
start alice alice look r2
read alice x6b x0a
answer alice ann r2 x0a
reply alice ann r2 x0a
turn alice 2 look r2 ended
facet alice x6b x0a
/",
    // A trace of two messages, the second into a full list.
    "0 trace|p.toml|e.txt
/[channels]
mail = { label = 'top', function = 'hello' }
[limits.top]
queue = 1
/ask low carol twin r1 x6869
turn low
/start low low twin r1
send low mail x6869
start top low hello r1
send low mail x6869
drop top hello r1
turn low 1 twin r1 ended
/",
    // A trace of a release.
    "0 trace|p.toml|e.txt
/give = 'give.wasm'
[channels]
mail = { label = 'top', function = 'hello' }
[gates.g]
source = 'alice'
target = 'low'
function = 'store'
filter = 'first'
count = 1
/ask alice ann give r1 x6869
turn alice
turn low
ask low carol look r2 x
turn low
/start alice alice give r1
start low alice store -
turn alice 1 give r1 ended
write low x6b x68
turn low 1 store - ended
start low low look r2
read low x6b x68
answer low carol r2 x68
reply low carol r2 x68
turn low 2 look r2 ended
facet low x6b x68
/",
    // The view at low of the endless activation at alice.
    "0 view|p.toml|e.txt|low
/[channels]
mail = { label = 'top', function = 'hello' }
[limits.alice]
quantum = 10
fuel = 25
/ask alice ann spin r1 x
ask low carol hello r2 x6869
turn alice
turn low
turn alice 3
/reply low carol r2 x6869
turn low 1 hello r2 ended
/",
    // The same without the events of alice.
    "0 view|p.toml|e.txt|low
/[channels]
mail = { label = 'top', function = 'hello' }
[limits.alice]
quantum = 10
fuel = 25
/ask low carol hello r2 x6869
turn low
/reply low carol r2 x6869
turn low 1 hello r2 ended
/",
    // The view at alice of three looks.
    "0 view|p.toml|e.txt|alice
/[channels]
mail = { label = 'top', function = 'hello' }
/put low x6b x01
put alice x6b x02
ask bob sam look r1 x
turn bob
ask alice sam look r2 x
turn alice
ask top sam look r3 x
turn top
/turn alice 1 look r2 ended
facet low x6b x01
facet alice x6b x02
/",
    // The view at low of a release.
    "0 view|p.toml|e.txt|low
/give = 'give.wasm'
[channels]
mail = { label = 'top', function = 'hello' }
[gates.g]
source = 'alice'
target = 'low'
function = 'store'
filter = 'first'
count = 1
/ask alice ann give r1 x6869
turn alice
turn low
ask low carol look r2 x
turn low
/turn low 1 store - ended
reply low carol r2 x68
turn low 2 look r2 ended
facet low x6b x68
/",
    // A module with a table, a global, long indices and a custom section.
    "0 run|p.toml|e.txt
/labels = ['low']
clients = { carol = { clearance = 'low' } }
functions = { hello = 'built.wasm' }
/ask low carol hello r1 x6869
turn low
/reply low carol r1 x6869
turn low 1 hello r1 ended
/",
    // A fill, a copy and a sign extension.
    "0 run|p.toml|e.txt
/labels = ['low']
clients = { carol = { clearance = 'low' } }
functions = { hello = 'fill.wasm' }
/ask low carol hello r1 x
turn low
/reply low carol r1 x0707070080ffffff
turn low 1 hello r1 ended
/",
];

#[test]
fn functions_under_four_labels_write_their_lines(rt: HostRuntime) -> Result<(), Fail> {
    all_end(&rt, rt.alloc(), WORKED)
}
