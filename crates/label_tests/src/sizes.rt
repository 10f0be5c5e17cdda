//! As many labels, functions and clients as there may be, and one more; names and files of functions as long as they may be.

use crate::asked::{Ask, answers};
use crate::policy::told_fault;
use std::alloc::Global;
use std::test::Fail;

/// The text before so many rows and after them, what stands before and after the number of a row, and the fault.
type Many = (
    &'static str,
    u32,
    &'static str,
    &'static str,
    &'static str,
    &'static str,
);

/// Labels, functions and clients.
static MANY: [Many; 4] = [
    ("labels = ['a'", 0, ", 'a", "'", "]", "none"),
    ("labels = ['a'", 64, ", 'a", "'", "]", "lattice too-many"),
    (
        "labels = ['low']\n[functions]\n",
        256,
        "r",
        " = 'e'\n",
        "'' = 1\n",
        "out-of-range functions 0 0",
    ),
    (
        "labels = ['low']\n[clients]\n",
        65_536,
        "r",
        " = { clearance = 'low' }\n",
        "'' = 1\n",
        "out-of-range clients 0 0",
    ),
];

/// The text with so many rows, the last ones first.
fn many(alloc: Global, head: &str, count: u32, name: &str, field: &str) -> Result<String, Fail> {
    let mut text = format!(in alloc; "{head}")?;
    for number in (0..count).rev() {
        let row = format!(in alloc; "{name}{number:05}{field}")?;
        text.push_str(row.as_str())?;
    }
    Ok(text)
}

#[test]
fn there_are_at_most_64_labels_256_functions_and_65536_clients(
    rt: HostRuntime,
) -> Result<(), Fail> {
    let mut all = true;
    for (head, count, name, field, tail, want) in &MANY {
        let mut text = many(rt.alloc(), head, *count, name, field)?;
        text.push_str(tail)?;
        let told = told_fault(rt.alloc(), text.as_bytes())?;
        all = all && told.as_str() == *want;
    }
    assert!(rt; all);
    Ok(())
}

/// 64 labels, of which each flows to the next.
const CHAIN: &str =
    "labels = ['a00', 'a01', 'a02', 'a03', 'a04', 'a05', 'a06', 'a07', 'a08', 'a09', 'a10', 'a11', 'a12', 'a13',
'a14', 'a15', 'a16', 'a17', 'a18', 'a19', 'a20', 'a21', 'a22', 'a23', 'a24', 'a25', 'a26', 'a27', 'a28', 'a29', 'a30', 'a31', 'a32',
'a33', 'a34', 'a35', 'a36', 'a37', 'a38', 'a39', 'a40', 'a41', 'a42', 'a43', 'a44', 'a45', 'a46', 'a47', 'a48', 'a49', 'a50', 'a51',
'a52', 'a53', 'a54', 'a55', 'a56', 'a57', 'a58', 'a59', 'a60', 'a61', 'a62', 'a63']
flows = [";

#[test]
fn a_chain_of_64_labels_is_a_lattice(rt: HostRuntime) -> Result<(), Fail> {
    let mut text = format!(in rt.alloc(); "{CHAIN}")?;
    for number in 0..63u32 {
        let next = number + 1;
        let pair = format!(in rt.alloc(); "['a{number:02}', 'a{next:02}'], ")?;
        text.push_str(pair.as_str())?;
    }
    text.push_str("]\n")?;
    let asks = [
        (Ask::Labels, "64"),
        (Ask::Flows(0, 63), "true"),
        (Ask::Flows(63, 62), "false"),
    ];
    assert!(rt; answers(rt.alloc(), text.as_str(), &asks)?);
    Ok(())
}

#[test]
fn the_last_of_256_functions_is_read(rt: HostRuntime) -> Result<(), Fail> {
    let text = many(
        rt.alloc(),
        "labels = ['low']\n[functions]\n",
        256,
        "r",
        " = 'e'\n",
    )?;
    let asks = [(Ask::Functions, "256"), (Ask::Function(255), "r00255 e")];
    assert!(rt; answers(rt.alloc(), text.as_str(), &asks)?);
    Ok(())
}

#[test]
fn the_last_of_65536_clients_is_read(rt: HostRuntime) -> Result<(), Fail> {
    let head = "labels = ['low']\n[clients]\n";
    let text = many(rt.alloc(), head, 65_536, "r", " = { clearance = 'low' }\n")?;
    let asks = [
        (Ask::Clients, "65536"),
        (Ask::Client(40_001), "r40001 0"),
        (Ask::Client(65_535), "r65535 0"),
    ];
    assert!(rt; answers(rt.alloc(), text.as_str(), &asks)?);
    Ok(())
}

/// A name of a text so many times, a file name of another, and the fault.
static LENGTHS: [(&str, usize, &str, usize, &str); 9] = [
    ("n", 64, "e", 1, "none"),
    ("n", 65, "e", 1, "bad-name functions 1 0"),
    ("''", 1, "e", 1, "bad-name functions 1 0"),
    ("'0_b-c.9'", 1, "e", 1, "none"),
    ("hello", 1, "e", 0, "out-of-range functions 1 0"),
    ("hello", 1, "e", 255, "none"),
    ("hello", 1, "e", 256, "out-of-range functions 1 0"),
    ("hello", 1, "\u{e9}", 127, "none"),
    ("hello", 1, "\u{e9}", 128, "out-of-range functions 1 0"),
];

/// So many times the same text.
fn repeated(alloc: Global, text: &str, count: usize) -> Result<String, Fail> {
    let mut all = String::new(alloc);
    for _time in 0..count {
        all.push_str(text)?;
    }
    Ok(all)
}

#[test]
fn names_have_1_to_64_bytes_and_file_names_1_to_255(rt: HostRuntime) -> Result<(), Fail> {
    let mut all = true;
    for (name, names, file, files, want) in &LENGTHS {
        let name = repeated(rt.alloc(), name, *names)?;
        let file = repeated(rt.alloc(), file, *files)?;
        let text = format!(in rt.alloc(); "labels = ['low']\nfunctions.{name} = '{file}'")?;
        let told = told_fault(rt.alloc(), text.as_bytes())?;
        all = all && told.as_str() == *want;
    }
    assert!(rt; all);
    Ok(())
}
