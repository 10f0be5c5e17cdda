//! Bytes and lines that a loop makes.

use std::alloc::Global;
use std::test::Fail;

/// So many equal bytes, and others behind them.
pub(crate) fn filled(alloc: Global, byte: u8, count: usize, tail: &[u8]) -> Result<Vec<u8>, Fail> {
    let mut bytes = vec![in alloc; byte; count]?;
    bytes.extend_from_slice(tail)?;
    Ok(bytes)
}

/// So many equal lines.
pub(crate) fn repeated(alloc: Global, line: &str, count: u32) -> Result<String, Fail> {
    let mut text = String::new(alloc);
    for _ in 0..count {
        text.push_str(line)?;
    }
    Ok(text)
}

/// The lines of so many idle turns of a label.
pub(crate) fn idle_lines(alloc: Global, label: &str, count: u32) -> Result<String, Fail> {
    let mut text = String::new(alloc);
    for number in 0..count {
        let line = format!(in alloc; "idle {label} {}\n", number + 1)?;
        text.push_str(line.as_str())?;
    }
    Ok(text)
}
