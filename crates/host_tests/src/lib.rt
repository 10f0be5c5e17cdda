//! The tests of the host's libraries: rows of texts that one function plays, and what comes.
#![tactic(auto)]

#[cfg(test)]
mod exercises;
#[cfg(test)]
mod files;
#[cfg(test)]
mod labels;
#[cfg(test)]
mod lists;
#[cfg(test)]
mod shown;
#[cfg(test)]
mod texts;
#[cfg(test)]
mod views;
