//! What no clause says: the text of whole calls, worked out by hand, and files and sinks that fail at each of their calls.

mod calls;
mod exercise;
mod failing;
mod guests;
mod hosts;
mod lines;
mod longer;
mod modules;
mod refusals;
mod shop;
mod stores;
mod words;
mod worked;
