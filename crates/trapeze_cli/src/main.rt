//! Plays a file of events against functions and a labelled store, under a policy that says which label may flow to which, and
//! prints labelled lines.
#![tactic(auto)]

ghost use Rattle.std.specs.Prelude.{◌≡◌, ◌≢◌};

mod command;
mod counts;
mod exercise;
mod forms;
mod halt;
mod inputs;
mod laws;
mod numbers;
mod play;
mod report;
mod shown;
mod status;
mod stream;

use command::trapeze;
use report::report;
use status::Status;
use std::env;
use std::io::ErrorKind;
use std::process::ExitCode;
use trapeze_io::{RealFiles, RealSink, Sink};

fn main(rt: HostRuntime) -> ExitCode {
    let mut files = RealFiles::new(&rt);
    let mut out = RealSink::new(rt.stdout());
    let mut err = RealSink::new(rt.stderr());
    let mut words = Vec::new(rt.alloc());
    match env::args(&rt) {
        Ok(arguments) => {
            for word in arguments.skip(1) {
                if words.push(word).is_err() {
                    return end(&mut err, Status::NoMemory);
                }
            }
        }
        Err(error) => return end(&mut err, unread(error.kind())),
    }
    let status = trapeze(rt.alloc(), words.as_slice(), &mut files, &mut out, &mut err);
    ExitCode::from(status.code())
}

/// How a program ends whose words could not be read. A word that is no text is of no form.
fn unread(kind: ErrorKind) -> Status
    ensures text { kind ≡ ErrorKind.InvalidData → result ≡ Status.Usage }
    ensures memory { kind ≢ ErrorKind.InvalidData → result ≡ Status.NoMemory }
{
    match kind {
        ErrorKind::InvalidData => Status::Usage,
        _ => Status::NoMemory,
    }
}

/// The end of a program whose words could not be read.
fn end<E: Sink>(err: &mut E, status: Status) -> ExitCode {
    report(err, status, None, None);
    ExitCode::from(status.code())
}

#[cfg(test)]
mod tests;
