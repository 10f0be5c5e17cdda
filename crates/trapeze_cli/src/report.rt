//! The line of a status on the error sink.

ghost use Rattle.std.specs.Prelude.{◌≡◌, [], slice_index_or};
ghost use Rattle.trapeze_io.specs.Appends.{Says};
ghost use Rattle.trapeze_cli.specs.Statuses.{error_text};
ghost use Rattle.trapeze_cli.specs.Named.{form_told, names_told};
ghost use Rattle.trapeze_cli.specs.Forms.{file_name};

use crate::forms::Form;
use crate::status::{Input, Status};
use fault_texts::{report_bad_line, report_module, report_policy};
use policy_toml::Policy;
use trapeze_io::{Sink, say_pieces};

/// Writes the line of a status to the error sink, as far as the sink takes it. It names what the words and the policy name. It
/// takes no memory.
pub fn report<E: Sink>(err: &mut E, status: Status, form: Option<&Form>, policy: Option<&Policy>)
    ensures { Says (E.written err.old) (E.written err.new) (E.faults err.old) (E.faults err.new)
        (error_text (form_told form.entry) (names_told policy.entry) status) }
{
    match status {
        Status::Done => {}
        Status::Usage => say_pieces(err, &[USAGE]),
        Status::Policy(fault) => report_policy(err, fault),
        Status::Module { function, fault } => {
            report_module(err, function_name(policy, function), fault);
        }
        Status::Events(error) => report_bad_line(err, error),
        Status::ReadFault(input) => {
            say_pieces(
                err,
                &[b"cannot read ", file_name(form, policy, input), b"\n"],
            );
        }
        Status::WriteFault => say_pieces(err, &[b"cannot write output\n"]),
        Status::NoMemory => say_pieces(err, &[b"out of memory\n"]),
        Status::TooLong(input) => {
            say_pieces(err, &[b"too long: ", file_name(form, policy, input), b"\n"]);
        }
    }
}

const USAGE: &[u8] =
    b"usage: trapeze run POLICY EVENTS | trace POLICY EVENTS | view POLICY EVENTS LABEL | check POLICY | exercise N\n";

/// The name of a function, and no byte where the policy has none with this number.
fn function_name(policy: Option<&Policy>, function: u32) -> &[u8]
    ensures { result.now ≡ slice_index_or (names_told policy.entry).functions function [] }
{
    let Some(policy) = policy else {
        return b"";
    };
    match policy.functions().get(function as usize) {
        Some(name) => name.as_bytes(),
        None => b"",
    }
}

/// The name of the file of a function, and no byte where the policy has none with this number.
fn function_file(policy: Option<&Policy>, function: u32) -> &[u8]
    ensures { result.now ≡ slice_index_or (names_told policy.entry).files function [] }
{
    let Some(policy) = policy else {
        return b"";
    };
    if (function as usize) < policy.functions().len() {
        policy.function_file(function).as_bytes()
    } else {
        b""
    }
}

/// The name of the file that an input is.
fn file_name<'a>(form: Option<&'a Form>, policy: Option<&'a Policy>, input: Input) -> &'a [u8]
    ensures { result.now ≡ file_name (form_told form.entry) (names_told policy.entry).files input }
{
    let Some(form) = form else {
        return b"";
    };
    match input {
        Input::Policy => form.policy().as_bytes(),
        Input::Module(function) => function_file(policy, function),
        Input::Events => form.events().as_bytes(),
    }
}
