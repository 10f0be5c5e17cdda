//! The words of a call.

ghost use Rattle.std.specs.Prelude.{◌≡◌, map, string_bytes, option_map};
ghost use Rattle.trapeze_cli.specs.Forms.{command_of};
ghost use Rattle.trapeze_cli.specs.Said.{said_command};

use crate::numbers::number_said;

/// Which lines of a run are asked for.
#[derive(Debug, Clone, Copy, Drop)]
pub(crate) enum Show<'a> {
    /// Those that `run` prints.
    Run,
    /// All.
    Trace,
    /// Those that `run` prints and that flow to the label of this name.
    View(&'a str),
}

/// What is asked of files; each file by its name.
#[derive(Debug, Clone, Copy, Drop)]
pub(crate) enum Form<'a> {
    /// To check a policy and its modules.
    Check(&'a str),
    /// To play an event file under a policy.
    Play(Show<'a>, &'a str, &'a str),
}

/// What the words of a call ask for.
#[derive(Debug, Clone, Copy, Drop)]
pub(crate) enum Command<'a> {
    /// To play the exercise of this number.
    Exercise(u64),
    /// What is asked of files.
    OnFiles(Form<'a>),
}

/// What the words ask for, where the program knows it. It takes no memory.
pub(crate) fn command_of(words: &[String]) -> Option<Command<'_>>
    ensures { option_map said_command result ≡ command_of (map string_bytes words.now) }
{
    let form = match words {
        [first, policy] if first.as_str() == "check" => Form::Check(policy.as_str()),
        [first, number] if first.as_str() == "exercise" => {
            let number = number_said(number.as_str())?;
            return Some(Command::Exercise(number));
        }
        [first, policy, events] if first.as_str() == "run" => {
            Form::Play(Show::Run, policy.as_str(), events.as_str())
        }
        [first, policy, events] if first.as_str() == "trace" => {
            Form::Play(Show::Trace, policy.as_str(), events.as_str())
        }
        [first, policy, events, label] if first.as_str() == "view" => Form::Play(
            Show::View(label.as_str()),
            policy.as_str(),
            events.as_str(),
        ),
        _ => return None,
    };
    Some(Command::OnFiles(form))
}

impl<'a> Form<'a> {
    ghost use Rattle.trapeze_cli.specs.Forms.{policy_name, events_name};
    ghost use Rattle.trapeze_cli.specs.Said.{said};

    /// The name of the policy's file.
    pub(crate) fn policy(&self) -> &'a str
        ensures { result.now ≡ policy_name (said self.now) }
    {
        match self {
            Form::Check(policy) => policy,
            Form::Play(_, policy, _) => policy,
        }
    }

    /// The name of the event file, if there is one.
    pub(crate) fn events(&self) -> &'a str
        ensures { result.now ≡ events_name (said self.now) }
    {
        match self {
            Form::Check(_) => "",
            Form::Play(_, _, events) => events,
        }
    }
}
