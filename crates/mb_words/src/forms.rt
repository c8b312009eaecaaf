ghost use Rattle.std.specs.Prelude.{◌≡◌, IfOk, false};
ghost use Rattle.clap.specs.Words.{app_of, rule_of, with_rule};
ghost use Rattle.mb_words.specs.Forms.{nameless_app, option_rule, texts_rule, with_options};

use clap::{Arg, ArgAction, Command};
use std::alloc::{AllocError, Global};

/// An option of a command, which is given as `--name value` or `--name=value`.
#[derive(Clone, Copy)]
pub(crate) struct OptionForm {
    pub(crate) name: &'static str,
    pub(crate) is_required: bool,
    /// What its value may be, and which value holds where it is not given.
    pub(crate) values: &'static str,
}

/// A command with these options, whose words begin behind the program's name.
pub(crate) fn command<'a>(
    alloc: Global,
    name: &'a str,
    forms: &[OptionForm],
) -> Result<Command<'a>, AllocError>
    ensures { IfOk result (λ command. app_of command ≡ with_options (nameless_app name.entry.now) forms.now) }
{
    let mut command = nameless(alloc, name);
    for form in forms {
        command = command.arg(option(alloc, form))?;
    }
    Ok(command)
}

fn nameless<'a>(alloc: Global, name: &'a str) -> Command<'a>
    ensures { app_of result ≡ nameless_app name.entry.now }
{
    Command::new(alloc, name).no_binary_name(true)
}

fn option<'a>(alloc: Global, form: &OptionForm) -> Arg<'a>
    ensures rule { rule_of result ≡ option_rule form.now }
    ensures local { result.global ≡ false }
{
    Arg::new(alloc, form.name)
        .long(form.name)
        .required(form.is_required)
        .help(form.values)
}

/// The command with texts behind its options.
pub(crate) fn with_texts<'a>(
    alloc: Global,
    command: Command<'a>,
    name: &'a str,
    are_required: bool,
) -> Result<Command<'a>, AllocError>
    ensures { IfOk result (λ with. app_of with ≡ with_rule (app_of command.entry) (texts_rule name.entry.now are_required)) }
{
    let texts = texts(alloc, name, are_required);
    command.arg(texts)
}

fn texts<'a>(alloc: Global, name: &'a str, are_required: bool) -> Arg<'a>
    ensures rule { rule_of result ≡ texts_rule name.entry.now are_required }
    ensures local { result.global ≡ false }
{
    Arg::new(alloc, name)
        .action(ArgAction::Append)
        .required(are_required)
}
