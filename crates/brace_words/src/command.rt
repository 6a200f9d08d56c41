ghost use Rattle.std.specs.Prelude.{◌≡◌, IfOk, false};
ghost use Rattle.clap.specs.Walk.{rule_of};
ghost use Rattle.clap.specs.Simple.{app_of, with_rule};
ghost use Rattle.brace_words.specs.Command.{bare, brace, flag_rule, mode_rule, option_rule};

use clap::{Arg, ArgAction, Command};
use std::alloc::{AllocError, Global};

/// The command, as clap reads it: a mode, options with one value, and flags.
pub(crate) fn command<'a>(alloc: Global) -> Result<Command<'a>, AllocError>
    ensures { IfOk result (λ command. app_of command ≡ brace) }
{
    let command = bare(alloc).arg(mode(alloc))?;
    let command = with_four(alloc, command, "script", "agents", "from", "ticks")?;
    let command = with_four(alloc, command, "count", "seed", "every", "epoch")?;
    let command = with_four(alloc, command, "cuts", "workers", "order", "save")?;
    let command = with_four(alloc, command, "link", "published", "watch", "strips")?;
    command
        .arg(flag(alloc, "invert"))?
        .arg(flag(alloc, "stats"))
}

// The command with an option more.
fn with_option<'a>(
    alloc: Global,
    command: Command<'a>,
    name: &'a str,
) -> Result<Command<'a>, AllocError>
    ensures { IfOk result (λ more.
        app_of more ≡ with_rule (app_of command.entry) (option_rule name.entry.now)) }
{
    command.arg(option(alloc, name))
}

// The command with two options more.
fn with_two<'a>(
    alloc: Global,
    command: Command<'a>,
    first: &'a str,
    second: &'a str,
) -> Result<Command<'a>, AllocError>
    ensures { IfOk result (λ more. app_of more
        ≡ with_rule (with_rule (app_of command.entry) (option_rule first.entry.now))
        (option_rule second.entry.now)) }
{
    let one = with_option(alloc, command, first)?;
    with_option(alloc, one, second)
}

// The command with four options more.
fn with_four<'a>(
    alloc: Global,
    command: Command<'a>,
    first: &'a str,
    second: &'a str,
    third: &'a str,
    fourth: &'a str,
) -> Result<Command<'a>, AllocError>
    ensures { IfOk result (λ more. app_of more
        ≡ with_rule (with_rule (with_rule (with_rule (app_of command.entry)
        (option_rule first.entry.now)) (option_rule second.entry.now))
        (option_rule third.entry.now)) (option_rule fourth.entry.now)) }
{
    let two = with_two(alloc, command, first, second)?;
    with_two(alloc, two, third, fourth)
}

// A command that takes no program's name among its words, and has no help and no version flag.
fn bare<'a>(alloc: Global) -> Command<'a>
    ensures { app_of result ≡ bare }
{
    Command::new(alloc, "brace")
        .no_binary_name(true)
        .disable_help_flag(true)
        .disable_version_flag(true)
}

// The word that stands by itself.
fn mode<'a>(alloc: Global) -> Arg<'a>
    ensures rule { rule_of result ≡ mode_rule }
    ensures own { result.global ≡ false }
{
    Arg::new(alloc, "MODE")
        .required(true)
        .action(ArgAction::Set)
}

// `--name value` or `--name=value`.
fn option<'a>(alloc: Global, name: &'a str) -> Arg<'a>
    ensures rule { rule_of result ≡ option_rule name.entry.now }
    ensures own { result.global ≡ false }
{
    Arg::new(alloc, name).long(name).action(ArgAction::Set)
}

// `--name`.
fn flag<'a>(alloc: Global, name: &'a str) -> Arg<'a>
    ensures rule { rule_of result ≡ flag_rule name.entry.now }
    ensures own { result.global ≡ false }
{
    Arg::new(alloc, name).long(name).action(ArgAction::SetTrue)
}
