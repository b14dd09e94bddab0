//! What a command is made of, and its description for `clap`.
ghost use Rattle.std.specs.Prelude.{◌≡◌, false, IfOk, map};
ghost use Rattle.bolt_job.specs.WordRules.{alone};
ghost use Rattle.bolt_job.specs.CommandLine.{IsCommand, bare_program, command_with, program_of};
ghost use Rattle.bolt_job.specs.Syntaxes.{argument_rule, line_of};
ghost use Rattle.clap.specs.Words.{new_app, rule_of};

use clap::{Arg, ArgAction, Command};
use std::alloc::{AllocError, Global};

/// How an argument of a command is written.
#[derive(Clone, Copy)]
pub(crate) enum Flag {
    /// As it is: an operand, which is one word.
    Operand,
    /// As many operands as words follow.
    Operands,
    /// An option, as `--` and its name.
    Long,
    /// An option by one letter, as `-o`.
    Short(char),
    /// An option in either way, as `-n` or `--no-newline`.
    Both(char),
}

/// An operand or an option of a command.
#[derive(Clone, Copy)]
pub(crate) struct Argument {
    pub name: &'static str,
    pub flag: Flag,
    /// The name of its value in help. An option without a value has none.
    pub value: Option<&'static str>,
    pub help: &'static str,
    pub required: bool,
}

/// A command.
#[derive(Clone, Copy)]
pub(crate) struct Syntax {
    pub name: &'static str,
    pub about: &'static str,
    /// Operands in their order, and options in that of help. On a command line options come anywhere.
    pub arguments: &'static [Argument],
    /// What help prints after the options: what the exit status says, and an example.
    pub note: &'static str,
}

/// The version that `--version` prints.
const VERSION: &str = "0.1.0";

fn arg_of<'a>(alloc: Global, argument: &'a Argument) -> Arg<'a>
    ensures rule { rule_of result ≡ argument_rule argument.now }
    ensures local { result.global ≡ false }
{
    let arg = Arg::new(alloc, argument.name)
        .required(argument.required)
        .help(argument.help);
    let arg = match argument.value {
        Some(name) => arg.value_name(name),
        None => without_value(arg),
    };
    match argument.flag {
        Flag::Operand => arg,
        Flag::Operands => arg.action(ArgAction::Append),
        Flag::Long => arg.long(argument.name),
        Flag::Short(letter) => arg.short(letter),
        Flag::Both(letter) => arg.short(letter).long(argument.name),
    }
}

/// An option without a value. If it is given, it counts as one word.
fn without_value<'a>(arg: Arg<'a>) -> Arg<'a>
    ensures rule { rule_of result ≡ alone (rule_of arg.entry) }
    ensures local { result.global ≡ arg.entry.global }
{
    arg.action(ArgAction::Set)
        .num_args(0)
        .default_missing_value("true")
}

/// A command without arguments.
fn bare_command<'a>(alloc: Global, syntax: &'a Syntax) -> Command<'a>
    ensures { IsCommand (new_app syntax.now.name.now) result }
{
    Command::new(alloc, syntax.name)
        .about(syntax.about)
        .after_help(syntax.note)
}

fn command<'a>(alloc: Global, syntax: &'a Syntax) -> Result<Command<'a>, AllocError>
    ensures { IfOk result
        (IsCommand (command_with syntax.now.name.now (map argument_rule syntax.now.arguments.now))) }
{
    let mut command = bare_command(alloc, syntax);
    for argument in syntax.arguments {
        command = command.arg(arg_of(alloc, argument))?;
    }
    Ok(command)
}

/// The program without its commands. `clap` adds the command `help`.
pub(crate) fn bare_program<'a>(alloc: Global) -> Command<'a>
    ensures { IsCommand bare_program result }
{
    Command::new(alloc, "luntsegi")
        .about("Inspect, check, compact and recover bbolt database files, the format etcd uses")
        .version(VERSION)
        .subcommand_required(true)
}

/// The program with these commands.
pub(crate) fn with_commands<'a>(
    alloc: Global,
    program: Command<'a>,
    syntaxes: &[&'a Syntax],
) -> Result<Command<'a>, AllocError>
    requires { IsCommand bare_program program }
    ensures { IfOk result
        (IsCommand (program_of (map (λ syntax. line_of syntax.now) syntaxes.now))) }
{
    let mut program = program;
    for syntax in syntaxes {
        program = program.subcommand(command(alloc, syntax)?)?;
    }
    Ok(program)
}
