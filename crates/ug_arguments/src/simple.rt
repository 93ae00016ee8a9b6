// The simple command of each first word.
ghost use Rattle.std.specs.Prelude.{◌≡◌, IfOk, false, map};
ghost use Rattle.clap.specs.Words.{app_of, rule_of};
ghost use Rattle.ug_arguments.specs.Arguments.{app_taking, rule_by};
ghost use Rattle.ug_arguments.specs.SimpleCommands.{app_of_word, daemon_app};

use crate::command_word::{CommandWord, name_of};
use clap::{Arg, ArgAction, Command};
use std::alloc::{AllocError, Global};

/// What a command takes, by the name that it is found by.
pub enum Argument<'a> {
    /// A word that has to be there.
    Word(&'a str),
    /// A word that may be left out.
    OptionalWord(&'a str),
    /// `--NAME VALUE`, which may be left out.
    LongOption(&'a str),
    /// `-L VALUE` or `--NAME VALUE`, which may be left out.
    ShortOption(&'a str, char),
    /// `--NAME`, which may be left out.
    LongFlag(&'a str),
    /// `-L` or `--NAME`, which may be left out.
    Flag(&'a str, char),
}

fn arg_of<'a>(alloc: Global, argument: &Argument<'a>) -> Arg<'a>
    ensures rule { rule_of result ≡ rule_by argument.now }
    ensures own { result.global ≡ false }
{
    match argument {
        Argument::Word(id) => Arg::new(alloc, id).required(true),
        Argument::OptionalWord(id) => Arg::new(alloc, id),
        Argument::LongOption(id) => Arg::new(alloc, id).long(id),
        Argument::ShortOption(id, letter) => Arg::new(alloc, id).long(id).short(*letter),
        Argument::LongFlag(id) => Arg::new(alloc, id).long(id).action(ArgAction::SetTrue),
        Argument::Flag(id, letter) => Arg::new(alloc, id)
            .long(id)
            .short(*letter)
            .action(ArgAction::SetTrue),
    }
}

// The command of that name that takes these arguments.
fn command_taking<'a>(
    alloc: Global,
    name: &'a str,
    arguments: &[Argument<'a>],
) -> Result<Command<'a>, AllocError>
    ensures { IfOk result (λ c. app_of c ≡ app_taking name.entry.now arguments.now) }
{
    let mut command = Command::new(alloc, name);
    for argument in arguments {
        command = command.arg(arg_of(alloc, argument))?;
    }
    Ok(command)
}

#[tactic(auto, unfolding(crate::specs::SimpleCommands::app_of_word))]
fn arguments_of<'a>(word: CommandWord) -> &'a [Argument<'a>]
    ensures { map rule_by result.now ≡ (app_of_word word).top.rules }
{
    match word {
        CommandWord::Replay => &[Argument::LongFlag("summary")],
        CommandWord::MakeScript => &[Argument::Word("events"), Argument::Word("start")],
        CommandWord::ReadDescriptor | CommandWord::CheckRules => &[],
        CommandWord::LintRules => &[Argument::LongFlag("prune")],
        CommandWord::GeneratePolicy => &[],
        CommandWord::AddUser => &[
            Argument::Word("name"),
            Argument::LongOption("devices"),
            Argument::LongOption("policy"),
            Argument::LongOption("exceptions"),
            Argument::LongOption("parameters"),
        ],
        CommandWord::GetParameter => &[Argument::LongOption("socket"), Argument::Word("name")],
        CommandWord::SetParameter => &[
            Argument::LongOption("socket"),
            Argument::Word("name"),
            Argument::Word("value"),
            Argument::Flag("verbose", 'v'),
        ],
        CommandWord::ListDevices => &[
            Argument::LongOption("socket"),
            Argument::OptionalWord("query"),
            Argument::Flag("allowed", 'a'),
            Argument::Flag("blocked", 'b'),
        ],
        CommandWord::ListRules => &[
            Argument::LongOption("socket"),
            Argument::ShortOption("label", 'l'),
            Argument::Flag("show-devices", 'd'),
        ],
        CommandWord::Device(_) => &[
            Argument::LongOption("socket"),
            Argument::Word("number"),
            Argument::Flag("permanent", 'p'),
        ],
        CommandWord::AppendRule => &[
            Argument::LongOption("socket"),
            Argument::Word("rule"),
            Argument::ShortOption("after", 'a'),
            Argument::Flag("temporary", 't'),
        ],
        CommandWord::RemoveRule => &[Argument::LongOption("socket"), Argument::Word("id")],
        CommandWord::Watch => &[
            Argument::LongOption("socket"),
            Argument::ShortOption("most", 'n'),
            Argument::Flag("wait", 'w'),
            Argument::Flag("once", 'o'),
        ],
    }
}

/// The command `daemon`, for the words behind it.
pub fn daemon_command<'a>(alloc: Global) -> Result<Command<'a>, AllocError>
    ensures { IfOk result (λ c. app_of c ≡ daemon_app) }
{
    command_taking(alloc, "daemon", &[Argument::LongOption("conf")])
}

/// The command of a word, for the words behind it.
pub fn simple_command<'a>(alloc: Global, word: CommandWord) -> Result<Command<'a>, AllocError>
    ensures { IfOk result (λ c. app_of c ≡ app_of_word word) }
{
    command_taking(alloc, name_of(word), arguments_of(word))
}
