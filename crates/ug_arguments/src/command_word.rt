// The words that choose a command.
ghost use Rattle.std.specs.Prelude.{◌≡◌};
ghost use Rattle.ug_arguments.specs.Arguments as words;
ghost use Rattle.ug_arguments.specs.Arguments.{all_words};
ghost use Rattle.ug_arguments.specs.CommandWords.{word_in};
ghost use Rattle.ug_arguments.specs.SimpleCommands.{app_of_word};

use ug_types::{Target, is_word};

/// A command, by its first word.
#[derive(Clone, Copy)]
pub enum CommandWord {
    Replay,
    MakeScript,
    ReadDescriptor,
    CheckRules,
    LintRules,
    GeneratePolicy,
    AddUser,
    GetParameter,
    SetParameter,
    ListDevices,
    /// `allow-device`, `block-device` and `reject-device`.
    Device(Target),
    ListRules,
    AppendRule,
    RemoveRule,
    Watch,
}

/// The word of a command.
#[tactic(auto, unfolding(crate::specs::SimpleCommands::app_of_word))]
pub fn name_of<'a>(word: CommandWord) -> &'a str
    ensures { result.now ≡ (app_of_word word).top.name }
{
    match word {
        CommandWord::Replay => "replay",
        CommandWord::MakeScript => "make-script",
        CommandWord::ReadDescriptor => "read-descriptor",
        CommandWord::CheckRules => "check-rules",
        CommandWord::LintRules => "lint-rules",
        CommandWord::GeneratePolicy => "generate-policy",
        CommandWord::AddUser => "add-user",
        CommandWord::GetParameter => "get-parameter",
        CommandWord::SetParameter => "set-parameter",
        CommandWord::ListDevices => "list-devices",
        CommandWord::Device(Target::Allow) => "allow-device",
        CommandWord::Device(Target::Block) => "block-device",
        CommandWord::Device(Target::Reject) => "reject-device",
        CommandWord::ListRules => "list-rules",
        CommandWord::AppendRule => "append-rule",
        CommandWord::RemoveRule => "remove-rule",
        CommandWord::Watch => "watch",
    }
}

fn all() -> &'static [CommandWord]
    ensures { result.now ≡ all_words }
{
    &[
        CommandWord::Replay,
        CommandWord::MakeScript,
        CommandWord::ReadDescriptor,
        CommandWord::CheckRules,
        CommandWord::LintRules,
        CommandWord::GeneratePolicy,
        CommandWord::AddUser,
        CommandWord::GetParameter,
        CommandWord::SetParameter,
        CommandWord::ListDevices,
        CommandWord::Device(Target::Allow),
        CommandWord::Device(Target::Block),
        CommandWord::Device(Target::Reject),
        CommandWord::ListRules,
        CommandWord::AppendRule,
        CommandWord::RemoveRule,
        CommandWord::Watch,
    ]
}

fn spells_command(text: &str, word: CommandWord) -> bool
    ensures { result ≡ words.spells_command text.now word }
{
    is_word(text.as_bytes(), name_of(word).as_bytes())
}

/// The command that a word chooses.
pub fn command_word(text: &str) -> Option<CommandWord>
    ensures { result ≡ word_in text.now }
{
    let words = all();
    for word in words {
        if spells_command(text, *word) {
            return Some(*word);
        }
    }
    None
}
