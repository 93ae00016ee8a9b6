// The words of the daemon's command line.
ghost use Rattle.std.specs.Prelude.{◌≡◌, ◌∷◌, IfOk, IfErr, Some, codes, map};
ghost use Rattle.ug_arguments.specs.Commands.{NotRead, settings_path};

use crate::command::WordsFault;
use crate::matches::find_values;
use crate::simple::daemon_command;
use crate::values::settings;
use std::alloc::Global;
use ug_types::{NoMemory, Text};

fn behind_daemon<'a>(alloc: Global, words: &[&'a str]) -> Result<Vec<&'a str>, NoMemory>
    ensures { IfOk result (λ all. map (λ w. w.now) all.items
        ≡ codes "daemon" ∷ map (λ w. w.now) words.now) }
{
    let mut all = Vec::new(alloc);
    all.push("daemon")?;
    all.extend_from_slice(words)?;
    Ok(all)
}

/// The path of the daemon's settings, by the words of its command line behind `daemon`: that of `--conf PATH`, or else
/// `/etc/usbguard/usbguard-daemon.conf`. It holds no newline.
#[tactic(auto, unfolding(crate::specs::Commands::settings_path))]
pub fn read_daemon_words(alloc: Global, words: &[&str]) -> Result<Text, WordsFault>
    ensures ok { IfOk result (λ path. settings_path (map (λ w. w.now) words.now) ≡ Some path) }
    ensures err { IfErr result (NotRead (settings_path (map (λ w. w.now) words.now))) }
{
    let all = behind_daemon(alloc, words)?;
    match daemon_command(alloc) {
        Ok(command) => match find_values(command, all.as_slice()) {
            Ok(matches) => {
                let path = settings(alloc, &matches);
                drop(matches);
                path
            }
            Err(fault) => Err(fault),
        },
        Err(_) => Err(WordsFault::Memory),
    }
}
