// What the program tells a person of its words and its end.
use crate::bad_words::{Wrong, wrong_word};
use crate::ordered::advice_on_orders;
use crate::refusals::ERROR;
use std::alloc::{AllocError, Global};

/// A command's first word, how it is used, and what else to know of its words.
struct Usage {
    word: &'static str,
    line: &'static str,
    hint: &'static str,
}

const A_DEVICE: &str =
    "NUMBER is a device's, as list-devices prints it: digits alone, with no leading zero. QUERY is attributes of a rule as one word, as 'id 1050:*', and each device that it matches gets the order. With -p a rule says the same from now on.";

const A_LIST: &str =
    "QUERY is attributes of a rule as one word, as 'id 1050:*': devices that it matches are listed. With -a those that are allowed are, and with -b those that are blocked.";

const AN_INPUT: &str =
    "It reads standard input, and takes no other word: write < before the name of a file.";

const A_SCRIPT: &str =
    "It reads standard input, and takes no other word: write < before the name of a file, or usbguard-script | before usbguard.";

const A_RULE_LIST: &str =
    "With -l the rules are listed that have this label, and with -d, behind each, the devices that it applies to. PATH is the socket at which the daemon listens. Without it USBGUARD_SOCKET names that, or it is yours or a group's of yours, or else /run/usbguard/root.socket.";

const USAGES: [Usage; 18] = [
    Usage {
        word: "add-user",
        line: "usbguard add-user NAME [--devices LIST] [--policy LIST] [--exceptions LIST] [--parameters LIST] < FILE",
        hint: "NAME is a user's, or : and a group's. LIST is privileges with commas between, as modify,list, or ALL.",
    },
    Usage {
        word: "allow-device",
        line: "usbguard allow-device NUMBER|QUERY [-p] [--socket PATH]",
        hint: A_DEVICE,
    },
    Usage {
        word: "append-rule",
        line: "usbguard append-rule RULE [-a ID] [-t] [--socket PATH]",
        hint: "RULE is one word: put it in quotes, as 'allow 1050:0011'. ID is a rule's, as list-rules prints it, or 0 for the front. With -t the rule file stays as it is.",
    },
    Usage {
        word: "block-device",
        line: "usbguard block-device NUMBER|QUERY [-p] [--socket PATH]",
        hint: A_DEVICE,
    },
    Usage {
        word: "check-rules",
        line: "usbguard check-rules < RULES",
        hint: AN_INPUT,
    },
    Usage {
        word: "daemon",
        line: "usbguard daemon [--conf PATH]",
        hint: "PATH is the file of settings. Without it that is /etc/usbguard/usbguard-daemon.conf.",
    },
    Usage {
        word: "generate-policy",
        line: "usbguard generate-policy < SCRIPT",
        hint: A_SCRIPT,
    },
    Usage {
        word: "get-parameter",
        line: "usbguard get-parameter NAME [--socket PATH]",
        hint: "NAME is a setting's: ImplicitPolicyTarget or InsertedDevicePolicy.",
    },
    Usage {
        word: "lint-rules",
        line: "usbguard lint-rules [--prune] < RULES",
        hint: "It reads standard input: write < before the name of a file. With --prune it writes the rules that no earlier one covers.",
    },
    Usage {
        word: "list-devices",
        line: "usbguard list-devices [QUERY] [-a] [-b] [--socket PATH]",
        hint: A_LIST,
    },
    Usage {
        word: "list-rules",
        line: "usbguard list-rules [-l LABEL] [-d] [--socket PATH]",
        hint: A_RULE_LIST,
    },
    Usage {
        word: "make-script",
        line: "usbguard make-script EVENTS START",
        hint: "EVENTS is from 1 to 500000, and START from 0 to 4294967295: digits alone, with no leading zero.",
    },
    Usage {
        word: "read-descriptor",
        line: "usbguard read-descriptor < DESCRIPTORS",
        hint: AN_INPUT,
    },
    Usage {
        word: "reject-device",
        line: "usbguard reject-device NUMBER|QUERY [-p] [--socket PATH]",
        hint: A_DEVICE,
    },
    Usage {
        word: "remove-rule",
        line: "usbguard remove-rule ID [--socket PATH]",
        hint: "ID is a rule's, as list-rules prints it: digits alone, with no leading zero.",
    },
    Usage {
        word: "replay",
        line: "usbguard replay [--summary] < SCRIPT",
        hint: "It reads standard input: write < before the name of a file, or usbguard-script | before usbguard. With --summary it writes numbers of the journal alone.",
    },
    Usage {
        word: "set-parameter",
        line: "usbguard set-parameter NAME VALUE [-v] [--socket PATH]",
        hint: "NAME is a setting's: ImplicitPolicyTarget or InsertedDevicePolicy. VALUE is one word, as block. With -v the value that was and the one that is are printed.",
    },
    Usage {
        word: "watch",
        line: "usbguard watch [-n MOST] [-w] [-o] [--socket PATH]",
        hint: "MOST is from 1 to 1000000: so many notices are printed at most. With -w it waits until a daemon listens, each time that none does; with -o too it ends when the connection does.",
    },
];

fn usages() -> &'static [Usage] {
    &USAGES
}

fn usage_of(word: &str) -> Option<&'static Usage> {
    for usage in usages() {
        if usage.word == word {
            return Some(usage);
        }
    }
    None
}

/// Whether that is a command's word.
pub fn is_known(word: &str) -> bool {
    usage_of(word).is_some()
}

// How the command is used.
fn text_of_one(alloc: Global, usage: &Usage) -> Result<String, AllocError> {
    [
        "usage: ",
        usage.line,
        "\n",
        usage.hint,
        "\nThe manual page usbguard(1) says what it does.",
    ]
    .concat(alloc)
}

fn add_lines(text: &mut String) -> Result<(), AllocError> {
    for usage in usages() {
        text.push_str("  ")?;
        text.push_str(usage.line)?;
        text.push('\n')?;
    }
    text.push_str("The manual page usbguard(1) says what each does.")
}

// How each command is used.
fn text_of_all(alloc: Global) -> Result<String, AllocError> {
    let mut text = String::from_str(alloc, "usage:\n")?;
    match add_lines(&mut text) {
        Ok(()) => Ok(text),
        Err(e) => {
            drop(text);
            Err(e)
        }
    }
}

/// How the command of that word is used, or each, where there is no such command.
pub fn usage_text(alloc: Global, word: Option<&str>) -> Result<String, AllocError> {
    match word.and_then(usage_of) {
        Some(usage) => text_of_one(alloc, usage),
        None => text_of_all(alloc),
    }
}

// What to do where a command ended with that status.
fn advice(status: u8) -> Option<&'static str> {
    match status {
        4 => Some("the input could not be read: see that it can be opened and read to its end."),
        5 => Some(
            "the output could not be written: see that there is room, and that it is read to its end.",
        ),
        6 => Some("memory ran out: try again with a smaller input, or with more memory."),
        _ => None,
    }
}

// How a command is used.
fn tell_usage(usage: &Usage) {
    let (line, hint) = (usage.line, usage.hint);
    eprintln!(ERROR; "usage: {line}");
    eprintln!(ERROR; "{hint}");
}

// A first word that is none of a command.
fn tell_unknown(words: &[&str]) {
    match words.first() {
        Some(word) => {
            eprintln!(ERROR; "usbguard: there is no command {word}: usbguard --help tells them.");
        }
        None => eprintln!(ERROR; "usbguard: a command is missing: usbguard --help tells them."),
    }
}

// What is wrong with the words of that command.
fn tell_wrong(rt: &HostRuntime, words: &[&str], usage: &Usage) {
    let name = usage.word;
    match wrong_word(rt.alloc(), words, usage.line) {
        Wrong::Word(word) => eprintln!(ERROR; "usbguard: {name} can't take the word {word:?}."),
        Wrong::Missing(what) => eprintln!(ERROR; "usbguard: {name} lacks {what}."),
        Wrong::Unknown => eprintln!(ERROR; "usbguard: {name} can't take these words."),
    }
    tell_usage(usage);
}

// Whether these words would have each notice start a program.
fn start_program(words: &[&str]) -> bool {
    let ["watch", behind @ ..] = words else {
        return false;
    };
    for word in behind {
        if word.starts_with("-e") || word.starts_with("--exec") {
            return true;
        }
    }
    false
}

// What is wrong with words that are no command.
fn tell_words(rt: &HostRuntime, words: &[&str]) {
    if start_program(words) {
        eprintln!(ERROR;
            "usbguard: watch starts no program: a loop of the shell does, as: usbguard watch -w | while read -r line; do PROGRAM \"$line\"; done"
        );
        return;
    }
    match words.first().copied().and_then(usage_of) {
        Some(usage) => tell_wrong(rt, words, usage),
        None => tell_unknown(words),
    }
}

/// Tells on standard error what to do where the command of these words ended with that status.
pub fn tell(rt: &HostRuntime, words: &[&str], status: u8) {
    if status == 1 {
        return tell_words(rt, words);
    }
    let sentence = match words {
        ["daemon", ..] => None,
        _ => advice_on_orders(rt, words, status).or(advice(status)),
    };
    if let Some(sentence) = sentence {
        eprintln!(ERROR; "usbguard: {sentence}");
    }
}

/// The same where the words can't be had, since one isn't UTF-8.
pub fn tell_unreadable() {
    eprintln!(ERROR; "usbguard: a word isn't UTF-8.");
}
