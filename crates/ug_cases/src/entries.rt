// Entries of a journal and their lines.
use std::alloc::Global;
use ug_audit::{
    ConfigPart, Entry, Fault, FileName, RuleChange, StartEntry, line_of, line_of_start,
};
use ug_casefile::{Answer, number_of};
use ug_conf::is_rule_file_name;
use ug_kernel::{FailedCall, Held, Write, Wrote};
use ug_types::{
    Cause, Moment, NoMemory, NodeName, ParameterName, Principal, Privilege, Refusal, Saved,
    Section, Target,
};

fn number(word: &str) -> Option<u64> {
    number_of(word.as_bytes())
}

fn name(word: &str) -> Option<NodeName> {
    NodeName::parse(word.as_bytes()).ok()
}

fn principal(word: &str) -> Option<Principal> {
    Principal::parse(word.as_bytes())
}

fn byte(word: &str) -> Option<u8> {
    u8::try_from(number(word)?).ok()
}

fn cause(words: &[&str]) -> Option<Cause> {
    match words {
        ["rule", id] => Some(Cause::Rule(number(id)?)),
        ["implicit"] => Some(Cause::Implicit),
        ["present"] => Some(Cause::Present),
        ["keep"] => Some(Cause::Keep),
        ["inserted"] => Some(Cause::Inserted),
        ["malformed", kind, place] => Some(Cause::Malformed {
            kind: byte(kind)?,
            place: number(place)?,
        }),
        ["order", who] => Some(Cause::Order(principal(who)?)),
        _ => None,
    }
}

fn write(word: &str) -> Option<Write> {
    match word {
        "on" => Some(Write::On),
        "off" => Some(Write::Off),
        "remove" => Some(Write::Remove),
        "default-off" => Some(Write::DefaultOff),
        "default-on" => Some(Write::DefaultOn),
        _ => None,
    }
}

fn outcome(word: &str) -> Option<Wrote> {
    match word {
        "done" => Some(Wrote::Done),
        "gone" => Some(Wrote::Gone),
        "failed" => Some(Wrote::Failed),
        _ => None,
    }
}

fn fault(words: &[&str]) -> Option<Fault> {
    match words {
        ["fault", call, count] => Some(Fault::Call(FailedCall {
            call: number(call)?,
            count: number(count)?,
        })),
        ["memory"] => Some(Fault::Memory),
        _ => None,
    }
}

fn save(word: &str) -> Option<Saved> {
    match word {
        "done" => Some(Saved::Done),
        "failed" => Some(Saved::Failed(5)),
        "memory" => Some(Saved::Memory),
        _ => None,
    }
}

fn change(word: &str) -> Option<RuleChange> {
    match word {
        "added" => Some(RuleChange::Added),
        "removed" => Some(RuleChange::Removed),
        "changed" => Some(RuleChange::Changed),
        _ => None,
    }
}

fn part(word: &str) -> Option<ConfigPart> {
    match word {
        "settings" => Some(ConfigPart::Settings),
        "rules" => Some(ConfigPart::Rules),
        "access" => Some(ConfigPart::Access),
        "folder" => Some(ConfigPart::Folder),
        _ => file_part(word),
    }
}

fn file_part(word: &str) -> Option<ConfigPart> {
    let name = word.strip_prefix("folder/")?.as_bytes();
    if is_rule_file_name(name) {
        Some(ConfigPart::FolderFile(FileName::holding(name)))
    } else {
        None
    }
}

fn section(word: &str) -> Option<Section> {
    Section::named(word.as_bytes())
}

fn refusal(words: &[&str]) -> Option<Refusal> {
    match words {
        ["1", "bad-request", place] => Some(Refusal::BadRequest {
            place: number(place)?,
        }),
        ["2", "denied", part, privilege] => Some(Refusal::Denied {
            section: section(part)?,
            privilege: Privilege::named(privilege.as_bytes())?,
        }),
        ["6", "bad-parameter"] => Some(Refusal::BadParameter),
        ["11", "device-fault", call, count] => Some(Refusal::DeviceFault {
            call: number(call)?,
            count: number(count)?,
        }),
        ["12", "memory", stands] => Some(Refusal::Memory {
            stands: *stands == "1",
        }),
        ["14", "folder-rule", id] => Some(Refusal::FolderRule { id: number(id)? }),
        _ => None,
    }
}

fn entry_of_order(words: &[&str]) -> Option<Entry> {
    match words {
        ["event", id, "order", moment, who] => Some(Entry::Order {
            number: number(id)?,
            moment: Moment(number(moment)?),
            who: principal(who)?,
        }),
        ["save", word] => Some(Entry::Save(save(word)?)),
        ["rules", word, id] => Some(Entry::Rules {
            change: change(word)?,
            id: number(id)?,
        }),
        ["parameter", setting, value] => Some(Entry::Parameter(ParameterName::named(
            setting.as_bytes(),
        )?.with_value(value.as_bytes())?)),
        ["reply", "ok"] => Some(Entry::Reply(Ok(()))),
        ["reply", "refused", rest @ ..] => Some(Entry::Reply(Err(refusal(rest)?))),
        _ => entry_of_device(words),
    }
}

fn start_entry(words: &[&str]) -> Option<StartEntry> {
    match words {
        ["note", "unused-key", line] => Some(StartEntry::UnusedKey {
            line: number(line)?,
        }),
        ["start-refused", what, line, kind, place] => Some(StartEntry::Refused {
            part: part(what)?,
            line: number(line)?,
            kind: byte(kind)?,
            place: number(place)?,
        }),
        _ => None,
    }
}

fn entry_of_device(words: &[&str]) -> Option<Entry> {
    match words {
        ["judged", id, device, target, rest @ ..] => Some(Entry::Judged {
            number: number(id)?,
            name: name(device)?,
            held: Held(3),
            verdict: Target::named(target.as_bytes())?,
            cause: cause(rest)?,
        }),
        ["intent", id, device, word] => Some(Entry::Intent {
            number: number(id)?,
            name: name(device)?,
            write: write(word)?,
        }),
        ["wrote", id, device, word, end] => Some(Entry::Wrote {
            number: number(id)?,
            name: name(device)?,
            write: write(word)?,
            outcome: outcome(end)?,
        }),
        ["gone", id, device] => Some(Entry::Gone {
            number: number(id)?,
            name: name(device)?,
        }),
        _ => None,
    }
}

fn entry(words: &[&str]) -> Option<Entry> {
    match words {
        ["event", id, "sweep", moment] => Some(Entry::Event {
            number: number(id)?,
            moment: Moment(number(moment)?),
        }),
        ["event", id, "hint", moment] => Some(Entry::Hint {
            number: number(id)?,
            moment: Moment(number(moment)?),
        }),
        ["hint", "refused", kind, place] => Some(Entry::HintRefused {
            kind: byte(kind)?,
            place: number(place)?,
        }),
        ["unsettled", "*", rest @ ..] => Some(Entry::UnsettledAll {
            fault: fault(rest)?,
        }),
        ["unsettled", device, rest @ ..] => Some(Entry::Unsettled {
            name: name(device)?,
            fault: fault(rest)?,
        }),
        ["end", id] => Some(Entry::End {
            number: number(id)?,
        }),
        ["dropped", member] => Some(Entry::Dropped {
            member: byte(member)?,
        }),
        _ => entry_of_order(words),
    }
}

fn words_of(alloc: Global, line: &[u8]) -> Result<Vec<&str>, NoMemory> {
    let mut words = Vec::new(alloc);
    for word in line.split(|byte| *byte == b' ') {
        words.push(str::from_utf8(word).unwrap_or(""))?;
    }
    Ok(words)
}

fn add_start_entry(told: &mut Answer, words: &[&str]) {
    match start_entry(words) {
        Some(entry) => told.add(line_of_start(&entry).bytes()),
        None => told.add(b"no entry"),
    }
}

fn add_entry(told: &mut Answer, words: &[&str]) {
    match entry(words) {
        Some(entry) => told.add(line_of(&entry).bytes()),
        None => add_start_entry(told, words),
    }
}

/// The line of the entry that the words of a line describe.
pub fn tell(alloc: Global, told: &mut Answer, line: &[u8]) {
    match words_of(alloc, line) {
        Ok(words) => add_entry(told, words.as_slice()),
        Err(_) => told.fall_short(),
    }
}
