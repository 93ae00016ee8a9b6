// Lines of a list of devices.
ghost use Rattle.std.specs.Prelude.{◌≡◌, ◌++◌, ◌∷◌, [], IfOk, Ok, OnOk, decimal, true};
ghost use Rattle.ug_rule.specs.Rules.{rule_read};
ghost use Rattle.ug_lines.specs.Splitting.{IsLine};
ghost use Rattle.ug_print.specs.DeviceLines.{malformed_text};
ghost use Rattle.ug_print.specs.Generated.{generated_of};
ghost use Rattle.ug_print.specs.Words.{joined, rule_text};

use crate::generating::generated_rule;
use crate::items::print_string;
use crate::printing::{print_rule, put_target};
use crate::sets::{join, put_word};
use itoa::Buffer;
use std::alloc::Global;
use ug_types::{DeviceRecord, List, NoMemory, NodeName, Target, Text};

/// A device's line in a list of devices: the canonical text of its generated rule, with its verdict as the target and with
/// its port. It reads as that rule.
pub fn device_line(alloc: Global, device: &DeviceRecord, verdict: Target) -> Result<Text, NoMemory>
    ensures text { IfOk result (λ text. text ≡ rule_text (generated_of device.now verdict true)) }
    ensures reads { IfOk result
        (λ text. rule_read text ≡ Ok (generated_of device.now verdict true)) }
    ensures one_line { IfOk result (λ text. IsLine text) }
{
    let rule = generated_rule(alloc, device, verdict, true)?;
    let line = print_rule(alloc, &rule);
    rule.discard();
    line
}

fn put_decimal(alloc: Global, words: &mut List<Text>, n: u64) -> Result<(), NoMemory>
    ensures { OnOk result (words.new ≡ words.old ++ decimal n ∷ []) }
{
    let mut buffer = Buffer::new();
    put_word(alloc, words, buffer.format(n).as_bytes())
}

// Puts the words of the line of a device whose descriptors are malformed.
fn put_malformed(
    alloc: Global,
    words: &mut List<Text>,
    name: &NodeName,
    kind: u8,
    place: u64,
    verdict: Target,
) -> Result<(), NoMemory>
    requires { words.old ≡ [] }
    ensures text { OnOk result (joined words.new ≡ malformed_text verdict kind place name.now) }
    ensures one_line { OnOk result (IsLine (malformed_text verdict kind place name.now)) }
{
    put_target(alloc, words, verdict)?;
    put_word(alloc, words, b"malformed")?;
    put_decimal(alloc, words, kind as u64)?;
    put_decimal(alloc, words, place)?;
    put_word(alloc, words, b"via-port")?;
    words.push(print_string(alloc, name.bytes())?)
}

/// The line of a device whose descriptors are malformed, with the verdict on it: the kind and the place of the first
/// fault, and the device's name as its port.
pub fn malformed_line(
    alloc: Global,
    name: &NodeName,
    kind: u8,
    place: u64,
    verdict: Target,
) -> Result<Text, NoMemory>
    ensures text { IfOk result (λ text. text ≡ malformed_text verdict kind place name.now) }
    ensures one_line { IfOk result (λ text. IsLine text) }
{
    let mut words = List::new(alloc);
    put_malformed(alloc, &mut words, name, kind, place, verdict)?;
    join(alloc, words.as_slice())
}
