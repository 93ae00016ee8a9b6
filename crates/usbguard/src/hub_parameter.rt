// What the daemon tells a person of controllers that come later.
use crate::shown::read_text;
use std::str;
use ug_conf::AuthDefault;
use ug_files::tell;

/// What the kernel writes to the `authorized_default` of a root hub that comes: Linux's kernel-parameters, usbcore.authorized_default.
const PARAMETER: &str = "/sys/module/usbcore/parameters/authorized_default";

// What the setting wants there, where it isn't that value: the word of the setting, the value, and what becomes of a device otherwise.
fn disagreement(
    default: AuthDefault,
    value: &str,
) -> Option<(&'static str, &'static str, &'static str)> {
    match default {
        AuthDefault::None if value != "0" => Some((
            "none",
            "0",
            "what hangs on a controller that comes later works until its verdict",
        )),
        AuthDefault::All if value != "1" && value != "-1" => Some((
            "all",
            "1",
            "what hangs on a controller that comes later may stay off until its verdict",
        )),
        _ => None,
    }
}

fn tell_disagreement(rt: &HostRuntime, default: AuthDefault, text: &[u8]) -> Option<()> {
    let value = str::from_utf8(text).ok()?.trim();
    let (word, wanted, harm) = disagreement(default, value)?;
    let sentence = format!(in rt.alloc();
        "usbguard: {PARAMETER} is {value}, and AuthorizedDefault={word} wants {wanted} there: {harm}.\n"
    ).ok()?;
    tell(sentence.as_str());
    Some(())
}

/// Tells on standard error where the kernel's value for root hubs that come later isn't the one that the setting wants.
pub fn tell_parameter(rt: &HostRuntime, default: AuthDefault) {
    if let Some(text) = read_text(rt, PARAMETER) {
        let _told = tell_disagreement(rt, default, text.as_slice());
        drop(text);
    }
}
