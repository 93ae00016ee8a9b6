// Rules that decide before one that an order has made: usbguard(1), block-device.
use std::alloc::{AllocError, Global};
use std::str;
use ug_arguments::{Command, read_command};
use ug_client::{Asked, Told, ask_twice};
use ug_files::{Priority, Teller};
use ug_proto::Request;
use ug_sockets::SocketLink;
use ug_types::{MemSink, Target, Text};

const WARNING: Teller = Teller {
    priority: Priority::Warning,
    waits: true,
};

/// An order that was to hold from now on.
#[derive(Drop)]
struct Lasting {
    socket: Text,
    number: u64,
    target: Target,
}

// The order that this request gives, if it is such a one.
fn lasting_of(socket: Text, request: Request) -> Option<Lasting> {
    match request {
        Request::Device {
            number,
            target,
            permanent: true,
        } => Some(Lasting {
            socket,
            number,
            target,
        }),
        request => {
            request.discard();
            drop(socket);
            None
        }
    }
}

// The order that these words give, if it is such a one.
fn lasting_order(rt: &HostRuntime, words: &[&str]) -> Option<Lasting> {
    match read_command(rt.alloc(), words) {
        Ok(Command::Ask { socket, request }) => lasting_of(socket, request),
        Ok(command) => {
            command.discard();
            None
        }
        Err(_) => None,
    }
}

// The text as one word of a shell.
fn quoted(alloc: Global, text: &str) -> Result<String, AllocError> {
    let mut word = String::from_str(alloc, "'")?;
    for (count, part) in text.split('\'').enumerate() {
        if count > 0 {
            word.push_str("'\\''")?;
        }
        word.push_str(part)?;
    }
    word.push('\'')?;
    Ok(word)
}

// How the rule of a device's row is put in front.
fn tell_remedy(alloc: Global, row: &str) {
    let Some((_number, rule)) = row.split_once(": ") else {
        return;
    };
    if let Ok(word) = quoted(alloc, rule) {
        let word = word.as_str();
        eprintln!(WARNING;
            "usbguard: to put the order's rule in front: usbguard append-rule -a 0 {word}"
        );
    }
}

// The rows of rules, and the device's row behind them.
fn tell_rows(alloc: Global, number: u64, text: &str) {
    let Some((rules, device)) = text.trim_end_matches('\n').rsplit_once('\n') else {
        return;
    };
    for rule in rules.lines() {
        eprintln!(WARNING;
            "usbguard: this rule decides for device {number} before the order's rule does: {rule}"
        );
    }
    tell_remedy(alloc, device);
}

impl Lasting {
    // Asks for the rules and the devices, and tells which rules decide before.
    fn tell_earlier(&self, rt: HostRuntime) {
        let mut link = SocketLink::new(rt);
        let mut text = MemSink::new(rt.alloc(), Vec::new(rt.alloc()));
        let asked = ask_twice(
            rt.alloc(),
            &mut link,
            self.socket.bytes(),
            &Request::ListRules,
            &Request::ListDevices,
            Told::Contrary(self.target, self.number),
            &mut text,
        );
        match asked {
            Asked::Done => tell_rows(
                rt.alloc(),
                self.number,
                str::from_utf8(text.bytes()).unwrap_or(""),
            ),
            _ => eprintln!(WARNING;
                "usbguard: the rules couldn't be asked for, so whether an earlier one decides isn't known."
            ),
        }
        drop(text);
        drop(link);
    }
}

/// Tells on standard error which earlier rules decide for the device that these words gave a lasting order on, and how to put the
/// order's rule in front of them.
pub fn tell_earlier_rules(rt: HostRuntime, words: &[&str]) {
    if let Some(order) = lasting_order(&rt, words) {
        order.tell_earlier(rt);
        drop(order);
    }
}
