// The lines of a script of random events, each with its newline.
ghost use Rattle.std.specs.Prelude.{◌≡◌, ◌≤◌, ◌<◌, ◌^◌, ◌++◌, length};
ghost use Rattle.ug_commands.specs.GeneratedScripts as lines;

use ug_types::Line;

#[tactic(auto, unfolding(crate::specs::GeneratedScripts::setup_lines))]
fn setup_lines() -> Line
    ensures text { result ≡ lines.setup_lines }
    ensures length { length result ≤ 150 }
{
    let mut line = Line::of(b"usbguard-replay 1\n");
    line.push(b"seed 0000000000000000000000000000000000000000000000000000000000000000\n");
    line.push(b"rule allow id 1050:0011\n");
    line.push(b"rule block id *:*\n");
    line
}

#[tactic(auto, unfolding(crate::specs::GeneratedScripts::hub_line))]
fn push_hub(line: &mut Line)
    requires { length line.old ≤ 150 }
    ensures { line.new ≡ line.old ++ lines.hub_line }
{
    line.push(b"plug usb1 1 ");
    line.push(b"12010002090001406b1d0200060603020101");
    line.push(b"09021900010100e0000904000001090000000705810304000c");
    line.push(b" - - -\n");
}

/// What a script begins with.
pub fn opening_lines() -> Line
    ensures { result ≡ lines.opening_lines }
{
    let mut line = setup_lines();
    push_hub(&mut line);
    line
}

#[tactic(auto, unfolding(crate::specs::GeneratedScripts::unplug_line))]
fn unplug_line(port: u64) -> Line
    ensures text { result ≡ lines.unplug_line port }
    ensures length { length result ≤ 100 }
{
    let mut line = Line::of(b"unplug 1-");
    line.push_decimal(port);
    line.push(b"\n");
    line
}

#[tactic(auto, unfolding(crate::specs::GeneratedScripts::allowed_line))]
fn allowed_line(port: u64) -> Line
    ensures text { result ≡ lines.allowed_line port }
    ensures length { length result ≤ 100 }
{
    let mut line = Line::of(b"plug 1-");
    line.push_decimal(port);
    line.push(b" 0 120100020000004050101100000100000001 - - -\n");
    line
}

#[tactic(auto, unfolding(crate::specs::GeneratedScripts::blocked_line))]
fn blocked_line(port: u64) -> Line
    ensures text { result ≡ lines.blocked_line port }
    ensures length { length result ≤ 100 }
{
    let mut line = Line::of(b"plug 1-");
    line.push_decimal(port);
    line.push(b" 1 120100020000004050101200000100000001 - - -\n");
    line
}

#[tactic(auto, unfolding(crate::specs::GeneratedScripts::fail_line))]
fn fail_line(call: u64) -> Line
    ensures text { result ≡ lines.fail_line call }
    ensures length { length result ≤ 100 }
{
    let mut line = Line::of(b"fail ");
    line.push_decimal(call);
    line.push(b"\n");
    line
}

/// What happens before the event of that number.
pub fn line_before(number: u64) -> Line
    requires { number < 2 ^ 32 }
    ensures text { result ≡ lines.line_before number }
    ensures length { length result ≤ 100 }
{
    let port = 1 + number / 16_777_216 % 8;
    let happening = number / 65_536 % 4;
    if happening == 0 {
        unplug_line(port)
    } else if happening == 1 {
        allowed_line(port)
    } else if happening == 2 {
        blocked_line(port)
    } else {
        fail_line(1 + number / 256 % 16)
    }
}

#[tactic(auto, unfolding(crate::specs::GeneratedScripts::sweep_line))]
pub fn push_sweep(line: &mut Line, event: u64)
    requires { length line.old ≤ 100 }
    ensures { line.new ≡ line.old ++ lines.sweep_line event }
{
    line.push(b"sweep ");
    line.push_decimal(event);
    line.push(b"\n");
}
