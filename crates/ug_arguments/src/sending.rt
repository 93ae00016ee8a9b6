// Whether a request isn't too long to be sent. Its line isn't made for that.
ghost use Rattle.std.specs.Prelude.{◌≡◌, ◌≤◌, ◌+◌, nat_le, true, length, decimal};
ghost use Rattle.ug_proto.specs.Texts.{after_word, request_text};
ghost use Rattle.ug_arguments.specs.Commands.{request_limit};

use itoa::Buffer;
use ug_proto::{After, Request};

/// The most bytes that a request's line has, without its newline.
const REQUEST_LIMIT: usize = 65_535;

/// Whether so many bytes and so many more are within the limit.
fn fits(more: usize, length: usize) -> bool
    requires { more ≤ request_limit }
    ensures { result ≡ nat_le (more + length) request_limit }
{
    length <= REQUEST_LIMIT - more
}

fn digits(number: u64) -> usize
    ensures length { result ≡ length (decimal number) }
    ensures short { result ≤ 40 }
{
    let mut digits = Buffer::new();
    digits.format(number).len()
}

fn after_length(after: After) -> usize
    ensures length { result ≡ length (after_word after) }
    ensures short { result ≤ 40 }
{
    match after {
        After::End => 3,
        After::Front => 1,
        After::Rule(id) => digits(id),
    }
}

// The words beside a number, which are fixed, have fewer than a hundred bytes.
fn are_few(digits: usize) -> bool
    requires { digits ≤ 40 }
    ensures { result ≡ true }
{
    digits < REQUEST_LIMIT - 100
}

// The words of a setting and of its value.
fn fit_words(name: &[u8], value: &[u8]) -> bool
    ensures { result ≡ nat_le (15 + (length name.now + length value.now)) request_limit }
{
    fits(15, name.len()) && fits(15 + name.len(), value.len())
}

/// Whether the request's line, without its newline, is within the limit.
#[tactic(auto, unfolding(ug_proto::specs::Texts::request_text), using(crate::proofs::RequestLengths::set_length, crate::proofs::RequestLengths::append_length))]
pub fn is_sendable(request: &Request) -> bool
    ensures { result ≡ nat_le (length (request_text request.now)) request_limit }
{
    match request {
        Request::GetParameter { name } => fits(14, name.bytes().len()),
        Request::SetParameter { name, value } => fit_words(name.bytes(), value.bytes()),
        Request::AppendRule { after, rule, .. } => {
            fits(23 + after_length(*after), rule.bytes().len())
        }
        Request::Device { number, .. } => are_few(digits(*number)),
        Request::RemoveRule { id } => are_few(digits(*id)),
        Request::ListDevices => true,
        Request::ListRules => true,
        Request::Watch => true,
    }
}
