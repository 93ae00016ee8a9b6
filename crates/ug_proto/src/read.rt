// Requests from their lines.
ghost use Rattle.std.specs.Prelude.{◌≡◌, ◌≤◌, ◌<◌, IfOk, IfErr, Ok, length};
ghost use Rattle.ug_proto.specs.Requests as requests;
ghost use Rattle.ug_proto.specs.Requests.{unless_empty, after_in, rule_kind_in, permanence_in, get_read, set_read, permanence_read, device_read, rule_at_end, append_read, remove_read, rule_request_read, named_read, request_read, IsWrongAt};
ghost use Rattle.ug_lines.specs.Numbers.{number_in};

use crate::request::{Request, RequestFault};
use crate::split::{behind_word, first_word};
use std::alloc::Global;
use ug_lines::parse_decimal;
use ug_types::{After, Target, Text, is_word};

// The next word of a line of that length, of which the rest begins with a space where it isn't empty.
fn next_word(total: usize, rest: &[u8]) -> Result<&[u8], RequestFault>
    ensures ok { IfOk result (λ word. requests.next_word total rest.now ≡ Ok word.now) }
    ensures err { IfErr result (λ fault. IsWrongAt fault (requests.next_word total rest.now)) }
{
    if rest.is_empty() {
        return Err(RequestFault::Bad(total as u64));
    }
    Ok(first_word(&rest[1..]))
}

fn behind_next(rest: &[u8]) -> &[u8]
    ensures is { result.now ≡ requests.behind_next rest.now }
    ensures shorter { length result.now ≤ length rest.now }
{
    if rest.is_empty() {
        return rest;
    }
    behind_word(&rest[1..])
}

fn next_place(total: usize, rest: &[u8]) -> u64
    requires { length rest.now ≤ total }
    ensures { result ≡ requests.next_place total rest.now }
{
    if rest.is_empty() {
        return total as u64;
    }
    (total - (rest.len() - 1)) as u64
}

fn bad_next(total: usize, rest: &[u8]) -> RequestFault
    requires { length rest.now ≤ total }
    ensures { result ≡ RequestFault.Bad (requests.next_place total rest.now) }
{
    RequestFault::Bad(next_place(total, rest))
}

fn next_text(total: usize, rest: &[u8]) -> Result<&[u8], RequestFault>
    requires { length rest.now ≤ total }
    ensures ok { IfOk result (λ word. requests.next_read total rest.now unless_empty
        ≡ Ok word.now) }
    ensures err { IfErr result (λ fault.
        IsWrongAt fault (requests.next_read total rest.now unless_empty)) }
{
    let word = next_word(total, rest)?;
    if word.is_empty() {
        return Err(bad_next(total, rest));
    }
    Ok(word)
}

fn next_number(total: usize, rest: &[u8]) -> Result<u64, RequestFault>
    requires { length rest.now ≤ total }
    ensures ok { IfOk result (λ n. requests.next_read total rest.now number_in ≡ Ok n) }
    ensures err { IfErr result (λ fault.
        IsWrongAt fault (requests.next_read total rest.now number_in)) }
{
    let word = next_word(total, rest)?;
    match parse_decimal(word) {
        Some(number) => Ok(number),
        None => Err(bad_next(total, rest)),
    }
}

// Where a rule goes: `end`, `0` for the front, or the id of the rule before it.
fn after(word: &[u8]) -> Option<After>
    ensures { result ≡ after_in word.now }
{
    if is_word(word, b"end") {
        return Some(After::End);
    }
    match parse_decimal(word) {
        Some(0) => Some(After::Front),
        Some(id) => Some(After::Rule(id)),
        None => None,
    }
}

fn next_after(total: usize, rest: &[u8]) -> Result<After, RequestFault>
    requires { length rest.now ≤ total }
    ensures ok { IfOk result (λ a. requests.next_read total rest.now after_in ≡ Ok a) }
    ensures err { IfErr result (λ fault.
        IsWrongAt fault (requests.next_read total rest.now after_in)) }
{
    let word = next_word(total, rest)?;
    match after(word) {
        Some(after) => Ok(after),
        None => Err(bad_next(total, rest)),
    }
}

// Whether a rule is permanent.
fn kind(word: &[u8]) -> Option<bool>
    ensures { result ≡ rule_kind_in word.now }
{
    if is_word(word, b"permanent") {
        return Some(true);
    }
    if is_word(word, b"temporary") {
        return Some(false);
    }
    None
}

fn next_kind(total: usize, rest: &[u8]) -> Result<bool, RequestFault>
    requires { length rest.now ≤ total }
    ensures ok { IfOk result (λ k. requests.next_read total rest.now rule_kind_in ≡ Ok k) }
    ensures err { IfErr result (λ fault.
        IsWrongAt fault (requests.next_read total rest.now rule_kind_in)) }
{
    let word = next_word(total, rest)?;
    match kind(word) {
        Some(kind) => Ok(kind),
        None => Err(bad_next(total, rest)),
    }
}

fn end(total: usize, rest: &[u8], request: Request) -> Result<Request, RequestFault>
    requires { length rest.now ≤ total }
    ensures ok { IfOk result (λ r. requests.nothing_behind total rest.now request ≡ Ok r) }
    ensures err { IfErr result (λ fault.
        IsWrongAt fault (requests.nothing_behind total rest.now request)) }
{
    if rest.is_empty() {
        return Ok(request);
    }
    drop(request);
    Err(bad_next(total, rest))
}

fn get_parameter(alloc: Global, total: usize, rest: &[u8]) -> Result<Request, RequestFault>
    requires { length rest.now ≤ total }
    ensures ok { IfOk result (λ r. get_read total rest.now ≡ Ok r) }
    ensures err { IfErr result (λ fault. IsWrongAt fault (get_read total rest.now)) }
{
    let name = Text::of(alloc, next_text(total, rest)?)?;
    end(total, behind_next(rest), Request::GetParameter { name })
}

fn set_parameter(alloc: Global, total: usize, rest: &[u8]) -> Result<Request, RequestFault>
    requires { length rest.now ≤ total }
    ensures ok { IfOk result (λ r. set_read total rest.now ≡ Ok r) }
    ensures err { IfErr result (λ fault. IsWrongAt fault (set_read total rest.now)) }
{
    let name = next_text(total, rest)?;
    let rest = behind_next(rest);
    let value = next_text(total, rest)?;
    let name = Text::of(alloc, name)?;
    let value = Text::of(alloc, value)?;
    end(
        total,
        behind_next(rest),
        Request::SetParameter { name, value },
    )
}

fn permanence(
    total: usize,
    rest: &[u8],
    number: u64,
    target: Target,
) -> Result<Request, RequestFault>
    requires { length rest.now ≤ total }
    ensures ok { IfOk result (λ r. permanence_read total rest.now number target ≡ Ok r) }
    ensures err { IfErr result (λ fault.
        IsWrongAt fault (permanence_read total rest.now number target)) }
{
    if rest.is_empty() {
        return Ok(Request::Device {
            number,
            target,
            permanent: false,
        });
    }
    if is_word(first_word(&rest[1..]), b"permanent") {
        return end(
            total,
            behind_word(&rest[1..]),
            Request::Device {
                number,
                target,
                permanent: true,
            },
        );
    }
    Err(bad_next(total, rest))
}

fn device(target: Target, total: usize, rest: &[u8]) -> Result<Request, RequestFault>
    requires { length rest.now ≤ total }
    ensures ok { IfOk result (λ r. device_read target total rest.now ≡ Ok r) }
    ensures err { IfErr result (λ fault. IsWrongAt fault (device_read target total rest.now)) }
{
    let number = next_number(total, rest)?;
    permanence(total, behind_next(rest), number, target)
}

fn rule(
    alloc: Global,
    total: usize,
    rest: &[u8],
    after: After,
    permanent: bool,
) -> Result<Request, RequestFault>
    ensures ok { IfOk result (λ r. rule_at_end total rest.now after permanent ≡ Ok r) }
    ensures err { IfErr result (λ fault.
        IsWrongAt fault (rule_at_end total rest.now after permanent)) }
{
    if rest.len() < 2 {
        return Err(RequestFault::Bad(total as u64));
    }
    let rule = Text::of(alloc, &rest[1..])?;
    Ok(Request::AppendRule {
        after,
        permanent,
        rule,
    })
}

fn append_rule(alloc: Global, total: usize, rest: &[u8]) -> Result<Request, RequestFault>
    requires { length rest.now ≤ total }
    ensures ok { IfOk result (λ r. append_read total rest.now ≡ Ok r) }
    ensures err { IfErr result (λ fault. IsWrongAt fault (append_read total rest.now)) }
{
    let after = next_after(total, rest)?;
    let rest = behind_next(rest);
    let permanent = next_kind(total, rest)?;
    rule(alloc, total, behind_next(rest), after, permanent)
}

fn remove_rule(total: usize, rest: &[u8]) -> Result<Request, RequestFault>
    requires { length rest.now ≤ total }
    ensures ok { IfOk result (λ r. remove_read total rest.now ≡ Ok r) }
    ensures err { IfErr result (λ fault. IsWrongAt fault (remove_read total rest.now)) }
{
    let id = next_number(total, rest)?;
    end(total, behind_next(rest), Request::RemoveRule { id })
}

// The requests about rules, and `watch`.
#[tactic(auto, unfolding(crate::specs::Requests::rule_request_read))]
fn rule_request(
    alloc: Global,
    word: &[u8],
    total: usize,
    rest: &[u8],
) -> Result<Request, RequestFault>
    requires { length rest.now ≤ total }
    ensures ok { IfOk result (λ r. rule_request_read word.now total rest.now ≡ Ok r) }
    ensures err { IfErr result (λ fault.
        IsWrongAt fault (rule_request_read word.now total rest.now)) }
{
    if is_word(word, b"list-rules") {
        return end(total, rest, Request::ListRules);
    }
    if is_word(word, b"append-rule") {
        return append_rule(alloc, total, rest);
    }
    if is_word(word, b"remove-rule") {
        return remove_rule(total, rest);
    }
    if is_word(word, b"watch") {
        return end(total, rest, Request::Watch);
    }
    Err(RequestFault::Bad(0))
}

#[tactic(auto, unfolding(crate::specs::Requests::named_read))]
fn named(alloc: Global, word: &[u8], total: usize, rest: &[u8]) -> Result<Request, RequestFault>
    requires { length rest.now ≤ total }
    ensures ok { IfOk result (λ r. named_read word.now total rest.now ≡ Ok r) }
    ensures err { IfErr result (λ fault. IsWrongAt fault (named_read word.now total rest.now)) }
{
    if is_word(word, b"get-parameter") {
        return get_parameter(alloc, total, rest);
    }
    if is_word(word, b"set-parameter") {
        return set_parameter(alloc, total, rest);
    }
    if is_word(word, b"list-devices") {
        return end(total, rest, Request::ListDevices);
    }
    if is_word(word, b"allow-device") {
        return device(Target::Allow, total, rest);
    }
    if is_word(word, b"block-device") {
        return device(Target::Block, total, rest);
    }
    if is_word(word, b"reject-device") {
        return device(Target::Reject, total, rest);
    }
    rule_request(alloc, word, total, rest)
}

/// The request that a line is, without its newline. Words stand with one space between; numbers are decimal, below 2^64, without
/// a sign or a leading zero; a rule is the rest of the line. Two spaces make an empty word, which fits only in a rule.
pub fn parse_request(alloc: Global, line: &[u8]) -> Result<Request, RequestFault>
    ensures ok { IfOk result (λ r. request_read line.now ≡ Ok r) }
    ensures err { IfErr result (λ fault. IsWrongAt fault (request_read line.now)) }
{
    named(alloc, first_word(line), line.len(), behind_word(line))
}
