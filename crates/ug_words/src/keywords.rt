// The words that a rule is made of: usbguard-rules.conf(5).
ghost use Rattle.std.specs.Prelude.{◌≡◌};
ghost use Rattle.ug_words.specs.Keywords.{operator_of, attribute_of, condition_of};
ghost use Rattle.ug_words.specs.Keywords as keywords;

use ug_types::{Op, is_word};

/// An attribute's name.
#[derive(Clone, Copy)]
pub enum Attr {
    Id,
    Serial,
    Name,
    Hash,
    ParentHash,
    ViaPort,
    Interface,
    Connect,
    Label,
}

/// A condition's name.
#[derive(Clone, Copy)]
pub enum CondName {
    LocalTime,
    AllowedMatches,
    RuleApplied,
    RuleEvaluated,
    Random,
    True,
    False,
}

#[tactic(auto, unfolding(crate::specs::Keywords::operator_of))]
pub fn operator(word: &[u8]) -> Option<Op>
    ensures { result ≡ operator_of word.now }
{
    if is_word(word, b"all-of") {
        return Some(Op::AllOf);
    }
    if is_word(word, b"one-of") {
        return Some(Op::OneOf);
    }
    if is_word(word, b"none-of") {
        return Some(Op::NoneOf);
    }
    if is_word(word, b"equals") {
        return Some(Op::Equals);
    }
    if is_word(word, b"equals-ordered") {
        return Some(Op::EqualsOrdered);
    }
    None
}

#[tactic(auto, unfolding(crate::specs::Keywords::attribute_of))]
pub fn attribute(word: &[u8]) -> Option<Attr>
    ensures { result ≡ attribute_of word.now }
{
    if is_word(word, b"id") {
        return Some(Attr::Id);
    }
    if is_word(word, b"serial") {
        return Some(Attr::Serial);
    }
    if is_word(word, b"name") {
        return Some(Attr::Name);
    }
    if is_word(word, b"hash") {
        return Some(Attr::Hash);
    }
    if is_word(word, b"parent-hash") {
        return Some(Attr::ParentHash);
    }
    if is_word(word, b"via-port") {
        return Some(Attr::ViaPort);
    }
    if is_word(word, b"with-interface") {
        return Some(Attr::Interface);
    }
    if is_word(word, b"with-connect-type") {
        return Some(Attr::Connect);
    }
    if is_word(word, b"label") {
        return Some(Attr::Label);
    }
    None
}

#[tactic(auto, unfolding(crate::specs::Keywords::condition_of))]
pub fn condition(word: &[u8]) -> Option<CondName>
    ensures { result ≡ condition_of word.now }
{
    if is_word(word, b"localtime") {
        return Some(CondName::LocalTime);
    }
    if is_word(word, b"allowed-matches") {
        return Some(CondName::AllowedMatches);
    }
    if is_word(word, b"rule-applied") {
        return Some(CondName::RuleApplied);
    }
    if is_word(word, b"rule-evaluated") {
        return Some(CondName::RuleEvaluated);
    }
    if is_word(word, b"random") {
        return Some(CondName::Random);
    }
    if is_word(word, b"true") {
        return Some(CondName::True);
    }
    if is_word(word, b"false") {
        return Some(CondName::False);
    }
    None
}

#[tactic(auto, unfolding(crate::specs::Keywords::is_if))]
pub fn is_if(word: &[u8]) -> bool
    ensures { result ≡ keywords.is_if word.now }
{
    is_word(word, b"if")
}
