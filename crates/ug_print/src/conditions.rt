// Conditions of rules as text.
ghost use Rattle.std.specs.Prelude.{◌≡◌, ◌<◌, ◌++◌, ◌∷◌, [], All, IfOk, OnOk, List, codes, decimal, if◌then◌else◌, map};
ghost use Rattle.ug_print.specs.Bytes.{CondOfBytes, CondsOfBytes, KindOfBytes, QueryOfBytes};
ghost use Rattle.ug_print.specs.Items.{billionths, past_text, probability_text, time_text, two_decimal_digits};
ghost use Rattle.ug_print.specs.Words.{cond_text, conds_words, joined, kind_text, query_words};

use crate::sets::{join, put_closing, put_opening, put_query, put_word};
use itoa::Buffer;
use std::alloc::Global;
use ug_types::{Cond, CondKind, Conds, List, NoMemory, Query, Text};

const BILLION: u64 = 1_000_000_000;

fn put(out: &mut Vec<u8>, bytes: &[u8]) -> Result<(), NoMemory>
    ensures { OnOk result (out.new.items ≡ out.old.items ++ bytes.now) }
{
    out.extend_from_slice(bytes)?;
    Ok(())
}

fn put_decimal(out: &mut Vec<u8>, n: u32) -> Result<(), NoMemory>
    ensures { OnOk result (out.new.items ≡ out.old.items ++ decimal n) }
{
    let mut buffer = Buffer::new();
    put(out, buffer.format(n).as_bytes())
}

fn put_two_digits(out: &mut Vec<u8>, n: u32) -> Result<(), NoMemory>
    ensures { OnOk result (out.new.items ≡ out.old.items ++ two_decimal_digits n) }
{
    if n < 10 {
        out.push(b'0')?;
        return put_decimal(out, n);
    }
    put_decimal(out, n)
}

fn put_time(out: &mut Vec<u8>, seconds: u32) -> Result<(), NoMemory>
    ensures { OnOk result (out.new.items ≡ out.old.items ++ time_text seconds) }
{
    put_two_digits(out, seconds / 3600)?;
    out.push(b':')?;
    put_two_digits(out, seconds / 60 % 60)?;
    out.push(b':')?;
    put_two_digits(out, seconds % 60)
}

fn put_local_time(out: &mut Vec<u8>, begin: u32, end: u32) -> Result<(), NoMemory>
    ensures { OnOk result
        (out.new.items
        ≡ out.old.items
        ++ (codes "localtime(" ++ time_text begin ++ 45 ∷ (time_text end ++ 41 ∷ []))) }
{
    put(out, b"localtime(")?;
    put_time(out, begin)?;
    out.push(b'-')?;
    put_time(out, end)?;
    put(out, b")")
}

fn print_query(alloc: Global, query: &Query) -> Result<Text, NoMemory>
    ensures text { IfOk result (λ text. text ≡ joined (query_words query.now)) }
    ensures bytes { OnOk result (QueryOfBytes query.now) }
{
    let mut words = List::new(alloc);
    put_query(alloc, &mut words, query)?;
    join(alloc, words.as_slice())
}

fn put_with_argument(out: &mut Vec<u8>, word: &[u8], argument: &[u8]) -> Result<(), NoMemory>
    ensures { OnOk result
        (out.new.items ≡ out.old.items ++ (word.now ++ 40 ∷ (argument.now ++ 41 ∷ []))) }
{
    put(out, word)?;
    put(out, b"(")?;
    put(out, argument)?;
    put(out, b")")
}

fn put_allowed_matches(alloc: Global, out: &mut Vec<u8>, query: &Query) -> Result<(), NoMemory>
    ensures text { OnOk result
        (out.new.items
        ≡ out.old.items
        ++ (codes "allowed-matches(" ++ joined (query_words query.now) ++ 41 ∷ [])) }
    ensures bytes { OnOk result (QueryOfBytes query.now) }
{
    let text = print_query(alloc, query)?;
    put_with_argument(out, b"allowed-matches", text.bytes())
}

fn put_past(out: &mut Vec<u8>, word: &[u8], past: Option<u32>) -> Result<(), NoMemory>
    ensures { OnOk result (out.new.items ≡ out.old.items ++ (word.now ++ past_text past)) }
{
    put(out, word)?;
    match past {
        None => Ok(()),
        Some(seconds) => {
            put(out, b"(")?;
            put_decimal(out, seconds)?;
            put(out, b")")
        }
    }
}

fn put_billionths(out: &mut Vec<u8>, n: u64) -> Result<(), NoMemory>
    requires { n < 1000000000 }
    ensures { OnOk result (out.new.items ≡ out.old.items ++ billionths 9 n) }
{
    let mut rest = n;
    for _place in 0..9u64 {
        if rest == 0 {
            return Ok(());
        }
        out.push(b'0' + (rest * 10 / BILLION) as u8)?;
        rest = rest * 10 % BILLION;
    }
    Ok(())
}

#[tactic(auto, unfolding(crate::specs::Items::probability_text))]
fn put_probability(out: &mut Vec<u8>, n: u32) -> Result<(), NoMemory>
    ensures { OnOk result (out.new.items ≡ out.old.items ++ probability_text n) }
{
    if n == 0 {
        return put(out, b"0");
    }
    if n >= 1_000_000_000 {
        return put(out, b"1");
    }
    put(out, b"0.")?;
    put_billionths(out, n as u64)
}

fn put_random(out: &mut Vec<u8>, n: u32) -> Result<(), NoMemory>
    ensures { OnOk result
        (out.new.items ≡ out.old.items ++ (codes "random(" ++ probability_text n ++ 41 ∷ [])) }
{
    put(out, b"random(")?;
    put_probability(out, n)?;
    put(out, b")")
}

#[tactic(auto, unfolding(crate::specs::Words::kind_text))]
fn put_kind(alloc: Global, out: &mut Vec<u8>, kind: &CondKind) -> Result<(), NoMemory>
    ensures text { OnOk result (out.new.items ≡ out.old.items ++ kind_text kind.now) }
    ensures bytes { OnOk result (KindOfBytes kind.now) }
{
    match kind {
        CondKind::LocalTime { begin, end } => put_local_time(out, *begin, *end),
        CondKind::AllowedMatches(query) => put_allowed_matches(alloc, out, query),
        CondKind::RuleApplied(past) => put_past(out, b"rule-applied", *past),
        CondKind::RuleEvaluated(past) => put_past(out, b"rule-evaluated", *past),
        CondKind::Random(n) => put_random(out, *n),
        CondKind::True => put(out, b"true"),
        CondKind::False => put(out, b"false"),
    }
}

fn put_negation(out: &mut Vec<u8>, negated: bool) -> Result<(), NoMemory>
    ensures { OnOk result (out.new.items ≡ out.old.items ++ (if negated then codes "!" else [])) }
{
    if negated {
        return put(out, b"!");
    }
    Ok(())
}

fn print_cond(alloc: Global, cond: &Cond) -> Result<Text, NoMemory>
    ensures text { IfOk result (λ text. text ≡ cond_text cond.now) }
    ensures bytes { OnOk result (CondOfBytes cond.now) }
{
    let mut out = Vec::new(alloc);
    put_negation(&mut out, cond.negated)?;
    put_kind(alloc, &mut out, &cond.kind)?;
    Ok(Text::from_vec(out))
}

fn put_cond_items(alloc: Global, words: &mut List<Text>, conds: &[Cond]) -> Result<(), NoMemory>
    ensures words { OnOk result (words.new ≡ words.old ++ map cond_text conds.now) }
    ensures bytes { OnOk result (All CondOfBytes conds.now) }
{
    for cond in conds {
        words.push(print_cond(alloc, cond)?)?;
    }
    Ok(())
}

/// `if` and the conditions, where there are any.
pub fn put_conds(
    alloc: Global,
    words: &mut List<Text>,
    conds: &Option<Conds>,
) -> Result<(), NoMemory>
    ensures words { OnOk result (words.new ≡ words.old ++ conds_words conds.now) }
    ensures bytes { OnOk result (CondsOfBytes conds.now) }
{
    match conds {
        None => Ok(()),
        Some(conds) => {
            let items = conds.items.as_slice();
            put_word(alloc, words, b"if")?;
            put_opening(alloc, words, conds.op, items.len())?;
            put_cond_items(alloc, words, items)?;
            put_closing(alloc, words, conds.op, items.len())
        }
    }
}
