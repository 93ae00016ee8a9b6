// A rule in memory reads again from its canonical text, since its texts are bytes. These functions find that of each part, and do nothing
// else: so no text is printed to be dropped.
ghost use Rattle.std.specs.Prelude.{All, IfSome};
ghost use Rattle.ug_print.specs.Bytes.{AreBytes, CondOfBytes, CondsOfBytes, KindOfBytes, QueryOfBytes, RuleOfBytes, TextsOfBytes};
ghost use Rattle.ug_rule.specs.Grammar.{WellFormed};
ghost use Rattle.ug_ruleset.specs.RuleFile.{ReadsBack};

use ug_types::{Cond, CondKind, Conds, Query, Rule, Text, Values};

fn find_bytes(text: &[u8])
    ensures { AreBytes text.now }
{
    let _len = text.len();
}

fn find_texts(texts: &[Text])
    ensures { All AreBytes texts.now }
{
    for text in texts {
        find_bytes(text.bytes());
    }
}

fn find_values(values: &Option<Values<Text>>)
    ensures { TextsOfBytes values.now }
{
    if let Some(values) = values {
        find_texts(values.items.as_slice());
    }
}

fn find_label(label: &Option<Text>)
    ensures { IfSome label.now AreBytes }
{
    if let Some(text) = label {
        find_bytes(text.bytes());
    }
}

fn find_query(query: &Query)
    ensures { QueryOfBytes query.now }
{
    find_values(&query.serial);
    find_values(&query.name);
    find_values(&query.hash);
    find_values(&query.parent_hash);
    find_values(&query.via_port);
    find_values(&query.connect);
    find_label(&query.label);
}

fn find_kind(kind: &CondKind)
    ensures { KindOfBytes kind.now }
{
    if let CondKind::AllowedMatches(query) = kind {
        find_query(query);
    }
}

fn find_items(conds: &[Cond])
    ensures { All CondOfBytes conds.now }
{
    for cond in conds {
        find_kind(&cond.kind);
    }
}

fn find_conds(conds: &Option<Conds>)
    ensures { CondsOfBytes conds.now }
{
    if let Some(conds) = conds {
        find_items(conds.items.as_slice());
    }
}

/// Where some line reads as the rule, so does its canonical text. It does nothing.
#[tactic(auto, using(crate::proofs::Readable::reads_back))]
pub fn stay_readable(rule: &Rule)
    ensures bytes { RuleOfBytes rule.now }
    ensures reads { WellFormed rule.now → ReadsBack rule.now }
{
    find_query(&rule.query);
    find_conds(&rule.conds);
}
