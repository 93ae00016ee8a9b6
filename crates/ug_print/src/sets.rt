// Attributes and sets of values as words.
ghost use Rattle.std.specs.Prelude.{◌≡◌, ◌++◌, ◌∷◌, [], All, IfOk, IfSome, OnOk, List, codes, flat_map, length, map};
ghost use Rattle.ug_print.specs.Bytes.{AreBytes, QueryOfBytes, TextsOfBytes};
ghost use Rattle.ug_print.specs.Items.{id_text, interface_text, string_text};
ghost use Rattle.ug_print.specs.Words.{attribute_words, closing_brace, is_alone, joined, label_words, opening, operator_words, query_words, spaced};

use crate::items::{print_id, print_interface, print_string};
use std::alloc::Global;
use ug_types::{Id, Iface, List, NoMemory, Op, Query, Text, Values};

pub fn put_word(alloc: Global, words: &mut List<Text>, word: &[u8]) -> Result<(), NoMemory>
    ensures { OnOk result (words.new ≡ words.old ++ word.now ∷ []) }
{
    words.push(Text::of(alloc, word)?)
}

fn put_spaced(out: &mut Vec<u8>, words: &[Text]) -> Result<(), NoMemory>
    ensures { OnOk result (out.new.items ≡ out.old.items ++ flat_map spaced words.now) }
{
    for word in words {
        out.push(b' ')?;
        out.extend_from_slice(word.bytes())?;
    }
    Ok(())
}

/// The words with one space between each and the next.
pub fn join(alloc: Global, words: &[Text]) -> Result<Text, NoMemory>
    ensures { IfOk result (λ text. text ≡ joined words.now) }
{
    let mut out = Vec::new(alloc);
    if !words.is_empty() {
        out.extend_from_slice(words[0].bytes())?;
        put_spaced(&mut out, &words[1..])?;
    }
    Ok(Text::from_vec(out))
}

fn put_operator(alloc: Global, words: &mut List<Text>, op: Op) -> Result<(), NoMemory>
    ensures { OnOk result (words.new ≡ words.old ++ operator_words op) }
{
    match op {
        Op::AllOf => put_word(alloc, words, b"all-of"),
        Op::OneOf => put_word(alloc, words, b"one-of"),
        Op::NoneOf => put_word(alloc, words, b"none-of"),
        Op::Equals => Ok(()),
        Op::EqualsOrdered => put_word(alloc, words, b"equals-ordered"),
    }
}

fn stands_alone(op: Op, count: usize) -> bool
    ensures { result ≡ is_alone op count }
{
    match op {
        Op::Equals => count == 1,
        Op::AllOf | Op::OneOf | Op::NoneOf | Op::EqualsOrdered => false,
    }
}

pub fn put_opening(
    alloc: Global,
    words: &mut List<Text>,
    op: Op,
    count: usize,
) -> Result<(), NoMemory>
    ensures { OnOk result (words.new ≡ words.old ++ opening op count) }
{
    if stands_alone(op, count) {
        return Ok(());
    }
    put_operator(alloc, words, op)?;
    put_word(alloc, words, b"{")
}

pub fn put_closing(
    alloc: Global,
    words: &mut List<Text>,
    op: Op,
    count: usize,
) -> Result<(), NoMemory>
    ensures { OnOk result (words.new ≡ words.old ++ closing_brace op count) }
{
    if stands_alone(op, count) {
        return Ok(());
    }
    put_word(alloc, words, b"}")
}

fn put_id_items(alloc: Global, words: &mut List<Text>, ids: &[Id]) -> Result<(), NoMemory>
    ensures { OnOk result (words.new ≡ words.old ++ map id_text ids.now) }
{
    for id in ids {
        words.push(print_id(alloc, *id)?)?;
    }
    Ok(())
}

fn put_interface_items(
    alloc: Global,
    words: &mut List<Text>,
    interfaces: &[Iface],
) -> Result<(), NoMemory>
    ensures { OnOk result (words.new ≡ words.old ++ map interface_text interfaces.now) }
{
    for interface in interfaces {
        words.push(print_interface(alloc, *interface)?)?;
    }
    Ok(())
}

fn put_text_items(alloc: Global, words: &mut List<Text>, texts: &[Text]) -> Result<(), NoMemory>
    ensures words { OnOk result (words.new ≡ words.old ++ map string_text texts.now) }
    ensures bytes { OnOk result (All AreBytes texts.now) }
{
    for text in texts {
        words.push(print_string(alloc, text.bytes())?)?;
    }
    Ok(())
}

fn put_ids(
    alloc: Global,
    words: &mut List<Text>,
    name: &[u8],
    values: &Option<Values<Id>>,
) -> Result<(), NoMemory>
    ensures { OnOk result (words.new ≡ words.old ++ attribute_words name.now id_text values.now) }
{
    match values {
        None => Ok(()),
        Some(values) => {
            let ids = values.items.as_slice();
            put_word(alloc, words, name)?;
            put_opening(alloc, words, values.op, ids.len())?;
            put_id_items(alloc, words, ids)?;
            put_closing(alloc, words, values.op, ids.len())
        }
    }
}

fn put_interfaces(
    alloc: Global,
    words: &mut List<Text>,
    name: &[u8],
    values: &Option<Values<Iface>>,
) -> Result<(), NoMemory>
    ensures { OnOk result
        (words.new ≡ words.old ++ attribute_words name.now interface_text values.now) }
{
    match values {
        None => Ok(()),
        Some(values) => {
            let interfaces = values.items.as_slice();
            put_word(alloc, words, name)?;
            put_opening(alloc, words, values.op, interfaces.len())?;
            put_interface_items(alloc, words, interfaces)?;
            put_closing(alloc, words, values.op, interfaces.len())
        }
    }
}

fn put_texts(
    alloc: Global,
    words: &mut List<Text>,
    name: &[u8],
    values: &Option<Values<Text>>,
) -> Result<(), NoMemory>
    ensures words { OnOk result
        (words.new ≡ words.old ++ attribute_words name.now string_text values.now) }
    ensures bytes { OnOk result (TextsOfBytes values.now) }
{
    match values {
        None => Ok(()),
        Some(values) => {
            let texts = values.items.as_slice();
            put_word(alloc, words, name)?;
            put_opening(alloc, words, values.op, texts.len())?;
            put_text_items(alloc, words, texts)?;
            put_closing(alloc, words, values.op, texts.len())
        }
    }
}

fn put_label(alloc: Global, words: &mut List<Text>, label: &Option<Text>) -> Result<(), NoMemory>
    ensures words { OnOk result (words.new ≡ words.old ++ label_words label.now) }
    ensures bytes { OnOk result (IfSome label.now AreBytes) }
{
    match label {
        None => Ok(()),
        Some(text) => {
            put_word(alloc, words, b"label")?;
            words.push(print_string(alloc, text.bytes())?)
        }
    }
}

/// The attributes that are given.
#[tactic(auto, unfolding(crate::specs::Words::query_words))]
pub fn put_query(alloc: Global, words: &mut List<Text>, query: &Query) -> Result<(), NoMemory>
    ensures words { OnOk result (words.new ≡ words.old ++ query_words query.now) }
    ensures bytes { OnOk result (QueryOfBytes query.now) }
{
    put_ids(alloc, words, b"id", &query.id)?;
    put_texts(alloc, words, b"serial", &query.serial)?;
    put_texts(alloc, words, b"name", &query.name)?;
    put_texts(alloc, words, b"hash", &query.hash)?;
    put_texts(alloc, words, b"parent-hash", &query.parent_hash)?;
    put_texts(alloc, words, b"via-port", &query.via_port)?;
    put_interfaces(alloc, words, b"with-interface", &query.interface)?;
    put_texts(alloc, words, b"with-connect-type", &query.connect)?;
    put_label(alloc, words, &query.label)
}
