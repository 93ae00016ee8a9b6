// The values of rules as text.
ghost use Rattle.std.specs.Prelude.{◌≡◌, ◌++◌, ◌∷◌, [], IfOk, OnOk, flat_map};
ghost use Rattle.ug_lines.specs.Digits.{hex_four, hex_two};
ghost use Rattle.ug_print.specs.Bytes.{AreBytes};
ghost use Rattle.ug_print.specs.Items.{byte_text, id_text, interface_text, or_star, string_text};

use std::alloc::Global;
use ug_types::{Id, Iface, NoMemory, Text};
use ug_words::{put_byte, put_number};

fn put_number_or_star(out: &mut Vec<u8>, n: Option<u16>) -> Result<(), NoMemory>
    ensures { OnOk result (out.new.items ≡ out.old.items ++ or_star hex_four n) }
{
    match n {
        Some(n) => put_number(out, n),
        None => Ok(out.push(b'*')?),
    }
}

fn put_byte_or_star(out: &mut Vec<u8>, n: Option<u8>) -> Result<(), NoMemory>
    ensures { OnOk result (out.new.items ≡ out.old.items ++ or_star hex_two n) }
{
    match n {
        Some(n) => put_byte(out, n),
        None => Ok(out.push(b'*')?),
    }
}

pub fn print_id(alloc: Global, id: Id) -> Result<Text, NoMemory>
    ensures { IfOk result (λ text. text ≡ id_text id) }
{
    let mut out = Vec::new(alloc);
    put_number_or_star(&mut out, id.vendor)?;
    out.push(b':')?;
    put_number_or_star(&mut out, id.product)?;
    Ok(Text::from_vec(out))
}

pub fn print_interface(alloc: Global, interface: Iface) -> Result<Text, NoMemory>
    ensures { IfOk result (λ text. text ≡ interface_text interface) }
{
    let mut out = Vec::new(alloc);
    put_byte(&mut out, interface.class)?;
    out.push(b':')?;
    put_byte_or_star(&mut out, interface.subclass)?;
    out.push(b':')?;
    put_byte_or_star(&mut out, interface.protocol)?;
    Ok(Text::from_vec(out))
}

fn put_escaped(out: &mut Vec<u8>, byte: u8) -> Result<(), NoMemory>
    ensures { OnOk result (out.new.items ≡ out.old.items ++ byte_text byte) }
{
    if byte == b'"' || byte == b'\\' {
        out.push(b'\\')?;
        out.push(byte)?;
        return Ok(());
    }
    if b' ' <= byte && byte <= b'~' {
        out.push(byte)?;
        return Ok(());
    }
    out.push(b'\\')?;
    out.push(b'x')?;
    put_byte(out, byte)
}

fn put_text(out: &mut Vec<u8>, text: &[u8]) -> Result<(), NoMemory>
    ensures { OnOk result (out.new.items ≡ out.old.items ++ flat_map byte_text text.now) }
{
    for byte in text {
        put_escaped(out, *byte)?;
    }
    Ok(())
}

pub fn print_string(alloc: Global, text: &[u8]) -> Result<Text, NoMemory>
    ensures text { IfOk result (λ printed. printed ≡ string_text text.now) }
    ensures bytes { AreBytes text.now }
{
    let mut out = Vec::new(alloc);
    out.push(b'"')?;
    put_text(&mut out, text)?;
    out.push(b'"')?;
    Ok(Text::from_vec(out))
}
