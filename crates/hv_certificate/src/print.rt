//! Printing a certificate.

ghost use Rattle.std.specs.Prelude.{◌≡◌, ◌++◌, codes, decimal, OnOk, OnErr};
ghost use Rattle.hv_text.specs.Names.{text_of};
ghost use Rattle.hv_certificate.specs.Texts.{ids_text, name_text, names_text, choice_text, root_text, node_text, nodes_text, cert_text};

use crate::certificate::{Certificate, Choice};
use hv_text::{Memory, Name};
use itoa::Buffer;

/// Appends the text of a certificate: the line `solves`, the line of `root`, and a line for each
/// decomposition line, with ids without leading zeros and names in lower case.
///
/// # Errors
///
/// `Memory` where a growth was refused; then nothing is appended.
pub fn print_cert(certificate: &Certificate<'_>, out: &mut Vec<u8>) -> Result<(), Memory>
    ensures ok { OnOk result (out.new.items ≡ out.old.items ++ cert_text certificate.now) }
    ensures err { OnErr result (out.new.items ≡ out.old.items) }
{
    let mut text = Vec::new(*out.allocator());
    put_certificate(&mut text, certificate)?;
    out.extend_from_slice(&text)?;
    Ok(())
}

// Puts a certificate.
fn put_certificate(out: &mut Vec<u8>, certificate: &Certificate<'_>) -> Result<(), Memory>
    ensures { OnOk result (out.new.items ≡ out.old.items ++ cert_text certificate.now) }
{
    out.extend_from_slice(b"solves\n")?;
    put_root(out, &certificate.root)?;
    put_nodes(out, &certificate.lines)
}

// Puts the line of `root`.
fn put_root(out: &mut Vec<u8>, root: &Choice<'_>) -> Result<(), Memory>
    ensures { OnOk result (out.new.items ≡ out.old.items ++ root_text root.now) }
{
    out.extend_from_slice(b"root")?;
    put_choice(out, root)?;
    out.push(b'\n')?;
    Ok(())
}

// Puts the lines of decomposition lines.
fn put_nodes(out: &mut Vec<u8>, nodes: &[(u64, Choice<'_>, u32)]) -> Result<(), Memory>
    ensures { OnOk result (out.new.items ≡ out.old.items ++ nodes_text nodes.now) }
{
    for node in nodes {
        put_node(out, node)?;
    }
    Ok(())
}

// Puts the line of a decomposition line.
fn put_node(out: &mut Vec<u8>, node: &(u64, Choice<'_>, u32)) -> Result<(), Memory>
    ensures { OnOk result (out.new.items ≡ out.old.items ++ node_text node.now) }
{
    put_number(out, node.0)?;
    put_choice(out, &node.1)?;
    out.extend_from_slice(b" pre ")?;
    put_number(out, node.2 as u64)?;
    out.push(b'\n')?;
    Ok(())
}

// Puts the children and the objects of a node.
fn put_choice(out: &mut Vec<u8>, choice: &Choice<'_>) -> Result<(), Memory>
    ensures { OnOk result (out.new.items ≡ out.old.items ++ choice_text choice.now) }
{
    out.extend_from_slice(b" children")?;
    put_ids(out, &choice.children)?;
    out.extend_from_slice(b" objects")?;
    put_names(out, &choice.objects)
}

// Puts ids, a space before each.
fn put_ids(out: &mut Vec<u8>, ids: &[u64]) -> Result<(), Memory>
    ensures { OnOk result (out.new.items ≡ out.old.items ++ ids_text ids.now) }
{
    for id in ids {
        out.push(b' ')?;
        put_number(out, *id)?;
    }
    Ok(())
}

// Puts a number, without leading zeros.
fn put_number(out: &mut Vec<u8>, number: u64) -> Result<(), Memory>
    ensures { OnOk result (out.new.items ≡ out.old.items ++ decimal number) }
{
    let mut digits = Buffer::new();
    out.extend_from_slice(digits.format(number).as_bytes())?;
    Ok(())
}

// Puts names, a space before each.
fn put_names(out: &mut Vec<u8>, names: &[Name<'_>]) -> Result<(), Memory>
    ensures { OnOk result (out.new.items ≡ out.old.items ++ names_text names.now) }
{
    for name in names {
        put_name(out, *name)?;
    }
    Ok(())
}

// Puts a space and a name in lower case.
fn put_name(out: &mut Vec<u8>, name: Name<'_>) -> Result<(), Memory>
    ensures { OnOk result (out.new.items ≡ out.old.items ++ name_text name.entry) }
{
    out.push(b' ')?;
    put_letters(out, name)
}

// Puts a name in lower case.
fn put_letters(out: &mut Vec<u8>, name: Name<'_>) -> Result<(), Memory>
    ensures { OnOk result (out.new.items ≡ out.old.items ++ text_of name.entry) }
{
    for b in name.written() {
        out.push(b.to_ascii_lowercase())?;
    }
    Ok(())
}
