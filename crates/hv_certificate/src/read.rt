//! Reading a certificate.

ghost use Rattle.std.specs.Prelude.{◌≡◌, ◌++◌, ◌<◌, ◌≤◌, length, codes, MatchOption, IfSome, IfOk, IfErr};
ghost use Rattle.hv_text.specs.declared.fault.TheConstants.{MOST_BYTES};
ghost use Rattle.hv_certificate.specs.Texts.{root_text, node_text};
ghost use Rattle.hv_certificate.specs.Forms.{HasIds, IsLine, IsCertText, IsCertFault};
ghost use Rattle.hv_certificate.specs.inside.Reading.{NoRoot, NoNode, NoFirst, IsRead, IsOff};

use crate::certificate::{Certificate, Choice};
use crate::choice::{choice_of, index_of};
use crate::fault::CertFault;
use crate::number::number;
use crate::words::read_line;
use hv_text::{MOST_BYTES, Memory, Name};
use std::alloc::Global;

/// The certificate whose text this is.
///
/// # Errors
///
/// `TooLong`, else `BadCertificate` with the first line that is not of its form. `Memory` where a
/// growth was refused.
pub fn read_cert<'s>(alloc: Global, text: &'s [u8]) -> Result<Certificate<'s>, CertFault>
    ensures ok { IfOk result (IsCertText text.now) }
    ensures err { IfErr result (IsCertFault text.now) }
{
    if text.len() > MOST_BYTES {
        return Err(CertFault::TooLong);
    }
    let Some(left) = behind_first(text) else {
        return Err(CertFault::BadCertificate(1));
    };
    let Some((root, left)) = read_root(alloc, left)? else {
        return Err(CertFault::BadCertificate(2));
    };
    let lines = read_nodes(alloc, left)?;
    Ok(Certificate { root, lines })
}

// What stands behind the first line, where it is `solves`.
fn behind_first(text: &[u8]) -> Option<&[u8]>
    ensures { MatchOption result (NoFirst text.now) (λ p. text.now ≡ codes "solves\n" ++ p.now) }
{
    text.strip_prefix(b"solves\n")
}

// The line of `root` at the front, and what stands behind it.
fn read_root<'s>(alloc: Global, left: &'s [u8]) -> Result<Option<(Choice<'s>, &'s [u8])>, Memory>
    ensures { IfOk result (λ o. MatchOption o (NoRoot left.now)
        (λ p. HasIds p.0 × (left.now ≡ root_text p.0 ++ p.1.now))) }
{
    let mut words = Vec::new(alloc);
    let Some(line) = read_line(&mut words, left)? else {
        return Ok(None);
    };
    if !line.first.is(b"root") {
        return Ok(None);
    }
    let Some(choice) = choice_of(alloc, line.words)? else {
        return Ok(None);
    };
    Ok(Some((choice, line.behind)))
}

// The lines of decomposition lines, to the end of the text; they begin with its third line.
fn read_nodes<'s>(alloc: Global, left: &'s [u8]) -> Result<Vec<(u64, Choice<'s>, u32)>, CertFault>
    requires { length left.now ≤ MOST_BYTES }
    ensures ok { IfOk result (λ v. IsRead left.now v.items) }
    ensures err { IfErr result (IsOff left.now) }
{
    let mut lines = Vec::new(alloc);
    let mut words = Vec::new(alloc);
    let mut rest = left;
    let mut number = 3;
    'lines: while !rest.is_empty() {
        let Some((line, behind)) = read_node(alloc, &mut words, rest)? else {
            return Err(CertFault::BadCertificate(number));
        };
        lines.push(line)?;
        rest = behind;
        number += 1;
    }
    Ok(lines)
}

// The line of a decomposition line at the front, and what stands behind it. Its words are put in
// place of those that a list has.
fn read_node<'s>(
    alloc: Global,
    words: &mut Vec<Name<'s>>,
    left: &'s [u8],
) -> Result<Option<((u64, Choice<'s>, u32), &'s [u8])>, Memory>
    ensures line { IfOk result (λ o. MatchOption o (NoNode left.now)
        (λ p. IsLine p.0 × (left.now ≡ node_text p.0 ++ p.1.now))) }
    ensures less { IfOk result (λ o. IfSome o (λ p. length p.1.now < length left.now)) }
{
    let Some(line) = read_line(words, left)? else {
        return Ok(None);
    };
    let Some(id) = number(line.first) else {
        return Ok(None);
    };
    let Some((index, words)) = index_of(line.words) else {
        return Ok(None);
    };
    let Some(choice) = choice_of(alloc, words)? else {
        return Ok(None);
    };
    Ok(Some(((id, choice, index), line.behind)))
}
