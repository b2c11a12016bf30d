//! Places in a text.

ghost use Rattle.std.specs.Prelude.{◌≡◌, ◌≤◌, ◌<◌, ◌+◌, ◌==◌, not, ℕ, length, take, count_by};
ghost use Rattle.std.specs.List.{suffix_len};
ghost use Rattle.hv_text.specs.declared.fault.TheConstants.{MOST_BYTES};

/// Bytes of a text, from `start` up to but not including `past`.
#[derive(Clone, Copy, Debug, PartialEq, Eq)]
pub struct Span {
    pub start: u32,
    pub past: u32,
}

// The bytes before a place; all of them where it is past the end.
fn text_before(text: &[u8], start: usize) -> &[u8]
    ensures { result.now ≡ take start text.now }
{
    if start < text.len() {
        &text[..start]
    } else {
        text
    }
}

/// Line and column of the start, both from 1; a column counts bytes. A start past the end of the
/// text counts as its end.
pub fn place(text: &[u8], span: Span) -> (u32, u32)
    requires { length text.now ≤ MOST_BYTES }
    ensures line { result.0 ≡ 1 + count_by (λ b. b == 10) (take span.start text.now) }
    ensures column { result.1 ≡ 1 + suffix_len (λ b. not (b == 10)) (take span.start text.now) }
{
    let mut line = 1;
    let mut column = 1;
    let before = text_before(text, span.start as usize);
    for b in before {
        if *b == b'\n' {
            line += 1;
            column = 1;
        } else {
            column += 1;
        }
    }
    (line, column)
}
