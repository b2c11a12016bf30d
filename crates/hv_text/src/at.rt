//! A place in a text.

ghost use Rattle.std.specs.Prelude.{◌≤◌, length};
ghost use Rattle.hv_text.specs.declared.fault.TheConstants.{MOST_BYTES, MOST_OPEN};

/// A place in a text, in no comment and behind no word byte, and how many parentheses are open
/// there.
#[derive(Clone, Copy)]
pub struct Cursor<'s> {
    pub(crate) text: &'s [u8],
    pub(crate) at: usize,
    pub(crate) depth: usize,
    pub ghost is_within: { at ≤ length text.now },
    pub ghost has_size: { length text.now ≤ MOST_BYTES },
    pub ghost has_depth: { depth ≤ MOST_OPEN },
}
