//! Sets of numbers as bits, 64 in a word.

ghost use Rattle.std.specs.Prelude.{◌≡◌, ℕ, ◌<◌, ◌/◌, ◌↔◌, ◌⊎◌, IsTrue, IfOk, length};
ghost use Rattle.hv_state.specs.inside.Bits.{Has};

use hv_text::Memory;

/// Whether the bit of a number is set. Behind the last word none is.
pub(crate) fn has_bit(words: &[u64], number: usize) -> bool
    ensures { IsTrue result ↔ Has words.now number }
{
    match words.get(number / 64) {
        Some(word) => (*word >> (number % 64)) & 1 == 1,
        None => false,
    }
}

/// Sets the bit of a number.
pub(crate) fn set_bit(words: &mut Vec<u64>, number: usize)
    requires { number / 64 < length words.old.items }
    ensures set { (i : ℕ) → Has words.new.items i ↔ (Has words.old.items i ⊎ (i ≡ number)) }
    ensures len { length words.new.items ≡ length words.old.items }
{
    words[number / 64] |= 1 << (number % 64);
}

/// Sets the bit of a number, for which a word is made where there is none.
pub(crate) fn raise(words: &mut Vec<u64>, number: usize) -> Result<(), Memory>
    ensures { IfOk result (λ _. (i : ℕ) →
        (Has words.old.items i ⊎ (i ≡ number)) → Has words.new.items i) }
{
    if words.len() <= number / 64 {
        words.resize(number / 64 + 1, 0)?;
    }
    set_bit(words, number);
    Ok(())
}

/// Clears the bit of a number.
pub(crate) fn clear_bit(words: &mut Vec<u64>, number: usize)
    requires { number / 64 < length words.old.items }
    ensures cleared { (i : ℕ) → Has words.new.items i ↔ (Has words.old.items i × (i ≡ number → ⊥)) }
    ensures len { length words.new.items ≡ length words.old.items }
{
    words[number / 64] &= !(1 << (number % 64));
}
