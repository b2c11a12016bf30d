//! Whether two lists have each number as often.

ghost use Rattle.std.specs.Prelude.{◌≡◌, ◌+◌, ◌<◌, ◌≤◌, ℕ, length, get_or, All, MatchBool};
ghost use Rattle.hv_plan.specs.inside.Tallies.{times};

// Counts each number once more for each time that it stands in a list.
fn add_all(counts: &mut [usize], numbers: &[usize])
    requires within { All (λ n. n < length counts.old) numbers.now }
    requires empty { (n : ℕ) → get_or counts.old n 0 ≡ 0 }
    ensures size { length counts.new ≡ length counts.old }
    ensures counted { (n : ℕ) → get_or counts.new n 0 ≡ times n numbers.now }
{
    for number in numbers {
        counts[*number] += 1;
    }
}

// Counts each number once less for each time that it stands in a list; false where it would go
// below nothing.
fn take_all(counts: &mut [usize], numbers: &[usize]) -> bool
    requires within { All (λ n. n < length counts.old) numbers.now }
    ensures size { length counts.new ≡ length counts.old }
    ensures fewer { (n : ℕ) → get_or counts.new n 0 ≤ get_or counts.old n 0 }
    ensures taken { MatchBool result
        ((n : ℕ) → get_or counts.old n 0 ≡ get_or counts.new n 0 + times n numbers.now)
        ((n : ℕ) × (get_or counts.old n 0 < times n numbers.now)) }
{
    for number in numbers {
        let left = counts[*number];
        if left == 0 {
            return false;
        }
        counts[*number] = left - 1;
    }
    true
}

// Whether each number of a list is counted no more.
fn are_spent(counts: &[usize], numbers: &[usize]) -> bool
    requires within { All (λ n. n < length counts.now) numbers.now }
    ensures { MatchBool result (All (λ n. get_or counts.now n 0 ≡ 0) numbers.now)
        ((n : ℕ) × (get_or counts.now n 0 ≡ 0 → ⊥)) }
{
    for number in numbers {
        if counts[*number] != 0 {
            return false;
        }
    }
    true
}

// Counts the numbers of a list no more.
fn clear_all(counts: &mut [usize], numbers: &[usize])
    requires within { All (λ n. n < length counts.old) numbers.now }
    ensures size { length counts.new ≡ length counts.old }
    ensures cleared { All (λ n. get_or counts.new n 0 ≡ 0) numbers.now }
    ensures fewer { (n : ℕ) → get_or counts.new n 0 ≤ get_or counts.old n 0 }
    ensures others { (n : ℕ) → times n numbers.now ≡ 0
        → get_or counts.new n 0 ≡ get_or counts.old n 0 }
{
    for number in numbers {
        counts[*number] = 0;
    }
}

/// Whether two lists have each number as often. The counts, with a place for each number, are all 0
/// before the call and after it.
pub(crate) fn have_same_counts(counts: &mut [usize], one: &[usize], other: &[usize]) -> bool
    requires one { All (λ n. n < length counts.old) one.now }
    requires other { All (λ n. n < length counts.old) other.now }
    requires empty { (n : ℕ) → get_or counts.old n 0 ≡ 0 }
    ensures same { MatchBool result ((n : ℕ) → times n one.now ≡ times n other.now)
        ((n : ℕ) × (times n one.now ≡ times n other.now → ⊥)) }
    ensures size { length counts.new ≡ length counts.old }
    ensures empty { (n : ℕ) → get_or counts.new n 0 ≡ 0 }
{
    add_all(counts, one);
    let covers = take_all(counts, other);
    let are_spent = are_spent(counts, one);
    clear_all(counts, one);
    covers && are_spent
}
