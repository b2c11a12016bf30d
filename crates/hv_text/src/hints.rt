//! Where names may stand in a list: a look there before a table is asked.

use crate::name::Name;
use crate::refusal::Memory;
use std::alloc::Global;

/// For each of some names two places where it may stand in a list, by a hash that is cheap. A
/// place is looked at before it is taken, and a name that stands at neither is looked up in a
/// table: so nothing hangs on the hash but time, and where a text makes names collide, two looks
/// are lost for each.
#[derive(Drop)]
pub struct Hints {
    buckets: Vec<[u32; 2]>,
}

// What a hash is multiplied by, so that each of its bits takes part in all above it.
const SPREAD: u64 = 0x9e37_79b9_7f4a_7c15;

// Takes one more word into a hash. The upper half is what tells most.
fn mixed(hash: u64, word: u64) -> u64 {
    let spread = (hash ^ word).wrapping_mul(SPREAD);
    spread ^ (spread >> 32)
}

// The word of a name that has fewer than eight bytes.
fn short_word(bytes: &[u8]) -> u64 {
    let mut word: u64 = 0;
    for byte in bytes {
        word = (word << 8) | u64::from(*byte);
    }
    word
}

// A hash of a name, as it is written: of its length, of its bytes eight by eight from the first on,
// and of the last eight. What names differ in stands mostly at their end, and so in the lowest bits
// of the last word.
fn hash_of(name: Name<'_>) -> u64 {
    let bytes = name.written();
    let mut hash = bytes.len() as u64;
    let (words, _rest) = bytes.as_chunks::<8>();
    for word in words {
        hash = mixed(hash, u64::from_be_bytes(*word));
    }
    match bytes.last_chunk::<8>() {
        Some(word) => mixed(hash, u64::from_be_bytes(*word)),
        None => mixed(hash, short_word(bytes)),
    }
}

// Puts a place into a bucket, where 0 also says that nothing was put there. The second gives way
// where both are taken.
fn put(bucket: &mut [u32; 2], place: u32) {
    if bucket[0] == 0 {
        bucket[0] = place;
    } else {
        bucket[1] = place;
    }
}

impl Hints {
    /// For no names.
    pub fn none(alloc: Global) -> Hints {
        Hints {
            buckets: Vec::new(alloc),
        }
    }

    /// With room for so many names.
    ///
    /// # Errors
    ///
    /// `Memory` where the room was refused.
    pub fn with_room(alloc: Global, names: usize) -> Result<Hints, Memory> {
        Ok(Hints {
            buckets: vec![in alloc; [0; 2]; names.saturating_mul(2)]?,
        })
    }

    // The bucket of a name: the upper half of its hash tells how far down the list.
    fn bucket(&self, name: Name<'_>) -> usize {
        let share = (hash_of(name) >> 32).wrapping_mul(self.buckets.len() as u64);
        (share >> 32) as usize
    }

    /// The places where a name may stand.
    #[inline(always)]
    pub fn of(&self, name: Name<'_>) -> [usize; 2] {
        match self.buckets.get(self.bucket(name)) {
            Some([first, second]) => [*first as usize, *second as usize],
            None => [0, 0],
        }
    }

    /// Notes where a name stands. Of three names with one hash the second is forgotten.
    pub fn note(&mut self, name: Name<'_>, place: usize) {
        let turn = self.bucket(name);
        let Ok(place) = u32::try_from(place) else {
            return;
        };
        if let Some(bucket) = self.buckets.get_mut(turn) {
            put(bucket, place);
        }
    }
}
