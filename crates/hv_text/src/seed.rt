//! Hashing from a start that the keys of a table choose.

ghost use Rattle.std.specs.Prelude.{◌≡◌, fold};
ghost use Rattle.std.specs.Hash.DefaultHasher as sip;
ghost use Rattle.hv_text.specs.Seeds.{start_of};

use std::hash::{BuildHasher, DefaultHasher, Hash};

/// The hasher of a table. Its start takes in all keys of the table, so that whoever wants keys that
/// collide has to find them under a start that each of them changes.
#[derive(Clone, Copy)]
pub struct Seeded {
    start: DefaultHasher,
}

impl Seeded {
    /// The start that has taken in nothing.
    pub fn new() -> Seeded
        ensures { start_of result ≡ sip.initial }
    {
        Seeded {
            start: DefaultHasher::new(),
        }
    }

    /// Takes in what a key feeds a hasher.
    pub fn take_in<T: Hash>(&mut self, key: &T)
        ensures { start_of self.new ≡ fold sip.write (start_of self.old) (T.hash_input key.now) }
    {
        key.hash(&mut self.start);
    }
}

impl BuildHasher for Seeded {
    type Hasher = DefaultHasher;

    ghost build_hasher = { λ s. s.start };

    fn build_hasher(&self) -> DefaultHasher {
        self.start
    }
}
