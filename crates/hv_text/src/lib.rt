//! The text layer: words, expressions and names of a text, places in it, and the bytes that come in
//! and go out.
#![tactic(auto)]

mod at;
mod cursor;
mod fault;
mod files;
mod headed;
mod hints;
mod io;
mod laws;
mod lists;
mod memory;
mod name;
mod refusal;
mod seed;
mod sexp;
mod sexps;
mod span;
mod words;

pub use at::Cursor;
pub use fault::{MOST_BYTES, MOST_OPEN, TextFault, TextKind};
pub use files::{FromReader, ToWriter};
pub use headed::Headed;
pub use hints::Hints;
pub use io::{DeviceFault, ReadFault, Sink, Source, WriteFault, read_all, write_all, write_parts};
pub use laws::{
    a_text_has_one_reading, comments_are_blanks, expressions_are_tidy, expressions_or_one_fault,
    names_agree, texts_have_what_they_spell, words_are_in_order, words_are_maximal_runs,
    words_cover_the_text,
};
pub use lists::Lists;
pub use memory::{FromMemory, ToMemory};
pub use name::Name;
pub use refusal::Memory;
pub use seed::Seeded;
pub use sexp::Sexp;
pub use sexps::read_sexps;
pub use span::{Span, place};
pub use words::{Found, Word, fill_words, first_letter, next_word, read_words};
