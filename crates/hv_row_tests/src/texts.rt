//! The texts that rows call by their names.

use anyhow::{Context, Result};
use hv_judge::Which;
use std::alloc::{AllocError, Global};

#[derive(Clone, Copy)]
struct Text<'f> {
    kind: &'f str,
    name: &'f str,
    text: &'f str,
}

/// The texts of a file of rows so far.
#[derive(Drop)]
pub struct Texts<'f> {
    texts: Vec<Text<'f>>,
}

impl<'f> Texts<'f> {
    pub fn new(alloc: Global) -> Texts<'f> {
        Texts {
            texts: Vec::new(alloc),
        }
    }

    /// Keeps a text of this kind, `domain`, `problem`, `plan` or `certificate`, under its name.
    ///
    /// # Errors
    ///
    /// A growth of memory was refused.
    pub fn add(&mut self, kind: &'f str, name: &'f str, text: &'f str) -> Result<(), AllocError> {
        self.texts.push(Text { kind, name, text })?;
        Ok(())
    }

    /// The text that a word of a row stands for: `NAME`, or `NAME[..9]` for its first 9 bytes.
    ///
    /// # Errors
    ///
    /// There is no such text, or it is shorter.
    pub fn find(&self, which: Which, word: &str) -> Result<&'f [u8]> {
        let Some((name, cut)) = word.split_once("[..") else {
            return self.whole(which, word);
        };
        let text = self.whole(which, name)?;
        let length = cut
            .trim_end_matches(']')
            .parse::<usize>()
            .context("a length")?;
        text.get(..length).context("a text is shorter")
    }

    // The whole text of a name.
    fn whole(&self, which: Which, name: &str) -> Result<&'f [u8]> {
        let named = self
            .texts
            .iter()
            .find(|t| t.kind == which.name() && t.name == name);
        let text = named.context(format_args!("no {} {name}", which.name()))?;
        Ok(text.text.as_bytes())
    }
}
