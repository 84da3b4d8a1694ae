// How many calls came to which outcome.

use failure::NoMemory;
use item::Item;
use std::alloc::{AllocError, Global};
use std::collections::BTreeMap;
use wt_code::{Answer, text_of};

/// The counts, by the words of the outcome; those of a refusal are its text.
#[derive(Drop)]
pub(crate) struct Outcomes {
    counts: BTreeMap<String, u32>,
}

impl Outcomes {
    pub(crate) fn new(alloc: Global) -> Outcomes {
        Outcomes {
            counts: BTreeMap::new(alloc),
        }
    }

    /// Counts an answer.
    pub(crate) fn count(&mut self, alloc: Global, answer: &Answer<Item>) -> Result<(), NoMemory> {
        let words = words_of(alloc, answer)?;
        self.add(words)?;
        Ok(())
    }

    fn add(&mut self, words: String) -> Result<(), AllocError> {
        let count = self.counts.entry(words)?.or_insert(0);
        *count = count.saturating_add(1);
        Ok(())
    }

    /// The counts in one line.
    pub(crate) fn text(&self, alloc: Global) -> Result<String, AllocError> {
        let mut text = String::new(alloc);
        for (words, count) in self.counts.iter() {
            let part = format!(in alloc; "{words}: {count}")?;
            if !text.is_empty() {
                text.push_str(", ")?;
            }
            text.push_str(part.as_str())?;
        }
        Ok(text)
    }
}

fn words_of(alloc: Global, answer: &Answer<Item>) -> Result<String, NoMemory> {
    match answer {
        Answer::Done => Ok(String::from_str(alloc, "done")?),
        Answer::Value(_) => Ok(String::from_str(alloc, "value")?),
        Answer::Row(_, _) => Ok(String::from_str(alloc, "row")?),
        Answer::Left => Ok(String::from_str(alloc, "left")?),
        Answer::End => Ok(String::from_str(alloc, "end")?),
        Answer::Refused(refusal) => text_of(alloc, refusal),
    }
}
