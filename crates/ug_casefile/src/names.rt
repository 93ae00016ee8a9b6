// Names for texts that stand in many cases.
use crate::answer::Answer;
use crate::cases::Setting;
use crate::words::split_word;
use std::alloc::Global;
use ug_types::NoMemory;

/// `$NAME` stands for the text of that name. No name begins another.
#[derive(Drop)]
pub struct Names {
    defined: Vec<Setting>,
}

impl Names {
    pub fn new(alloc: Global) -> Names {
        Names {
            defined: Vec::new(alloc),
        }
    }

    /// Whether the line had a name.
    pub fn define(&mut self, alloc: Global, line: &[u8]) -> Result<bool, NoMemory> {
        let (name, text) = split_word(line);
        if name.is_empty() {
            return Ok(false);
        }
        let key = Vec::from_slice(alloc, name)?;
        let value = self.expand(alloc, text)?;
        self.defined.push(Setting { key, value })?;
        Ok(true)
    }

    fn add(&self, text: &mut Answer, part: &[u8]) {
        for name in self.defined.as_slice() {
            if let Some(rest) = part.strip_prefix(name.key.as_slice()) {
                text.add(&name.value);
                text.add(rest);
                return;
            }
        }
        text.add(b"$");
        text.add(part);
    }

    /// The text with each name that stands behind a `$` put in.
    pub fn expand(&self, alloc: Global, text: &[u8]) -> Result<Vec<u8>, NoMemory> {
        let mut whole = Answer::new(alloc);
        let mut first = true;
        for part in text.split(|byte| *byte == b'$') {
            if first {
                whole.add(part);
            } else {
                self.add(&mut whole, part);
            }
            first = false;
        }
        whole.finish()
    }
}
