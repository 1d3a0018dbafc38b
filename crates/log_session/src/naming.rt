//! The loaders of a trace, with what the log says of each.
ghost use Rattle.std.specs.Prelude.{◌≡◌, ◌++◌, ◌∷◌, [], IfOk, OnOk};
ghost use Rattle.log_session.specs.Naming.{name_line, names_text, told_of};

use jvm_log::{name_in, owner_in};
use std::alloc::{AllocError, Global};
use std::collections::HashMap;

/// What stands for a loader of which the log says nothing.
const UNKNOWN: &str = "?";

/// The names of the loaders.
#[derive(Drop)]
pub struct Naming {
    alloc: Global,
    /// The number of each, in the order of their lines.
    pub(crate) numbers: Vec<u16>,
    /// What the log says of each, by how many came before it.
    pub(crate) texts: HashMap<u64, Vec<u8>>,
    /// How many came before the loader whose data lies at an address.
    births: HashMap<u64, u64>,
}

impl Naming {
    /// Makes a list of no loaders.
    pub fn new(alloc: Global) -> Naming
        ensures { result.numbers.items ≡ [] }
    {
        Naming {
            alloc,
            numbers: Vec::new(alloc),
            texts: HashMap::new(alloc),
            births: HashMap::new(alloc),
        }
    }

    /// Adds the loader of a `new` line.
    pub fn open(&mut self, number: u16) -> Result<(), AllocError>
        ensures last { OnOk result (self.new.numbers.items ≡ self.old.numbers.items ++ number ∷ []) }
        ensures texts { self.new.texts ≡ self.old.texts }
    {
        self.numbers.push(number)?;
        Ok(())
    }

    /// Keeps what a line says of the loader before which so many came.
    pub fn describe(&mut self, birth: u64, line: &[u8]) -> Result<(), AllocError> {
        let Some(owner) = owner_in(line) else {
            return Ok(());
        };
        self.births.insert(owner.data, birth)?;
        if self.texts.contains_key(&birth) {
            return Ok(());
        }
        let mut text = Vec::from_slice(self.alloc, owner.class)?;
        if owner.is_holder {
            text.extend_from_slice(b" has a class holder".as_slice())?;
        }
        self.texts.insert(birth, text)?;
        Ok(())
    }

    /// Keeps the name that a line gives to a loader that was unloaded.
    pub fn name(&mut self, line: &[u8]) -> Result<(), AllocError> {
        let Some((data, name)) = name_in(line) else {
            return Ok(());
        };
        if name.ends_with(b" has a class holder".as_slice()) {
            return Ok(());
        }
        let Some(birth) = self.births.remove(&data) else {
            return Ok(());
        };
        if let Some(text) = self.texts.get_mut(&birth) {
            text.extend_from_slice(b" ".as_slice())?;
            text.extend_from_slice(name)?;
        }
        Ok(())
    }

    /// Returns a line for each loader: its number, a space, and what the log says of it.
    pub fn text(&self) -> Result<Vec<u8>, AllocError>
        ensures { IfOk result (λ text. text.items ≡ names_text self.now.texts.entries 0 self.now.numbers.items) }
    {
        let mut text = Vec::new(self.alloc);
        for birth in 0..self.numbers.len() {
            self.add_line(&mut text, self.numbers[birth], birth as u64)?;
        }
        Ok(text)
    }

    /// Adds the line of the loader before which so many came.
    fn add_line(&self, text: &mut Vec<u8>, number: u16, birth: u64) -> Result<(), AllocError>
        ensures { OnOk result (text.new.items ≡ text.old.items
            ++ name_line number (told_of self.now.texts.entries birth)) }
    {
        let number = format!(in self.alloc; "{number} ")?;
        text.extend_from_slice(number.as_bytes())?;
        match self.texts.get(&birth) {
            Some(told) => text.extend_from_slice(told.as_slice())?,
            None => text.extend_from_slice(UNKNOWN.as_bytes())?,
        }
        text.extend_from_slice(b"\n".as_slice())
    }
}
