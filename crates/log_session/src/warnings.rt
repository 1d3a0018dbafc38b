//! Warnings about a log on standard error: the first line of each kind at once, and how many there
//! were in the end.
ghost use Rattle.std.specs.Prelude.{◌≡◌, ◌≢◌, ◌<◌, ℕ, [], Some, IfSome, IfNone, OnOk, length, slice_get};
ghost use Rattle.log_session.specs.Warnings.{Counts, IsKnown};

use jvm_log::Trouble;
use std::alloc::{AllocError, Global};
use std::io::Write;

/// The warnings so far.
#[derive(Drop)]
pub struct Warnings {
    /// Each kind that had a warning, and how many lines it had.
    pub(crate) told: Vec<(Trouble, u64)>,
}

impl Warnings {
    /// Makes a list of nothing.
    pub fn new(alloc: Global) -> Warnings
        ensures { result.told.items ≡ [] }
    {
        Warnings {
            told: Vec::new(alloc),
        }
    }

    /// Counts what is wrong at a line, and writes a warning where it is the first of its kind.
    pub fn tell<E: Write>(
        &mut self,
        trouble: Trouble,
        line: u64,
        errors: &mut E,
    ) -> Result<(), AllocError>
        ensures counted { OnOk result (Counts trouble self.old.told.items self.new.told.items) }
        ensures once { IsKnown trouble self.old.told.items → errors.new ≡ errors.old }
    {
        if let Some(at) = self.index_of(trouble) {
            self.told[at].1 = self.told[at].1.saturating_add(1);
            return Ok(());
        }
        self.told.push((trouble, 1))?;
        // Whether the warning comes out changes nothing.
        let _ = writeln!(errors, "metalog: line {line}: {trouble}");
        Ok(())
    }

    /// Finds a kind among those that had a warning.
    fn index_of(&self, trouble: Trouble) -> Option<usize>
        ensures inside { IfSome result (λ at. at < length self.now.told.items) }
        ensures found { IfSome result (λ at. (count : ℕ) × (slice_get self.now.told.items at ≡ Some (trouble, count))) }
        ensures none { IfNone result (IsKnown trouble self.now.told.items → ⊥) }
    {
        for at in 0..self.told.len() {
            if self.told[at].0 == trouble {
                return Some(at);
            }
        }
        None
    }

    /// Writes of which kinds there were more.
    pub fn sum_up<E: Write>(&self, errors: &mut E) {
        for (trouble, count) in &self.told {
            if *count > 1 {
                let _ = writeln!(errors, "metalog: {count} such lines: {trouble}");
            }
        }
    }
}
