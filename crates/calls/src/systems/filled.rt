//! A system with loaders and blocks, and how its sums are told.
use crate::pools::SETTINGS;
use crate::row::{tell, unprepared};
use ms_answers::{Details, Peaks};
use ms_base::{Kind, Reply, Step};
use ms_loaders::{System, Totals};
use std::alloc::{AllocError, Global};
use std::io;

/// The first steps of a system: two loaders, one with blocks in a node, the other in the class
/// space.
const STEPS: [Step; 5] = [
    Step::New {
        loader: 1,
        kind: Kind::Standard,
    },
    Step::New {
        loader: 2,
        kind: Kind::Boot,
    },
    Step::Alloc {
        loader: 1,
        block: 1,
        words: 10,
    },
    Step::Alloc {
        loader: 1,
        block: 2,
        words: 4000,
    },
    Step::Calloc {
        loader: 2,
        block: 1,
        words: 20,
    },
];

/// Further steps: a free block in each space, and a word that is written.
pub(crate) const FREED: [Step; 5] = [
    Step::Alloc {
        loader: 2,
        block: 2,
        words: 30,
    },
    Step::Free {
        loader: 1,
        block: 1,
    },
    Step::Free {
        loader: 2,
        block: 2,
    },
    Step::Write {
        loader: 2,
        block: 1,
        index: 19,
        value: 5,
    },
    Step::Purge,
];

/// Further steps: a third loader, with a block in the class space.
pub(crate) const HIDDEN: [Step; 2] = [
    Step::New {
        loader: 3,
        kind: Kind::Hidden,
    },
    Step::Calloc {
        loader: 3,
        block: 1,
        words: 30,
    },
];

/// The peaks of a report.
const PEAKS: Peaks = Peaks {
    granules: 3,
    nodes: 2,
    used: 5000,
    loaders: 2,
};

/// Makes a system with loaders and blocks, by the first steps and further ones.
pub(crate) fn filled(alloc: Global, more: &[Step]) -> io::Result<System> {
    let mut system = System::new(alloc, SETTINGS)?;
    if is_served(&mut system, &STEPS) && is_served(&mut system, more) {
        return Ok(system);
    }
    drop(system);
    Err(unprepared())
}

/// Takes steps, and prints whether none was refused.
fn is_served(system: &mut System, steps: &[Step]) -> bool {
    for step in steps {
        if let Reply::Refused(_) = system.step(*step) {
            return false;
        }
    }
    true
}

/// Prints the sums of a system with loaders and blocks, with details and peaks.
pub(crate) fn filled_totals(alloc: Global, more: &[Step]) -> io::Result<Totals> {
    let system = filled(alloc, more)?;
    let totals = detailed_totals(&system);
    drop(system);
    Ok(totals?)
}

/// Prints the sums of a system, with its details and with peaks.
fn detailed_totals(system: &System) -> Result<Totals, AllocError> {
    let mut totals = system.totals()?;
    totals.peaks = Some(PEAKS);
    totals.details = Some(system.details()?);
    Ok(totals)
}

/// Prints sums: those over each space, the row of each loader, the peaks and the details where
/// there are some.
pub(crate) fn tell_totals(rt: &HostRuntime, totals: &Totals) {
    tell(rt, &totals.loaders);
    tell(rt, &totals.space);
    tell(rt, &totals.class_space);
    for row in &totals.rows {
        tell(rt, row);
    }
    tell(rt, &totals.peaks);
    if let Some(details) = &totals.details {
        tell_details(rt, details);
    }
}

/// Prints the sums of each loader in each space, and the maps of roots.
pub(crate) fn tell_details(rt: &HostRuntime, details: &Details) {
    tell(rt, &details.loaders);
    tell(rt, &details.roots);
}
