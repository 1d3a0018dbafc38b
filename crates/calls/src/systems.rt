//! The rows of a system: a loader is made, steps are run, those of a trace too, sums are told.
pub(crate) mod filled;
pub(crate) mod settling;
pub(crate) mod stepping;

use crate::loaders::held::tell_all_places;
use crate::pools::{GRANULES, SETTINGS, SMALLEST};
use crate::row::{Answer, Probed, Row, gave, say, tell, told};
use crate::systems::filled::{FREED, filled, tell_details, tell_totals};
use ms_answers::Details;
use ms_base::{Kind, Refusal, Reply, Step};
use ms_loaders::{System, Totals};
use ms_pool::RootMap;
use std::alloc::{AllocError, Global};
use std::io;

/// Steps that take no memory but for their replies.
const QUIET_STEPS: [Step; 5] = [
    Step::Read {
        loader: 2,
        block: 1,
        index: 19,
    },
    Step::Free {
        loader: 1,
        block: 2,
    },
    Step::Unload { loader: 2 },
    Step::Unload { loader: 2 },
    Step::Purge,
];

/// A step that takes memory.
const ALLOC: Step = Step::Alloc {
    loader: 1,
    block: 3,
    words: 9000,
};

/// What a system is asked.
#[derive(Clone, Copy)]
pub(crate) enum Asked {
    /// A loader is to be made.
    NewLoader,
    /// A block is to be allocated, by a step.
    Step,
    /// Steps are to be run.
    Run,
    /// Sums are to be told.
    Totals,
    /// The sums of each loader in each space are to be told.
    Details,
    /// Maps of the roots are to be told.
    Maps,
}

/// A system, and what it is asked.
#[derive(Drop)]
pub(crate) struct Asking {
    system: System,
    asked: Asked,
}

impl Asking {
    /// Prepares a system with no loader, in which one is to be made.
    pub(crate) fn new_loader(alloc: Global) -> io::Result<Asking> {
        let system = System::new(alloc, SETTINGS)?;
        let asked = Asked::NewLoader;
        Ok(Asking { system, asked })
    }

    /// Prepares a system with loaders and blocks, which is asked so.
    pub(crate) fn filled(alloc: Global, asked: Asked) -> io::Result<Asking> {
        let system = filled(alloc, &FREED)?;
        Ok(Asking { system, asked })
    }
}

impl Row for Asking {
    /// Prints the sums, the counts and those of each loader, which granules are committed, to whom
    /// words are lent, and the named blocks. Takes memory for the sums.
    fn tell_state(&mut self, rt: &HostRuntime) -> io::Result<()> {
        let totals = self.system.totals()?;
        tell_totals(rt, &totals);
        tell_system(rt, &self.system);
        tell_names(rt, &mut self.system);
        Ok(())
    }

    fn call(&mut self, rt: &HostRuntime) -> Answer {
        match self.asked {
            Asked::NewLoader => told(rt, self.system.new_loader(3, Kind::Reflection)),
            Asked::Step => step_told(rt, self.system.step(ALLOC)),
            Asked::Run => run_told(rt, self.system.run(QUIET_STEPS.as_slice())),
            Asked::Totals => totals_told(rt, self.system.totals()),
            Asked::Details => details_told(rt, self.system.details()),
            Asked::Maps => maps_told(rt, self.system.maps()),
        }
    }
}

impl Probed for Asking {
    fn probe(self, rt: &HostRuntime) -> io::Result<()> {
        let (pool, mut loaders) = self.system.into_parts();
        drop(pool);
        let told = tell_all_places(rt, &mut loaders);
        drop(loaders);
        told
    }
}

/// Prints a system: its counts, the sums of each loader, which granules are committed, and to whom
/// words are lent.
fn tell_system(rt: &HostRuntime, system: &System) {
    tell(rt, &system.counts());
    for name in 0..4 {
        tell(rt, &system.loader_totals(name));
    }
    for granule in 0..GRANULES {
        if system.is_committed(granule) {
            tell(rt, &granule);
        }
    }
    tell_holders(rt, system);
}

/// Prints each word from which on words are lent to another loader, or to none.
fn tell_holders(rt: &HostRuntime, system: &System) {
    let mut last = None;
    for number in 0..SMALLEST {
        let holder = system.holder(128 * number);
        if holder != last {
            tell(rt, &(128 * number, holder));
            last = holder;
        }
    }
}

/// Prints the first word of each named block.
fn tell_names(rt: &HostRuntime, system: &mut System) {
    for loader in 0..4 {
        for block in 0..4 {
            let index = 0;
            let reply = system.step(Step::Read {
                loader,
                block,
                index,
            });
            tell(rt, &(loader, block, reply));
        }
    }
}

/// Prints the reply of a step.
fn step_told(rt: &HostRuntime, reply: Reply) -> Answer {
    match reply {
        Reply::Refused(Refusal::OutOfMemory) => Answer::Refused,
        reply => gave(rt, &reply),
    }
}

/// Prints the replies of a run.
fn run_told(rt: &HostRuntime, answer: Result<Vec<Reply>, AllocError>) -> Answer {
    match answer {
        Ok(replies) => gave(rt, &replies),
        Err(_) => Answer::Refused,
    }
}

/// Prints the sums that were asked for.
fn totals_told(rt: &HostRuntime, answer: Result<Totals, AllocError>) -> Answer {
    match answer {
        Ok(totals) => {
            say(rt, "ok");
            tell_totals(rt, &totals);
            Answer::Served
        }
        Err(_) => Answer::Refused,
    }
}

/// Prints the details that were asked for.
fn details_told(rt: &HostRuntime, answer: Result<Details, AllocError>) -> Answer {
    match answer {
        Ok(details) => {
            say(rt, "ok");
            tell_details(rt, &details);
            Answer::Served
        }
        Err(_) => Answer::Refused,
    }
}

/// Prints the maps that were asked for.
pub(crate) fn maps_told(rt: &HostRuntime, answer: Result<Vec<RootMap>, AllocError>) -> Answer {
    match answer {
        Ok(maps) => gave(rt, &maps),
        Err(_) => Answer::Refused,
    }
}
