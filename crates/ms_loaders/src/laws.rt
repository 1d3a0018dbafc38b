//! The laws of the whole, each the contract of a function that does nothing. `events` speaks of the
//! model alone: however the steps of loaders are spread over atomic events, the replies and the
//! state are those of whole steps, one after another; what happens at an event (`Event` in the
//! specs of `ms_base`), how steps are spread over events (`Spread`), and when each counts as done
//! (`Serial`). `pool_calls_are_events` says that the calls of `Pool` are such events
//! (`CallEvents`).
ghost use Rattle.ms_base.specs.Laws.Spread.{SpreadsAreSerial};
ghost use Rattle.ms_base.specs.Laws.Sum.{NoLoaderHoldsNothing};
ghost use Rattle.ms_loaders.specs.CallEvents.{PurgesAreEvents, TotalsAreEvents, ClosesAreEvents};
ghost use Rattle.ms_loaders.specs.CallEvents.{OpensAreEvents, TakesAreEvents, GrowsAreEvents};

/// Says what spreads of steps over events come to: from a good state the state is good after each
/// event, no loader's event changes what is another's, and the steps in the order of their
/// positions are a run of the machine with the same replies, from the same first state to the same
/// last. With no account left each reserved root is one free part, and nothing is committed unless
/// the policy keeps it.
pub fn events()
    ensures serial { SpreadsAreSerial }
    ensures given_back { NoLoaderHoldsNothing }
{}

/// Says that the calls of `Pool` are events, each under its premises: what `purge`, `totals`,
/// `close_both`, `open_both`, `take` and `grow` make of a pool, by the relations of their own
/// clauses, happens at the machine that the pool and all its loaders are, of however many seats,
/// and leaves both together, so that the next call is an event too. A single account's `open` and
/// `close` are no event: the machine opens and closes a loader's two at once.
pub fn pool_calls_are_events()
    ensures purges { PurgesAreEvents }
    ensures totals { TotalsAreEvents }
    ensures closes { ClosesAreEvents }
    ensures opens { OpensAreEvents }
    ensures takes { TakesAreEvents }
    ensures grows { GrowsAreEvents }
{}
