//! The loaders and the roots that totals have, where they have details.
ghost use Rattle.std.specs.Prelude.{◌≡◌};
ghost use Rattle.ms_page.specs.Ends.{loaders_in, roots_in};

use ms_answers::{Details, LoaderDetails};
use ms_pool::RootMap;

/// Lends the sums of each loader, none where there are no details.
pub(crate) fn loaders_in(details: &Option<Details>) -> &[LoaderDetails]
    ensures { result.now ≡ loaders_in details.now }
{
    match details {
        Some(details) => details.loaders.as_slice(),
        None => &[],
    }
}

/// Lends the map of each root, none where there are no details.
pub(crate) fn roots_in(details: &Option<Details>) -> &[RootMap]
    ensures { result.now ≡ roots_in details.now }
{
    match details {
        Some(details) => details.roots.as_slice(),
        None => &[],
    }
}
