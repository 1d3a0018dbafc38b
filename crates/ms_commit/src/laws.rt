//! Laws of the definitions, as contracts of functions that do nothing: what the words about sets
//! mean, said by their members, and what the two spaces have of a set of granules.
ghost use Rattle.ms_commit.specs.Laws.{ChangesAreByMembers, SetsAreTheirMembers, MembersAreCommitted};
ghost use Rattle.ms_commit.specs.Laws.{GranulesAreOfTwoSpaces, SpacesAreCommitted, RangesChangeTheirSpace};
ghost use Rattle.ms_commit.specs.Laws.{SlotsLeaveWithTheirGranules};

/// A range or a number that is added or taken out changes its own membership and no other.
pub fn changes_are_by_members()
    ensures { ChangesAreByMembers }
{}

/// Two sets in rising order with the same members are equal.
pub fn sets_are_their_members()
    ensures { SetsAreTheirMembers }
{}

/// A set of granules is the one of the model exactly by its members.
pub fn members_are_committed()
    ensures { MembersAreCommitted }
{}

/// Both spaces' granules, one space's after the other's, are all of them.
pub fn granules_are_of_two_spaces()
    ensures { GranulesAreOfTwoSpaces }
{}

/// A space's granules are those of the model exactly by their members.
pub fn spaces_are_committed()
    ensures { SpacesAreCommitted }
{}

/// A range of granules of a space that is committed or uncommitted changes that space alone.
pub fn ranges_change_their_space()
    ensures { RangesChangeTheirSpace }
{}

/// A slot that is unreserved takes its granules with it, and none of the class space.
pub fn slots_leave_with_their_granules()
    ensures { SlotsLeaveWithTheirGranules }
{}
