//! The tiles of a page: six questions, each with a mark and the case of its one sentence.
ghost use Rattle.std.specs.Prelude.{◌≡◌};
ghost use Rattle.ms_page.specs.Tiles.{class_case, class_mark, committed_case, committed_mark};
ghost use Rattle.ms_page.specs.Tiles.{loader_case, loader_mark, refused_case, refused_mark};
ghost use Rattle.ms_page.specs.Tiles.{reserved_case, reserved_mark, used_case, used_mark};
ghost use Rattle.ms_page.specs.Tiles.{is_idle, is_near, is_rising, tiles_of, wants_something};
ghost use Rattle.ms_page.specs.Tiles.{worse, worst_of};

/// What the tiles stand on: sizes in words, nodes and lines as counts. This project's choice.
#[derive(Clone, Copy, Debug)]
pub struct Facts {
    /// Words that may be committed, over both spaces.
    pub limit: u64,
    /// Words committed at the end, in both spaces.
    pub committed: u64,
    /// The most words that were committed.
    pub committed_peak: u64,
    /// Words in use at the end, in both spaces.
    pub used: u64,
    /// Nodes reserved at the end, those of the class space among them.
    pub nodes: u32,
    /// Nodes that may be reserved, those of the class space among them.
    pub node_limit: u32,
    /// Nodes without a chunk at the end, none of the class space.
    pub empty_nodes: u32,
    /// Nodes of the class space.
    pub class_nodes: u32,
    /// Words that the class space has.
    pub class_limit: u64,
    /// The most words of the class space that were committed.
    pub class_peak: u64,
    /// Lines that unloaded a loader.
    pub unloads: u64,
    /// Whether a line lies between the first unloading and half-way from there to the end.
    pub two_halves: bool,
    /// The fewest loaders from the first unloading on, before half-way to the end.
    pub low: u64,
    /// The fewest loaders from there on.
    pub low_after: u64,
    /// Lines that were refused at the commit limit.
    pub commit_refused: u64,
    /// Lines outside the class space that were refused for want of a node.
    pub reserve_refused: u64,
    /// Lines of the class space that were refused for want of room.
    pub class_refused: u64,
    /// Lines that were refused for want of memory or of owner numbers.
    pub other_wants: u64,
    /// All lines that were refused.
    pub refused: u64,
}

/// How a tile is marked.
#[derive(Clone, Copy, Debug, PartialEq, Eq)]
pub enum Mark {
    /// All is well.
    Fine,
    /// It is worth a look.
    Look,
    /// A line was refused for want of it.
    Problem,
}

/// What the tile of committed words says.
#[derive(Clone, Copy, Debug, PartialEq, Eq)]
pub enum CommittedCase {
    /// Lines were refused at the limit.
    Refused,
    /// The peak came within a tenth of the limit.
    Near,
    /// The peak stayed below that.
    Within,
}

/// What the tile of used words says.
#[derive(Clone, Copy, Debug, PartialEq, Eq)]
pub enum UsedCase {
    /// Nothing is committed.
    Nothing,
    /// Less than half of what is committed is in use, and a MB or more of it is idle.
    Idle,
    /// More is in use.
    InUse,
}

/// What the tile of reserved words says.
#[derive(Clone, Copy, Debug, PartialEq, Eq)]
pub enum ReservedCase {
    /// Lines were refused for want of a node.
    Refused,
    /// All nodes that may be are reserved.
    All,
    /// Some nodes hold no chunk.
    Empty,
    /// No node is reserved.
    Nothing,
    /// Each node outside the class space holds a chunk.
    Held,
}

/// What the tile of the class space says.
#[derive(Clone, Copy, Debug, PartialEq, Eq)]
pub enum ClassCase {
    /// Lines were refused, as there is none.
    Missing,
    /// Lines were refused, as it had no room.
    Refused,
    /// There is none, and no line wanted one.
    Unwanted,
    /// The peak came within a tenth of it.
    Near,
    /// The peak stayed below that.
    Within,
}

/// What the tile of loaders says.
#[derive(Clone, Copy, Debug, PartialEq, Eq)]
pub enum LoaderCase {
    /// None was unloaded.
    NoneUnloaded,
    /// Though some were unloaded, there are more and more.
    Rising,
    /// There are not.
    Level,
}

/// What the tile of refused lines says.
#[derive(Clone, Copy, Debug, PartialEq, Eq)]
pub enum RefusedCase {
    /// Some were refused for want of something.
    Wants,
    /// Some were refused, all for what they ask.
    Asks,
    /// None was refused.
    Nothing,
}

/// What the six tiles say. This project's choice.
#[derive(Clone, Copy, Debug, PartialEq, Eq)]
pub struct Tiles {
    /// That of committed words, of the limit.
    pub committed: CommittedCase,
    /// That of used words, of the committed ones.
    pub used: UsedCase,
    /// That of reserved nodes.
    pub reserved: ReservedCase,
    /// That of the class space.
    pub class_space: ClassCase,
    /// That of loaders.
    pub loaders: LoaderCase,
    /// That of refused lines.
    pub refused: RefusedCase,
}

impl Tiles {
    /// Returns the worst mark of the six.
    pub fn worst(&self) -> Mark
        ensures { result ≡ worst_of self.now }
    {
        let words = worse(self.committed.mark(), self.used.mark());
        let nodes = worse(self.reserved.mark(), self.class_space.mark());
        let lines = worse(self.loaders.mark(), self.refused.mark());
        worse(worse(words, nodes), lines)
    }
}

impl Facts {
    /// Returns what the tiles say.
    pub fn tiles(&self) -> Tiles
        ensures { result ≡ tiles_of self.now }
    {
        Tiles {
            committed: self.committed_case(),
            used: self.used_case(),
            reserved: self.reserved_case(),
            class_space: self.class_case(),
            loaders: self.loader_case(),
            refused: self.refused_case(),
        }
    }
}

impl Facts {
    /// Returns what the tile of committed words says.
    pub fn committed_case(&self) -> CommittedCase
        ensures { result ≡ committed_case self.now }
    {
        if self.commit_refused > 0 {
            CommittedCase::Refused
        } else if is_near(self.committed_peak, self.limit) {
            CommittedCase::Near
        } else {
            CommittedCase::Within
        }
    }

    /// Returns what the tile of used words says.
    pub fn used_case(&self) -> UsedCase
        ensures { result ≡ used_case self.now }
    {
        if self.committed == 0 {
            UsedCase::Nothing
        } else if is_idle(self.used, self.committed) {
            UsedCase::Idle
        } else {
            UsedCase::InUse
        }
    }

    /// Returns what the tile of reserved words says.
    pub fn reserved_case(&self) -> ReservedCase
        ensures { result ≡ reserved_case self.now }
    {
        if self.reserve_refused > 0 {
            ReservedCase::Refused
        } else if self.nodes == self.node_limit {
            ReservedCase::All
        } else if self.empty_nodes > 0 {
            ReservedCase::Empty
        } else if self.nodes == 0 {
            ReservedCase::Nothing
        } else {
            ReservedCase::Held
        }
    }

    /// Returns what the tile of the class space says.
    pub fn class_case(&self) -> ClassCase
        ensures { result ≡ class_case self.now }
    {
        match (self.class_nodes == 0, self.class_refused > 0) {
            (true, true) => ClassCase::Missing,
            (true, false) => ClassCase::Unwanted,
            (false, true) => ClassCase::Refused,
            (false, false) if is_near(self.class_peak, self.class_limit) => ClassCase::Near,
            (false, false) => ClassCase::Within,
        }
    }

    /// Returns what the tile of loaders says.
    pub fn loader_case(&self) -> LoaderCase
        ensures { result ≡ loader_case self.now }
    {
        if self.unloads == 0 {
            LoaderCase::NoneUnloaded
        } else if self.two_halves && is_rising(self.low, self.low_after) {
            LoaderCase::Rising
        } else {
            LoaderCase::Level
        }
    }

    /// Returns what the tile of refused lines says.
    pub fn refused_case(&self) -> RefusedCase
        ensures { result ≡ refused_case self.now }
    {
        if self.wants_something() {
            RefusedCase::Wants
        } else if self.refused > 0 {
            RefusedCase::Asks
        } else {
            RefusedCase::Nothing
        }
    }
}

impl Facts {
    /// Says whether a line was refused for want of something.
    fn wants_something(&self) -> bool
        ensures { result ≡ wants_something self.now }
    {
        self.commit_refused > 0
            || self.reserve_refused > 0
            || self.class_refused > 0
            || self.other_wants > 0
    }
}

impl CommittedCase {
    /// Returns how its tile is marked.
    pub fn mark(self) -> Mark
        ensures { result ≡ committed_mark self }
    {
        match self {
            CommittedCase::Refused => Mark::Problem,
            CommittedCase::Near => Mark::Look,
            CommittedCase::Within => Mark::Fine,
        }
    }
}

impl UsedCase {
    /// Returns how its tile is marked.
    pub fn mark(self) -> Mark
        ensures { result ≡ used_mark self }
    {
        match self {
            UsedCase::Idle => Mark::Look,
            UsedCase::Nothing | UsedCase::InUse => Mark::Fine,
        }
    }
}

impl ReservedCase {
    /// Returns how its tile is marked.
    pub fn mark(self) -> Mark
        ensures { result ≡ reserved_mark self }
    {
        match self {
            ReservedCase::Refused => Mark::Problem,
            ReservedCase::All | ReservedCase::Empty => Mark::Look,
            ReservedCase::Nothing | ReservedCase::Held => Mark::Fine,
        }
    }
}

impl ClassCase {
    /// Returns how its tile is marked.
    pub fn mark(self) -> Mark
        ensures { result ≡ class_mark self }
    {
        match self {
            ClassCase::Missing | ClassCase::Refused => Mark::Problem,
            ClassCase::Near => Mark::Look,
            ClassCase::Unwanted | ClassCase::Within => Mark::Fine,
        }
    }
}

impl LoaderCase {
    /// Returns how its tile is marked.
    pub fn mark(self) -> Mark
        ensures { result ≡ loader_mark self }
    {
        match self {
            LoaderCase::Rising => Mark::Look,
            LoaderCase::NoneUnloaded | LoaderCase::Level => Mark::Fine,
        }
    }
}

impl RefusedCase {
    /// Returns how its tile is marked.
    pub fn mark(self) -> Mark
        ensures { result ≡ refused_mark self }
    {
        match self {
            RefusedCase::Wants => Mark::Problem,
            RefusedCase::Asks => Mark::Look,
            RefusedCase::Nothing => Mark::Fine,
        }
    }
}

/// Returns the worse of two marks.
fn worse(one: Mark, other: Mark) -> Mark
    ensures { result ≡ worse one other }
{
    match (one, other) {
        (Mark::Problem, _) | (_, Mark::Problem) => Mark::Problem,
        (Mark::Look, _) | (_, Mark::Look) => Mark::Look,
        (Mark::Fine, Mark::Fine) => Mark::Fine,
    }
}

/// Says whether a peak came within a tenth of a limit.
fn is_near(peak: u64, limit: u64) -> bool
    ensures { result ≡ is_near peak limit }
{
    10 * u128::from(peak) >= 9 * u128::from(limit)
}

/// Says whether less than half of the committed words are in use, and a MB or more is idle.
fn is_idle(used: u64, committed: u64) -> bool
    ensures { result ≡ is_idle used committed }
{
    2 * u128::from(used) < u128::from(committed) && committed.saturating_sub(used) >= 131072
}

/// Says whether there are a quarter more loaders at the quietest.
fn is_rising(low: u64, low_after: u64) -> bool
    ensures { result ≡ is_rising low low_after }
{
    low_after > low && 4 * u128::from(low_after) >= 5 * u128::from(low)
}
