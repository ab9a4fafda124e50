//! What the words of a run ask for. In contracts a command is seen with its names as texts: `asked_of`.

/// The greatest depth of the induction.
pub(crate) const MOST_DEPTH: u32 = 16;
/// The greatest depth of the search for a difference.
pub(crate) const MOST_SEARCH_DEPTH: u32 = 64;
/// The most workers that may be asked for.
pub(crate) const MOST_WORKERS: u32 = 64;
/// The greatest size of a demo.
pub(crate) const MOST_SIZE: u32 = 100_000;

/// The words of `check`.
#[derive(Clone, Copy)]
pub struct Check<'w> {
    pub left: &'w str,
    pub right: &'w str,
    pub options: CheckOptions<'w>,
}

/// The options of `check`.
#[derive(Clone, Copy)]
pub struct CheckOptions<'w> {
    /// The depth of the induction.
    pub k: u32,
    /// In how many frames a difference is looked for: no fewer than k.
    pub depth: u32,
    /// How many workers are asked for.
    pub workers: u32,
    /// Whether the classes are printed.
    pub classes: bool,
    /// Whether the numbers of the journal's entries are printed.
    pub stats: bool,
    /// Where a trace is stored.
    pub trace: Option<&'w str>,
    /// Where a certificate is stored.
    pub cert: Option<&'w str>,
    /// Whether the free latches of both netlists are tied, in their order.
    pub tied: bool,
    /// Whether the trace of a difference is that of its least run.
    pub least: bool,
}

/// The words of `replay`.
#[derive(Clone, Copy)]
pub struct Replay<'w> {
    pub left: &'w str,
    pub right: &'w str,
    pub trace: &'w str,
    /// Whether the free latches are tied.
    pub tied: bool,
}

/// The words of `verify`.
#[derive(Clone, Copy)]
pub struct Verify<'w> {
    pub left: &'w str,
    pub right: &'w str,
    pub cert: &'w str,
    /// Whether the free latches are tied.
    pub tied: bool,
}

/// The words of `demo`.
#[derive(Clone, Copy)]
pub struct Demo {
    /// The size of the pair.
    pub n: u32,
    /// The depth of the induction.
    pub k: u32,
    /// How many workers are asked for.
    pub workers: u32,
}

/// The words of `climb`.
#[derive(Clone, Copy)]
pub struct Climb<'w> {
    pub left: &'w str,
    pub right: &'w str,
    /// The greatest depth of the induction that is tried.
    pub most: u32,
    /// How many workers are asked for.
    pub workers: u32,
    /// Whether the trace of a difference is that of its least run.
    pub least: bool,
}

/// The words of `reduce`.
#[derive(Clone, Copy)]
pub struct Reduce<'w> {
    /// The netlist's file.
    pub net: &'w str,
    /// Where the reduced netlist is stored.
    pub out: &'w str,
    /// The depth of the induction.
    pub k: u32,
    /// How many workers are asked for.
    pub workers: u32,
    /// Whether it is stored in the binary form.
    pub binary: bool,
}

/// The words of `batch`.
#[derive(Clone, Copy)]
pub struct Batch<'w> {
    /// The file that lists the pairs.
    pub list: &'w str,
    /// The depth of the induction.
    pub k: u32,
    /// How many workers are asked for.
    pub workers: u32,
}

/// What the words of a run ask for.
#[derive(Clone, Copy)]
pub enum Command<'w> {
    Check(Check<'w>),
    Replay(Replay<'w>),
    Verify(Verify<'w>),
    Demo(Demo),
    Climb(Climb<'w>),
    Reduce(Reduce<'w>),
    Batch(Batch<'w>),
}

/// Why no command was read.
#[derive(Clone, Copy, Debug, PartialEq, Eq)]
pub enum WordsFault {
    /// The words are no command.
    NotACommand,
    /// There was no memory.
    Memory,
}
