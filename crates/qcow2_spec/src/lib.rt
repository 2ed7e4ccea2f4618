// The answers of the calls on a qcow2 image. The definitions are in specs/.
#![tactic(auto)]

pub mod refusal;

// What a guest offset translates to.
#[derive(Clone, Copy)]
pub enum Found {
    Host(u64),
    Zeros,
    Absent,
}

// The way to a guest cluster: no L2 table; or the place of its L2 entry and the entry, which is good.
#[derive(Clone, Copy)]
pub enum Way {
    NoTable,
    Slot(usize, u64),
}

// What a check says. An L1 entry is named by its index, an L2 entry by both indices; a bad one after the number of its L1 table,
// 0 for the active one and k + 1 for snapshot k's. A wrong mark is one of the active tables. A check that is refused says so with its number, which
// stays a number here: a kept state holds any verdict, of any number (`state_of` in qcow2_kept/specs/Kept.antt).
#[derive(Clone, Copy)]
pub enum Verdict {
    Sound,
    Leaks(usize),
    BadL1(usize, usize),
    BadL2(usize, usize, usize),
    Shared(usize),
    Short(usize),
    MarkL1(usize),
    MarkL2(usize, usize),
    Refused(u8),
}

// What an accepted image gives for the disk of one of its L1 tables: number root, 0 for the active one and k + 1 for snapshot k's. The table has
// l1size entries and starts at l1at, and its disk has size bytes. The cluster size is 2 to the power bits, and a count has 2 to the power order
// bits; the refcount table has tableclusters clusters and starts at tableat; blocks: the refcount blocks that the image needs; snapshots: how many
// there are, and their table starts at snapshotsat; backed: a backing file lies underneath.
#[derive(Clone, Copy)]
pub struct Geometry {
    pub version: u32,
    pub bits: u32,
    pub order: u32,
    pub clusters: usize,
    pub root: usize,
    pub size: u64,
    pub l1size: usize,
    pub l1at: usize,
    pub tableat: usize,
    pub tableclusters: usize,
    pub blocks: usize,
    pub snapshots: usize,
    pub snapshotsat: usize,
    pub backed: bool,
}
