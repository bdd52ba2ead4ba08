// A task, with its limits in its type: whoever holds a task knows that they are kept.
ghost use Rattle.std.specs.Prelude.{◌≡◌, ◌≤◌, length};
ghost use Rattle.fixed.specs.FixedVec.{elements};

use calls::MAX_NAME;
use fixed::fixed_vec::FixedVec;

pub mod calls;

// Whether a task runs as soon or as late as possible.
#[derive(Clone, Copy, PartialEq, Eq, Debug)]
pub enum Preference {
    Asap,
    Alap,
}

// A number that stands for no preference.
#[derive(Clone, Copy, PartialEq, Eq, Debug)]
pub struct UnknownPreference(pub u8);

// A name of 1 to 16 bytes.
#[derive(Clone, Copy)]
pub struct Name {
    bytes: FixedVec<u8, MAX_NAME>,
    ghost not_empty: { 1 ≤ length (elements bytes) },
}

// A periodic task. Each of its jobs takes at most `cost` ticks, and comes at least `period` ticks after the one before.
#[derive(Clone, Copy)]
pub struct Task {
    pub name: Name,
    pub preference: Preference,
    pub cost: u16,
    pub period: u16,
    ghost limits: { (1 ≤ cost) × (cost ≤ period) × (period ≤ 60000) },
}

// A task as it is handed in, by hand or from a file: nothing of it is checked yet. Preference 0 stands for ASAP, 1 for ALAP.
#[derive(Clone, Copy)]
pub struct TaskRow<'a> {
    pub name: &'a [u8],
    pub preference: u8,
    pub cost: u16,
    pub period: u16,
}
