//! The machines that the program knows.
ghost use Rattle.std.specs.Prelude.{◌≡◌, ◌≢◌, ◌<◌, MatchOption};

use crate::airs::MachineAir;

/// A machine: the columns of its input, and its AIRs, each of which holds some of the columns.
#[derive(Clone, Copy, Debug, PartialEq, Eq)]
pub enum Machine {
    /// Columns `read provide mult`, all in one AIR.
    Range,
    /// Columns `key entry mult`: AIR 0 holds `key`, and AIR 1 `entry mult`.
    Bus,
    /// Columns `flag0 key0 flag1 key1`, all in one AIR.
    Exclusive,
}

impl Machine {
    ghost use Rattle.example_machines.specs.Machines.{airs_of, input_columns, name_of};

    /// The machine with this name.
    pub fn from_name(name: &str) -> Option<Machine>
        ensures { MatchOption result ((machine : Self) → name.now ≢ name_of machine)
            (λ machine. name.now ≡ name_of machine) }
    {
        match name {
            "range" => Some(Machine::Range),
            "bus" => Some(Machine::Bus),
            "exclusive" => Some(Machine::Exclusive),
            _ => None,
        }
    }

    /// How many columns a row of the input has.
    pub fn columns(self) -> usize
        ensures some { 0 < result }
        ensures columns { result ≡ input_columns self }
    {
        match self {
            Machine::Range | Machine::Bus => 3,
            Machine::Exclusive => 4,
        }
    }

    /// The AIRs, in order.
    pub fn airs(self) -> &'static [MachineAir]
        ensures { result.now ≡ airs_of self }
    {
        match self {
            Machine::Range => &[MachineAir::RangeCheck],
            Machine::Bus => &[MachineAir::Keys, MachineAir::Entries],
            Machine::Exclusive => &[MachineAir::Group],
        }
    }
}
