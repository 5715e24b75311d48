// The level of each group.
ghost use Rattle.std.specs.Prelude.{◌≡◌, ◌==◌, ◌||◌, [], ℕ, OnOk, OnErr, if◌then◌else◌};
ghost use Rattle.reg_graph.specs.Levels.{level_of, has_level};

use std::alloc::{AllocError, Global};
use std::collections::BTreeMap;
use std::marker::Model;

/// The level of a group where none is written down: room for as many above it as below.
const MIDDLE: u64 = 9_223_372_036_854_775_808;

/// The level of each group. Contracts see the levels that are written down.
#[derive(Drop)]
pub(crate) struct Levels {
    levels: BTreeMap<u32, u64>,
}

impl Model for Levels {
    ghost use Rattle.std.specs.Prelude.{List, ℕ};

    ghost Value = { List (ℕ × ℕ) };

    ghost view = { λ s. s.levels.entries };
}

impl Levels {
    pub(crate) fn new(alloc: Global) -> Levels
        ensures { result ≡ [] }
    {
        Levels {
            levels: BTreeMap::new(alloc),
        }
    }

    pub(crate) fn of(&self, group: u32) -> u64
        ensures { result ≡ level_of self.now group }
    {
        self.levels.get(&group).copied().unwrap_or(MIDDLE)
    }

    pub(crate) fn has(&self, group: u32) -> bool
        ensures { result ≡ has_level self.now group }
    {
        self.levels.contains_key(&group)
    }

    /// Writes the level of a group down.
    pub(crate) fn set(&mut self, group: u32, level: u64) -> Result<(), AllocError>
        ensures level { OnOk result ((q : ℕ) → level_of self.new q
            ≡ (if q == group then level else level_of self.old q)) }
        ensures written { OnOk result ((q : ℕ) → has_level self.new q
            ≡ ((q == group) || has_level self.old q)) }
        ensures err { OnErr result (self.new ≡ self.old) }
    {
        self.levels.insert(group, level)?;
        Ok(())
    }
}
