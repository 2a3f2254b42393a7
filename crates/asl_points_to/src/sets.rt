//! Disjoint sets of members, numbered from 0.

ghost use Rattle.std.specs.Prelude.{◌≡◌, ◌<◌, ◌≤◌, IfOk, length, map, slice_index};
ghost use Rattle.std.specs.List.{range_with_len};
ghost use Rattle.asl_points_to.specs.Sets.{joined};

use std::alloc::{AllocError, Global};
use std::marker::Model;

/// Disjoint sets of members: for each member the first of its set. It is found by going from parent to parent, and each way
/// that was gone is halved.
#[derive(Drop)]
pub struct DisjointSets {
    parents: Vec<u32>,
}

impl Model for DisjointSets {
    ghost use Rattle.std.specs.Prelude.{List, ℕ};
    ghost use Rattle.asl_points_to.specs.Sets.{firsts_of, IsForest};

    ghost Value = { List ℕ };

    ghost view = { λ s. firsts_of s.parents.items };

    ghost invariant = { λ s. IsForest s.parents.items };
}

impl DisjointSets {
    /// So many members, each in a set of its own.
    pub fn new(alloc: Global, members: u32) -> Result<DisjointSets, AllocError>
        ensures { IfOk result (λ sets. sets ≡ range_with_len 0 members) }
    {
        let mut parents = Vec::with_capacity(alloc, members as usize)?;
        for member in 0..members {
            parents.push(member)?;
        }
        Ok(DisjointSets { parents })
    }

    /// The first member of the set of a member.
    pub fn first(&mut self, member: u32) -> u32
        requires { member < length self.old }
        ensures value { result ≡ slice_index self.old member }
        ensures own { slice_index self.old result ≡ result }
        ensures low { result ≤ member }
        ensures same { self.new ≡ self.old }
    {
        let mut at = member;
        loop {
            let parent = self.parents[at as usize];
            if parent == at {
                return at;
            }
            let above = self.parents[parent as usize];
            self.parents[at as usize] = above;
            at = above;
        }
    }

    /// Joins the set of the first member `gone` to that of the first member `kept`.
    pub fn join(&mut self, kept: u32, gone: u32)
        requires below { kept < gone }
        requires there { gone < length self.old }
        requires kept_first { slice_index self.old kept ≡ kept }
        requires gone_first { slice_index self.old gone ≡ gone }
        ensures { self.new ≡ map (joined kept gone) self.old }
    {
        self.parents[gone as usize] = kept;
    }
}
