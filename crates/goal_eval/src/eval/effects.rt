//! What an evaluation leaves beside its verdict, and keeps while it lasts.
ghost use Rattle.std.specs.Prelude.{◌≡◌, ◌⊎◌};
ghost use Rattle.std.specs.List.{Contains};
ghost use Rattle.goal_terms.specs.declared.answers.DelayedFault.{DelayedFault as Delayed};
ghost use Rattle.goal_terms.specs.declared.answers.OpaqueAccess.{OpaqueAccess as Access};
ghost use Rattle.goal_eval.specs.Effects.{AreNone};

use crate::eval::entering::{enter_access, enter_fault};
use crate::eval::evaluation_cache::EvaluationCache;
use crate::eval::listed_regions::ListedRegions;
use goal_interner::term_nodes::OutOfMemory;
use goal_terms::answers::{DelayedFault, OpaqueAccess};
use std::alloc::Global;

/// The opaque accesses and the delayed faults that an evaluation met, each once, in the order of first entry;
/// what it lists of lifetimes; and the answers that it keeps while it lasts.
pub struct Effects {
    pub accesses: Vec<OpaqueAccess>,
    pub delayed_faults: Vec<DelayedFault>,
    pub cache: EvaluationCache,
    pub regions: ListedRegions,
}

impl Drop for Effects {
    fn drop(self) {
        let Effects {
            accesses: _,
            delayed_faults: _,
            cache: _,
            regions: _,
        } = self;
    }
}

impl Effects {
    /// No effects, and nothing kept, for an evaluation that lists nothing of lifetimes. It takes no memory.
    pub fn new(alloc: Global) -> Self
        ensures { AreNone result }
    {
        Effects {
            accesses: Vec::new(alloc),
            delayed_faults: Vec::new(alloc),
            cache: EvaluationCache::new(alloc),
            regions: ListedRegions::new(alloc, false, 0),
        }
    }

    /// No effects, and nothing kept, for an evaluation that lists equations of lifetimes, with region variables
    /// from a number on. It takes no memory.
    pub fn listing(alloc: Global, base: u32) -> Self
        ensures { AreNone result }
    {
        Effects {
            accesses: Vec::new(alloc),
            delayed_faults: Vec::new(alloc),
            cache: EvaluationCache::new(alloc),
            regions: ListedRegions::new(alloc, true, base),
        }
    }

    /// Enters an access. Only memory is refused.
    pub fn read_mode(&mut self, access: OpaqueAccess) -> Result<(), OutOfMemory>
        ensures listed { (a : Access) → Contains self.new.accesses.items a → Contains self.old.accesses.items a ⊎ (access ≡ a) }
        ensures faults { self.new.delayed_faults ≡ self.old.delayed_faults }
        ensures cache { self.new.cache ≡ self.old.cache }
    {
        enter_access(&mut self.accesses, access)
    }

    /// Enters a delayed fault. Only memory is refused.
    pub fn meet_fault(&mut self, fault: DelayedFault) -> Result<(), OutOfMemory>
        ensures listed { (f : Delayed) → Contains self.new.delayed_faults.items f → Contains self.old.delayed_faults.items f ⊎ (fault ≡ f) }
        ensures accesses { self.new.accesses ≡ self.old.accesses }
        ensures cache { self.new.cache ≡ self.old.cache }
    {
        enter_fault(&mut self.delayed_faults, fault)
    }
}
