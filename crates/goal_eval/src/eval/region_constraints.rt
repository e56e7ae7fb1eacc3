//! What an answer lists of lifetimes.
ghost use Rattle.std.specs.Prelude.{◌≡◌, [], length, replicate};
ghost use Rattle.goal_terms.specs.declared.answers.VarKind.TheVariants as kind;

use goal_interner::term_nodes::OutOfMemory;
use goal_terms::answers::VarKind;
use goal_terms::terms::Region;
use std::alloc::Global;

/// The region variables that an answer makes, and the pairs of lifetimes that it equates.
#[derive(Drop)]
pub struct RegionConstraints {
    pub variables: Vec<VarKind>,
    pub equations: Vec<(Region, Region)>,
    ghost regions: { variables.items ≡ replicate (length variables.items) kind.Region },
}

impl RegionConstraints {
    /// No variable and no equation. It takes no memory.
    pub fn new(alloc: Global) -> Self
        ensures variables { result.variables.items ≡ [] }
        ensures equations { result.equations.items ≡ [] }
    {
        RegionConstraints {
            variables: Vec::new(alloc),
            equations: Vec::new(alloc),
        }
    }

    /// Adds an equation. Only memory is refused.
    pub fn add_equation(&mut self, left: Region, right: Region) -> Result<(), OutOfMemory> {
        self.equations.push((left, right))?;
        Ok(())
    }

    /// Has so many region variables. Only memory is refused.
    pub(crate) fn add_variables(&mut self, count: u32) -> Result<(), OutOfMemory> {
        let mut variables = Vec::new(*self.variables.allocator());
        variables.resize(count as usize, VarKind::Region)?;
        self.variables = variables;
        Ok(())
    }
}
