//! Variables of all kinds under one numbering, with their bindings and the equations of regions.
ghost use Rattle.std.specs.Prelude.{◌≡◌, ◌<◌, ◌^◌, ◌++◌, ◌∷◌, [], length, slice_get, IfOk, OnOk, OnErr, Some, None};
ghost use Rattle.goal_infer.specs.Inference.{Inference, GoesBack, lengths_of, rolled_back, with_binding};

use crate::undo::{InferVariable, unbind_from};
use goal_interner::term_nodes::{OutOfMemory, TermId};
use goal_terms::answers::VarKind;
use goal_terms::terms::Region;
use std::alloc::Global;
use std::marker::Model;

/// How much a state holds: its variables, its trail and its equations.
#[derive(Clone, Copy, PartialEq, Eq)]
pub struct Snapshot {
    /// How many variables there are.
    pub variables: usize,
    /// How many of them were bound.
    pub trail: usize,
    /// How many equations there are.
    pub equations: usize,
}

/// Variables with their bindings, and equations of regions. The trail has the variables that were
/// bound, in order.
#[derive(Drop)]
pub struct InferState {
    variables: Vec<InferVariable>,
    trail: Vec<u32>,
    equations: Vec<(Region, Region)>,
}

impl Model for InferState {
    ghost use Rattle.std.specs.Prelude.{◌<◌, ◌^◌, length};
    ghost use Rattle.std.specs.Coded.{codes};
    ghost use Rattle.goal_infer.specs.Inference.{Inference};

    ghost Value = { Inference };

    ghost coded = { Prim.hlevel (codes) };

    ghost view = { λ s. record { variables = s.variables.items; trail = s.trail.items; equations = s.equations.items } };

    ghost invariant = { λ s. length s.variables.items < 2 ^ 32 };
}

impl InferState {
    /// A state without variables and equations. It takes no memory.
    pub fn new(alloc: Global) -> Self
        ensures { result ≡ record { variables = []; trail = []; equations = [] } }
    {
        InferState {
            variables: Vec::new(alloc),
            trail: Vec::new(alloc),
            equations: Vec::new(alloc),
        }
    }

    /// How many variables there are. Their numbers begin with 0.
    pub fn len(&self) -> usize
        ensures { result ≡ length self.now.variables }
    {
        self.variables.len()
    }

    /// The kind and the binding of a variable.
    pub fn variable(&self, number: u32) -> InferVariable
        requires { number < length self.now.variables }
        ensures { slice_get self.now.variables number ≡ Some result }
    {
        self.variables.as_slice()[number as usize]
    }

    /// The numbers of the variables that were bound, in the order in which they were.
    pub fn trail(&self) -> &[u32]
        ensures { result.now ≡ self.now.trail }
    {
        self.trail.as_slice()
    }

    /// The regions that must be equal, in pairs, in the order in which they were added.
    pub fn equations(&self) -> &[(Region, Region)]
        ensures { result.now ≡ self.now.equations }
    {
        self.equations.as_slice()
    }

    /// Makes an unbound variable of a kind, which has the next number. Where that is refused nothing
    /// changes; so it is at 2^32 - 1 variables, too.
    pub fn new_variable(&mut self, kind: VarKind) -> Result<u32, OutOfMemory>
        ensures number { IfOk result (λ n. n ≡ length self.old.variables) }
        ensures made { OnOk result (self.new ≡ record self.old { variables = self.old.variables ++ record { kind = kind; binding = None } ∷ [] }) }
        ensures unchanged { OnErr result (self.new ≡ self.old) }
        ensures goes_back { GoesBack self.old self.new }
    {
        let number = self.variables.len();
        if number >= u32::MAX as usize {
            return Err(OutOfMemory);
        }
        let variable = InferVariable {
            kind,
            binding: None,
        };
        if self.variables.push(variable).is_err() {
            return Err(OutOfMemory);
        }
        Ok(number as u32)
    }

    /// Binds an unbound variable to the term of a number. Where that is refused nothing changes.
    pub fn bind(&mut self, number: u32, term: TermId) -> Result<(), OutOfMemory>
        requires unbound { (v : InferVariable) × (slice_get self.old.variables number ≡ Some v) × (v.binding ≡ None) }
        ensures bound { (v : InferVariable) → slice_get self.old.variables number ≡ Some v → OnOk result (self.new ≡ with_binding number term v self.old) }
        ensures unchanged { OnErr result (self.new ≡ self.old) }
        ensures goes_back { GoesBack self.old self.new }
    {
        if self.trail.push(number).is_err() {
            return Err(OutOfMemory);
        }
        self.variables[number as usize].binding = Some(term);
        Ok(())
    }

    /// Adds that two regions must be equal. Where that is refused nothing changes.
    pub fn add_equation(&mut self, left: Region, right: Region) -> Result<(), OutOfMemory>
        ensures added { OnOk result (self.new ≡ record self.old { equations = self.old.equations ++ (left, right) ∷ [] }) }
        ensures unchanged { OnErr result (self.new ≡ self.old) }
        ensures goes_back { GoesBack self.old self.new }
    {
        if self.equations.push((left, right)).is_err() {
            return Err(OutOfMemory);
        }
        Ok(())
    }

    /// What a later rollback needs to come back to this state. It takes no memory.
    pub fn snapshot(&self) -> Snapshot
        ensures { result ≡ lengths_of self.now }
    {
        Snapshot {
            variables: self.variables.len(),
            trail: self.trail.len(),
            equations: self.equations.len(),
        }
    }

    /// Undoes what was bound, made and added since a snapshot: from each state that goes back to the
    /// one that the snapshot saw, that one is restored. It takes no memory.
    pub fn rollback(&mut self, snapshot: Snapshot)
        ensures undone { self.new ≡ rolled_back snapshot self.old }
        ensures restored { (before : Inference) → snapshot ≡ lengths_of before → GoesBack before self.old → self.new ≡ before }
    {
        unbind_from(&mut self.variables, self.trail.as_slice(), snapshot.trail);
        self.variables.truncate(snapshot.variables);
        self.trail.truncate(snapshot.trail);
        self.equations.truncate(snapshot.equations);
    }
}
