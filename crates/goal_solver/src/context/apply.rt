//! Applying a response to a context.
ghost use Rattle.std.specs.Prelude.{◌≡◌, ◌++◌, ◌∷◌, [], IsTrue, IfOk, OnOk, OnErr, IsOkUnless};
ghost use Rattle.goal_terms.specs.declared.answers.OpaqueTypeKey.{OpaqueTypeKey as Key};
ghost use Rattle.goal_terms.specs.declared.heads.Variable.{Variable as Infer};
ghost use Rattle.goal_terms.specs.declared.terms.Ty.{Ty as Hidden};
ghost use Rattle.goal_infer.specs.Replacement.{number_of};
ghost use Rattle.goal_infer.specs.Unification.{is_made_in};
ghost use Rattle.goal_solver.specs.Accesses.{RecordsCausedFaults};
ghost use Rattle.goal_solver.specs.Binding.{IsApplicable, Applies, AppliesAside, CanBeListed, GetValues, EntersAll, IsSameEntry, with_equations, with_entries};
ghost use Rattle.goal_solver.specs.GoingBack.{GoesBack, restored};
ghost use Rattle.goal_solver.specs.OpenForms.{AppliesSure, IsUnsure, has_unknown as lists_unknown};
ghost use Rattle.goal_solver.specs.Relating.{ChangesRecords};
ghost use Rattle.goal_solver.specs.Stored.{HasOneTypeAKey};
ghost use Rattle.goal_solver.specs.Variables.{with_variables};

use crate::context::EvalCtxt;
use crate::faults::Fault;
use goal_eval::eval::outcomes::Stop;
use goal_eval::eval::region_constraints::RegionConstraints;
use goal_terms::answers::{Certainty, OpaqueTypeKey, Response, VarKind};
use goal_terms::heads::Variable;
use goal_terms::modes::TypingMode;
use goal_terms::terms::{InferTy, Region, Term, Ty};

impl EvalCtxt<'_> {
    /// Applies a response, and answers its certainty: its variables are made, then its values are given to their
    /// variables, in order, and its equations and hidden types are added. The response must count the variables
    /// that there are. When a value's turn comes its variable must be unbound, and the value be of the variable's
    /// kind and not hold it, bindings followed. No hidden type may be listed for a key that has one. Only memory is
    /// refused; then inference state and storage are as before.
    pub fn apply_response(&mut self, response: &Response) -> Result<Certainty, Fault>
        requires { IsApplicable self.old response.now }
        ensures certainty { IfOk result (λ c. c ≡ response.now.certainty) }
        ensures applied { OnOk result (Applies self.old self.new response.now) }
        ensures unchanged { OnErr result (self.new ≡ restored self.old self.new) }
        ensures goes_back { GoesBack self.old self.new }
        ensures only_memory { IsOkUnless result Fault.OutOfMemory }
    {
        self.holds_together();
        let before = self.snapshot();
        let Ok(()) = self.apply_lists(response) else {
            self.rollback(before);
            return Err(Fault::OutOfMemory);
        };
        Ok(response.certainty)
    }

    /// Applies a response that is sure but for its hidden types, if none has to be entered to be known, and answers
    /// whether it is one. Only memory is refused; then inference state is as before.
    pub(crate) fn apply_sure(&mut self, response: &Response) -> Result<Certainty, Fault>
        requires { IsApplicable self.old response.now }
        ensures applied { IfOk result (λ c. c ≡ Certainty.Yes → AppliesSure self.old self.new response.now) }
        ensures left { IfOk result (λ c. c ≡ Certainty.Maybe → IsUnsure self.old response.now) }
        ensures alone { ChangesRecords self.old self.new }
        ensures goes_back { GoesBack self.old self.new }
        ensures only_memory { IsOkUnless result Fault.OutOfMemory }
    {
        if let Certainty::Maybe = response.certainty {
            return Ok(Certainty::Maybe);
        }
        if has_unknown(self.typing_mode(), response) {
            return Ok(Certainty::Maybe);
        }
        self.holds_together();
        let before = self.snapshot();
        let Ok(()) = self.apply_aside(response) else {
            self.rollback(before);
            return Err(Fault::OutOfMemory);
        };
        Ok(Certainty::Yes)
    }

    /// Makes, gives and adds what a response lists. Where memory is refused, some of it stays.
    fn apply_lists(&mut self, response: &Response) -> Result<(), Fault>
        requires { IsApplicable self.old response.now }
        ensures applied { OnOk result (Applies self.old self.new response.now) }
        ensures goes_back { GoesBack self.old self.new }
        ensures only_memory { IsOkUnless result Fault.OutOfMemory }
    {
        self.apply_aside(response)?;
        self.enter_types(&response.opaque_entries)
    }

    /// The same but for the hidden types.
    fn apply_aside(&mut self, response: &Response) -> Result<(), Fault>
        requires { IsApplicable self.old response.now }
        ensures applied { OnOk result (AppliesAside self.old self.new response.now) }
        ensures goes_back { GoesBack self.old self.new }
        ensures only_memory { IsOkUnless result Fault.OutOfMemory }
    {
        self.make_variables(&response.vars)?;
        self.give_values(&response.var_values)?;
        self.add_equations(&response.region_equations)
    }

    /// Makes a variable of each kind, in order. Where memory is refused, some of them stay.
    fn make_variables(&mut self, kinds: &[VarKind]) -> Result<(), Fault>
        ensures made { OnOk result (self.new ≡ with_variables kinds.now self.old) }
        ensures faults { self.new.delayed_faults ≡ self.old.delayed_faults }
        ensures goes_back { GoesBack self.old self.new }
        ensures only_memory { IsOkUnless result Fault.OutOfMemory }
    {
        for kind in kinds {
            self.next_variable(*kind)?;
        }
        Ok(())
    }

    /// Gives values to their variables, in order. Where memory is refused, some of them stay.
    fn give_values(&mut self, values: &[(u32, Term)]) -> Result<(), Fault>
        requires { CanBeListed self.old values.now }
        ensures given { OnOk result (GetValues self.old self.new values.now) }
        ensures goes_back { GoesBack self.old self.new }
        ensures only_memory { IsOkUnless result Fault.OutOfMemory }
    {
        for value in values {
            let variable = self.variable_at(value.0);
            self.bind_to(variable, value.1.view())?;
        }
        Ok(())
    }

    /// The variable of a number, which was made and stands for a type or a constant.
    fn variable_at(&self, number: u32) -> Variable
        requires made { (v : Infer) × (number_of v ≡ number) × IsTrue (is_made_in self.now.inference v) }
        ensures { (v : Infer) → number_of v ≡ number → IsTrue (is_made_in self.now.inference v) → result ≡ v }
    {
        match self.inference.variable(number).kind {
            VarKind::Ty => Variable::Ty(InferTy::TyVar(number)),
            VarKind::Int => Variable::Ty(InferTy::IntVar(number)),
            VarKind::Float => Variable::Ty(InferTy::FloatVar(number)),
            VarKind::Const => Variable::Const(number),
            VarKind::Region => unreachable!(),
        }
    }

    /// Adds equations of lifetimes, in order. Where memory is refused, some of them stay.
    fn add_equations(&mut self, equations: &[(Region, Region)]) -> Result<(), Fault>
        ensures added { OnOk result (self.new ≡ with_equations equations.now self.old) }
        ensures faults { self.new.delayed_faults ≡ self.old.delayed_faults }
        ensures goes_back { GoesBack self.old self.new }
        ensures only_memory { IsOkUnless result Fault.OutOfMemory }
    {
        for equation in equations {
            self.add_equation(*equation)?;
        }
        Ok(())
    }

    /// Makes the region variables and adds the equations that an evaluation listed. Only memory is refused; then
    /// nothing changes.
    pub(crate) fn enter_regions(&mut self, listed: &RegionConstraints) -> Result<(), Stop>
        ensures entered { OnOk result (self.new ≡ with_equations listed.now.equations.items (with_variables listed.now.variables.items self.old)) }
        ensures unchanged { OnErr result (self.new ≡ restored self.old self.new) }
        ensures faults { RecordsCausedFaults self.old self.new }
        ensures goes_back { GoesBack self.old self.new }
        ensures only_memory { IsOkUnless result Stop.OutOfMemory }
    {
        self.holds_together();
        let before = self.snapshot();
        let Ok(()) = self.add_regions(listed) else {
            self.rollback(before);
            return Err(Stop::OutOfMemory);
        };
        Ok(())
    }

    /// Makes region variables and adds equations. Where memory is refused, some of them stay.
    fn add_regions(&mut self, listed: &RegionConstraints) -> Result<(), Fault>
        ensures entered { OnOk result (self.new ≡ with_equations listed.now.equations.items (with_variables listed.now.variables.items self.old)) }
        ensures faults { self.new.delayed_faults ≡ self.old.delayed_faults }
        ensures goes_back { GoesBack self.old self.new }
        ensures only_memory { IsOkUnless result Fault.OutOfMemory }
    {
        self.make_variables(&listed.variables)?;
        self.add_equations(&listed.equations)
    }

    /// Adds an equation of lifetimes. Only memory is refused; then nothing changes.
    pub(crate) fn add_equation(&mut self, equation: (Region, Region)) -> Result<(), Fault>
        ensures added { OnOk result (self.new ≡ with_equations (equation ∷ []) self.old) }
        ensures unchanged { OnErr result (self.new ≡ self.old) }
        ensures faults { self.new.delayed_faults ≡ self.old.delayed_faults }
        ensures goes_back { GoesBack self.old self.new }
        ensures only_memory { IsOkUnless result Fault.OutOfMemory }
    {
        let Ok(()) = self.inference.add_equation(equation.0, equation.1) else {
            return Err(Fault::OutOfMemory);
        };
        Ok(())
    }

    /// Enters copies of hidden types with their keys, of which none has one yet. Where memory is refused, some of
    /// them stay.
    fn enter_types(&mut self, entries: &[(OpaqueTypeKey, Ty)]) -> Result<(), Fault>
        requires { HasOneTypeAKey (self.old.storage ++ entries.now) }
        ensures entered { OnOk result (EntersAll self.old self.new entries.now) }
        ensures goes_back { GoesBack self.old self.new }
        ensures only_memory { IsOkUnless result Fault.OutOfMemory }
    {
        for entry in entries {
            self.enter_type(entry)?;
        }
        Ok(())
    }

    /// Enters a copy of a hidden type with its key, which has none yet. Only memory is refused; then nothing
    /// changes.
    fn enter_type(&mut self, entry: &(OpaqueTypeKey, Ty)) -> Result<(), Fault>
        requires { HasOneTypeAKey (self.old.storage ++ entry.now ∷ []) }
        ensures entered { OnOk result ((e : Key × Hidden) × IsSameEntry e entry.now × (self.new ≡ with_entries (e ∷ []) self.old)) }
        ensures goes_back { GoesBack self.old self.new }
        ensures only_memory { IsOkUnless result Fault.OutOfMemory }
    {
        let Ok(key) = entry.0.clone() else {
            return Err(Fault::OutOfMemory);
        };
        let Ok(hidden) = entry.1.clone() else {
            return Err(Fault::OutOfMemory);
        };
        if self.storage.push((key, hidden)).is_err() {
            return Err(Fault::OutOfMemory);
        }
        Ok(())
    }
}

/// Whether a response lists hidden types that have to be entered to be known. While bodies are borrow checked each is
/// what type checking found.
fn has_unknown(mode: &TypingMode, response: &Response) -> bool
    ensures { result ≡ lists_unknown mode.now response.now.opaque_entries.items }
{
    match mode {
        TypingMode::Borrowck { .. } => false,
        TypingMode::Coherence
        | TypingMode::Analysis { .. }
        | TypingMode::PostBorrowckAnalysis { .. }
        | TypingMode::PostAnalysis
        | TypingMode::ErasedNotCoherence => !response.opaque_entries.is_empty(),
    }
}
