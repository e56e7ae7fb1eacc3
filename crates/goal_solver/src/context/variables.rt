//! Fresh variables of a context.
ghost use Rattle.std.specs.Prelude.{◌≡◌, List, ◌∷◌, [], length, map, IfOk, OnOk, OnErr, IsOkUnless};
ghost use Rattle.goal_terms.specs.Tree.{variable};
ghost use Rattle.goal_terms.specs.TreeOf.{tree_of_ty, tree_of_const, tree_of_arg};
ghost use Rattle.goal_terms.specs.declared.answers.VarKind.{VarKind as Kind};
ghost use Rattle.goal_terms.specs.declared.answers.VarKind.TheVariants as kind;
ghost use Rattle.goal_terms.specs.declared.heads.Variable.TheVariants as variables;
ghost use Rattle.goal_terms.specs.declared.terms.InferTy.TheVariants as infer;
ghost use Rattle.goal_terms.specs.declared.terms.Region.TheVariants as region;
ghost use Rattle.goal_solver.specs.GoingBack.{GoesBack};
ghost use Rattle.goal_solver.specs.State.{kinds_of};
ghost use Rattle.goal_solver.specs.Variables.{with_variables, kind_for, fresh_arg, fresh_args};

use crate::context::EvalCtxt;
use crate::faults::Fault;
use goal_terms::answers::{ParamKind, VarKind};
use goal_terms::terms::{Const, GenericArg, InferTy, Region, Ty};

impl EvalCtxt<'_> {
    /// A fresh variable for any type. It has the next number, and nothing else changes. Only memory
    /// is refused; then nothing changes.
    pub fn next_ty_infer(&mut self) -> Result<Ty, Fault>
        ensures fresh { IfOk result (λ ty. tree_of_ty ty ≡ variable (variables.Ty (infer.TyVar (length (kinds_of self.old))))) }
        ensures made { OnOk result (self.new ≡ with_variables (kind.Ty ∷ []) self.old) }
        ensures unchanged { OnErr result (self.new ≡ self.old) }
        ensures goes_back { GoesBack self.old self.new }
        ensures only_memory { IsOkUnless result Fault.OutOfMemory }
    {
        Ok(Ty::Infer(InferTy::TyVar(self.next_variable(VarKind::Ty)?)))
    }

    /// A fresh variable for an integer type. It has the next number, and nothing else changes. Only
    /// memory is refused; then nothing changes.
    pub fn next_int_infer(&mut self) -> Result<Ty, Fault>
        ensures fresh { IfOk result (λ ty. tree_of_ty ty ≡ variable (variables.Ty (infer.IntVar (length (kinds_of self.old))))) }
        ensures made { OnOk result (self.new ≡ with_variables (kind.Int ∷ []) self.old) }
        ensures unchanged { OnErr result (self.new ≡ self.old) }
        ensures goes_back { GoesBack self.old self.new }
        ensures only_memory { IsOkUnless result Fault.OutOfMemory }
    {
        Ok(Ty::Infer(InferTy::IntVar(self.next_variable(VarKind::Int)?)))
    }

    /// A fresh variable for a float type. It has the next number, and nothing else changes. Only
    /// memory is refused; then nothing changes.
    pub fn next_float_infer(&mut self) -> Result<Ty, Fault>
        ensures fresh { IfOk result (λ ty. tree_of_ty ty ≡ variable (variables.Ty (infer.FloatVar (length (kinds_of self.old))))) }
        ensures made { OnOk result (self.new ≡ with_variables (kind.Float ∷ []) self.old) }
        ensures unchanged { OnErr result (self.new ≡ self.old) }
        ensures goes_back { GoesBack self.old self.new }
        ensures only_memory { IsOkUnless result Fault.OutOfMemory }
    {
        Ok(Ty::Infer(InferTy::FloatVar(self.next_variable(VarKind::Float)?)))
    }

    /// A fresh variable for a constant. It has the next number, and nothing else changes. Only
    /// memory is refused; then nothing changes.
    pub fn next_const_infer(&mut self) -> Result<Const, Fault>
        ensures fresh { IfOk result (λ value. tree_of_const value ≡ variable (variables.Const (length (kinds_of self.old)))) }
        ensures made { OnOk result (self.new ≡ with_variables (kind.Const ∷ []) self.old) }
        ensures unchanged { OnErr result (self.new ≡ self.old) }
        ensures goes_back { GoesBack self.old self.new }
        ensures only_memory { IsOkUnless result Fault.OutOfMemory }
    {
        Ok(Const::Infer(self.next_variable(VarKind::Const)?))
    }

    /// A fresh variable for a lifetime. It has the next number, and nothing else changes. Only memory
    /// is refused; then nothing changes.
    pub fn next_region_var(&mut self) -> Result<Region, Fault>
        ensures fresh { IfOk result (λ r. r ≡ region.Var (length (kinds_of self.old))) }
        ensures made { OnOk result (self.new ≡ with_variables (kind.Region ∷ []) self.old) }
        ensures unchanged { OnErr result (self.new ≡ self.old) }
        ensures goes_back { GoesBack self.old self.new }
        ensures only_memory { IsOkUnless result Fault.OutOfMemory }
    {
        Ok(Region::Var(self.next_variable(VarKind::Region)?))
    }

    /// A fresh variable for each parameter, in order. Nothing else changes. Only memory is refused;
    /// then nothing changes.
    pub fn fresh_args_for_item(&mut self, params: &[ParamKind]) -> Result<Vec<GenericArg>, Fault>
        ensures fresh { IfOk result (λ args. map tree_of_arg args.items ≡ fresh_args params.now (length (kinds_of self.old))) }
        ensures made { OnOk result (self.new ≡ with_variables (map kind_for params.now) self.old) }
        ensures unchanged { OnErr result (self.new ≡ self.old) }
        ensures goes_back { GoesBack self.old self.new }
        ensures only_memory { IsOkUnless result Fault.OutOfMemory }
    {
        self.holds_together();
        let before = self.snapshot();
        let made = self.fresh_args(params);
        if made.is_err() {
            self.rollback(before);
        }
        made
    }

    /// A fresh variable for each parameter. Where memory is refused, some of them stay.
    fn fresh_args(&mut self, params: &[ParamKind]) -> Result<Vec<GenericArg>, Fault>
        ensures fresh { IfOk result (λ args. map tree_of_arg args.items ≡ fresh_args params.now (length (kinds_of self.old))) }
        ensures made { OnOk result (self.new ≡ with_variables (map kind_for params.now) self.old) }
        ensures partly { (ks : List Kind) × (self.new ≡ with_variables ks self.old) }
        ensures only_memory { IsOkUnless result Fault.OutOfMemory }
    {
        let mut args = Vec::new(self.allocator());
        for param in params {
            let arg = self.fresh_arg(*param)?;
            if args.push(arg).is_err() {
                return Err(Fault::OutOfMemory);
            }
        }
        Ok(args)
    }

    /// A fresh variable for a parameter.
    fn fresh_arg(&mut self, param: ParamKind) -> Result<GenericArg, Fault>
        ensures fresh { IfOk result (λ a. tree_of_arg a ≡ fresh_arg param (length (kinds_of self.old))) }
        ensures made { OnOk result (self.new ≡ with_variables (kind_for param ∷ []) self.old) }
        ensures unchanged { OnErr result (self.new ≡ self.old) }
        ensures only_memory { IsOkUnless result Fault.OutOfMemory }
    {
        match param {
            ParamKind::Ty => Ok(GenericArg::Ty(self.next_ty_infer()?)),
            ParamKind::Const => Ok(GenericArg::Const(self.next_const_infer()?)),
            ParamKind::Lifetime => Ok(GenericArg::Lifetime(self.next_region_var()?)),
        }
    }

    /// The number of a fresh variable of a kind.
    pub(crate) fn next_variable(&mut self, kind: VarKind) -> Result<u32, Fault>
        ensures number { IfOk result (λ n. n ≡ length (kinds_of self.old)) }
        ensures made { OnOk result (self.new ≡ with_variables (kind ∷ []) self.old) }
        ensures unchanged { OnErr result (self.new ≡ self.old) }
        ensures goes_back { GoesBack self.old self.new }
        ensures only_memory { IsOkUnless result Fault.OutOfMemory }
    {
        let count = self.kinds.len();
        if count >= u32::MAX as usize {
            return Err(Fault::OutOfMemory);
        }
        if self.kinds.push(kind).is_err() {
            return Err(Fault::OutOfMemory);
        }
        match self.inference.new_variable(kind) {
            Ok(number) => Ok(number),
            Err(_) => {
                self.kinds.truncate(count);
                Err(Fault::OutOfMemory)
            }
        }
    }
}
