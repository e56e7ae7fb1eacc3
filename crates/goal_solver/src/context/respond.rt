//! Responses of a context: what was made, bound, equated and entered since the innermost trial began.
ghost use Rattle.std.specs.Prelude.{◌≡◌, drop, length, map, min, false, OnErr, IfOk, IsOkUnless};
ghost use Rattle.std.specs.List.{AllZip};
ghost use Rattle.goal_terms.specs.Erased.{erased};
ghost use Rattle.goal_interner.specs.TableMeaning.{Keeps};
ghost use Rattle.goal_terms.specs.TreeOf.{tree_of_term, tree_of_ty, tree_of_arg};
ghost use Rattle.goal_terms.specs.declared.answers.Certainty.{Certainty as certain};
ghost use Rattle.goal_infer.specs.Resolution.{resolution, IsSolved};
ghost use Rattle.goal_solver.specs.Accesses.{RecordsCausedFaults};
ghost use Rattle.goal_solver.specs.Added.{has_goals};
ghost use Rattle.goal_solver.specs.GoingBack.{GoesBack, restored};
ghost use Rattle.goal_solver.specs.OpenRuns.{Evaluates};
ghost use Rattle.goal_solver.specs.Refusals.{WhenRefused, RefusesPending};
ghost use Rattle.goal_solver.specs.Relating.{IsFaultFor};
ghost use Rattle.goal_solver.specs.Responses.{ListsSinceMark, IsValueOf, IsEntryOf, IsWithBindings, bindings_of, bound_since_mark, variable_of_kind, variable_at, variables_at, both_certain};
ghost use Rattle.goal_solver.specs.State.{kinds_of};
ghost use Rattle.goal_solver.specs.Stored.{IsSameKey};

use crate::context::EvalCtxt;
use crate::faults::Fault;
use goal_infer::followed::follow;
use goal_infer::state::InferState;
use goal_interner::term_nodes::OutOfMemory;
use goal_interner::term_table::TermTable;
use goal_terms::answers::{Certainty, OpaqueTypeKey, Response, VarKind};
use goal_terms::heads::{Node, Variable};
use goal_terms::terms::{GenericArg, InferTy, Region, Term, Ty};
use goal_terms::view::TermRef;
use std::alloc::{AllocError, Global};

impl EvalCtxt<'_> {
    /// Evaluates the goals that were added, and answers what was made, bound, equated and entered since the
    /// innermost trial began: the kinds of the variables that were made, the terms of those that were bound,
    /// the pairs of lifetimes that were equated and the hidden types that were entered, each in the order in
    /// which they came. In terms and hidden types the bindings of variables are followed. The answer is `Yes`
    /// only where `certainty` is `Yes` and no goal is left that was added. Where it is refused, inference
    /// state, added goals and storage are as before.
    #[cycle(open)]
    pub fn evaluate_added_goals_and_make_canonical_response(
        &mut self,
        certainty: Certainty,
    ) -> Result<Response, Fault>
        ensures listed { IfOk result (λ r. ListsSinceMark self.new r.certainty r) }
        ensures evaluated { IfOk result (λ r. (c : certain) × Evaluates self.old self.new c × (r.certainty ≡ both_certain certainty c)) }
        ensures refused { WhenRefused result (RefusesPending self.old self.new) }
        ensures faults { RecordsCausedFaults self.old self.new }
        ensures yes { IfOk result (λ r. r.certainty ≡ Certainty.Yes → (certainty ≡ Certainty.Yes) × (has_goals self.new ≡ false)) }
        ensures unchanged { OnErr result (self.new ≡ restored self.old self.new) }
        ensures goes_back { GoesBack self.old self.new }
        ensures fault { IsFaultFor self.old self.new result }
    {
        self.holds_together();
        let before = self.snapshot();
        let evaluated = self.try_evaluate_added_goals()?;
        self.holds_together();
        let response = self.response_since_mark(both(certainty, evaluated));
        if response.is_err() {
            self.rollback(before);
        }
        response
    }

    /// An answer of a certainty, which lists what was made, bound, equated and entered since the innermost
    /// trial began. Nothing changes but that there may be more terms. Only memory is refused.
    pub(crate) fn response_since_mark(&mut self, certainty: Certainty) -> Result<Response, Fault>
        ensures listed { IfOk result (ListsSinceMark self.old certainty) }
        ensures unchanged { self.new ≡ record self.old { terms = self.new.terms } }
        ensures goes_back { GoesBack self.old self.new }
        ensures only_memory { IsOkUnless result Fault.OutOfMemory }
    {
        match self.list_since_mark(certainty) {
            Ok(response) => Ok(response),
            Err(_) => Err(Fault::OutOfMemory),
        }
    }

    /// The answer that lists what came since the mark.
    fn list_since_mark(&mut self, certainty: Certainty) -> Result<Response, OutOfMemory>
        ensures listed { IfOk result (ListsSinceMark self.old certainty) }
        ensures unchanged { self.new ≡ record self.old { terms = self.new.terms } }
        ensures kept { Keeps self.old.terms self.new.terms }
    {
        self.holds_together();
        let base = self.base_of_mark();
        let vars = self.kinds_since_mark()?;
        let region_equations = self.equations_since_mark()?;
        let var_values = self.values_since_mark()?;
        let opaque_entries = self.entries_since_mark()?;
        Ok(Response {
            certainty,
            proven_via: None,
            base,
            vars,
            var_values,
            region_equations,
            opaque_entries,
        })
    }

    /// How many variables there were at the mark.
    fn base_of_mark(&self) -> u32
        ensures { result ≡ min self.now.mark.inference.variables (length (kinds_of self.now)) }
    {
        self.mark.inference.variables.min(self.kinds.len()) as u32
    }

    /// The kinds of the variables that were made since the mark.
    fn kinds_since_mark(&self) -> Result<Vec<VarKind>, OutOfMemory>
        ensures { IfOk result (λ kinds. kinds.items ≡ drop self.now.mark.inference.variables (kinds_of self.now)) }
    {
        let made = since(self.kinds.as_slice(), self.mark.inference.variables);
        Ok(made.to_vec(self.allocator())?)
    }

    /// The pairs of lifetimes that were equated since the mark.
    fn equations_since_mark(&self) -> Result<Vec<(Region, Region)>, OutOfMemory>
        ensures { IfOk result (λ pairs. pairs.items ≡ drop self.now.mark.inference.equations self.now.inference.equations) }
    {
        let added = since(self.inference.equations(), self.mark.inference.equations);
        Ok(added.to_vec(self.allocator())?)
    }

    /// The numbers of the variables that were bound since the mark, each with its term.
    fn values_since_mark(&mut self) -> Result<Vec<(u32, Term)>, OutOfMemory>
        ensures listed { IfOk result (λ values. AllZip (IsValueOf (bindings_of self.old)) (bound_since_mark self.old) values.items) }
        ensures unchanged { self.new ≡ record self.old { terms = self.new.terms } }
        ensures kept { Keeps self.old.terms self.new.terms }
    {
        let bound = since(self.inference.trail(), self.mark.inference.trail);
        values_of(&mut self.terms, &self.inference, bound)
    }

    /// The hidden types that were entered since the mark, each with its key.
    fn entries_since_mark(&mut self) -> Result<Vec<(OpaqueTypeKey, Ty)>, OutOfMemory>
        ensures listed { IfOk result (λ entries. AllZip (IsEntryOf (bindings_of self.old)) (drop self.old.mark.storage self.old.storage) entries.items) }
        ensures unchanged { self.new ≡ record self.old { terms = self.new.terms } }
        ensures kept { Keeps self.old.terms self.new.terms }
    {
        let entered = since(self.storage.as_slice(), self.mark.storage);
        entries_of(&mut self.terms, &self.inference, entered)
    }
}

/// Two certainties together.
pub(crate) fn both(first: Certainty, second: Certainty) -> Certainty
    ensures { result ≡ both_certain first second }
{
    match first {
        Certainty::Yes => second,
        Certainty::Maybe => Certainty::Maybe,
    }
}

/// What stands in a list after so many.
pub(crate) fn since<T>(items: &[T], count: usize) -> &[T]
    ensures { result.now ≡ drop count items.now }
{
    if count < items.len() {
        &items[count..]
    } else {
        &[]
    }
}

/// The numbers of some variables, each with the term that stands for the variable after all bindings. A
/// lifetime's variable is left out.
fn values_of(
    terms: &mut TermTable,
    inference: &InferState,
    numbers: &[u32],
) -> Result<Vec<(u32, Term)>, OutOfMemory>
    requires solved { IsSolved terms.old inference.now }
    ensures listed { IfOk result (λ values. AllZip (IsValueOf (resolution terms.old inference.now)) (variables_at inference.now numbers.now) values.items) }
    ensures kept { Keeps terms.old terms.new }
{
    let mut values = Vec::new(terms.allocator());
    for number in numbers {
        if let Some(variable) = variable_at(inference, *number) {
            let value = value_of(terms, inference, variable)?;
            values.push((*number, value))?;
        }
    }
    Ok(values)
}

/// The variable of a number, if one was made that stands for types or for constants.
pub(crate) fn variable_at(inference: &InferState, number: u32) -> Option<Variable>
    ensures { result ≡ variable_at inference.now number }
{
    if number as usize >= inference.len() {
        return None;
    }
    variable_of_kind(inference.variable(number).kind, number)
}

/// The variable of a kind and a number. There is none for lifetimes.
fn variable_of_kind(kind: VarKind, number: u32) -> Option<Variable>
    ensures { result ≡ variable_of_kind kind number }
{
    match kind {
        VarKind::Ty => Some(Variable::Ty(InferTy::TyVar(number))),
        VarKind::Int => Some(Variable::Ty(InferTy::IntVar(number))),
        VarKind::Float => Some(Variable::Ty(InferTy::FloatVar(number))),
        VarKind::Const => Some(Variable::Const(number)),
        VarKind::Region => None,
    }
}

/// What stands for a variable after all bindings.
fn value_of(
    terms: &mut TermTable,
    inference: &InferState,
    variable: Variable,
) -> Result<Term, OutOfMemory>
    requires solved { IsSolved terms.old inference.now }
    ensures value { IfOk result (λ value. erased (tree_of_term value) ≡ resolution terms.old inference.now variable) }
    ensures kept { Keeps terms.old terms.new }
{
    let parts = Vec::new(terms.allocator());
    let id = terms.intern_node(Node::Variable(variable), parts)?;
    let value = follow(terms, inference, id)?;
    terms.to_term(value)
}

/// Hidden types with the bindings followed, each with its key.
fn entries_of(
    terms: &mut TermTable,
    inference: &InferState,
    entries: &[(OpaqueTypeKey, Ty)],
) -> Result<Vec<(OpaqueTypeKey, Ty)>, OutOfMemory>
    requires solved { IsSolved terms.old inference.now }
    ensures listed { IfOk result (λ listed. AllZip (IsEntryOf (resolution terms.old inference.now)) entries.now listed.items) }
    ensures kept { Keeps terms.old terms.new }
{
    let mut listed = Vec::with_capacity(terms.allocator(), entries.len())?;
    for entry in entries {
        let key = copied_key(&entry.0)?;
        let hidden = followed_ty(terms, inference, &entry.1)?;
        listed.push((key, hidden))?;
    }
    Ok(listed)
}

/// A copy of a key.
fn copied_key(key: &OpaqueTypeKey) -> Result<OpaqueTypeKey, AllocError>
    ensures { IfOk result (λ copy. IsSameKey copy key.now) }
{
    let args = copied_args(*key.args.allocator(), &key.args)?;
    Ok(OpaqueTypeKey {
        def_id: key.def_id,
        args,
    })
}

/// Copies of arguments.
pub(crate) fn copied_args(alloc: Global, args: &[GenericArg]) -> Result<Vec<GenericArg>, AllocError>
    ensures { IfOk result (λ copies. map tree_of_arg copies.items ≡ map tree_of_arg args.now) }
{
    args.to_vec(alloc)
}

/// A type with the bindings followed.
fn followed_ty(terms: &mut TermTable, inference: &InferState, ty: &Ty) -> Result<Ty, OutOfMemory>
    requires solved { IsSolved terms.old inference.now }
    ensures followed { IfOk result (λ made. IsWithBindings (resolution terms.old inference.now) (tree_of_ty ty.now) (tree_of_ty made)) }
    ensures kept { Keeps terms.old terms.new }
{
    let id = terms.intern_part(TermRef::Ty(ty))?;
    let followed = follow(terms, inference, id)?;
    match terms.to_term(followed)? {
        Term::Ty(made) => Ok(made),
        Term::Const(_) => unreachable!(),
    }
}
