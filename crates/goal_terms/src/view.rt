ghost use Rattle.std.specs.Prelude.{◌≡◌, ◌<◌, length, slice_get, Some};
ghost use Rattle.goal_terms.specs.Tree.{node_of, parts_of};
ghost use Rattle.goal_terms.specs.TreeOf.{is_type_kind, tree_of_ty, tree_of_const, tree_of_arg, tree_of_term, tree_of_clause, tree_of_alias, tree_of_sig};
ghost use Rattle.goal_terms.specs.View.{tree_of_ref, trees_seen};

use crate::heads::{Head, Node, Variable};
use crate::terms::{
    AliasTerm, AliasTermKind, Const, DynClause, FnSig, GenericArg, Region, Term, Ty,
};

/// Any part of a term. Traversals go over these, and so need no case for each type.
#[derive(Clone, Copy)]
pub enum TermRef<'a> {
    Ty(&'a Ty),
    Const(&'a Const),
    Lifetime(Region),
    Clause(&'a DynClause),
    Alias(&'a AliasTerm),
    Signature(&'a FnSig),
}

/// The parts of a term, where they stand.
#[derive(Clone, Copy)]
pub enum Parts<'a> {
    None,
    One(&'a Ty),
    Array(&'a Ty, &'a Const),
    Args(&'a [GenericArg]),
    Tys(&'a [Ty]),
    Signature(&'a [Ty], &'a Ty),
    Clauses(&'a [DynClause]),
    Projection(&'a [GenericArg], &'a Term),
}

impl AliasTermKind {
    /// Whether an alias of this kind stands for a type.
    pub fn is_type(self) -> bool
        ensures { result ≡ is_type_kind self }
    {
        match self {
            AliasTermKind::ProjectionTy(_)
            | AliasTermKind::InherentTy(_)
            | AliasTermKind::OpaqueTy(_)
            | AliasTermKind::FreeTy(_) => true,
            AliasTermKind::ProjectionConst(_)
            | AliasTermKind::InherentConst(_)
            | AliasTermKind::FreeConst(_)
            | AliasTermKind::UnevaluatedConst(_) => false,
        }
    }
}

#[tactic(auto, using(crate::proofs::TreeLemmas::tree_equations))]
impl GenericArg {
    /// The argument as a part of a term.
    pub fn view(&self) -> TermRef<'_>
        ensures { tree_of_ref result ≡ tree_of_arg self.now }
    {
        match self {
            GenericArg::Ty(ty) => TermRef::Ty(ty),
            GenericArg::Const(value) => TermRef::Const(value),
            GenericArg::Lifetime(region) => TermRef::Lifetime(*region),
        }
    }
}

#[tactic(auto, using(crate::proofs::TreeLemmas::tree_equations))]
impl Term {
    /// The type or the constant, as a part of a term.
    pub fn view(&self) -> TermRef<'_>
        ensures { tree_of_ref result ≡ tree_of_term self.now }
    {
        match self {
            Term::Ty(ty) => TermRef::Ty(ty),
            Term::Const(value) => TermRef::Const(value),
        }
    }
}

#[tactic(auto, using(crate::proofs::TreeLemmas::tree_equations))]
impl Ty {
    /// What stands at the top of the type.
    pub fn node(&self) -> Node
        ensures { result ≡ node_of (tree_of_ty self.now) }
    {
        match self {
            Ty::Bool => Node::Head(Head::Bool),
            Ty::Char => Node::Head(Head::Char),
            Ty::Int(int) => Node::Head(Head::Int(*int)),
            Ty::Uint(int) => Node::Head(Head::Uint(*int)),
            Ty::Float(float) => Node::Head(Head::Float(*float)),
            Ty::Str => Node::Head(Head::Str),
            Ty::Never => Node::Head(Head::Never),
            Ty::Adt(id, args) => Node::Head(Head::Adt(*id, args.len())),
            Ty::Foreign(id) => Node::Head(Head::Foreign(*id)),
            Ty::Array(_, _) => Node::Head(Head::Array),
            Ty::Slice(_) => Node::Head(Head::Slice),
            Ty::RawPtr(_, mutability) => Node::Head(Head::RawPtr(*mutability)),
            Ty::Ref(region, _, mutability) => Node::Head(Head::Ref(*region, *mutability)),
            Ty::FnDef(id, args) => Node::Head(Head::FnDef(*id, args.len())),
            Ty::FnPtr(sig) => sig.node(),
            Ty::Closure(id, args) => Node::Head(Head::Closure(*id, args.len())),
            Ty::Dynamic(clauses, region) => Node::Head(Head::Dynamic(clauses.len(), *region)),
            Ty::Tuple(elements) => Node::Head(Head::Tuple(elements.len())),
            Ty::Param(index) => Node::Head(Head::TyParam(*index)),
            Ty::Placeholder(index) => Node::Head(Head::TyPlaceholder(*index)),
            Ty::Alias(alias) if alias.kind.is_type() => Node::Alias(alias.kind),
            Ty::Alias(alias) => Node::Head(Head::Misplaced(alias.kind)),
            Ty::Infer(variable) => Node::Variable(Variable::Ty(*variable)),
            Ty::Error(number) => Node::Head(Head::TyError(*number)),
        }
    }

    /// The parts of the type, or the arguments of an alias.
    pub fn parts(&self) -> Parts<'_>
        ensures { trees_seen result ≡ parts_of (tree_of_ty self.now) }
    {
        match self {
            Ty::Adt(_, args) => Parts::Args(args.as_slice()),
            Ty::Array(element, length) => Parts::Array(element, length),
            Ty::Slice(element) => Parts::One(element),
            Ty::RawPtr(target, _) => Parts::One(target),
            Ty::Ref(_, target, _) => Parts::One(target),
            Ty::FnDef(_, args) => Parts::Args(args.as_slice()),
            Ty::FnPtr(sig) => sig.parts(),
            Ty::Closure(_, args) => Parts::Args(args.as_slice()),
            Ty::Dynamic(clauses, _) => Parts::Clauses(clauses.as_slice()),
            Ty::Tuple(elements) => Parts::Tys(elements.as_slice()),
            Ty::Alias(alias) => Parts::Args(alias.args.as_slice()),
            Ty::Bool
            | Ty::Char
            | Ty::Int(_)
            | Ty::Uint(_)
            | Ty::Float(_)
            | Ty::Str
            | Ty::Never
            | Ty::Foreign(_)
            | Ty::Param(_)
            | Ty::Placeholder(_)
            | Ty::Infer(_)
            | Ty::Error(_) => Parts::None,
        }
    }
}

#[tactic(auto, using(crate::proofs::TreeLemmas::tree_equations))]
impl FnSig {
    /// What stands at the top of a pointer to a function with this signature.
    pub fn node(&self) -> Node
        ensures { result ≡ node_of (tree_of_sig self.now) }
    {
        Node::Head(Head::FnPtr {
            bound_regions: self.bound_regions,
            inputs: self.inputs.len(),
            fn_traits: self.fn_traits,
        })
    }

    /// The types of the inputs, then that of the output.
    pub fn parts(&self) -> Parts<'_>
        ensures { trees_seen result ≡ parts_of (tree_of_sig self.now) }
    {
        Parts::Signature(self.inputs.as_slice(), &self.output)
    }
}

#[tactic(auto, using(crate::proofs::TreeLemmas::tree_equations))]
impl Const {
    /// What stands at the top of the constant.
    pub fn node(&self) -> Node
        ensures { result ≡ node_of (tree_of_const self.now) }
    {
        match self {
            Const::Value(value) => Node::Head(Head::Value(*value)),
            Const::Param(index) => Node::Head(Head::ConstParam(*index)),
            Const::Placeholder(index) => Node::Head(Head::ConstPlaceholder(*index)),
            Const::Infer(index) => Node::Variable(Variable::Const(*index)),
            Const::Alias(alias) if alias.kind.is_type() => Node::Head(Head::Misplaced(alias.kind)),
            Const::Alias(alias) => Node::Alias(alias.kind),
            Const::Error(number) => Node::Head(Head::ConstError(*number)),
        }
    }

    /// The arguments of an alias. No other constant has parts.
    pub fn parts(&self) -> Parts<'_>
        ensures { trees_seen result ≡ parts_of (tree_of_const self.now) }
    {
        match self {
            Const::Alias(alias) => Parts::Args(alias.args.as_slice()),
            Const::Value(_)
            | Const::Param(_)
            | Const::Placeholder(_)
            | Const::Infer(_)
            | Const::Error(_) => Parts::None,
        }
    }
}

#[tactic(auto, using(crate::proofs::TreeLemmas::tree_equations))]
impl DynClause {
    /// What stands at the top of the clause.
    pub fn node(&self) -> Node
        ensures { result ≡ node_of (tree_of_clause self.now) }
    {
        match self {
            DynClause::Trait(id, args) => Node::Head(Head::DynTrait(*id, args.len())),
            DynClause::Projection(id, args, _) => {
                Node::Head(Head::DynProjection(*id, args.len()))
            }
        }
    }

    /// The arguments of the clause, then its term.
    pub fn parts(&self) -> Parts<'_>
        ensures { trees_seen result ≡ parts_of (tree_of_clause self.now) }
    {
        match self {
            DynClause::Trait(_, args) => Parts::Args(args.as_slice()),
            DynClause::Projection(_, args, term) => Parts::Projection(args.as_slice(), term),
        }
    }
}

#[tactic(auto, using(crate::proofs::TreeLemmas::tree_equations))]
impl<'a> TermRef<'a> {
    /// What stands at the top of the term.
    pub fn node(self) -> Node
        ensures { result ≡ node_of (tree_of_ref self.entry) }
    {
        match self {
            TermRef::Ty(ty) => ty.node(),
            TermRef::Const(value) => value.node(),
            TermRef::Lifetime(region) => Node::Head(Head::Lifetime(region)),
            TermRef::Clause(clause) => clause.node(),
            TermRef::Alias(alias) => Node::Alias(alias.kind),
            TermRef::Signature(sig) => sig.node(),
        }
    }

    /// The parts of the term.
    pub fn parts(self) -> Parts<'a>
        ensures { trees_seen result ≡ parts_of (tree_of_ref self.entry) }
    {
        match self {
            TermRef::Ty(ty) => ty.parts(),
            TermRef::Const(value) => value.parts(),
            TermRef::Lifetime(_) => Parts::None,
            TermRef::Clause(clause) => clause.parts(),
            TermRef::Alias(alias) => Parts::Args(alias.args.as_slice()),
            TermRef::Signature(sig) => sig.parts(),
        }
    }
}

impl<'a> Parts<'a> {
    /// How many parts there are.
    pub fn len(self) -> usize
        ensures { result ≡ length (trees_seen self.entry) }
    {
        match self {
            Parts::None => 0,
            Parts::One(_) => 1,
            Parts::Array(_, _) => 2,
            Parts::Args(args) => args.len(),
            Parts::Tys(tys) => tys.len(),
            Parts::Signature(inputs, _) => inputs.len() + 1,
            Parts::Clauses(clauses) => clauses.len(),
            Parts::Projection(args, _) => args.len() + 1,
        }
    }

    /// The part at a place, counted from 0.
    pub fn at(self, place: usize) -> TermRef<'a>
        requires { place < length (trees_seen self) }
        ensures { slice_get (trees_seen self.entry) place ≡ Some (tree_of_ref result) }
    {
        match self {
            Parts::None => unreachable!(),
            Parts::One(ty) => TermRef::Ty(ty),
            Parts::Array(element, _) if place == 0 => TermRef::Ty(element),
            Parts::Array(_, length) => TermRef::Const(length),
            Parts::Args(args) => args[place].view(),
            Parts::Tys(tys) => TermRef::Ty(&tys[place]),
            Parts::Signature(inputs, _) if place < inputs.len() => TermRef::Ty(&inputs[place]),
            Parts::Signature(_, output) => TermRef::Ty(output),
            Parts::Clauses(clauses) => TermRef::Clause(&clauses[place]),
            Parts::Projection(args, _) if place < args.len() => args[place].view(),
            Parts::Projection(_, term) => term.view(),
        }
    }
}
