//! Terms from their numbers. This is the inverse of interning.
ghost use Rattle.std.specs.Prelude.{◌≡◌, ◌<◌, ◌≤◌, ◌+◌, length, map, take, IfOk};
ghost use Rattle.std.specs.List.{All};
ghost use Rattle.goal_terms.specs.Sorts.{sort_of_head, HeadFits, Are, IsSort, IsArgument, part_at};
ghost use Rattle.goal_interner.specs.TableMeaning.{tree_at, HasTerm};
ghost use Rattle.goal_terms.specs.Tree.{node, alias, forest, node_of, parts_of};
ghost use Rattle.goal_terms.specs.TreeOf.{tree_of_ty, tree_of_const, tree_of_arg, tree_of_term, tree_of_clause, tree_of_alias, tree_of_sig};

use crate::term_nodes::{OutOfMemory, TermId};
use crate::term_table::TermTable;
use goal_terms::heads::{Head, Node, Variable};
use goal_terms::sorts::Sort;
use goal_terms::terms::{AliasTerm, AliasTermKind, Const, DynClause, FnSig, GenericArg, Term, Ty};

#[tactic(auto, using(crate::proofs::RebuildLemmas::rebuilding))]
impl TermTable {
    /// The type or the constant with this number. Want of memory is the only refusal.
    #[cycle(rebuild)]
    pub fn to_term(&self, id: TermId) -> Result<Term, OutOfMemory>
        requires { HasTerm self.now id }
        ensures { IfOk result (λ term. tree_of_term term ≡ tree_at self.now id) }
    {
        match self.node(id).sort() {
            Sort::Ty => Ok(Term::Ty(self.ty(id)?)),
            _ => Ok(Term::Const(self.constant(id)?)),
        }
    }

    /// A part that is an argument.
    #[cycle(rebuild)]
    fn argument(&self, id: TermId) -> Result<GenericArg, OutOfMemory>
        requires within { id.0 < length self.now }
        requires sort { IsArgument (tree_at self.now id) }
        ensures { IfOk result (λ arg. tree_of_arg arg ≡ tree_at self.now id) }
    {
        if let Node::Head(Head::Lifetime(region)) = self.node(id) {
            return Ok(GenericArg::Lifetime(region));
        }
        match self.to_term(id)? {
            Term::Ty(ty) => Ok(GenericArg::Ty(ty)),
            Term::Const(value) => Ok(GenericArg::Const(value)),
        }
    }

    /// A type.
    #[cycle(rebuild)]
    fn ty(&self, id: TermId) -> Result<Ty, OutOfMemory>
        requires within { id.0 < length self.now }
        requires sort { IsSort Sort.Ty (tree_at self.now id) }
        ensures { IfOk result (λ ty. tree_of_ty ty ≡ tree_at self.now id) }
    {
        match self.node(id) {
            Node::Head(head) => self.ty_with_head(id, head),
            Node::Alias(kind) => Ok(Ty::Alias(self.alias(id, kind)?)),
            Node::Variable(Variable::Ty(variable)) => Ok(Ty::Infer(variable)),
            Node::Variable(Variable::Const(_)) => unreachable!(),
        }
    }

    /// A type with a known head.
    #[cycle(rebuild)]
    fn ty_with_head(&self, id: TermId, head: Head) -> Result<Ty, OutOfMemory>
        requires within { id.0 < length self.now }
        requires top { node_of (tree_at self.now id) ≡ Node.Head head }
        requires sort { sort_of_head head ≡ Sort.Ty }
        requires fits { HeadFits head (parts_of (tree_at self.now id)) }
        ensures { IfOk result (λ ty. tree_of_ty ty ≡ tree_at self.now id) }
    {
        match head {
            Head::Bool => Ok(Ty::Bool),
            Head::Char => Ok(Ty::Char),
            Head::Int(int) => Ok(Ty::Int(int)),
            Head::Uint(int) => Ok(Ty::Uint(int)),
            Head::Float(float) => Ok(Ty::Float(float)),
            Head::Str => Ok(Ty::Str),
            Head::Never => Ok(Ty::Never),
            Head::Adt(adt, count) => Ok(Ty::Adt(adt, self.arguments(id, count)?)),
            Head::Foreign(foreign) => Ok(Ty::Foreign(foreign)),
            Head::Array => {
                let element = self.boxed_ty(id, 0)?;
                let length = self.boxed_const(id, 1)?;
                Ok(Ty::Array(element, length))
            }
            Head::Slice => Ok(Ty::Slice(self.boxed_ty(id, 0)?)),
            Head::RawPtr(mutability) => Ok(Ty::RawPtr(self.boxed_ty(id, 0)?, mutability)),
            Head::Ref(region, mutability) => Ok(Ty::Ref(region, self.boxed_ty(id, 0)?, mutability)),
            Head::FnDef(function, count) => Ok(Ty::FnDef(function, self.arguments(id, count)?)),
            Head::FnPtr {
                bound_regions,
                inputs,
                fn_traits,
            } => self.fn_pointer(id, bound_regions, inputs, fn_traits),
            Head::Closure(closure, count) => Ok(Ty::Closure(closure, self.arguments(id, count)?)),
            Head::Dynamic(count, region) => Ok(Ty::Dynamic(self.dyn_clauses(id, count)?, region)),
            Head::Tuple(count) => Ok(Ty::Tuple(self.tys(id, count)?)),
            Head::TyParam(index) => Ok(Ty::Param(index)),
            Head::TyPlaceholder(index) => Ok(Ty::Placeholder(index)),
            Head::TyError(number) => Ok(Ty::Error(number)),
            Head::Misplaced(kind) => Ok(Ty::Alias(self.alias(id, kind)?)),
            _ => unreachable!(),
        }
    }

    /// A constant.
    #[cycle(rebuild)]
    fn constant(&self, id: TermId) -> Result<Const, OutOfMemory>
        requires within { id.0 < length self.now }
        requires sort { IsSort Sort.Const (tree_at self.now id) }
        ensures { IfOk result (λ value. tree_of_const value ≡ tree_at self.now id) }
    {
        match self.node(id) {
            Node::Head(Head::Value(value)) => Ok(Const::Value(value)),
            Node::Head(Head::ConstParam(index)) => Ok(Const::Param(index)),
            Node::Head(Head::ConstPlaceholder(index)) => Ok(Const::Placeholder(index)),
            Node::Head(Head::ConstError(number)) => Ok(Const::Error(number)),
            Node::Head(Head::Misplaced(kind)) => Ok(Const::Alias(self.alias(id, kind)?)),
            Node::Alias(kind) => Ok(Const::Alias(self.alias(id, kind)?)),
            Node::Variable(Variable::Const(index)) => Ok(Const::Infer(index)),
            _ => unreachable!(),
        }
    }

    /// A clause of a `dyn` type.
    #[cycle(rebuild)]
    fn dyn_clause(&self, id: TermId) -> Result<DynClause, OutOfMemory>
        requires within { id.0 < length self.now }
        requires sort { IsSort Sort.Clause (tree_at self.now id) }
        ensures { IfOk result (λ clause. tree_of_clause clause ≡ tree_at self.now id) }
    {
        match self.node(id) {
            Node::Head(Head::DynTrait(name, count)) => {
                Ok(DynClause::Trait(name, self.arguments(id, count)?))
            }
            Node::Head(Head::DynProjection(item, count)) => {
                let args = self.arguments(id, count)?;
                let term = self.to_term(self.part(id, count))?;
                Ok(DynClause::Projection(item, args, term))
            }
            _ => unreachable!(),
        }
    }

    /// The alias with the parts of a term as its arguments.
    #[cycle(rebuild)]
    fn alias(&self, id: TermId, kind: AliasTermKind) -> Result<AliasTerm, OutOfMemory>
        requires within { id.0 < length self.now }
        requires sorts { All IsArgument (parts_of (tree_at self.now id)) }
        ensures { IfOk result (λ made. tree_of_alias made ≡ alias kind (forest (parts_of (tree_at self.now id)))) }
    {
        let args = self.arguments(id, self.parts(id).len())?;
        Ok(AliasTerm { kind, args })
    }

    /// A pointer to a function.
    #[cycle(rebuild)]
    fn fn_pointer(
        &self,
        id: TermId,
        bound_regions: u32,
        inputs: usize,
        fn_traits: bool,
    ) -> Result<Ty, OutOfMemory>
        requires within { id.0 < length self.now }
        requires top { node_of (tree_at self.now id) ≡ Node.Head (Head.FnPtr bound_regions inputs fn_traits) }
        requires sorts { Are (IsSort Sort.Ty) (inputs + 1) (parts_of (tree_at self.now id)) }
        ensures { IfOk result (λ ty. tree_of_ty ty ≡ tree_at self.now id) }
    {
        let output = self.ty(self.part(id, inputs))?;
        let inputs = self.tys(id, inputs)?;
        let sig = FnSig {
            bound_regions,
            inputs,
            output,
            fn_traits,
        };
        Ok(Ty::FnPtr(Box::new(self.allocator(), sig)?))
    }

    /// The first parts of a term, as arguments.
    #[cycle(rebuild)]
    fn arguments(&self, id: TermId, count: usize) -> Result<Vec<GenericArg>, OutOfMemory>
        requires within { id.0 < length self.now }
        requires count { count ≤ length (parts_of (tree_at self.now id)) }
        requires sorts { All IsArgument (parts_of (tree_at self.now id)) }
        ensures { IfOk result (λ args. map tree_of_arg args.items ≡ take count (parts_of (tree_at self.now id))) }
    {
        let mut args = Vec::with_capacity(self.allocator(), count)?;
        for place in 0..count {
            args.push(self.argument(self.part(id, place))?)?;
        }
        Ok(args)
    }

    /// The first parts of a term, as types.
    #[cycle(rebuild)]
    fn tys(&self, id: TermId, count: usize) -> Result<Vec<Ty>, OutOfMemory>
        requires within { id.0 < length self.now }
        requires count { count ≤ length (parts_of (tree_at self.now id)) }
        requires sorts { All (IsSort Sort.Ty) (parts_of (tree_at self.now id)) }
        ensures { IfOk result (λ tys. map tree_of_ty tys.items ≡ take count (parts_of (tree_at self.now id))) }
    {
        let mut tys = Vec::with_capacity(self.allocator(), count)?;
        for place in 0..count {
            tys.push(self.ty(self.part(id, place))?)?;
        }
        Ok(tys)
    }

    /// The first parts of a term, as clauses of a `dyn` type.
    #[cycle(rebuild)]
    fn dyn_clauses(&self, id: TermId, count: usize) -> Result<Vec<DynClause>, OutOfMemory>
        requires within { id.0 < length self.now }
        requires count { count ≤ length (parts_of (tree_at self.now id)) }
        requires sorts { All (IsSort Sort.Clause) (parts_of (tree_at self.now id)) }
        ensures { IfOk result (λ clauses. map tree_of_clause clauses.items ≡ take count (parts_of (tree_at self.now id))) }
    {
        let mut clauses = Vec::with_capacity(self.allocator(), count)?;
        for place in 0..count {
            clauses.push(self.dyn_clause(self.part(id, place))?)?;
        }
        Ok(clauses)
    }

    /// The part at a place, as a type.
    #[cycle(rebuild)]
    fn boxed_ty(&self, id: TermId, place: usize) -> Result<Box<Ty>, OutOfMemory>
        requires within { id.0 < length self.now }
        requires place { place < length (parts_of (tree_at self.now id)) }
        requires sort { IsSort Sort.Ty (part_at (tree_at self.now id) place) }
        ensures { IfOk result (λ ty. tree_of_ty ty.value ≡ part_at (tree_at self.now id) place) }
    {
        let ty = self.ty(self.part(id, place))?;
        Ok(Box::new(self.allocator(), ty)?)
    }

    /// The part at a place, as a constant.
    #[cycle(rebuild)]
    fn boxed_const(&self, id: TermId, place: usize) -> Result<Box<Const>, OutOfMemory>
        requires within { id.0 < length self.now }
        requires place { place < length (parts_of (tree_at self.now id)) }
        requires sort { IsSort Sort.Const (part_at (tree_at self.now id) place) }
        ensures { IfOk result (λ value. tree_of_const value.value ≡ part_at (tree_at self.now id) place) }
    {
        let value = self.constant(self.part(id, place))?;
        Ok(Box::new(self.allocator(), value)?)
    }
}
