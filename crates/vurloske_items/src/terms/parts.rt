//! Small parts of terms, which lead to no others.
ghost use Rattle.std.specs.Prelude.{◌≤◌, IfSome};

use crate::scope::{Param, ParamName, SelfTerm, UnknownNames};
use crate::terms::{Lowering, Wanted};
use goal_terms::answers::{ParamKind, VarKind};
use goal_terms::scalars;
use goal_terms::terms::{AliasTerm, AliasTermKind, Const, GenericArg, InferTy, Region, Term, Ty};
use vurloske_ast::ast::{
    self, Arg, Args, Ast, Ident, Mutability, Position, Run, Segment, Symbol, TermId, TermKind,
};
use vurloske_ast::phrase::Phrase;
use vurloske_names::definitions::Definition;
use vurloske_names::faults::{FirstFault, ItemFault, wrong, wrong_name};

impl Wanted {
    /// What stands for a term with a fault.
    pub(super) fn error(self, number: u32) -> Term {
        match self {
            Wanted::Ty => Term::Ty(Ty::Error(number)),
            Wanted::Const => Term::Const(Const::Error(number)),
        }
    }

    pub(super) fn placeholder(self, number: u32) -> Term {
        match self {
            Wanted::Ty => Term::Ty(Ty::Placeholder(number)),
            Wanted::Const => Term::Const(Const::Placeholder(number)),
        }
    }
}

pub(super) fn mutability(written: Mutability) -> scalars::Mutability {
    match written {
        Mutability::Not => scalars::Mutability::Not,
        Mutability::Mut => scalars::Mutability::Mut,
    }
}

/// What an alias is wanted to be.
pub(crate) fn wanted_of(kind: AliasTermKind) -> Wanted {
    if kind.is_type() {
        Wanted::Ty
    } else {
        Wanted::Const
    }
}

/// An alias as a term.
pub(super) fn alias_term(alias: AliasTerm) -> Term {
    if alias.kind.is_type() {
        Term::Ty(Ty::Alias(alias))
    } else {
        Term::Const(Const::Alias(alias))
    }
}

/// A term as an argument.
pub(super) fn argument(term: Term) -> GenericArg {
    match term {
        Term::Ty(ty) => GenericArg::Ty(ty),
        Term::Const(value) => GenericArg::Const(value),
    }
}

/// What an item's name is with arguments. `None` for a trait.
fn defined(definition: Definition, args: Vec<GenericArg>) -> Option<Term> {
    let ty = match definition {
        Definition::Trait(_) => return None,
        Definition::Builtin(builtin) => builtin.ty(),
        Definition::Foreign(id) => Ty::Foreign(id),
        Definition::Adt(id) => Ty::Adt(id, args),
        Definition::Fn(id) => Ty::FnDef(id, args),
        Definition::Closure(id) => Ty::Closure(id, args),
        Definition::FreeTy(id) => return Some(alias_of(AliasTermKind::FreeTy(id), args)),
        Definition::Opaque(id) => return Some(alias_of(AliasTermKind::OpaqueTy(id), args)),
        Definition::FreeConst(id) => return Some(alias_of(AliasTermKind::FreeConst(id), args)),
    };
    Some(Term::Ty(ty))
}

fn alias_of(kind: AliasTermKind, args: Vec<GenericArg>) -> Term {
    alias_term(AliasTerm { kind, args })
}

impl Lowering<'_> {
    /// What was written of a term. `None` where nothing is read any more: there was a fault, or the term
    /// is of another text or too deep, which are mistakes.
    pub(super) fn node(&mut self, id: TermId, depth: u32) -> Option<ast::Term>
        ensures { IfSome result (λ _. 1 ≤ depth) }
    {
        if self.scope.fault.is_there() {
            return None;
        }
        let Some(term) = self.ast.term(id) else {
            self.scope.fault.fail(wrong(
                position(self.ast, id),
                Phrase::TERM_OF_THIS_TEXT,
                Phrase::ANOTHER,
            ));
            return None;
        };
        if depth == 0 {
            self.scope.fault.fail(wrong(term.at, Phrase::LESS_NESTING, Phrase::TOO_DEEP_TERM));
            return None;
        }
        Some(term)
    }

    pub(super) fn as_ty(&mut self, term: Term, id: TermId) -> Ty {
        match term {
            Term::Ty(ty) => ty,
            Term::Const(_) => {
                self.scope.fault.fail(wrong(
                    position(self.ast, id),
                    Phrase::TYPE,
                    Phrase::CONSTANT,
                ));
                Ty::Error(0)
            }
        }
    }

    pub(super) fn as_const(&mut self, term: Term, id: TermId) -> Const {
        match term {
            Term::Const(value) => value,
            Term::Ty(_) => {
                self.scope.fault.fail(wrong(
                    position(self.ast, id),
                    Phrase::CONSTANT,
                    Phrase::TYPE,
                ));
                Const::Error(0)
            }
        }
    }

    /// A term that leads to no others, if it is one.
    pub(super) fn leaf(&mut self, kind: TermKind, wanted: Wanted) -> Option<Term> {
        match kind {
            TermKind::Never => Some(Term::Ty(Ty::Never)),
            TermKind::Infer => Some(self.variable(None, wanted)),
            TermKind::InferNamed(ident) => Some(self.variable(Some(ident.name), wanted)),
            TermKind::IntVar => {
                let number = self.scope.variable(None, VarKind::Int);
                Some(Term::Ty(Ty::Infer(InferTy::IntVar(number))))
            }
            TermKind::FloatVar => {
                let number = self.scope.variable(None, VarKind::Float);
                Some(Term::Ty(Ty::Infer(InferTy::FloatVar(number))))
            }
            TermKind::Error(number) => Some(wanted.error(number)),
            TermKind::Placeholder(number) => Some(wanted.placeholder(number)),
            TermKind::Literal(value) => Some(Term::Const(Const::Value(value))),
            _ => None,
        }
    }

    /// `_` and `?x`
    fn variable(&mut self, name: Option<Symbol>, wanted: Wanted) -> Term {
        match wanted {
            Wanted::Ty => {
                let number = self.scope.variable(name, VarKind::Ty);
                Term::Ty(Ty::Infer(InferTy::TyVar(number)))
            }
            Wanted::Const => Term::Const(Const::Infer(self.scope.variable(name, VarKind::Const))),
        }
    }

    /// A type on the heap, if there is memory.
    pub(super) fn in_box(&mut self, ty: Ty) -> Option<Box<Ty>> {
        match Box::new(self.alloc, ty) {
            Ok(ty) => Some(ty),
            Err(_) => {
                self.scope.fault.fail(ItemFault::OutOfMemory);
                None
            }
        }
    }

    /// The parameter that a name is.
    pub(super) fn param(&self, ident: Ident) -> Option<Param> {
        let name = match self.scope.self_term {
            SelfTerm::Param(_) if self.definitions.is_self(ident.name) => ParamName::SelfTy,
            _ => ParamName::Named(ident.name),
        };
        self.scope.param(name)
    }

    /// A parameter as a term. A mistake where arguments are written, or where it is a lifetime.
    pub(super) fn param_term(&mut self, param: Param, segment: Segment) -> Term {
        let term = match param.kind {
            ParamKind::Ty => Term::Ty(Ty::Param(param.number)),
            ParamKind::Const => Term::Const(Const::Param(param.number)),
            ParamKind::Lifetime => {
                self.scope
                    .fault
                    .fail(wrong_name(segment.ident, Phrase::TYPE_OR_A_CONSTANT));
                Term::Ty(Ty::Error(0))
            }
        };
        if !is_bare(segment.args) {
            self.scope
                .fault
                .fail(wrong_name(segment.ident, Phrase::WHAT_TAKES_ARGUMENTS));
        }
        term
    }

    /// What an item's name is with arguments. A mistake for a trait.
    pub(super) fn defined(
        &mut self,
        definition: Definition,
        args: Vec<GenericArg>,
        ident: Ident,
    ) -> Term {
        match defined(definition, args) {
            Some(term) => term,
            None => {
                self.scope
                    .fault
                    .fail(wrong_name(ident, Phrase::TYPE_OR_A_CONSTANT));
                Term::Ty(Ty::Error(0))
            }
        }
    }

    /// What an impl is for, if that is what a name says.
    pub(super) fn impl_self(&self, ident: Ident) -> Option<TermId> {
        match self.scope.self_term {
            SelfTerm::Term(id) if self.definitions.is_self(ident.name) => Some(id),
            _ => None,
        }
    }

    /// A name that nothing has: a new parameter in the head of a block, else a mistake.
    pub(super) fn unknown(&mut self, segment: Segment, wanted: Wanted) -> Term {
        let ident = segment.ident;
        if self.scope.unknown_names == UnknownNames::TypeParams && is_bare(segment.args) {
            self.scope
                .declare(ParamName::Named(ident.name), ParamKind::Ty, ident.at);
            if let Some(param) = self.param(ident) {
                return self.param_term(param, segment);
            }
        }
        let expected = match wanted {
            Wanted::Ty => Phrase::TYPE,
            Wanted::Const => Phrase::CONSTANT,
        };
        self.scope.fault.fail(wrong_name(ident, expected));
        wanted.error(0)
    }
}

/// Adds erased lifetimes.
pub(super) fn push_erased(fault: &mut FirstFault, all: &mut Vec<GenericArg>, count: usize) {
    for _ in 0..count {
        fault.keep(all.push(GenericArg::Lifetime(Region::Erased)));
    }
}

/// Where a term stands.
pub(crate) fn position(ast: &Ast, id: TermId) -> Position {
    match ast.term(id) {
        Some(term) => term.at,
        None => Position { line: 0, column: 0 },
    }
}

/// How many lifetimes are left out before the arguments that are written.
pub(super) fn elided(ast: &Ast, args: Args, params: Run) -> usize {
    if has_lifetimes(ast, args) {
        return 0;
    }
    let mut count = 0usize;
    for param in ast.params(params) {
        if param.kind == ast::ParamKind::Lifetime {
            count = count.saturating_add(1);
        }
    }
    count
}

/// Whether a lifetime is written among arguments.
fn has_lifetimes(ast: &Ast, args: Args) -> bool {
    if let Args::Angle(run) = args {
        for arg in ast.args(run) {
            if let Arg::Lifetime(_) = arg {
                return true;
            }
        }
    }
    false
}

/// What the parameter at a place takes.
pub(super) fn wanted_at(ast: &Ast, params: Run, place: usize) -> Wanted {
    match ast.params(params).get(place) {
        Some(param) if param.kind == ast::ParamKind::Const => Wanted::Const,
        _ => Wanted::Ty,
    }
}

/// Whether a trait's arguments say what its items are.
pub(crate) fn has_equations(ast: &Ast, args: Args) -> bool {
    match args {
        Args::Absent | Args::Paren(_, None) => false,
        Args::Paren(_, Some(_)) => true,
        Args::Angle(run) => has_bindings(ast.args(run)),
    }
}

fn has_bindings(args: &[Arg]) -> bool {
    for arg in args {
        if let Arg::Binding(_, _) = arg {
            return true;
        }
    }
    false
}

/// Whether no arguments are written.
fn is_bare(args: Args) -> bool {
    matches!(args, Args::Absent)
}
