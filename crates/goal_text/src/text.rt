//! The text of terms, as Rust writes them.
use crate::lifetime_text::{Scope, write_binder, write_reference, write_region};
use crate::names::{Name, TermNames};
use crate::object_text::Round;
use crate::row_text::{Ending, Row};
use crate::scalar_text::scalar_name;
use goal_terms::heads::{Head, Node, Variable};
use goal_terms::scalars::Mutability;
use goal_terms::terms::{AliasTermKind, InferTy};
use goal_terms::view::TermRef;
use std::fmt;

/// A term, or a part of one, that is shown as text by these names.
#[derive(Clone, Copy)]
pub struct Shown<'a, N: TermNames> {
    pub term: TermRef<'a>,
    pub names: &'a N,
}

impl<N: TermNames> fmt::Display for Shown<'_, N> {
    fn fmt<W: fmt::Write>(&self, f: &mut fmt::Formatter<W>) -> fmt::Result {
        let scope = Scope {
            names: self.names,
            binders: 0,
        };
        write_term(f, &scope, self.term, Ending::Closed)
    }
}

/// Writes a term: what stands at its top, then its parts, then its end.
#[cycle(text)]
fn write_term<W: fmt::Write, N: TermNames>(
    out: &mut W,
    scope: &Scope<'_, N>,
    term: TermRef<'_>,
    ending: Ending,
) -> fmt::Result {
    let row = Row::of(term);
    write_start(out, scope, row.node)?;
    match row.node {
        Node::Alias(AliasTermKind::OpaqueTy(_))
        | Node::Head(Head::Misplaced(AliasTermKind::OpaqueTy(_))) => return Ok(()),
        Node::Head(Head::Dynamic(_, _)) => {
            write_parts(out, scope, term, Round::FirstTrait)?;
            write_parts(out, scope, term, Round::Items)?;
            write_parts(out, scope, term, Round::OtherTraits)?;
        }
        _ => write_parts(out, scope, term, Round::All)?,
    }
    match ending {
        Ending::Closed => row.write_end(out, scope),
        Ending::LeftOpen => Ok(()),
    }
}

/// Writes the parts of a term that a round takes, each between what sets it apart.
#[cycle(text)]
fn write_parts<W: fmt::Write, N: TermNames>(
    out: &mut W,
    scope: &Scope<'_, N>,
    term: TermRef<'_>,
    round: Round,
) -> fmt::Result {
    let row = Row::of(term);
    let inside = Scope {
        names: scope.names,
        binders: row.node.binders_below(scope.binders),
    };
    let parts = term.parts();
    for place in 0..parts.len() {
        let part = parts.at(place);
        if row.is_written(scope.names, round, place, part.node()) {
            row.write_before(out, scope, place, part)?;
            write_term(out, &inside, part, row.ending(place))?;
            out.write_str(row.after(place, part))?;
        }
    }
    Ok(())
}

/// Writes what comes before the parts.
fn write_start<W: fmt::Write, N: TermNames>(
    out: &mut W,
    scope: &Scope<'_, N>,
    node: Node,
) -> fmt::Result {
    match node {
        Node::Head(head) => write_head(out, scope, head),
        Node::Alias(kind) => write_alias(out, scope.names, kind),
        Node::Variable(variable) => write_variable(out, variable),
    }
}

/// Writes what comes before the parts of a term that is neither an alias nor a variable.
fn write_head<W: fmt::Write, N: TermNames>(
    out: &mut W,
    scope: &Scope<'_, N>,
    head: Head,
) -> fmt::Result {
    if let Some(name) = scalar_name(head) {
        return out.write_str(name);
    }
    match head {
        Head::Array | Head::Slice => out.write_str("["),
        Head::Tuple(_) => out.write_str("("),
        Head::Dynamic(_, _) => out.write_str("dyn "),
        Head::RawPtr(Mutability::Not) => out.write_str("*const "),
        Head::RawPtr(Mutability::Mut) => out.write_str("*mut "),
        Head::Ref(region, mutability) => write_reference(out, scope, region, mutability),
        Head::FnPtr { bound_regions, .. } => write_pointer(out, scope, bound_regions),
        Head::TyError(number) | Head::ConstError(number) => write!(out, "{{error {number}}}"),
        Head::TyPlaceholder(number) | Head::ConstPlaceholder(number) => {
            write!(out, "{{placeholder {number}}}")
        }
        Head::Value(value) => write!(out, "{value}"),
        Head::Lifetime(region) => write_region(out, scope, region),
        Head::Misplaced(kind) => write_alias(out, scope.names, kind),
        named => write_named(out, scope.names, named),
    }
}

/// Writes the name at the top of a term that has one. That of a function or a closure stands in
/// braces, as rustc shows their types.
fn write_named<W: fmt::Write, N: TermNames>(out: &mut W, names: &N, head: Head) -> fmt::Result {
    let name = match head {
        Head::Adt(id, _) => names.adt_name(id),
        Head::Foreign(id) => names.foreign_name(id),
        Head::FnDef(id, _) => names.fn_name(id),
        Head::Closure(id, _) => names.closure_name(id),
        Head::TyParam(index) | Head::ConstParam(index) => names.parameter_name(index),
        Head::DynTrait(id, _) => names.trait_name(id),
        Head::DynProjection(id, _) => names.item_name(id),
        _ => Name::Given("_"),
    };
    match head {
        Head::FnDef(_, _) => write!(out, "fn item {{{name}"),
        Head::Closure(_, _) => write!(out, "{{closure@{name}"),
        _ => write!(out, "{name}"),
    }
}

fn write_pointer<W: fmt::Write, N: TermNames>(
    out: &mut W,
    scope: &Scope<'_, N>,
    bound_regions: u32,
) -> fmt::Result {
    write_binder(out, scope, bound_regions)?;
    out.write_str("fn(")
}

fn write_variable<W: fmt::Write>(out: &mut W, variable: Variable) -> fmt::Result {
    match variable {
        Variable::Ty(InferTy::TyVar(number)) | Variable::Const(number) => {
            write!(out, "?{number}")
        }
        Variable::Ty(InferTy::IntVar(number)) => write!(out, "?int{number}"),
        Variable::Ty(InferTy::FloatVar(number)) => write!(out, "?float{number}"),
    }
}

fn write_alias<W: fmt::Write, N: TermNames>(
    out: &mut W,
    names: &N,
    kind: AliasTermKind,
) -> fmt::Result {
    match kind {
        AliasTermKind::ProjectionTy(_)
        | AliasTermKind::ProjectionConst(_)
        | AliasTermKind::InherentTy(_)
        | AliasTermKind::InherentConst(_) => out.write_str("<"),
        AliasTermKind::OpaqueTy(id) => write!(out, "opaque {}", names.opaque_name(id)),
        AliasTermKind::FreeTy(id) | AliasTermKind::FreeConst(id) => {
            write!(out, "{}", names.free_name(id))
        }
        AliasTermKind::UnevaluatedConst(number) => write!(out, "const{number}"),
    }
}
