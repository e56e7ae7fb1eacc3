//! The text between the parts of a term and after them.
use crate::lifetime_text::Scope;
use crate::names::TermNames;
use crate::object_text::{Object, Round, has_plus, write_object_end};
use goal_terms::heads::{Head, Node};
use goal_terms::ids::{InherentId, ItemId};
use goal_terms::terms::AliasTermKind;
use goal_terms::view::TermRef;
use std::fmt;

/// Whether the last bracket of a term is written with it, or left to what comes next.
#[derive(Clone, Copy)]
pub enum Ending {
    Closed,
    LeftOpen,
}

/// The parts of a term, by what sets them apart.
#[derive(Clone, Copy)]
pub struct Row {
    pub node: Node,
    count: usize,
    object: Object,
}

impl Row {
    /// The parts of a term.
    pub fn of(term: TermRef<'_>) -> Row {
        let parts = term.parts();
        Row {
            node: term.node(),
            count: parts.len(),
            object: Object::of(parts),
        }
    }

    fn is_last(&self, place: usize) -> bool {
        place == self.count.saturating_sub(1)
    }

    /// Whether a round writes the part at a place. An item that is given is written without the
    /// arguments of its trait.
    pub fn is_written<N: TermNames>(
        &self,
        names: &N,
        round: Round,
        place: usize,
        part: Node,
    ) -> bool {
        match self.node {
            Node::Head(Head::DynProjection(item, _)) => {
                self.is_last(place) || place >= trait_arguments(names, item)
            }
            _ => self.object.is_written(round, place, part),
        }
    }

    /// Writes what comes before the part at a place.
    pub fn write_before<W: fmt::Write, N: TermNames>(
        &self,
        out: &mut W,
        scope: &Scope<'_, N>,
        place: usize,
        part: TermRef<'_>,
    ) -> fmt::Result {
        match self.node {
            Node::Head(Head::Dynamic(_, _)) => self.object.write_before(out, scope, place, part),
            Node::Head(Head::DynProjection(item, _)) => {
                let first = trait_arguments(scope.names, item);
                out.write_str(item_separator(first, place, self.is_last(place)))
            }
            Node::Head(Head::Misplaced(kind)) | Node::Alias(kind) => {
                write_alias_separator(out, scope.names, kind, place)
            }
            node => {
                out.write_str(separator(node, place, self.is_last(place)))?;
                out.write_str(if self.is_in_parentheses(place, part) {
                    "("
                } else {
                    ""
                })
            }
        }
    }

    /// Whether the part at a place stands in parentheses: a `dyn` type with a `+` does after `&`, `*`
    /// and `->`.
    fn is_in_parentheses(&self, place: usize, part: TermRef<'_>) -> bool {
        match self.node {
            Node::Head(Head::Ref(_, _) | Head::RawPtr(_)) => has_plus(part),
            Node::Head(Head::FnPtr { .. }) => self.is_last(place) && has_plus(part),
            _ => false,
        }
    }

    /// Whether the last bracket of the part at a place is written with it.
    pub fn ending(&self, place: usize) -> Ending {
        if self.object.is_left_open(place) {
            Ending::LeftOpen
        } else {
            Ending::Closed
        }
    }

    /// What comes after the part at a place, before what sets it apart from the next.
    pub fn after(&self, place: usize, part: TermRef<'_>) -> &'static str {
        if self.is_in_parentheses(place, part) {
            ")"
        } else {
            self.object.after(place)
        }
    }

    /// Writes what comes after the parts.
    pub fn write_end<W: fmt::Write, N: TermNames>(
        &self,
        out: &mut W,
        scope: &Scope<'_, N>,
    ) -> fmt::Result {
        match self.node {
            Node::Head(Head::Misplaced(kind)) | Node::Alias(kind) => {
                write_alias_end(out, scope.names, kind, self.count)
            }
            Node::Head(Head::Dynamic(clauses, region)) => {
                write_object_end(out, scope, clauses, region)
            }
            node => out.write_str(closing(node, self.count)),
        }
    }
}

/// How many arguments of an item are its trait's, the self type left out.
fn trait_arguments<N: TermNames>(names: &N, item: ItemId) -> usize {
    names.trait_parameters_of(item).saturating_sub(1)
}

/// What comes before a part of an item that is given, whose own arguments begin at a place.
fn item_separator(first: usize, place: usize, is_last: bool) -> &'static str {
    match (is_last, place > first) {
        (true, true) => "> = ",
        (true, false) => " = ",
        (false, true) => ", ",
        (false, false) => "<",
    }
}

/// Whether the parts are arguments in angle brackets.
fn has_arguments(node: Node) -> bool {
    match node {
        Node::Head(Head::Adt(_, _) | Head::Closure(_, _) | Head::DynTrait(_, _)) => true,
        _ => false,
    }
}

/// What comes before the part at a place of a term that is no alias.
fn separator(node: Node, place: usize, is_last: bool) -> &'static str {
    match node {
        Node::Head(Head::FnPtr { .. }) if is_last => ") -> ",
        Node::Head(Head::Array) if place == 1 => "; ",
        _ if place != 0 => ", ",
        Node::Head(Head::FnDef(_, _)) => "::<",
        _ if has_arguments(node) => "<",
        _ => "",
    }
}

/// What comes after the parts of a term that is no alias.
fn closing(node: Node, count: usize) -> &'static str {
    match node {
        Node::Head(Head::Array | Head::Slice) => "]",
        Node::Head(Head::Tuple(1)) => ",)",
        Node::Head(Head::Tuple(_)) => ")",
        Node::Head(Head::FnDef(_, _) | Head::Closure(_, _)) if count == 0 => "}",
        Node::Head(Head::FnDef(_, _) | Head::Closure(_, _)) => ">}",
        _ if has_arguments(node) && count != 0 => ">",
        _ => "",
    }
}

/// Writes what comes before the argument of an alias at a place.
fn write_alias_separator<W: fmt::Write, N: TermNames>(
    out: &mut W,
    names: &N,
    kind: AliasTermKind,
    place: usize,
) -> fmt::Result {
    match kind {
        AliasTermKind::ProjectionTy(item) | AliasTermKind::ProjectionConst(item) => {
            write_projection_separator(out, names, item, place)
        }
        AliasTermKind::InherentTy(item) | AliasTermKind::InherentConst(item) => {
            write_inherent_separator(out, names, item, place)
        }
        _ => out.write_str(if place == 0 { "<" } else { ", " }),
    }
}

/// Writes what comes before an argument of an item of an impl without a trait: the self type's, then
/// the item's own.
fn write_inherent_separator<W: fmt::Write, N: TermNames>(
    out: &mut W,
    names: &N,
    item: InherentId,
    place: usize,
) -> fmt::Result {
    match place {
        0 => Ok(()),
        1 => write!(out, ">::{}<", names.inherent_name(item)),
        _ => out.write_str(", "),
    }
}

/// Writes what comes before an argument of a projection: the trait's first, then the item's own.
fn write_projection_separator<W: fmt::Write, N: TermNames>(
    out: &mut W,
    names: &N,
    item: ItemId,
    place: usize,
) -> fmt::Result {
    let of_trait = names.trait_parameters_of(item);
    if place == 0 {
        return Ok(());
    }
    if place == of_trait {
        write_item(out, names, item, of_trait)?;
        return out.write_str("<");
    }
    if place == 1 {
        return write!(out, " as {}<", names.trait_name_of(item));
    }
    out.write_str(", ")
}

/// Writes the end of a projection's trait, of which so many arguments stand there, and the item.
fn write_item<W: fmt::Write, N: TermNames>(
    out: &mut W,
    names: &N,
    item: ItemId,
    arguments: usize,
) -> fmt::Result {
    if arguments <= 1 {
        write!(
            out,
            " as {}>::{}",
            names.trait_name_of(item),
            names.item_name(item)
        )
    } else {
        write!(out, ">>::{}", names.item_name(item))
    }
}

/// Writes what comes after the arguments of an alias, which are so many.
fn write_alias_end<W: fmt::Write, N: TermNames>(
    out: &mut W,
    names: &N,
    kind: AliasTermKind,
    count: usize,
) -> fmt::Result {
    match kind {
        AliasTermKind::ProjectionTy(item) | AliasTermKind::ProjectionConst(item)
            if count <= names.trait_parameters_of(item) => write_item(out, names, item, count),
        AliasTermKind::InherentTy(item) | AliasTermKind::InherentConst(item) if count <= 1 => {
            write!(out, ">::{}", names.inherent_name(item))
        }
        _ => out.write_str(if count == 0 { "" } else { ">" }),
    }
}
