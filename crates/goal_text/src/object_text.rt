//! The text of `dyn` types: a trait with its arguments and the items that are given, then the other
//! bounds, as `dyn Tr<u8, A = u16> + Send + 'p0`.
use crate::lifetime_text::{Scope, lifetimes_of_clause, write_binder, write_region};
use crate::names::TermNames;
use goal_terms::heads::{Head, Node};
use goal_terms::terms::Region;
use goal_terms::view::{Parts, TermRef};
use std::fmt;

/// Which clauses of a `dyn` type are written: its first trait, then the items in that trait's
/// brackets, then the other traits. Of any other term all parts are written at once.
#[derive(Clone, Copy)]
pub enum Round {
    All,
    FirstTrait,
    Items,
    OtherTraits,
}

/// What stands where among the clauses of a `dyn` type.
#[derive(Clone, Copy)]
pub struct Object {
    first_trait: Option<usize>,
    /// The number of arguments of the first trait.
    arguments: usize,
    first_item: Option<usize>,
    last_item: Option<usize>,
    traits: usize,
    /// How many lifetimes the first trait and the items bind.
    lifetimes: u32,
}

impl Object {
    /// What stands among these parts.
    pub fn of(parts: Parts<'_>) -> Object {
        let mut object = Object {
            first_trait: None,
            arguments: 0,
            first_item: None,
            last_item: None,
            traits: 0,
            lifetimes: 0,
        };
        for place in 0..parts.len() {
            object.note(place, parts.at(place));
        }
        object
    }

    /// Notes the clause at a place.
    fn note(&mut self, place: usize, clause: TermRef<'_>) {
        match clause.node() {
            Node::Head(Head::DynTrait(_, arguments)) => {
                self.traits = self.traits.saturating_add(1);
                if self.first_trait.is_none() {
                    self.first_trait = Some(place);
                    self.arguments = arguments;
                    self.lifetimes = self.lifetimes.max(lifetimes_of_clause(clause));
                }
            }
            Node::Head(Head::DynProjection(_, _)) => {
                self.first_item = self.first_item.or(Some(place));
                self.last_item = Some(place);
                self.lifetimes = self.lifetimes.max(lifetimes_of_clause(clause));
            }
            _ => {}
        }
    }

    /// Whether the brackets of the clause at a place are left open for the items.
    pub fn is_left_open(&self, place: usize) -> bool {
        self.first_trait == Some(place) && self.first_item.is_some()
    }

    /// Whether a round writes the clause at a place.
    pub fn is_written(&self, round: Round, place: usize, clause: Node) -> bool {
        let is_trait = matches!(clause, Node::Head(Head::DynTrait(_, _)));
        match round {
            Round::All => true,
            Round::FirstTrait => self.first_trait == Some(place),
            Round::Items => !is_trait,
            Round::OtherTraits => is_trait && self.first_trait != Some(place),
        }
    }

    /// Writes what comes before the clause at a place.
    pub fn write_before<W: fmt::Write, N: TermNames>(
        &self,
        out: &mut W,
        scope: &Scope<'_, N>,
        place: usize,
        clause: TermRef<'_>,
    ) -> fmt::Result {
        if self.first_trait == Some(place) {
            return write_binder(out, scope, self.lifetimes);
        }
        match clause.node() {
            Node::Head(Head::DynProjection(_, _)) => out.write_str(self.before_item(place)),
            _ => {
                out.write_str(" + ")?;
                write_binder(out, scope, lifetimes_of_clause(clause))
            }
        }
    }

    /// What comes before the item at a place. Items without a trait are shown as bounds.
    fn before_item(&self, place: usize) -> &'static str {
        let is_first = self.first_item == Some(place);
        match self.first_trait {
            None if is_first => "",
            None => " + ",
            Some(_) if is_first && self.arguments == 0 => "<",
            Some(_) => ", ",
        }
    }

    /// What comes after the clause at a place.
    pub fn after(&self, place: usize) -> &'static str {
        if self.last_item == Some(place) && self.first_trait.is_some() {
            ">"
        } else {
            ""
        }
    }
}

/// Writes the lifetime of a `dyn` type with so many clauses. One that is erased is left out.
pub fn write_object_end<W: fmt::Write, N: TermNames>(
    out: &mut W,
    scope: &Scope<'_, N>,
    clauses: usize,
    region: Region,
) -> fmt::Result {
    if region == Region::Erased {
        return Ok(());
    }
    if clauses != 0 {
        out.write_str(" + ")?;
    }
    write_region(out, scope, region)
}

/// Whether the text of a term is a `dyn` type with a `+`.
pub fn has_plus(term: TermRef<'_>) -> bool {
    match term.node() {
        Node::Head(Head::Dynamic(_, region)) => {
            let traits = Object::of(term.parts()).traits;
            traits > 1 || traits == 1 && region != Region::Erased
        }
        _ => false,
    }
}
