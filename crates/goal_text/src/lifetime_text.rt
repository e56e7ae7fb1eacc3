//! The text of lifetimes and of binders.
//!
//! A lifetime that is bound in the text is named by its binder and its number: `'r`, `'r1` and so on
//! those of the outermost binder, `'s`, `'s1` those of the next, `'t`, `'t1` those of the third.
use crate::names::TermNames;
use goal_terms::heads::Node;
use goal_terms::regions::region_of;
use goal_terms::scalars::Mutability;
use goal_terms::terms::Region;
use goal_terms::view::TermRef;
use std::fmt;

/// Where a part of a text stands: the names that it goes by, and how many binders stand around it.
#[derive(Clone, Copy)]
pub struct Scope<'a, N: TermNames> {
    pub names: &'a N,
    pub binders: u32,
}

/// Writes a lifetime. One of a binder outside of the text is shown by how far out that is and its
/// number, as `'b0_2`.
pub fn write_region<W: fmt::Write, N: TermNames>(
    out: &mut W,
    scope: &Scope<'_, N>,
    region: Region,
) -> fmt::Result {
    match region {
        Region::Static => out.write_str("'static"),
        Region::Erased => out.write_str("'_"),
        Region::Param(index) => {
            let name = scope.names.region_parameter_name(index);
            write!(out, "'{name}")
        }
        Region::Bound(binder, index) if binder < scope.binders => {
            write_bound(out, scope.binders - binder - 1, index)
        }
        Region::Bound(binder, index) => write!(out, "'b{}_{index}", binder - scope.binders),
        Region::Placeholder(number) => write!(out, "'!{number}"),
        Region::Var(number) => write!(out, "'?{number}"),
    }
}

/// Writes the name of a lifetime of a binder that so many binders of the text stand around.
fn write_bound<W: fmt::Write>(out: &mut W, around: u32, index: u32) -> fmt::Result {
    match around {
        0 => out.write_str("'r")?,
        1 => out.write_str("'s")?,
        2 => out.write_str("'t")?,
        further => write!(out, "'t{further}_")?,
    }
    if around < 3 && index == 0 {
        return Ok(());
    }
    write!(out, "{index}")
}

/// Writes a binder of so many lifetimes, as `for<'r, 'r1> `, and nothing for none.
pub fn write_binder<W: fmt::Write, N: TermNames>(
    out: &mut W,
    scope: &Scope<'_, N>,
    lifetimes: u32,
) -> fmt::Result {
    if lifetimes == 0 {
        return Ok(());
    }
    out.write_str("for<")?;
    for index in 0..lifetimes {
        if index != 0 {
            out.write_str(", ")?;
        }
        write_bound(out, scope.binders, index)?;
    }
    out.write_str("> ")
}

/// Writes what comes before the target of a reference. A lifetime that is erased is left out.
pub fn write_reference<W: fmt::Write, N: TermNames>(
    out: &mut W,
    scope: &Scope<'_, N>,
    region: Region,
    mutability: Mutability,
) -> fmt::Result {
    out.write_str("&")?;
    if region != Region::Erased {
        write_region(out, scope, region)?;
        out.write_str(" ")?;
    }
    match mutability {
        Mutability::Not => Ok(()),
        Mutability::Mut => out.write_str("mut "),
    }
}

/// How many lifetimes the binder has that stands so far out from a term, as far as the term names
/// them: one more than the last of them.
fn lifetimes_named(term: TermRef<'_>, outward: u32) -> u32 {
    let node = term.node();
    let mut named = match region_of(node) {
        Some(Region::Bound(binder, index)) if binder == outward => index.saturating_add(1),
        _ => 0,
    };
    let below = node.binders_below(outward);
    let parts = term.parts();
    for i in 0..parts.len() {
        named = named.max(lifetimes_named(parts.at(i), below));
    }
    named
}

/// How many lifetimes a clause of a `dyn` type binds, as far as it names them.
pub fn lifetimes_of_clause(clause: TermRef<'_>) -> u32 {
    let parts = clause.parts();
    let mut named = 0;
    for i in 0..parts.len() {
        named = named.max(lifetimes_named(parts.at(i), 0));
    }
    named
}
