//! The lifetimes at equal places of two terms that are compared.
ghost use Rattle.std.specs.Prelude.{◌<◌, length};
ghost use Rattle.goal_interner.specs.TableMeaning.{AreBelow};

use crate::eval::listed_regions::ListedRegions;
use goal_interner::term_nodes::{OutOfMemory, TermId};
use goal_interner::term_table::TermTable;
use goal_terms::compare::Regions;
use goal_terms::heads::{Head, Node};
use goal_terms::regions::region_of;
use goal_terms::terms::Region;

/// The side of a comparison on which a term stands.
#[derive(Clone, Copy, PartialEq, Eq)]
enum Side {
    Left,
    Right,
}

/// A lifetime of a binder that was entered, and the region variable that stands for it.
#[derive(Clone, Copy)]
struct EnteredRegion {
    side: Side,
    binder: usize,
    number: u32,
    variable: u32,
}

/// The binders around a place, each by how many were entered before it, and the lifetimes of these and of earlier
/// ones that were met.
#[derive(Drop)]
struct Scopes {
    binders: Vec<usize>,
    entered: usize,
    met: Vec<EnteredRegion>,
}

impl Scopes {
    /// Enters a binder.
    fn enter(&mut self) -> Result<(), OutOfMemory> {
        self.binders.push(self.entered)?;
        self.entered = self.entered.saturating_add(1);
        Ok(())
    }

    /// The binder so many levels out, if it was entered.
    fn binder(&self, levels: u32) -> Option<usize> {
        let place = self.binders.len().checked_sub(levels as usize + 1)?;
        self.binders.get(place).copied()
    }

    /// The variable for a lifetime of a binder, if it was met.
    fn variable(&self, side: Side, binder: usize, number: u32) -> Option<u32> {
        for region in &self.met {
            if region.side == side && region.binder == binder && region.number == number {
                return Some(region.variable);
            }
        }
        None
    }

    /// A lifetime, or the variable that stands for it where a binder that was entered binds it: a fresh one when it
    /// is met first.
    fn region_in(
        &mut self,
        regions: &mut ListedRegions,
        side: Side,
        region: Region,
    ) -> Result<Region, OutOfMemory> {
        let Region::Bound(levels, number) = region else {
            return Ok(region);
        };
        let Some(binder) = self.binder(levels) else {
            return Ok(region);
        };
        if let Some(variable) = self.variable(side, binder, number) {
            return Ok(Region::Var(variable));
        }
        let variable = regions.variable()?;
        self.met.push(EnteredRegion {
            side,
            binder,
            number,
            variable,
        })?;
        Ok(Region::Var(variable))
    }
}

/// Whether a node is a binder: a pointer to functions, or a clause of a `dyn` type.
fn is_binder(node: Node) -> bool {
    matches!(
        node,
        Node::Head(Head::FnPtr { .. } | Head::DynTrait(_, _) | Head::DynProjection(_, _))
    )
}

/// Whether two terms are equal by their nodes: no alias stands at their tops, unless they are identical but for
/// lifetimes.
fn is_by_nodes(terms: &TermTable, left: TermId, right: TermId) -> bool
    requires first { left.0 < length terms.now }
    requires second { right.0 < length terms.now }
{
    match terms.node(left) {
        Node::Alias(_) => terms.same_erased(left, right),
        _ => true,
    }
}

/// Equates the lifetimes that two nodes name themselves. Where nothing is listed it is noted if they differ.
fn equate_own(
    regions: &mut ListedRegions,
    scopes: &mut Scopes,
    node: Node,
    other: Node,
) -> Result<(), OutOfMemory> {
    let (Some(region), Some(other)) = (region_of(node), region_of(other)) else {
        return Ok(());
    };
    if regions.is_listing() {
        let left = scopes.region_in(regions, Side::Left, region)?;
        let right = scopes.region_in(regions, Side::Right, other)?;
        return regions.equate(left, right);
    }
    if region != other {
        regions.pass_over();
    }
    Ok(())
}

/// Equates the lifetimes at equal places of two terms, as far as these are equal by their nodes. Terms that are the
/// same, and not below a binder, are passed over.
#[cycle(pairing)]
fn equate_terms_in(
    terms: &TermTable,
    regions: &mut ListedRegions,
    scopes: &mut Scopes,
    left: TermId,
    right: TermId,
) -> Result<(), OutOfMemory>
    requires first { left.0 < length terms.now }
    requires second { right.0 < length terms.now }
{
    let is_known = left == right && scopes.binders.is_empty();
    if is_known || !is_by_nodes(terms, left, right) {
        return Ok(());
    }
    equate_nodes_in(terms, regions, scopes, left, right)
}

/// Equates the lifetimes of two terms whose nodes are the same, and those of their parts.
#[cycle(pairing)]
fn equate_nodes_in(
    terms: &TermTable,
    regions: &mut ListedRegions,
    scopes: &mut Scopes,
    left: TermId,
    right: TermId,
) -> Result<(), OutOfMemory>
    requires first { left.0 < length terms.now }
    requires second { right.0 < length terms.now }
{
    let node = terms.node(left);
    let other = terms.node(right);
    if !node.is_same(other, Regions::Forgotten) {
        return Ok(());
    }
    equate_own(regions, scopes, node, other)?;
    if !is_binder(node) {
        return equate_parts_in(terms, regions, scopes, left, right);
    }
    scopes.enter()?;
    equate_parts_in(terms, regions, scopes, left, right)?;
    let _left = scopes.binders.pop();
    Ok(())
}

/// Equates the lifetimes of the parts of two terms, in pairs.
#[cycle(pairing)]
fn equate_parts_in(
    terms: &TermTable,
    regions: &mut ListedRegions,
    scopes: &mut Scopes,
    left: TermId,
    right: TermId,
) -> Result<(), OutOfMemory>
    requires first { left.0 < length terms.now }
    requires second { right.0 < length terms.now }
{
    let parts = terms.parts(left);
    let others = terms.parts(right);
    for i in 0..parts.len() {
        if i >= others.len() {
            return Ok(());
        }
        equate_terms_in(terms, regions, scopes, parts[i], others[i])?;
    }
    Ok(())
}

/// No binder was entered.
fn no_scopes(terms: &TermTable) -> Scopes {
    Scopes {
        binders: Vec::new(terms.allocator()),
        entered: 0,
        met: Vec::new(terms.allocator()),
    }
}

/// Lists the lifetimes at equal places of two terms: from left to right, a term's own before those of its parts. The
/// lifetimes that a binder in the terms binds are replaced by fresh region variables. Terms that aren't the same
/// are gone into as far as their constructors are; what an alias stands for is not looked at.
pub(crate) fn equate_terms(
    terms: &TermTable,
    regions: &mut ListedRegions,
    left: TermId,
    right: TermId,
) -> Result<(), OutOfMemory>
    requires first { left.0 < length terms.now }
    requires second { right.0 < length terms.now }
{
    if left == right {
        return Ok(());
    }
    equate_terms_in(terms, regions, &mut no_scopes(terms), left, right)
}

/// Lists the lifetimes at equal places of terms in pairs, as `equate_terms` does.
pub(crate) fn equate_lists(
    terms: &TermTable,
    regions: &mut ListedRegions,
    left: &[TermId],
    right: &[TermId],
) -> Result<(), OutOfMemory>
    requires first { AreBelow (length terms.now) left.now }
    requires second { AreBelow (length terms.now) right.now }
{
    for i in 0..left.len() {
        if i >= right.len() {
            return Ok(());
        }
        equate_terms(terms, regions, left[i], right[i])?;
    }
    Ok(())
}

/// Lists the lifetimes of two head forms, which are equal only by their nodes and parts, also where these are
/// aliases.
pub(crate) fn equate_forms(
    terms: &TermTable,
    regions: &mut ListedRegions,
    left: TermId,
    right: TermId,
) -> Result<(), OutOfMemory>
    requires first { left.0 < length terms.now }
    requires second { right.0 < length terms.now }
{
    if left == right {
        return Ok(());
    }
    equate_nodes_in(terms, regions, &mut no_scopes(terms), left, right)
}
