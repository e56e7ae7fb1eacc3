//! Which regions must be equal where two terms are identical but for regions.
ghost use Rattle.std.specs.Prelude.{◌≡◌, ◌<◌, ◌+◌, ◌^◌, ◌++◌, List, [], fold, length, IfOk, OnOk};
ghost use Rattle.goal_terms.specs.Regions.{region_of};
ghost use Rattle.goal_interner.specs.TableMeaning.{tree_at};
ghost use Rattle.goal_terms.specs.Tree.{Tree, node_of};
ghost use Rattle.goal_infer.specs.Inference.{GoesBack};
ghost use Rattle.goal_infer.specs.RegionEquations.{AddsRegions, is_binder, levels_below, variable_in, region_in, number_at, numbers_in, with_number, own_numbers};
ghost use Rattle.goal_infer.specs.RegionEquations.{numbered, scopes_below, own_count, own_equation, equated_in, equated, with_regions};
ghost use Rattle.goal_infer.specs.Resolution.{term_at, IsSolved};

use crate::state::InferState;
use goal_interner::term_nodes::{OutOfMemory, TermId};
use goal_interner::term_table::TermTable;
use goal_terms::answers::VarKind;
use goal_terms::heads::{Head, Node};
use goal_terms::regions::region_of;
use goal_terms::terms::Region;
use std::marker::Model;

/// A lifetime of a binder that was entered, and the number of the variable that stands for it. Binders
/// are counted from the outermost, which is 0.
#[derive(Clone, Copy, PartialEq, Eq)]
struct EnteredRegion {
    binder: usize,
    number: u32,
    variable: u32,
}

/// How many binders were entered, and the lifetimes of theirs with a variable in each of two terms.
#[derive(Drop)]
struct Scopes {
    depth: usize,
    left: Vec<EnteredRegion>,
    right: Vec<EnteredRegion>,
}

impl Model for Scopes {
    ghost use Rattle.std.specs.Coded.{codes};
    ghost use Rattle.goal_infer.specs.RegionEquations.{Scopes};

    ghost Value = { Scopes };

    ghost coded = { Prim.hlevel (codes) };

    ghost view = { λ s. record { depth = s.depth; left = s.left.items; right = s.right.items } };
}

/// Whether a node is a binder: a pointer to functions, or a clause of a `dyn` type.
fn is_binder(node: Node) -> bool
    ensures { result ≡ is_binder node }
{
    matches!(
        node,
        Node::Head(Head::FnPtr { .. } | Head::DynTrait(_, _) | Head::DynProjection(_, _))
    )
}

/// How many binders stand above the parts of a node, from how many stand above it.
fn levels_below(node: Node, depth: usize) -> usize
    requires { depth < 2 ^ 33 }
    ensures { result ≡ levels_below node depth }
{
    if is_binder(node) { depth + 1 } else { depth }
}

/// The variable for a lifetime of a binder.
#[tactic(auto, unfolding(crate::specs::RegionEquations::variable_in))]
fn variable_in(entered: &[EnteredRegion], binder: usize, number: u32) -> Option<u32>
    ensures { result ≡ variable_in entered.now binder number }
{
    entered
        .iter()
        .find(|entry| entry.binder == binder && entry.number == number)
        .map(|entry| entry.variable)
}

/// The lifetime, or the variable for it if it is bound by a binder that was entered.
#[tactic(auto, unfolding(crate::specs::RegionEquations::region_in))]
fn region_in(depth: usize, entered: &[EnteredRegion], region: Region) -> Region
    ensures { result ≡ region_in depth entered.now region }
{
    let Region::Bound(binder, number) = region else {
        return region;
    };
    if binder as usize >= depth {
        return region;
    }
    match variable_in(entered, depth - (binder as usize + 1), number) {
        Some(variable) => Region::Var(variable),
        None => region,
    }
}

/// Adds a number at the end, if it isn't there yet.
#[tactic(auto, unfolding(crate::specs::RegionEquations::with_number))]
fn add_number(numbers: &mut Vec<u32>, number: u32) -> Result<(), OutOfMemory>
    ensures { OnOk result (numbers.new.items ≡ with_number numbers.old.items number) }
{
    if !numbers.contains(&number) {
        numbers.push(number)?;
    }
    Ok(())
}

/// Adds the number of a lifetime of the binder `depth` levels out.
fn add_number_at(
    depth: usize,
    region: Option<Region>,
    numbers: &mut Vec<u32>,
) -> Result<(), OutOfMemory>
    ensures { OnOk result (numbers.new.items ≡ fold with_number numbers.old.items (number_at depth region)) }
{
    match region {
        Some(Region::Bound(binder, number)) if binder as usize == depth => {
            add_number(numbers, number)
        }
        _ => Ok(()),
    }
}

/// Adds the numbers of the lifetimes of the binder `depth` levels out that are met in a term.
fn add_numbers_in(
    table: &TermTable,
    id: TermId,
    depth: usize,
    numbers: &mut Vec<u32>,
) -> Result<(), OutOfMemory>
    requires within { id.0 < length table.now }
    requires deep { depth + id.0 < 2 ^ 33 }
    ensures { OnOk result (numbers.new.items ≡ fold with_number numbers.old.items (numbers_in depth (tree_at table.now id))) }
{
    let node = table.node(id);
    add_number_at(depth, region_of(node), numbers)?;
    let below = levels_below(node, depth);
    for part in table.parts(id) {
        add_numbers_in(table, *part, below, numbers)?;
    }
    Ok(())
}

/// The numbers of the lifetimes that a term binds itself and that are met in it.
fn own_numbers(table: &TermTable, id: TermId) -> Result<Vec<u32>, OutOfMemory>
    requires { id.0 < length table.now }
    ensures { IfOk result (λ ns. ns.items ≡ own_numbers (tree_at table.now id)) }
{
    let mut numbers = Vec::new(table.allocator());
    if !is_binder(table.node(id)) {
        return Ok(numbers);
    }
    for part in table.parts(id) {
        add_numbers_in(table, *part, 0, &mut numbers)?;
    }
    Ok(numbers)
}

/// Makes a region variable for each lifetime that a term binds itself. `entered` gets them.
fn enter(
    table: &TermTable,
    state: &mut InferState,
    id: TermId,
    binder: usize,
    entered: &mut Vec<EnteredRegion>,
) -> Result<(), OutOfMemory>
    requires { id.0 < length table.now }
    ensures entered { OnOk result (entered.new.items ≡ entered.old.items ++ numbered binder (length state.old.variables) (own_numbers (tree_at table.now id))) }
    ensures made { OnOk result (state.new ≡ with_regions (length (own_numbers (tree_at table.now id))) [] state.old) }
    ensures adds { AddsRegions state.old state.new }
{
    let numbers = own_numbers(table, id)?;
    for number in numbers.as_slice() {
        let variable = state.new_variable(VarKind::Region)?;
        entered.push(EnteredRegion {
            binder,
            number: *number,
            variable,
        })?;
    }
    Ok(())
}

impl Scopes {
    /// Enters the parts of two terms, with variables for the lifetimes that these bind themselves.
    fn enter(
        &mut self,
        table: &TermTable,
        state: &mut InferState,
        left: TermId,
        right: TermId,
    ) -> Result<(), OutOfMemory>
        requires first { left.0 < length table.now }
        requires second { right.0 < length table.now }
        requires deep { self.old.depth < 2 ^ 33 }
        ensures entered { OnOk result (self.new ≡ scopes_below (length state.old.variables) (tree_at table.now left) (tree_at table.now right) self.old) }
        ensures made { OnOk result (state.new ≡ with_regions (own_count (tree_at table.now left) (tree_at table.now right)) [] state.old) }
        ensures adds { AddsRegions state.old state.new }
    {
        let binder = self.depth;
        enter(table, state, left, binder, &mut self.left)?;
        enter(table, state, right, binder, &mut self.right)?;
        self.depth = levels_below(table.node(left), binder);
        Ok(())
    }

    /// Adds the equation of the lifetimes that two nodes name themselves.
    fn equate_own(&self, state: &mut InferState, node: Node, other: Node) -> Result<(), OutOfMemory>
        ensures added { OnOk result (state.new ≡ with_regions 0 (own_equation self.now (region_of node) (region_of other)) state.old) }
        ensures adds { AddsRegions state.old state.new }
    {
        match (region_of(node), region_of(other)) {
            (Some(region), Some(other)) => {
                let left = region_in(self.depth, self.left.as_slice(), region);
                let right = region_in(self.depth, self.right.as_slice(), other);
                state.add_equation(left, right)
            }
            _ => Ok(()),
        }
    }
}

/// Adds the equations for two terms that stand below binders that were entered.
fn equate(
    table: &TermTable,
    state: &mut InferState,
    scopes: &mut Scopes,
    left: TermId,
    right: TermId,
) -> Result<(), OutOfMemory>
    requires first { left.0 < length table.now }
    requires second { right.0 < length table.now }
    requires identical { term_at table.now left ≡ term_at table.now right }
    requires deep { scopes.old.depth + left.0 < 2 ^ 33 }
    ensures listed { OnOk result (state.new ≡ equated_in scopes.old (tree_at table.now left) (tree_at table.now right) state.old) }
    ensures scopes { OnOk result (scopes.new ≡ scopes.old) }
    ensures adds { AddsRegions state.old state.new }
{
    let depth = scopes.depth;
    let left_count = scopes.left.len();
    let right_count = scopes.right.len();
    scopes.equate_own(state, table.node(left), table.node(right))?;
    scopes.enter(table, state, left, right)?;
    let parts = table.parts(left);
    let others = table.parts(right);
    for i in 0..parts.len() {
        equate(table, state, scopes, parts[i], others[i])?;
    }
    scopes.depth = depth;
    scopes.left.truncate(left_count);
    scopes.right.truncate(right_count);
    Ok(())
}

/// Adds an equation for each two regions that stand at equal places of two terms, which are identical
/// but for regions and numbers of bound lifetimes: from left to right, a term's own before those of
/// its parts, in aliases too. The lifetimes that a binder in the terms binds, as far as they are met,
/// are replaced by new region variables when it is entered, first those of the left term and then
/// those of the right one. Each other region stays as it is.
///
/// `OutOfMemory` where the state could not grow; it may have got some of the variables and equations.
/// After that, too, nothing else changed, and the state goes back by a rollback to what it was.
pub fn equate_regions(
    table: &TermTable,
    state: &mut InferState,
    left: TermId,
    right: TermId,
) -> Result<(), OutOfMemory>
    requires first { left.0 < length table.now }
    requires second { right.0 < length table.now }
    requires identical { term_at table.now left ≡ term_at table.now right }
    ensures listed { OnOk result (state.new ≡ equated (tree_at table.now left) (tree_at table.now right) state.old) }
    ensures kinds { AddsRegions state.old state.new }
    ensures goes_back { GoesBack state.old state.new }
    ensures solved { (T : List Tree) → IsSolved T state.old → IsSolved T state.new }
{
    let mut scopes = Scopes {
        depth: 0,
        left: Vec::new(table.allocator()),
        right: Vec::new(table.allocator()),
    };
    equate(table, state, &mut scopes, left, right)
}
