//! Parameters that the terms of a header fix.
ghost use Rattle.std.specs.Prelude.{◌≡◌, IfOk, length, Some, ◌&&◌, not, map, false};
ghost use Rattle.std.specs.List.{list_any};
ghost use Rattle.goal_terms.specs.View.{tree_of_ref, trees_seen};
ghost use Rattle.goal_tables.specs.FixedParams.{param_at, is_param, stands_in, some_param, needs_fixing, has_unfixed, open_parts, AddsMarks, is_unmarked, impl_has_unfixed, inherent_has_unfixed};

use crate::param_kinds::has_param;
use crate::rows::{ImplRow, InherentImplRow};
use goal_terms::answers::ParamKind;
use goal_terms::heads::{Head, Node};
use goal_terms::kinds::same_kind;
use goal_terms::view::{Parts, TermRef};
use std::alloc::{AllocError, Global};

/// The number and the kind of a parameter.
#[tactic(auto, unfolding(crate::specs::FixedParams::param_at))]
fn param_at(node: Node) -> Option<(u32, ParamKind)>
    ensures { result ≡ param_at node }
{
    match node {
        Node::Head(Head::TyParam(number)) => Some((number, ParamKind::Ty)),
        Node::Head(Head::ConstParam(number)) => Some((number, ParamKind::Const)),
        _ => None,
    }
}

/// The parts of a term, but none of an alias.
fn open_parts(term: TermRef<'_>) -> Parts<'_>
    ensures { trees_seen result ≡ open_parts (tree_of_ref term.entry) }
{
    match term.node() {
        Node::Alias(_) => Parts::None,
        Node::Head(_) => term.parts(),
        Node::Variable(_) => term.parts(),
    }
}

/// Marks a parameter, if the row has it.
fn mark_own(marks: &mut [bool], params: &[ParamKind], number: u32, kind: ParamKind)
    requires { length marks.old ≡ length params.now }
    ensures { AddsMarks params.now (λ k n. is_param k n (Some (number, kind))) marks.old marks.new }
{
    if has_param(params, number, kind) {
        marks[number as usize] = true;
    }
}

/// Marks a parameter, if there is one and the row has it.
fn mark_param(marks: &mut [bool], params: &[ParamKind], found: Option<(u32, ParamKind)>)
    requires { length marks.old ≡ length params.now }
    ensures { AddsMarks params.now (λ k n. is_param k n found) marks.old marks.new }
{
    match found {
        None => {}
        Some((number, kind)) => mark_own(marks, params, number, kind),
    }
}

/// Marks the parameters that stand in these terms outside aliases.
fn mark_parts(marks: &mut [bool], params: &[ParamKind], parts: Parts<'_>)
    requires { length marks.old ≡ length params.now }
    ensures { AddsMarks params.now (λ k n. list_any (stands_in k n) (trees_seen parts.entry)) marks.old marks.new }
{
    for i in 0..parts.len() {
        let part = parts.at(i);
        mark_param(marks, params, param_at(part.node()));
        mark_parts(marks, params, open_parts(part));
    }
}

/// Whether a parameter has to stand in a header.
fn needs_fixing(kind: ParamKind) -> bool
    ensures { result ≡ needs_fixing kind }
{
    !same_kind(kind, ParamKind::Lifetime)
}

/// Whether a parameter that has to be marked isn't.
fn is_unmarked(mark: bool, kind: ParamKind) -> bool
    ensures { result ≡ needs_fixing kind && not mark }
{
    needs_fixing(kind) && !mark
}

#[tactic(auto, using(crate::proofs::MarkLemmas::unmarking))]
/// Whether one of the parameters has to be marked and isn't.
fn has_unmarked(marks: &[bool], params: &[ParamKind]) -> bool
    requires { length marks.now ≡ length params.now }
    ensures { result ≡ some_param (is_unmarked marks.now) params.now 0 }
{
    for i in 0..params.len() {
        if is_unmarked(marks[i], params[i]) {
            return true;
        }
    }
    false
}

/// A mark for each parameter, not set.
fn no_marks(alloc: Global, params: &[ParamKind]) -> Result<Vec<bool>, AllocError>
    ensures { IfOk result (λ made. made.items ≡ map (λ k. false) params.now) }
{
    params.iter().map(|_| false).collect(alloc)
}

/// Marks a row's parameters that stand in these terms outside aliases, and no others.
fn marks_of(alloc: Global, params: &[ParamKind], parts: Parts<'_>) -> Result<Vec<bool>, AllocError>
    ensures within { IfOk result (λ made. length made.items ≡ length params.now) }
    ensures marked { IfOk result (λ made. AddsMarks params.now (λ k n. list_any (stands_in k n) (trees_seen parts.entry)) (map (λ k. false) params.now) made.items) }
{
    let mut marks = no_marks(alloc, params)?;
    mark_parts(marks.as_mut_slice(), params, parts);
    Ok(marks)
}

/// Whether a type or const parameter stands in none of these terms outside aliases. Want of memory
/// is the only refusal.
pub fn has_unfixed(
    alloc: Global,
    params: &[ParamKind],
    parts: Parts<'_>,
) -> Result<bool, AllocError>
    ensures { IfOk result (λ found. found ≡ has_unfixed params.now (trees_seen parts.entry)) }
{
    let marks = marks_of(alloc, params, parts)?;
    Ok(has_unmarked(marks.as_slice(), params))
}

/// Whether a type or const parameter of an impl doesn't stand in its header outside aliases.
fn impl_has_unfixed(alloc: Global, row: &ImplRow) -> Result<bool, AllocError>
    ensures { IfOk result (λ found. found ≡ impl_has_unfixed row.now) }
{
    has_unfixed(
        alloc,
        row.params.as_slice(),
        Parts::Args(row.trait_args.as_slice()),
    )
}

/// Whether a type or const parameter of an inherent impl doesn't stand in its self type outside
/// aliases.
fn inherent_has_unfixed(alloc: Global, row: &InherentImplRow) -> Result<bool, AllocError>
    ensures { IfOk result (λ found. found ≡ inherent_has_unfixed row.now) }
{
    has_unfixed(alloc, row.params.as_slice(), Parts::One(&row.self_ty))
}

#[tactic(auto, using(crate::proofs::MarkLemmas::gathering))]
/// Whether some impl has a parameter that doesn't stand in its header. Want of memory is the only
/// refusal.
pub fn some_impl_has_unfixed(alloc: Global, rows: &[ImplRow]) -> Result<bool, AllocError>
    ensures { IfOk result (λ found. found ≡ list_any impl_has_unfixed rows.now) }
{
    let mut some = false;
    for i in 0..rows.len() {
        let found = impl_has_unfixed(alloc, &rows[i])?;
        some = some | found;
    }
    Ok(some)
}

#[tactic(auto, using(crate::proofs::MarkLemmas::gathering))]
/// Whether some inherent impl has a parameter that doesn't stand in its self type. Want of memory is
/// the only refusal.
pub fn some_inherent_has_unfixed(
    alloc: Global,
    rows: &[InherentImplRow],
) -> Result<bool, AllocError>
    ensures { IfOk result (λ found. found ≡ list_any inherent_has_unfixed rows.now) }
{
    let mut some = false;
    for i in 0..rows.len() {
        let found = inherent_has_unfixed(alloc, &rows[i])?;
        some = some | found;
    }
    Ok(some)
}
