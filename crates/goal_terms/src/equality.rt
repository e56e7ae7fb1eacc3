//! `==` and `Hash` of terms. Two terms are equal exactly where their trees are.
ghost use Rattle.std.specs.Prelude.{◌≡◌, ◌↔◌, IsTrue, fold};
ghost use Rattle.goal_terms.specs.SameTree.{same_tree};
ghost use Rattle.goal_terms.specs.TreeOf.{tree_of_ty, tree_of_const, tree_of_arg, tree_of_term, tree_of_sig, tree_of_clause, tree_of_alias};
ghost use Rattle.goal_terms.specs.View.{tree_of_ref};
ghost use Rattle.goal_terms.specs.Writes.{tree_writes};

use crate::compare::{Regions, same};
use crate::terms::{AliasTerm, Const, DynClause, FnSig, GenericArg, Term, Ty};
use crate::view::TermRef;
use std::hash::{Hash, Hasher};

#[tactic(auto, using(crate::proofs::WriteLemmas::feeding))]
/// Hands a term to a hasher: what stands at its top, then its parts from left to right.
fn feed<H: Hasher>(term: TermRef<'_>, state: &mut H)
    ensures { state.new ≡ fold H.write state.old (tree_writes (tree_of_ref term.entry)) }
{
    term.node().hash(state);
    let parts = term.parts();
    for i in 0..parts.len() {
        feed(parts.at(i), state);
    }
}

#[tactic(auto, using(crate::specs::SameLaws::deciding))]
impl PartialEq for Ty {
    ghost use Rattle.std.specs.Cmp.{partial_equiv_from_equiv, on_equiv};
    ghost use Rattle.std.specs.Prelude.{◌≡◌, ◌↔◌, IsTrue};
    ghost use Rattle.goal_terms.specs.SameTree.{same_tree};
    ghost use Rattle.goal_terms.specs.SameLaws.{same_tree_laws};
    ghost use Rattle.goal_terms.specs.TreeOf.{tree_of_ty};

    ghost eq = { λ a b. same_tree (tree_of_ty a) (tree_of_ty b) };

    ghost laws = { partial_equiv_from_equiv (on_equiv tree_of_ty same_tree_laws) };

    fn eq(&self, other: &Ty) -> bool
        ensures value { result ≡ same_tree (tree_of_ty self.now) (tree_of_ty other.now) }
        ensures identical { IsTrue result ↔ (tree_of_ty self.now ≡ tree_of_ty other.now) }
    {
        same(TermRef::Ty(self), TermRef::Ty(other), Regions::Compared)
    }
}

impl Eq for Ty {
    ghost use Rattle.std.specs.Cmp.{on_equiv};
    ghost use Rattle.goal_terms.specs.SameLaws.{same_tree_laws};
    ghost use Rattle.goal_terms.specs.TreeOf.{tree_of_ty};

    ghost laws = { on_equiv tree_of_ty same_tree_laws };
}

impl Hash for Ty {
    ghost use Rattle.std.specs.Prelude.{◌≡◌, fold};
    ghost use Rattle.goal_terms.specs.SameLaws.{same_writes};
    ghost use Rattle.goal_terms.specs.TreeOf.{tree_of_ty};
    ghost use Rattle.goal_terms.specs.Writes.{tree_writes};

    ghost hash_input = { λ a. tree_writes (tree_of_ty a) };

    ghost respects_eq = { λ a b. same_writes (tree_of_ty a) (tree_of_ty b) };

    fn hash<H: Hasher>(&self, state: &mut H) {
        feed(TermRef::Ty(self), state);
    }
}

#[tactic(auto, using(crate::specs::SameLaws::deciding))]
impl PartialEq for Const {
    ghost use Rattle.std.specs.Cmp.{partial_equiv_from_equiv, on_equiv};
    ghost use Rattle.std.specs.Prelude.{◌≡◌, ◌↔◌, IsTrue};
    ghost use Rattle.goal_terms.specs.SameTree.{same_tree};
    ghost use Rattle.goal_terms.specs.SameLaws.{same_tree_laws};
    ghost use Rattle.goal_terms.specs.TreeOf.{tree_of_const};

    ghost eq = { λ a b. same_tree (tree_of_const a) (tree_of_const b) };

    ghost laws = { partial_equiv_from_equiv (on_equiv tree_of_const same_tree_laws) };

    fn eq(&self, other: &Const) -> bool
        ensures value { result ≡ same_tree (tree_of_const self.now) (tree_of_const other.now) }
        ensures identical { IsTrue result ↔ (tree_of_const self.now ≡ tree_of_const other.now) }
    {
        same(
            TermRef::Const(self),
            TermRef::Const(other),
            Regions::Compared,
        )
    }
}

impl Eq for Const {
    ghost use Rattle.std.specs.Cmp.{on_equiv};
    ghost use Rattle.goal_terms.specs.SameLaws.{same_tree_laws};
    ghost use Rattle.goal_terms.specs.TreeOf.{tree_of_const};

    ghost laws = { on_equiv tree_of_const same_tree_laws };
}

impl Hash for Const {
    ghost use Rattle.std.specs.Prelude.{◌≡◌, fold};
    ghost use Rattle.goal_terms.specs.SameLaws.{same_writes};
    ghost use Rattle.goal_terms.specs.TreeOf.{tree_of_const};
    ghost use Rattle.goal_terms.specs.Writes.{tree_writes};

    ghost hash_input = { λ a. tree_writes (tree_of_const a) };

    ghost respects_eq = { λ a b. same_writes (tree_of_const a) (tree_of_const b) };

    fn hash<H: Hasher>(&self, state: &mut H) {
        feed(TermRef::Const(self), state);
    }
}

#[tactic(auto, using(crate::specs::SameLaws::deciding))]
impl PartialEq for GenericArg {
    ghost use Rattle.std.specs.Cmp.{partial_equiv_from_equiv, on_equiv};
    ghost use Rattle.std.specs.Prelude.{◌≡◌, ◌↔◌, IsTrue};
    ghost use Rattle.goal_terms.specs.SameTree.{same_tree};
    ghost use Rattle.goal_terms.specs.SameLaws.{same_tree_laws};
    ghost use Rattle.goal_terms.specs.TreeOf.{tree_of_arg};

    ghost eq = { λ a b. same_tree (tree_of_arg a) (tree_of_arg b) };

    ghost laws = { partial_equiv_from_equiv (on_equiv tree_of_arg same_tree_laws) };

    fn eq(&self, other: &GenericArg) -> bool
        ensures value { result ≡ same_tree (tree_of_arg self.now) (tree_of_arg other.now) }
        ensures identical { IsTrue result ↔ (tree_of_arg self.now ≡ tree_of_arg other.now) }
    {
        same(self.view(), other.view(), Regions::Compared)
    }
}

impl Eq for GenericArg {
    ghost use Rattle.std.specs.Cmp.{on_equiv};
    ghost use Rattle.goal_terms.specs.SameLaws.{same_tree_laws};
    ghost use Rattle.goal_terms.specs.TreeOf.{tree_of_arg};

    ghost laws = { on_equiv tree_of_arg same_tree_laws };
}

impl Hash for GenericArg {
    ghost use Rattle.std.specs.Prelude.{◌≡◌, fold};
    ghost use Rattle.goal_terms.specs.SameLaws.{same_writes};
    ghost use Rattle.goal_terms.specs.TreeOf.{tree_of_arg};
    ghost use Rattle.goal_terms.specs.Writes.{tree_writes};

    ghost hash_input = { λ a. tree_writes (tree_of_arg a) };

    ghost respects_eq = { λ a b. same_writes (tree_of_arg a) (tree_of_arg b) };

    fn hash<H: Hasher>(&self, state: &mut H) {
        feed(self.view(), state);
    }
}

#[tactic(auto, using(crate::specs::SameLaws::deciding))]
impl PartialEq for Term {
    ghost use Rattle.std.specs.Cmp.{partial_equiv_from_equiv, on_equiv};
    ghost use Rattle.std.specs.Prelude.{◌≡◌, ◌↔◌, IsTrue};
    ghost use Rattle.goal_terms.specs.SameTree.{same_tree};
    ghost use Rattle.goal_terms.specs.SameLaws.{same_tree_laws};
    ghost use Rattle.goal_terms.specs.TreeOf.{tree_of_term};

    ghost eq = { λ a b. same_tree (tree_of_term a) (tree_of_term b) };

    ghost laws = { partial_equiv_from_equiv (on_equiv tree_of_term same_tree_laws) };

    fn eq(&self, other: &Term) -> bool
        ensures value { result ≡ same_tree (tree_of_term self.now) (tree_of_term other.now) }
        ensures identical { IsTrue result ↔ (tree_of_term self.now ≡ tree_of_term other.now) }
    {
        same(self.view(), other.view(), Regions::Compared)
    }
}

impl Eq for Term {
    ghost use Rattle.std.specs.Cmp.{on_equiv};
    ghost use Rattle.goal_terms.specs.SameLaws.{same_tree_laws};
    ghost use Rattle.goal_terms.specs.TreeOf.{tree_of_term};

    ghost laws = { on_equiv tree_of_term same_tree_laws };
}

impl Hash for Term {
    ghost use Rattle.std.specs.Prelude.{◌≡◌, fold};
    ghost use Rattle.goal_terms.specs.SameLaws.{same_writes};
    ghost use Rattle.goal_terms.specs.TreeOf.{tree_of_term};
    ghost use Rattle.goal_terms.specs.Writes.{tree_writes};

    ghost hash_input = { λ a. tree_writes (tree_of_term a) };

    ghost respects_eq = { λ a b. same_writes (tree_of_term a) (tree_of_term b) };

    fn hash<H: Hasher>(&self, state: &mut H) {
        feed(self.view(), state);
    }
}

#[tactic(auto, using(crate::specs::SameLaws::deciding))]
impl PartialEq for FnSig {
    ghost use Rattle.std.specs.Cmp.{partial_equiv_from_equiv, on_equiv};
    ghost use Rattle.std.specs.Prelude.{◌≡◌, ◌↔◌, IsTrue};
    ghost use Rattle.goal_terms.specs.SameTree.{same_tree};
    ghost use Rattle.goal_terms.specs.SameLaws.{same_tree_laws};
    ghost use Rattle.goal_terms.specs.TreeOf.{tree_of_sig};

    ghost eq = { λ a b. same_tree (tree_of_sig a) (tree_of_sig b) };

    ghost laws = { partial_equiv_from_equiv (on_equiv tree_of_sig same_tree_laws) };

    fn eq(&self, other: &FnSig) -> bool
        ensures value { result ≡ same_tree (tree_of_sig self.now) (tree_of_sig other.now) }
        ensures identical { IsTrue result ↔ (tree_of_sig self.now ≡ tree_of_sig other.now) }
    {
        same(
            TermRef::Signature(self),
            TermRef::Signature(other),
            Regions::Compared,
        )
    }
}

impl Eq for FnSig {
    ghost use Rattle.std.specs.Cmp.{on_equiv};
    ghost use Rattle.goal_terms.specs.SameLaws.{same_tree_laws};
    ghost use Rattle.goal_terms.specs.TreeOf.{tree_of_sig};

    ghost laws = { on_equiv tree_of_sig same_tree_laws };
}

impl Hash for FnSig {
    ghost use Rattle.std.specs.Prelude.{◌≡◌, fold};
    ghost use Rattle.goal_terms.specs.SameLaws.{same_writes};
    ghost use Rattle.goal_terms.specs.TreeOf.{tree_of_sig};
    ghost use Rattle.goal_terms.specs.Writes.{tree_writes};

    ghost hash_input = { λ a. tree_writes (tree_of_sig a) };

    ghost respects_eq = { λ a b. same_writes (tree_of_sig a) (tree_of_sig b) };

    fn hash<H: Hasher>(&self, state: &mut H) {
        feed(TermRef::Signature(self), state);
    }
}

#[tactic(auto, using(crate::specs::SameLaws::deciding))]
impl PartialEq for DynClause {
    ghost use Rattle.std.specs.Cmp.{partial_equiv_from_equiv, on_equiv};
    ghost use Rattle.std.specs.Prelude.{◌≡◌, ◌↔◌, IsTrue};
    ghost use Rattle.goal_terms.specs.SameTree.{same_tree};
    ghost use Rattle.goal_terms.specs.SameLaws.{same_tree_laws};
    ghost use Rattle.goal_terms.specs.TreeOf.{tree_of_clause};

    ghost eq = { λ a b. same_tree (tree_of_clause a) (tree_of_clause b) };

    ghost laws = { partial_equiv_from_equiv (on_equiv tree_of_clause same_tree_laws) };

    fn eq(&self, other: &DynClause) -> bool
        ensures value { result ≡ same_tree (tree_of_clause self.now) (tree_of_clause other.now) }
        ensures identical { IsTrue result ↔ (tree_of_clause self.now ≡ tree_of_clause other.now) }
    {
        same(
            TermRef::Clause(self),
            TermRef::Clause(other),
            Regions::Compared,
        )
    }
}

impl Eq for DynClause {
    ghost use Rattle.std.specs.Cmp.{on_equiv};
    ghost use Rattle.goal_terms.specs.SameLaws.{same_tree_laws};
    ghost use Rattle.goal_terms.specs.TreeOf.{tree_of_clause};

    ghost laws = { on_equiv tree_of_clause same_tree_laws };
}

impl Hash for DynClause {
    ghost use Rattle.std.specs.Prelude.{◌≡◌, fold};
    ghost use Rattle.goal_terms.specs.SameLaws.{same_writes};
    ghost use Rattle.goal_terms.specs.TreeOf.{tree_of_clause};
    ghost use Rattle.goal_terms.specs.Writes.{tree_writes};

    ghost hash_input = { λ a. tree_writes (tree_of_clause a) };

    ghost respects_eq = { λ a b. same_writes (tree_of_clause a) (tree_of_clause b) };

    fn hash<H: Hasher>(&self, state: &mut H) {
        feed(TermRef::Clause(self), state);
    }
}

#[tactic(auto, using(crate::specs::SameLaws::deciding))]
impl PartialEq for AliasTerm {
    ghost use Rattle.std.specs.Cmp.{partial_equiv_from_equiv, on_equiv};
    ghost use Rattle.std.specs.Prelude.{◌≡◌, ◌↔◌, IsTrue};
    ghost use Rattle.goal_terms.specs.SameTree.{same_tree};
    ghost use Rattle.goal_terms.specs.SameLaws.{same_tree_laws};
    ghost use Rattle.goal_terms.specs.TreeOf.{tree_of_alias};

    ghost eq = { λ a b. same_tree (tree_of_alias a) (tree_of_alias b) };

    ghost laws = { partial_equiv_from_equiv (on_equiv tree_of_alias same_tree_laws) };

    fn eq(&self, other: &AliasTerm) -> bool
        ensures value { result ≡ same_tree (tree_of_alias self.now) (tree_of_alias other.now) }
        ensures identical { IsTrue result ↔ (tree_of_alias self.now ≡ tree_of_alias other.now) }
    {
        same(
            TermRef::Alias(self),
            TermRef::Alias(other),
            Regions::Compared,
        )
    }
}

impl Eq for AliasTerm {
    ghost use Rattle.std.specs.Cmp.{on_equiv};
    ghost use Rattle.goal_terms.specs.SameLaws.{same_tree_laws};
    ghost use Rattle.goal_terms.specs.TreeOf.{tree_of_alias};

    ghost laws = { on_equiv tree_of_alias same_tree_laws };
}

impl Hash for AliasTerm {
    ghost use Rattle.std.specs.Prelude.{◌≡◌, fold};
    ghost use Rattle.goal_terms.specs.SameLaws.{same_writes};
    ghost use Rattle.goal_terms.specs.TreeOf.{tree_of_alias};
    ghost use Rattle.goal_terms.specs.Writes.{tree_writes};

    ghost hash_input = { λ a. tree_writes (tree_of_alias a) };

    ghost respects_eq = { λ a b. same_writes (tree_of_alias a) (tree_of_alias b) };

    fn hash<H: Hasher>(&self, state: &mut H) {
        feed(TermRef::Alias(self), state);
    }
}
