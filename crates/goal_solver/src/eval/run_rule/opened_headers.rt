//! The given terms of headers that a list with inference variables matches: an alias against which a constructor of the
//! header stands gives way to its head form.
ghost use Rattle.std.specs.Prelude.{◌≡◌, ◌⊎◌, ◌<◌, ◌≤◌, List, length, None, Ok, Some, IfOk, IfSome, OnOk, IsOkUnless};
ghost use Rattle.goal_interner.specs.TableMeaning.{tree_at, AreBelow, Keeps};
ghost use Rattle.goal_terms.specs.TreeOf.{trees_of};
ghost use Rattle.goal_terms.specs.View.{trees_seen};
ghost use Rattle.goal_terms.specs.declared.answers.ParamKind.{ParamKind};
ghost use Rattle.goal_lists.specs.Interned.{AreIn};
ghost use Rattle.goal_solver.specs.Accesses.{RecordsCausedFaults};
ghost use Rattle.goal_solver.specs.GoingBack.{GoesBack, restored};
ghost use Rattle.goal_solver.specs.OpenHeaders.{is_known, ArePutAt, Enters, IsFormIn, IsRigidForm, IsFoundForm, OpensAt, StopsAt, LacksConstructor};
ghost use Rattle.goal_solver.specs.OpenRuns.{named_trees, given_header, open_header, NamesArguments, IsAskedMatch, IsMatchOf};
ghost use Rattle.goal_solver.specs.Refusals.{WhenRefused, RefusesArguments};
ghost use Rattle.goal_solver.specs.Relating.{IsFaultFor};

use crate::context::EvalCtxt;
use crate::context::rebuilding::rebuilt_args;
use crate::eval::run_rule::open_arguments::{NamedArgs, args_of_number};
use crate::faults::Fault;
use crate::relate::headers::{FoundForm, have_one_sort, list_aliases, put_form};
use goal_interner::term_nodes::TermId;
use goal_kinds::rules::{ArgsIndex, RuleArguments, RuleHeader};
use goal_tables::lookup::IndexedTables;
use goal_terms::heads::Node;
use goal_terms::ids::ImplId;
use goal_terms::instantiate::instantiate_args;
use goal_terms::predicates::Clause;
use goal_terms::terms::GenericArg;
use goal_terms::view::Parts;

/// A header that an entry matches: its terms as they stand in its row, and the given ones, bindings followed.
#[derive(Drop)]
pub(crate) struct AskedMatch<'t> {
    pub header: RuleHeader,
    pub terms: Parts<'t>,
    pub given: Vec<TermId>,
}

/// The given terms of a header, as far as they are opened.
#[derive(Drop)]
pub(crate) struct OpenedTerms {
    pub ids: Vec<TermId>,
    /// The aliases of which no head form is known so far.
    pub passed: Vec<TermId>,
}

impl<'t> EvalCtxt<'t> {
    /// The arguments that an entry of a list with inference variables names. Where it matches a header, aliases of the
    /// given terms against which constructors of the header stand give way to their head forms first, and the header is
    /// matched at the least depth at which one was asked for. Where it is refused, variables may have been made and
    /// bound.
    #[cycle(open)]
    pub(crate) fn name_arguments(
        &mut self,
        environment: &[Clause],
        named: &[Vec<GenericArg>],
        arguments: &RuleArguments,
    ) -> Result<NamedArgs, Fault>
        ensures names { IfOk result (λ n. NamesArguments environment.now (named_trees named.now) arguments.now self.old (trees_of n.args.items) n.certainty self.new) }
        ensures refused { WhenRefused result (RefusesArguments environment.now (named_trees named.now) arguments.now self.old self.new) }
        ensures faults { RecordsCausedFaults self.old self.new }
        ensures goes_back { GoesBack self.old self.new }
        ensures fault { IsFaultFor self.old self.new result }
    {
        let Some(asked) = self.asked_match(named, arguments)? else {
            return self.open_arguments(environment, named, arguments);
        };
        let AskedMatch {
            header,
            terms,
            given,
        } = asked;
        let (ids, depth) = self.opened_terms(environment, terms, given)?;
        let Ok(args) = rebuilt_args(&self.terms, &ids) else {
            return Err(Fault::OutOfMemory);
        };
        let around = self.remaining_depth;
        self.remaining_depth = depth;
        let opened = RuleArguments::Header(header, args);
        let found = self.open_arguments(environment, named, &opened);
        self.remaining_depth = around;
        found
    }

    /// The header that an entry matches, if an alias stands against a constructor of it. Nothing changes but that there
    /// may be more terms. Only memory is refused.
    fn asked_match(
        &mut self,
        named: &[Vec<GenericArg>],
        arguments: &RuleArguments,
    ) -> Result<Option<AskedMatch<'t>>, Fault>
        ensures asked { IfOk result (λ o. IfSome o (IsAskedMatch (named_trees named.now) arguments.now self.old self.new.terms)) }
        ensures unchanged { self.new ≡ record self.old { terms = self.new.terms } }
        ensures kept { Keeps self.old.terms self.new.terms }
        ensures only_memory { IsOkUnless result Fault.OutOfMemory }
    {
        match arguments {
            RuleArguments::Given(_) => Ok(None),
            RuleArguments::Followed(_, _) => Ok(None),
            RuleArguments::Header(header, args) => self.match_of(*header, args),
            RuleArguments::OtherImpl(other, of, number) => {
                match self.other_given(named, *of, *number)? {
                    Some(given) => self.match_of(RuleHeader::Impl(*other), &given),
                    None => Ok(None),
                }
            }
        }
    }

    /// The terms of an impl's header under the arguments of a number, if both are there. Only memory is refused.
    fn other_given(
        &self,
        named: &[Vec<GenericArg>],
        of: ImplId,
        number: ArgsIndex,
    ) -> Result<Option<Vec<GenericArg>>, Fault>
        ensures given { IfOk result (λ o. IfSome o (λ given. given_header self.now.tables of named.now number ≡ Some (trees_of given.items))) }
        ensures only_memory { IsOkUnless result Fault.OutOfMemory }
    {
        let tables = self.tables();
        let Some(row) = tables.rows().impl_row(of) else {
            return Ok(None);
        };
        let Some(args) = args_of_number(named, number) else {
            return Ok(None);
        };
        match instantiate_args(self.allocator(), &row.trait_args, args) {
            Ok(given) => Ok(Some(given)),
            Err(_) => Err(Fault::OutOfMemory),
        }
    }

    /// A header with what it is matched with, if an alias stands against a constructor of it. Nothing changes but that
    /// there may be more terms. Only memory is refused.
    fn match_of(
        &mut self,
        header: RuleHeader,
        given: &[GenericArg],
    ) -> Result<Option<AskedMatch<'t>>, Fault>
        ensures asked { IfOk result (λ o. IfSome o (IsMatchOf header (trees_of given.now) self.old self.new.terms)) }
        ensures unchanged { self.new ≡ record self.old { terms = self.new.terms } }
        ensures kept { Keeps self.old.terms self.new.terms }
        ensures only_memory { IsOkUnless result Fault.OutOfMemory }
    {
        let tables = self.tables();
        let Some(terms) = header_terms(tables.rows(), header) else {
            return Ok(None);
        };
        let ids = self.bound_args(given)?;
        let found = self.aliases_against(terms, &ids, &[])?;
        if found.is_empty() {
            return Ok(None);
        }
        Ok(Some(AskedMatch {
            header,
            terms,
            given: ids,
        }))
    }

    /// The aliases of given terms against which a constructor of a header stands, but for those that are passed over.
    /// Only memory is refused.
    fn aliases_against(
        &self,
        terms: Parts<'_>,
        given: &[TermId],
        passed: &[TermId],
    ) -> Result<Vec<TermId>, Fault>
        requires given { AreIn self.now.terms given.now }
        ensures found { IfOk result (λ found. AreBelow (length self.now.terms) found.items) }
        ensures only_memory { IsOkUnless result Fault.OutOfMemory }
    {
        let mut found = Vec::new(self.allocator());
        match list_aliases(&self.terms, terms, given, passed, &mut found) {
            Ok(()) => Ok(found),
            Err(_) => Err(Fault::OutOfMemory),
        }
    }

    /// The given terms of a header, opened level by level: the head forms of the aliases that stand against its
    /// constructors are found at one less of the depth, those that stand in these forms at two less, and so on until there
    /// is none. The depth of the last level at which there was one is answered, too.
    #[cycle(open)]
    fn opened_terms(
        &mut self,
        environment: &[Clause],
        terms: Parts<'_>,
        given: Vec<TermId>,
    ) -> Result<(Vec<TermId>, u32), Fault>
        requires given { AreIn self.old.terms given.items }
        ensures opens { IfOk result (λ p. OpensAt environment.now terms.entry given.items self.old p.0.items self.new) }
        ensures within { IfOk result (λ p. AreIn self.new.terms p.0.items) }
        ensures depth { IfOk result (λ p. p.1 ≤ self.old.remaining_depth) }
        ensures refused { WhenRefused result (StopsAt environment.now terms.entry given.items self.old self.new) }
        ensures faults { RecordsCausedFaults self.old self.new }
        ensures goes_back { GoesBack self.old self.new }
        ensures fault { IsFaultFor self.old self.new result }
    {
        let mut opened = OpenedTerms {
            ids: given,
            passed: Vec::new(self.allocator()),
        };
        let depth = self.remaining_depth;
        let mut last = depth;
        for level in 0..depth {
            let found = self.aliases_against(terms, &opened.ids, &opened.passed)?;
            if found.is_empty() {
                break;
            }
            last = depth - 1 - level;
            self.open_level(environment, terms, &mut opened, &found, last)?;
        }
        let OpenedTerms { ids, passed: _ } = opened;
        Ok((ids, last))
    }

    /// Opens the given terms of a header at some aliases, whose head forms are found at a depth.
    #[cycle(open)]
    fn open_level(
        &mut self,
        environment: &[Clause],
        terms: Parts<'_>,
        opened: &mut OpenedTerms,
        found: &[TermId],
        depth: u32,
    ) -> Result<(), Fault>
        requires depth { depth < self.old.remaining_depth }
        requires within { AreIn self.old.terms opened.old.ids.items }
        requires found { AreBelow (length self.old.terms) found.now }
        ensures opens { OnOk result (OpensAt environment.now terms.entry opened.old.ids.items self.old opened.new.ids.items self.new) }
        ensures within { OnOk result (AreIn self.new.terms opened.new.ids.items) }
        ensures refused { WhenRefused result (StopsAt environment.now terms.entry opened.old.ids.items self.old self.new) }
        ensures faults { RecordsCausedFaults self.old self.new }
        ensures goes_back { GoesBack self.old self.new }
        ensures fault { IsFaultFor self.old self.new result }
    {
        for i in 0..found.len() {
            let form = self.form_below(environment, found[i], depth)?;
            self.enter_form(terms, opened, found[i], form)?;
        }
        Ok(())
    }

    /// Puts what was found as the head form of an alias in its place. Where nothing is known of it so far the alias is
    /// passed over. It is refused where the head form is an alias, one that stands for itself: it has another head than
    /// any constructor. A constant isn't put in the place of a type, nor a type in that of a constant.
    fn enter_form(
        &mut self,
        terms: Parts<'_>,
        opened: &mut OpenedTerms,
        alias: TermId,
        form: Option<TermId>,
    ) -> Result<(), Fault>
        requires within { AreIn self.old.terms opened.old.ids.items }
        requires alias { alias.0 < length self.old.terms }
        requires form { IfSome form (λ id. id.0 < length self.old.terms) }
        ensures entered { OnOk result (Enters self.old.terms alias form (trees_seen terms.entry) opened.old.ids.items self.new.terms opened.new.ids.items) }
        ensures within { OnOk result (AreIn self.new.terms opened.new.ids.items) }
        ensures refused { WhenRefused result (IsRigidForm self.old.terms form) }
        ensures unchanged { self.new ≡ record self.old { terms = self.new.terms } }
        ensures kept { Keeps self.old.terms self.new.terms }
        ensures fault { IsFaultFor self.old self.new result }
    {
        let Some(form) = form else {
            return pass_over(opened, alias);
        };
        if let Node::Alias(_) = self.terms.node(form) {
            return Err(Fault::NoSolution);
        }
        if !have_one_sort(&self.terms, alias, form) {
            return pass_over(opened, alias);
        }
        opened.ids = self.put_among(terms, FoundForm { alias, form }, &opened.ids)?;
        Ok(())
    }

    /// The given terms of a header with a head form in the place of its alias. Nothing changes but that there may be more
    /// terms. Only memory is refused.
    fn put_among(
        &mut self,
        terms: Parts<'_>,
        found: FoundForm,
        ids: &[TermId],
    ) -> Result<Vec<TermId>, Fault>
        requires found { IsFormIn self.old.terms found }
        requires ids { AreIn self.old.terms ids.now }
        ensures put { IfOk result (λ made. ArePutAt self.old.terms found terms.entry ids.now self.new.terms made.items) }
        ensures within { IfOk result (λ made. AreIn self.new.terms made.items) }
        ensures unchanged { self.new ≡ record self.old { terms = self.new.terms } }
        ensures kept { Keeps self.old.terms self.new.terms }
        ensures only_memory { IsOkUnless result Fault.OutOfMemory }
    {
        let Ok(made) = put_form(&mut self.terms, found, terms, ids) else {
            return Err(Fault::OutOfMemory);
        };
        Ok(made)
    }

    /// The head form of an alias at a depth, if one is known so far. It is found by the evaluation where no inference
    /// variable stands in the alias or in the environment, and else as that of an alias with some.
    #[cycle(open)]
    fn form_below(
        &mut self,
        environment: &[Clause],
        alias: TermId,
        depth: u32,
    ) -> Result<Option<TermId>, Fault>
        requires depth { depth < self.old.remaining_depth }
        requires alias { alias.0 < length self.old.terms }
        ensures found { IfOk result (λ o. IfSome o (IsFoundForm environment.now depth (tree_at self.old.terms alias) self.old self.new)) }
        ensures none { result ≡ Ok None → self.new ≡ restored self.old self.new }
        ensures refused { WhenRefused result (LacksConstructor environment.now depth (tree_at self.old.terms alias) self.old self.new) }
        ensures faults { RecordsCausedFaults self.old self.new }
        ensures goes_back { GoesBack self.old self.new }
        ensures fault { IsFaultFor self.old self.new result }
    {
        if !self.terms.contains(alias) {
            return Ok(None);
        }
        if !self.is_open(environment, alias) {
            return self.closed_form_below(environment, alias, depth);
        }
        let Some(asked) = self.alias_at(alias)? else {
            return Ok(None);
        };
        self.holds_together();
        let before = self.snapshot();
        let around = self.remaining_depth;
        self.remaining_depth = depth;
        let form = self.form_once(environment, asked);
        self.remaining_depth = around;
        if !is_known(&form) {
            self.rollback(before);
        }
        form
    }
}

/// Whether there is a head form.
fn is_known(form: &Result<Option<TermId>, Fault>) -> bool
    ensures { result ≡ is_known form.now }
{
    matches!(form, Ok(Some(_)))
}

/// Passes an alias over from here on. Only memory is refused.
fn pass_over(opened: &mut OpenedTerms, alias: TermId) -> Result<(), Fault>
    ensures ids { opened.new.ids.items ≡ opened.old.ids.items }
    ensures only_memory { IsOkUnless result Fault.OutOfMemory }
{
    if opened.passed.push(alias).is_err() {
        return Err(Fault::OutOfMemory);
    }
    Ok(())
}

/// The terms of a header as they stand in its row, if that is there.
fn header_terms(rows: &IndexedTables, header: RuleHeader) -> Option<Parts<'_>>
    ensures { IfSome result (λ terms. (params : List ParamKind) × (open_header rows.now header ≡ Some (record { params = params; terms = trees_seen terms }))) }
{
    match header {
        RuleHeader::Impl(id) => {
            let row = rows.impl_row(id)?;
            Some(Parts::Args(row.trait_args.as_slice()))
        }
        RuleHeader::InherentImpl(id) => {
            let row = rows.inherent_impl_row(id)?;
            Some(Parts::One(&row.self_ty))
        }
    }
}
