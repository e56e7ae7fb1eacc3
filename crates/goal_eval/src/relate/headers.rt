//! Whether a header fits given arguments.
ghost use Rattle.std.specs.Prelude.{IfErr, ◌≡◌, true, false, length, IfOk};
ghost use Rattle.goal_interner.specs.TableMeaning.{Keeps};
ghost use Rattle.goal_lists.specs.Interned.{AreIn, erased_all};
ghost use Rattle.goal_eval.specs.Outcomes.{MatchIn, ForEachMode};
ghost use Rattle.goal_eval.specs.HeaderWords.{asked_terms, asked_given, KnownIn, known_trees, filled_trees, AreFilled, is_complete, TestOutcome, EqualUnder, AskedKnown, AskedOutcome, SaysAsked};
ghost use Rattle.goal_eval.specs.Effects.{AreSound, IsStop};

use crate::eval::effects::Effects;
use crate::eval::outcomes::{HeaderMatch, Setting, Stop};
use crate::relate::equality::compare_lists;
use crate::relate::header_args::{FilledArgs, filled_args, instances, is_complete};
use crate::relate::header_clashes::header_clashes;
use crate::relate::header_parts::known_args;
use goal_interner::term_nodes::TermId;
use goal_interner::term_table::TermTable;
use goal_lists::outcomes::Outcome;
use goal_terms::answers::ParamKind;
use goal_terms::terms::GenericArg;

/// A header under its parameters, and the arguments that it is matched with.
#[derive(Clone, Copy)]
pub struct AskedHeader<'e> {
    pub params: &'e [ParamKind],
    pub header: &'e [GenericArg],
    pub given: &'e [TermId],
}

/// Whether the instances of a header's arguments are equal to given ones.
#[tactic(auto, using(crate::proofs::CacheLemmas::caching))]
#[cycle(closed)]
fn instances_fit(
    setting: &Setting<'_>,
    terms: &mut TermTable,
    effects: &mut Effects,
    asked: &AskedHeader<'_>,
    args: &[TermId],
    depth: u32,
) -> Result<bool, Stop>
    requires effects { AreSound setting.now terms.old effects.old }
    requires given { AreIn terms.old asked.now.given.now }
    requires args { AreIn terms.old args.now }
    ensures effects { AreSound setting.now terms.new effects.new }
    ensures kept { Keeps terms.old terms.new }
    ensures stops { IfErr result (IsStop setting.now) }
    ensures says { IfOk result (TestOutcome setting.now depth (λ L. EqualUnder L (erased_all terms.old args.now) (asked_terms asked.now) (asked_given terms.old asked.now))) }
{
    let ids = instances(setting.allocator(), terms, asked.header, args)?;
    match compare_lists(setting, terms, effects, &ids, asked.given, depth)? {
        Outcome::Holds => Ok(true),
        Outcome::Refuted => Ok(false),
        Outcome::Undecided => Ok(false),
    }
}

/// What a header comes to whose parameters are all known.
#[cycle(closed)]
fn match_complete(
    setting: &Setting<'_>,
    terms: &mut TermTable,
    effects: &mut Effects,
    asked: &AskedHeader<'_>,
    filled: FilledArgs<'_>,
    depth: u32,
) -> Result<HeaderMatch, Stop>
    requires effects { AreSound setting.now terms.old effects.old }
    requires given { AreIn terms.old asked.now.given.now }
    requires known { KnownIn terms.old filled.known.now }
    requires args { AreIn terms.old filled.args.items }
    requires filled { AreFilled terms.old filled.known.now filled.args.items }
    requires complete { is_complete asked.now.params.now filled.known.now ≡ true }
    requires says { AskedKnown setting.now depth terms.old asked.now (filled_trees terms.old filled) }
    ensures effects { AreSound setting.now terms.new effects.new }
    ensures kept { Keeps terms.old terms.new }
    ensures within { IfOk result (MatchIn terms.new) }
    ensures stops { IfErr result (IsStop setting.now) }
    ensures says { IfOk result (AskedOutcome setting.now depth terms.old asked.now terms.new) }
{
    if instances_fit(setting, terms, effects, asked, &filled.args, depth)? {
        return Ok(HeaderMatch::Fits(filled.args));
    }
    if header_clashes(setting, terms, effects, asked, &filled, depth)? {
        return Ok(HeaderMatch::Clashes);
    }
    Ok(HeaderMatch::Known(filled.args))
}

/// What a header comes to of which a parameter isn't known.
#[cycle(closed)]
fn match_incomplete(
    setting: &Setting<'_>,
    terms: &mut TermTable,
    effects: &mut Effects,
    asked: &AskedHeader<'_>,
    filled: &FilledArgs<'_>,
    depth: u32,
) -> Result<HeaderMatch, Stop>
    requires effects { AreSound setting.now terms.old effects.old }
    requires given { AreIn terms.old asked.now.given.now }
    requires known { KnownIn terms.old filled.now.known.now }
    requires args { AreIn terms.old filled.now.args.items }
    requires filled { AreFilled terms.old filled.now.known.now filled.now.args.items }
    requires complete { is_complete asked.now.params.now filled.now.known.now ≡ false }
    requires says { AskedKnown setting.now depth terms.old asked.now (filled_trees terms.old filled.now) }
    ensures effects { AreSound setting.now terms.new effects.new }
    ensures kept { Keeps terms.old terms.new }
    ensures within { IfOk result (MatchIn terms.new) }
    ensures stops { IfErr result (IsStop setting.now) }
    ensures says { IfOk result (AskedOutcome setting.now depth terms.old asked.now terms.new) }
{
    if header_clashes(setting, terms, effects, asked, filled, depth)? {
        Ok(HeaderMatch::Clashes)
    } else {
        Ok(HeaderMatch::Unknown)
    }
}

/// What a header comes to, by what is known of its parameters.
#[tactic(auto, using(crate::proofs::CacheLemmas::caching))]
#[cycle(closed)]
fn match_known(
    setting: &Setting<'_>,
    terms: &mut TermTable,
    effects: &mut Effects,
    asked: &AskedHeader<'_>,
    known: &[Option<TermId>],
    depth: u32,
) -> Result<HeaderMatch, Stop>
    requires effects { AreSound setting.now terms.old effects.old }
    requires given { AreIn terms.old asked.now.given.now }
    requires known { KnownIn terms.old known.now }
    requires count { length asked.now.params.now ≡ length known.now }
    requires says { AskedKnown setting.now depth terms.old asked.now (known_trees terms.old known.now) }
    ensures effects { AreSound setting.now terms.new effects.new }
    ensures kept { Keeps terms.old terms.new }
    ensures within { IfOk result (MatchIn terms.new) }
    ensures stops { IfErr result (IsStop setting.now) }
    ensures says { IfOk result (AskedOutcome setting.now depth terms.old asked.now terms.new) }
{
    let args = filled_args(setting, terms, effects, known)?;
    let filled = FilledArgs { known, args };
    if is_complete(asked.params, known) {
        match_complete(setting, terms, effects, asked, filled, depth)
    } else {
        match_incomplete(setting, terms, effects, asked, &filled, depth)
    }
}

/// Matches a header, under its parameters, with given arguments at a depth. A parameter's term is the
/// given
/// part at its first place, from left to right, depth first.
#[cycle(closed)]
pub fn match_header(
    setting: &Setting<'_>,
    terms: &mut TermTable,
    effects: &mut Effects,
    asked: &AskedHeader<'_>,
    depth: u32,
) -> Result<HeaderMatch, Stop>
    requires effects { AreSound setting.now terms.old effects.old }
    requires given { AreIn terms.old asked.now.given.now }
    ensures effects { AreSound setting.now terms.new effects.new }
    ensures kept { Keeps terms.old terms.new }
    ensures within { IfOk result (MatchIn terms.new) }
    ensures stops { IfErr result (IsStop setting.now) }
    ensures says { ForEachMode setting.now depth (λ _ L. IfOk result (SaysAsked L terms.old asked.now terms.new)) }
{
    let known = known_args(setting, terms, effects, asked, depth)?;
    match_known(setting, terms, effects, asked, &known, depth)
}
