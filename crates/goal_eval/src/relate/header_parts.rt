//! The terms of a header's parameters, as given arguments have them.
ghost use Rattle.std.specs.Prelude.{IfErr, ◌≡◌, length, IfOk};
ghost use Rattle.goal_interner.specs.TableMeaning.{Keeps};
ghost use Rattle.goal_lists.specs.Headers.{PartAmong};
ghost use Rattle.goal_lists.specs.Interned.{AreIn, erased_at};
ghost use Rattle.goal_eval.specs.HeaderWords.{is_this, erased_ref, asked_terms, asked_given, IsBehind, GivesPart, PlaceIn, OptionIn, KnownIn, known_trees, SaysKnown, PartOutcome, TermOutcome, AskedKnown};
ghost use Rattle.goal_eval.specs.Effects.{AreSound, IsStop};

use crate::eval::effects::Effects;
use crate::eval::head_forms::head_form;
use crate::eval::outcomes::{Found, Setting, Stop};
use crate::relate::header_args::add_known;
use crate::relate::header_places::{Against, Place, find_among, find_place};
use crate::relate::headers::AskedHeader;
use goal_interner::term_nodes::TermId;
use goal_interner::term_table::TermTable;
use goal_terms::answers::ParamKind;
use goal_terms::compare::Regions;
use goal_terms::view::Parts;

/// A parameter of a header: its number, and its kind.
#[derive(Clone, Copy)]
pub struct NumberedParam {
    pub number: usize,
    pub kind: ParamKind,
}

/// The term of a parameter at a depth, from where its first place leads to.
#[cycle(closed)]
fn part_at(
    setting: &Setting<'_>,
    terms: &mut TermTable,
    effects: &mut Effects,
    number: usize,
    place: Place<'_>,
    depth: u32,
) -> Result<Option<TermId>, Stop>
    requires effects { AreSound setting.now terms.old effects.old }
    requires within { PlaceIn terms.old number place }
    ensures effects { AreSound setting.now terms.new effects.new }
    ensures kept { Keeps terms.old terms.new }
    ensures within { IfOk result (OptionIn terms.new) }
    ensures stops { IfErr result (IsStop setting.now) }
    ensures says { IfOk result (PartOutcome setting.now depth (λ L. GivesPart L number terms.old place.entry) terms.new) }
{
    match place {
        Place::Is(id) => Ok(Some(id)),
        Place::Missing => Ok(None),
        Place::Behind(header, given) => {
            let against = Against { header, given };
            part_behind(setting, terms, effects, number, against, depth)
        }
    }
}

/// The same where an alias stands against a constructor of the header.
#[cycle(closed)]
fn part_behind(
    setting: &Setting<'_>,
    terms: &mut TermTable,
    effects: &mut Effects,
    number: usize,
    against: Against<'_>,
    depth: u32,
) -> Result<Option<TermId>, Stop>
    requires effects { AreSound setting.now terms.old effects.old }
    requires within { IsBehind terms.old (is_this number) against.header against.given }
    ensures effects { AreSound setting.now terms.new effects.new }
    ensures kept { Keeps terms.old terms.new }
    ensures within { IfOk result (OptionIn terms.new) }
    ensures stops { IfErr result (IsStop setting.now) }
    ensures says { IfOk result (PartOutcome setting.now depth (λ L. L.part number (erased_ref against.entry.header) (erased_at terms.old against.entry.given)) terms.new) }
{
    if depth == 0 {
        return Ok(None);
    }
    let header = against.header;
    match head_form(setting, terms, effects, against.given, depth - 1)? {
        Found::Refuted => Ok(None),
        Found::Undecided => Ok(None),
        Found::Is(form) => {
            if !header.node().is_same(terms.node(form), Regions::Forgotten) {
                return Ok(None);
            }
            let place = find_place(terms, number, header, form);
            part_at(setting, terms, effects, number, place, depth - 1)
        }
    }
}

/// The part at the first place of a parameter among the arguments of a header, at a depth.
#[cycle(closed)]
fn known_part(
    setting: &Setting<'_>,
    terms: &mut TermTable,
    effects: &mut Effects,
    number: usize,
    asked: &AskedHeader<'_>,
    depth: u32,
) -> Result<Option<TermId>, Stop>
    requires effects { AreSound setting.now terms.old effects.old }
    requires given { AreIn terms.old asked.now.given.now }
    ensures effects { AreSound setting.now terms.new effects.new }
    ensures kept { Keeps terms.old terms.new }
    ensures within { IfOk result (OptionIn terms.new) }
    ensures stops { IfErr result (IsStop setting.now) }
    ensures says { IfOk result (PartOutcome setting.now depth (λ L. PartAmong L number (asked_terms asked.now) (asked_given terms.old asked.now)) terms.new) }
{
    let place = find_among(terms, number, Parts::Args(asked.header), asked.given);
    part_at(setting, terms, effects, number, place, depth)
}

/// The term of a parameter among the arguments of a header, if it is known at a depth.
#[cycle(closed)]
fn known_arg(
    setting: &Setting<'_>,
    terms: &mut TermTable,
    effects: &mut Effects,
    param: NumberedParam,
    asked: &AskedHeader<'_>,
    depth: u32,
) -> Result<Option<TermId>, Stop>
    requires effects { AreSound setting.now terms.old effects.old }
    requires given { AreIn terms.old asked.now.given.now }
    ensures effects { AreSound setting.now terms.new effects.new }
    ensures kept { Keeps terms.old terms.new }
    ensures within { IfOk result (OptionIn terms.new) }
    ensures stops { IfErr result (IsStop setting.now) }
    ensures says { IfOk result (TermOutcome setting.now depth (λ L. SaysKnown L (asked_terms asked.now) (asked_given terms.old asked.now) param.kind param.number) terms.new) }
{
    match param.kind {
        ParamKind::Lifetime => Ok(None),
        ParamKind::Ty => known_part(setting, terms, effects, param.number, asked, depth),
        ParamKind::Const => known_part(setting, terms, effects, param.number, asked, depth),
    }
}

/// The terms of a header's parameters, as far as they are known at a depth.
#[cycle(closed)]
pub(crate) fn known_args(
    setting: &Setting<'_>,
    terms: &mut TermTable,
    effects: &mut Effects,
    asked: &AskedHeader<'_>,
    depth: u32,
) -> Result<Vec<Option<TermId>>, Stop>
    requires effects { AreSound setting.now terms.old effects.old }
    requires given { AreIn terms.old asked.now.given.now }
    ensures effects { AreSound setting.now terms.new effects.new }
    ensures kept { Keeps terms.old terms.new }
    ensures within { IfOk result (λ known. KnownIn terms.new known.items) }
    ensures count { IfOk result (λ known. length known.items ≡ length asked.now.params.now) }
    ensures stops { IfErr result (IsStop setting.now) }
    ensures says { IfOk result (λ known. AskedKnown setting.now depth terms.old asked.now (known_trees terms.new known.items)) }
{
    let mut known = Vec::new(setting.allocator());
    for i in 0..asked.params.len() {
        let param = NumberedParam {
            number: i,
            kind: asked.params[i],
        };
        let next = known_arg(setting, terms, effects, param, asked, depth)?;
        add_known(&mut known, next)?;
    }
    Ok(known)
}
