//! Lists of kinds of parameters.
ghost use Rattle.std.specs.Prelude.{◌≡◌};
ghost use Rattle.goal_tables.specs.ParamKinds.{same_kinds, has_param};

use goal_terms::answers::ParamKind;
use goal_terms::kinds::same_kind;

#[tactic(auto, using(crate::proofs::KindLemmas::kinds_differing))]
/// Whether two lists have the same kinds.
pub fn same_kinds(params: &[ParamKind], kinds: &[ParamKind]) -> bool
    ensures { result ≡ same_kinds params.now kinds.now }
{
    if params.len() != kinds.len() {
        return false;
    }
    for i in 0..params.len() {
        if !same_kind(params[i], kinds[i]) {
            return false;
        }
    }
    true
}

#[tactic(auto, using(crate::proofs::KindLemmas::having))]
/// Whether a row has this parameter, of this kind.
pub fn has_param(params: &[ParamKind], number: u32, kind: ParamKind) -> bool
    ensures { result ≡ has_param params.now number kind }
{
    let place = number as usize;
    if place >= params.len() {
        return false;
    }
    same_kind(params[place], kind)
}
