//! Which kind a row says.
ghost use Rattle.std.specs.Prelude.{◌≡◌};
ghost use Rattle.goal_tables.specs.Sites.{kind_of_value};

use goal_terms::answers::ParamKind;

/// The kind of a type or of a constant.
pub fn kind_of_value(is_const: bool) -> ParamKind
    ensures { result ≡ kind_of_value is_const }
{
    if is_const {
        ParamKind::Const
    } else {
        ParamKind::Ty
    }
}
