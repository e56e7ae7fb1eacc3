//! The names of the types that have no parts and no number.
ghost use Rattle.std.specs.Prelude.{◌≡◌};
ghost use Rattle.std.specs.Option.{option_map};
ghost use Rattle.goal_text.specs.NameText.{int_text, uint_text, float_text, scalar_text};

use goal_terms::heads::Head;
use goal_terms::scalars::{FloatTy, IntTy, UintTy};

/// The name of a scalar type, of `str` or of `!`.
pub fn scalar_name(head: Head) -> Option<&'static str>
    ensures { option_map (λ s. s.now) result ≡ scalar_text head }
{
    match head {
        Head::Bool => Some("bool"),
        Head::Char => Some("char"),
        Head::Str => Some("str"),
        Head::Never => Some("!"),
        Head::Int(int) => Some(int_name(int)),
        Head::Uint(int) => Some(uint_name(int)),
        Head::Float(float) => Some(float_name(float)),
        _ => None,
    }
}

fn int_name(int: IntTy) -> &'static str
    ensures { result.now ≡ int_text int }
{
    match int {
        IntTy::Isize => "isize",
        IntTy::I8 => "i8",
        IntTy::I16 => "i16",
        IntTy::I32 => "i32",
        IntTy::I64 => "i64",
        IntTy::I128 => "i128",
    }
}

fn uint_name(int: UintTy) -> &'static str
    ensures { result.now ≡ uint_text int }
{
    match int {
        UintTy::Usize => "usize",
        UintTy::U8 => "u8",
        UintTy::U16 => "u16",
        UintTy::U32 => "u32",
        UintTy::U64 => "u64",
        UintTy::U128 => "u128",
    }
}

fn float_name(float: FloatTy) -> &'static str
    ensures { result.now ≡ float_text float }
{
    match float {
        FloatTy::F16 => "f16",
        FloatTy::F32 => "f32",
        FloatTy::F64 => "f64",
        FloatTy::F128 => "f128",
    }
}
