//! Lists of names.

ghost use Rattle.std.specs.Prelude.{◌≡◌, option_map};
ghost use Rattle.rs_path.specs.Paths.{is_nil};
ghost use Rattle.rs_path.specs.Below.{is_inside};

use rs_path::Name;

/// Whether the first names are a proper prefix of the second.
pub(crate) fn is_inside(outer: &[Name], inner: &[Name]) -> bool
    ensures inside { result ≡ is_inside outer.now inner.now }
{
    match outer {
        [] => !is_nil(inner),
        [first, outer @ ..] => match inner {
            [] => false,
            [second, inner @ ..] => first == second && is_inside(outer, inner),
        },
    }
}

/// Whether there are no names.
pub(crate) fn is_nil(names: &[Name]) -> bool
    ensures nil { result ≡ is_nil names.now }
{
    match names {
        [] => true,
        [_first, _rest @ ..] => false,
    }
}
