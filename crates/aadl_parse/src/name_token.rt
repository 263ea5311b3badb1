//! The tokens that are names.

ghost use Rattle.std.specs.Prelude.{◌≡◌, [], ◌∷◌, codes, refl, Some};
ghost use Rattle.aadl_tree.specs.declared.token.Token.TheVariants as token;
ghost use Rattle.hw_text.specs.declared.base_type.BaseType.TheVariants.{Boolean};
ghost use Rattle.aadl_parse.specs.Stops.{start};
ghost use Rattle.aadl_parse.specs.Shapes.{one_of};
ghost use Rattle.aadl_parse.specs.Terminals.{name_shapes, named_of, name_of, base_package_of, class_name_of, base_of, name-shaped, base_package-shaped, class_name-shaped, boolean-named};
ghost use Rattle.hw_text.specs.BaseTypes.{base_named};

use crate::leaf::Terminal;
use crate::shape::shape;
use aadl_tree::{ClassName, Named, Token};
use hw_text::{BaseType, Name, NoMemory, Place, Placed};
use std::alloc::Global;

/// A name, and where it stands.
pub struct NameAt;

impl Terminal for NameAt {
    type Value = Named;

    ghost value = { named_of };

    ghost shapes = { name_shapes };

    fn is_shaped(token: &Placed<Token>) -> bool {
        is_name(token)
    }

    fn value(alloc: Global, token: &Placed<Token>) -> Result<Option<Self::Value>, NoMemory> {
        match &token.token {
            Token::Name(name) => Ok(Some(Named {
                name: name.copy()?,
                place: token.place,
            })),
            _ => Ok(None),
        }
    }

    ghost sample = { (record { token = token.Name (codes "a"); place = start }, record { name = codes "a"; place = start }, refl) };

    ghost shaped = { name-shaped (λ n at. Some (record { name = n; place = at })) };
}

/// A name.
pub struct BareName;

impl Terminal for BareName {
    type Value = Name;

    ghost value = { name_of };

    ghost shapes = { name_shapes };

    fn is_shaped(token: &Placed<Token>) -> bool {
        is_name(token)
    }

    fn value(alloc: Global, token: &Placed<Token>) -> Result<Option<Self::Value>, NoMemory> {
        match &token.token {
            Token::Name(name) => Ok(Some(name.copy()?)),
            _ => Ok(None),
        }
    }

    ghost sample = { (record { token = token.Name (codes "a"); place = start }, codes "a", refl) };

    ghost shaped = { name-shaped (λ n at. Some n) };
}

/// The name `base_types`.
pub struct BasePackage;

impl Terminal for BasePackage {
    type Value = Place;

    ghost value = { base_package_of };

    ghost shapes = { codes "base_types" ∷ [] };

    fn is_shaped(token: &Placed<Token>) -> bool {
        shape(&token.token) == "base_types"
    }

    fn value(_alloc: Global, token: &Placed<Token>) -> Result<Option<Self::Value>, NoMemory> {
        match &token.token {
            Token::Name(name) if name.rows() == b"base_types".as_slice() => Ok(Some(token.place)),
            _ => Ok(None),
        }
    }

    ghost sample = { (record { token = token.Name (codes "base_types"); place = start }, start, refl) };

    ghost shaped = { base_package-shaped };
}

/// A name other than `base_types`, and where it stands.
pub struct ClassNameAt;

impl Terminal for ClassNameAt {
    type Value = (ClassName, Place);

    ghost value = { class_name_of };

    ghost shapes = { codes "NAME" ∷ [] };

    fn is_shaped(token: &Placed<Token>) -> bool {
        shape(&token.token) == "NAME"
    }

    fn value(alloc: Global, token: &Placed<Token>) -> Result<Option<Self::Value>, NoMemory> {
        match &token.token {
            Token::Name(name) => match ClassName::of(name.copy()?) {
                Some(name) => Ok(Some((name, token.place))),
                None => Ok(None),
            },
            _ => Ok(None),
        }
    }

    ghost sample = { (record { token = token.Name (codes "a"); place = start }, (record { name = codes "a"; other = refl }, start), refl) };

    ghost shaped = { class_name-shaped };
}

/// The name of a base type.
pub struct BaseName;

impl Terminal for BaseName {
    type Value = BaseType;

    ghost value = { base_of };

    ghost shapes = { name_shapes };

    fn is_shaped(token: &Placed<Token>) -> bool {
        is_name(token)
    }

    fn value(_alloc: Global, token: &Placed<Token>) -> Result<Option<Self::Value>, NoMemory> {
        match &token.token {
            Token::Name(name) => Ok(BaseType::named(name.rows())),
            _ => Ok(None),
        }
    }

    ghost sample = { (record { token = token.Name (codes "boolean"); place = start }, Boolean, boolean-named) };

    ghost shaped = { name-shaped (λ n at. base_named n) };
}

/// Whether the token is a name.
fn is_name(token: &Placed<Token>) -> bool
    ensures { result ≡ one_of name_shapes token.now }
{
    let shape = shape(&token.token);
    shape == "NAME" || shape == "base_types"
}
