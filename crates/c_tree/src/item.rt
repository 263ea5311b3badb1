//! What stands in a unit, outside functions.

use crate::expression::RightSide;
use crate::named::{Literal, Named, SignedLiteral};
use crate::statement::Statement;
use crate::type_name::TypeName;
use hw_text::{Place, Rows};

/// `typedef enum { first, others } name;`
#[derive(Debug, Drop)]
pub struct Enumeration {
    pub first: Named,
    pub others: Rows<Named>,
    pub name: Named,
}

/// A member of a struct, an array where it has a length.
#[derive(Debug, Drop)]
pub struct Member {
    pub class: TypeName,
    pub name: Named,
    pub length: Option<Literal>,
}

/// `typedef struct { first others } name;`
#[derive(Debug, Drop)]
pub struct Structure {
    pub first: Member,
    pub others: Rows<Member>,
    pub name: Named,
}

/// What a file-scope variable begins with.
#[derive(Debug, Drop)]
pub enum InitialValue {
    Zero,
    Number(SignedLiteral),
    Truth(Place, bool),
    Enumerator(Named),
}

/// A file-scope variable, an array where it has a length.
#[derive(Debug, Drop)]
pub struct Variable {
    pub is_static: bool,
    pub class: TypeName,
    pub name: Named,
    pub length: Option<Literal>,
    pub initial: Option<InitialValue>,
}

/// A variable that is defined elsewhere.
#[derive(Debug, Drop)]
pub struct External {
    pub class: TypeName,
    pub name: Named,
    pub length: Option<Literal>,
}

/// A pointer to what may change at any time: `volatile class *name;`
#[derive(Debug, Drop)]
pub struct Pointer {
    pub class: Named,
    pub name: Named,
}

/// A parameter, a pointer where it has a `*`.
#[derive(Debug, Drop)]
pub struct Parameter {
    pub class: TypeName,
    pub is_pointer: bool,
    pub name: Named,
}

/// A function that is defined elsewhere, or later; without a result it is `void`.
#[derive(Debug, Drop)]
pub struct Prototype {
    pub is_static: bool,
    pub class: Option<TypeName>,
    pub name: Named,
    pub parameters: Rows<Parameter>,
}

/// What a function returns: its type, and the value at the end of the body.
#[derive(Debug, Drop)]
pub struct Returned {
    pub class: TypeName,
    pub value: RightSide,
}

/// A function; without a result it is `void`.
#[derive(Debug, Drop)]
pub struct Function {
    pub is_static: bool,
    pub returned: Option<Returned>,
    pub name: Named,
    pub parameters: Rows<Parameter>,
    pub body: Rows<Statement>,
}

/// What a unit is made of, one behind the other.
#[derive(Debug, Drop)]
pub enum Item {
    Enumeration(Enumeration),
    Structure(Structure),
    Variable(Variable),
    External(External),
    Pointer(Pointer),
    Prototype(Prototype),
    Function(Function),
}
