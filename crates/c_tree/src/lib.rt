//! C, as trees: what a unit of C text says, and its canonical text.
#![tactic(auto)]

mod build_expression;
mod byte_class;
mod decimal;
mod dialect;
mod expression;
mod identifier;
mod integer_type;
mod item;
mod lists;
mod literal_value;
mod name_bytes;
mod named;
mod numeral;
mod numeral_text;
mod operator;
mod print_call;
mod print_expression;
mod print_function;
mod print_head;
mod print_item;
mod print_statement;
mod print_type;
mod print_typedef;
mod statement;
mod type_name;
mod unit;
mod word;

pub use dialect::Dialect;
pub use expression::{Argument, Base, Call, Expression, Lvalue, RightSide, Selector};
pub use identifier::Identifier;
pub use integer_type::IntegerType;
pub use item::{
    Enumeration, External, Function, InitialValue, Item, Member, Parameter, Pointer, Prototype,
    Returned, Structure, Variable,
};
pub use lists::appended;
pub use literal_value::value_under;
pub use name_bytes::{begins_name, continues_name};
pub use named::{Literal, Named, SignedLiteral};
pub use numeral::Numeral;
pub use numeral_text::past_numeral;
pub use operator::{BinaryOperator, UnaryOperator};
pub use statement::{Branch, LocalValue, Otherwise, Statement};
pub use type_name::TypeName;
pub use unit::{Unit, print};
