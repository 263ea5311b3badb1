//! Why a text is refused: one code for each cause.

ghost use Rattle.std.specs.Prelude.{◌≡◌};

use crate::{Detail, Document};

/// The cause of a refusal. A code is named for the document that it speaks of and for the name
/// that is printed (this project's own).
#[derive(Clone, Copy, Debug, PartialEq, Eq)]
pub enum Code {
    /// A byte outside the alphabet of models stands outside comments and annex texts.
    ModelBadByte,
    /// No token begins here, a string or annex text is not closed, or a number is too large.
    ModelBadToken,
    /// The first token that no model's text continues.
    ModelSyntax,
    /// The same, where the token is a word of the language that this profile leaves out.
    ModelUnsupported,
    /// A name refers to nothing.
    ModelUnknown,
    /// A second thing of one name.
    ModelDuplicate,
    /// The name after `end` differs from the one that it closes.
    ModelEndName,
    /// A component stands in a parent that may not hold it, or holds what it may not.
    ModelWrongParent,
    /// The ends of a connection differ in kind or do not fit in direction.
    ModelKindDiffers,
    /// The ends of a connection carry different types.
    ModelTypeDiffers,
    /// A second connection has the same destination.
    ModelFanIn,
    /// A property has a value that it may not have.
    ModelBadProperty,
    /// A component or a data type contains itself.
    ModelContainsItself,
    /// No system implementation is left unused by the others.
    ModelNoRoot,
    /// A second system implementation is left unused.
    ModelManyRoots,
    /// A thread does not say when it is dispatched.
    ModelNoPeriod,
    /// Two domains would have one name.
    ModelNameClash,
    /// A data field is named as a word of C.
    ModelCKeyword,
    /// A count exceeds its limit.
    ModelLimit,
    /// The execution times exceed the frame period.
    ModelOverfull,
    /// A period is no multiple of the frame period.
    ModelPeriodNotMultiple,
    /// The model is none of those that this version reads.
    ModelNotBuilt,
    /// The annex is no text of the contract language.
    ContractSyntax,
    /// A name in a clause names nothing.
    ContractUnknownName,
    /// An expression has no type.
    ContractWrongType,
    /// A name or form may not stand in this section.
    ContractWrongPlace,
    /// A subexpression leaves its range.
    ContractOutOfRange,
    /// A state variable or a clause has a name that it may not have.
    ContractBadName,
    /// A count exceeds its limit.
    ContractLimit,
    /// No token of C begins here.
    UserBadToken,
    /// The first token that no text of the C subset continues.
    UserSyntax,
    /// The same, where the token is a word of C that the subset leaves out.
    UserNotInSubset,
    /// A name is not declared before its use.
    UserUnknown,
    /// A name is declared that is visible already.
    UserDuplicate,
    /// An expression has no type.
    UserTypeClash,
    /// Signed and unsigned operands are mixed.
    UserMixedSigns,
    /// A function calls itself or a later one.
    UserCallsLater,
    /// An address is taken of what is no local variable.
    UserAddressOf,
    /// A signed result may not fit its type.
    UserMayOverflow,
    /// A divisor may be zero.
    UserMayDivideByZero,
    /// A shift may be as wide as its operand.
    UserMayShiftWide,
    /// An index may leave its array.
    UserIndexMayPass,
    /// A conversion may lose the value.
    UserNarrowsWide,
    /// An entry function is absent.
    UserMissingEntry,
    /// An entry function has another signature.
    UserWrongSignature,
    /// A declared name is kept for generated code.
    UserReservedName,
    /// A state variable of the contract is not declared.
    UserStateMissing,
    /// A count exceeds its limit.
    UserLimit,
    /// A line has not the form of a trace line.
    TraceBadLine,
    /// A line names what there is not, or its word does not fit its domain.
    TraceUnknownName,
    /// A value is none of the port's type.
    TraceBadValue,
    /// The bytes are no JSON text.
    RunFileNotJson,
    /// A key is missing, wrong or too much.
    RunFileBadShape,
    /// A record's port is no out port of a device.
    RunFileUnknownPort,
    /// A record's value is none of the port's type.
    RunFileBadValue,
    /// A record's frame is below the one before.
    RunFileFrameOrder,
    /// A record's frame is past the last one.
    RunFileFrameTooLate,
    /// A count exceeds its limit.
    RunFileLimit,
}

impl Code {
    ghost use Rattle.hw_text.specs.Code.{name_of, document_of, detail_of};

    /// The name that is printed, as it stands in docs/formats/refusals.md.
    pub fn name(self) -> &'static str
        ensures { result.now ≡ name_of self }
    {
        match self {
            Code::ModelBadByte => "BadByte",
            Code::ModelBadToken => "BadToken",
            Code::ModelSyntax => "Syntax",
            Code::ModelUnsupported => "Unsupported",
            Code::ModelUnknown => "Unknown",
            Code::ModelDuplicate => "Duplicate",
            Code::ModelEndName => "EndName",
            Code::ModelWrongParent => "WrongParent",
            Code::ModelKindDiffers => "KindDiffers",
            Code::ModelTypeDiffers => "TypeDiffers",
            Code::ModelFanIn => "FanIn",
            Code::ModelBadProperty => "BadProperty",
            Code::ModelContainsItself => "ContainsItself",
            Code::ModelNoRoot => "NoRoot",
            Code::ModelManyRoots => "ManyRoots",
            Code::ModelNoPeriod => "NoPeriod",
            Code::ModelNameClash => "NameClash",
            Code::ModelCKeyword => "CKeyword",
            Code::ModelLimit => "Limit",
            Code::ModelOverfull => "Overfull",
            Code::ModelPeriodNotMultiple => "PeriodNotMultiple",
            Code::ModelNotBuilt => "NotBuilt",
            Code::ContractSyntax => "Syntax",
            Code::ContractUnknownName => "UnknownName",
            Code::ContractWrongType => "WrongType",
            Code::ContractWrongPlace => "WrongPlace",
            Code::ContractOutOfRange => "OutOfRange",
            Code::ContractBadName => "BadName",
            Code::ContractLimit => "Limit",
            Code::UserBadToken => "BadToken",
            Code::UserSyntax => "Syntax",
            Code::UserNotInSubset => "NotInSubset",
            Code::UserUnknown => "Unknown",
            Code::UserDuplicate => "Duplicate",
            Code::UserTypeClash => "TypeClash",
            Code::UserMixedSigns => "MixedSigns",
            Code::UserCallsLater => "CallsLater",
            Code::UserAddressOf => "AddressOf",
            Code::UserMayOverflow => "MayOverflow",
            Code::UserMayDivideByZero => "MayDivideByZero",
            Code::UserMayShiftWide => "MayShiftWide",
            Code::UserIndexMayPass => "IndexMayPass",
            Code::UserNarrowsWide => "NarrowsWide",
            Code::UserMissingEntry => "MissingEntry",
            Code::UserWrongSignature => "WrongSignature",
            Code::UserReservedName => "ReservedName",
            Code::UserStateMissing => "StateMissing",
            Code::UserLimit => "Limit",
            Code::TraceBadLine => "BadLine",
            Code::TraceUnknownName => "UnknownName",
            Code::TraceBadValue => "BadValue",
            Code::RunFileNotJson => "NotJson",
            Code::RunFileBadShape => "BadShape",
            Code::RunFileUnknownPort => "UnknownPort",
            Code::RunFileBadValue => "BadValue",
            Code::RunFileFrameOrder => "FrameOrder",
            Code::RunFileFrameTooLate => "FrameTooLate",
            Code::RunFileLimit => "Limit",
        }
    }

    /// The document that the code speaks of.
    pub fn document(self) -> Document
        ensures { result ≡ document_of self }
    {
        match self {
            Code::ModelBadByte => Document::Model,
            Code::ModelBadToken => Document::Model,
            Code::ModelSyntax => Document::Model,
            Code::ModelUnsupported => Document::Model,
            Code::ModelUnknown => Document::Model,
            Code::ModelDuplicate => Document::Model,
            Code::ModelEndName => Document::Model,
            Code::ModelWrongParent => Document::Model,
            Code::ModelKindDiffers => Document::Model,
            Code::ModelTypeDiffers => Document::Model,
            Code::ModelFanIn => Document::Model,
            Code::ModelBadProperty => Document::Model,
            Code::ModelContainsItself => Document::Model,
            Code::ModelNoRoot => Document::Model,
            Code::ModelManyRoots => Document::Model,
            Code::ModelNoPeriod => Document::Model,
            Code::ModelNameClash => Document::Model,
            Code::ModelCKeyword => Document::Model,
            Code::ModelLimit => Document::Model,
            Code::ModelOverfull => Document::Model,
            Code::ModelPeriodNotMultiple => Document::Model,
            Code::ModelNotBuilt => Document::Model,
            Code::ContractSyntax => Document::Contract,
            Code::ContractUnknownName => Document::Contract,
            Code::ContractWrongType => Document::Contract,
            Code::ContractWrongPlace => Document::Contract,
            Code::ContractOutOfRange => Document::Contract,
            Code::ContractBadName => Document::Contract,
            Code::ContractLimit => Document::Contract,
            Code::UserBadToken => Document::UserCode,
            Code::UserSyntax => Document::UserCode,
            Code::UserNotInSubset => Document::UserCode,
            Code::UserUnknown => Document::UserCode,
            Code::UserDuplicate => Document::UserCode,
            Code::UserTypeClash => Document::UserCode,
            Code::UserMixedSigns => Document::UserCode,
            Code::UserCallsLater => Document::UserCode,
            Code::UserAddressOf => Document::UserCode,
            Code::UserMayOverflow => Document::UserCode,
            Code::UserMayDivideByZero => Document::UserCode,
            Code::UserMayShiftWide => Document::UserCode,
            Code::UserIndexMayPass => Document::UserCode,
            Code::UserNarrowsWide => Document::UserCode,
            Code::UserMissingEntry => Document::UserCode,
            Code::UserWrongSignature => Document::UserCode,
            Code::UserReservedName => Document::UserCode,
            Code::UserStateMissing => Document::UserCode,
            Code::UserLimit => Document::UserCode,
            Code::TraceBadLine => Document::Trace,
            Code::TraceUnknownName => Document::Trace,
            Code::TraceBadValue => Document::Trace,
            Code::RunFileNotJson => Document::RunFile,
            Code::RunFileBadShape => Document::RunFile,
            Code::RunFileUnknownPort => Document::RunFile,
            Code::RunFileBadValue => Document::RunFile,
            Code::RunFileFrameOrder => Document::RunFile,
            Code::RunFileFrameTooLate => Document::RunFile,
            Code::RunFileLimit => Document::RunFile,
        }
    }

    /// What is printed behind the name.
    pub fn detail(self) -> Detail
        ensures { result ≡ detail_of self }
    {
        match self {
            Code::ModelBadByte => Detail::None,
            Code::ModelBadToken => Detail::None,
            Code::ModelSyntax => Detail::None,
            Code::ModelUnsupported => Detail::Word,
            Code::ModelUnknown => Detail::Word,
            Code::ModelDuplicate => Detail::Word,
            Code::ModelEndName => Detail::Word,
            Code::ModelWrongParent => Detail::Word,
            Code::ModelKindDiffers => Detail::Word,
            Code::ModelTypeDiffers => Detail::Word,
            Code::ModelFanIn => Detail::Word,
            Code::ModelBadProperty => Detail::Word,
            Code::ModelContainsItself => Detail::Word,
            Code::ModelNoRoot => Detail::None,
            Code::ModelManyRoots => Detail::Word,
            Code::ModelNoPeriod => Detail::Word,
            Code::ModelNameClash => Detail::Word,
            Code::ModelCKeyword => Detail::Word,
            Code::ModelLimit => Detail::Count,
            Code::ModelOverfull => Detail::Bounds,
            Code::ModelPeriodNotMultiple => Detail::Word,
            Code::ModelNotBuilt => Detail::None,
            Code::ContractSyntax => Detail::None,
            Code::ContractUnknownName => Detail::Word,
            Code::ContractWrongType => Detail::None,
            Code::ContractWrongPlace => Detail::Word,
            Code::ContractOutOfRange => Detail::Bounds,
            Code::ContractBadName => Detail::Word,
            Code::ContractLimit => Detail::Count,
            Code::UserBadToken => Detail::None,
            Code::UserSyntax => Detail::None,
            Code::UserNotInSubset => Detail::Word,
            Code::UserUnknown => Detail::Word,
            Code::UserDuplicate => Detail::Word,
            Code::UserTypeClash => Detail::None,
            Code::UserMixedSigns => Detail::None,
            Code::UserCallsLater => Detail::Word,
            Code::UserAddressOf => Detail::Word,
            Code::UserMayOverflow => Detail::Bounds,
            Code::UserMayDivideByZero => Detail::Bounds,
            Code::UserMayShiftWide => Detail::Bounds,
            Code::UserIndexMayPass => Detail::BoundsAndLength,
            Code::UserNarrowsWide => Detail::Bounds,
            Code::UserMissingEntry => Detail::Word,
            Code::UserWrongSignature => Detail::Word,
            Code::UserReservedName => Detail::Word,
            Code::UserStateMissing => Detail::Word,
            Code::UserLimit => Detail::Count,
            Code::TraceBadLine => Detail::Number,
            Code::TraceUnknownName => Detail::Number,
            Code::TraceBadValue => Detail::Number,
            Code::RunFileNotJson => Detail::None,
            Code::RunFileBadShape => Detail::Word,
            Code::RunFileUnknownPort => Detail::Number,
            Code::RunFileBadValue => Detail::Number,
            Code::RunFileFrameOrder => Detail::Number,
            Code::RunFileFrameTooLate => Detail::Number,
            Code::RunFileLimit => Detail::Count,
        }
    }
}
