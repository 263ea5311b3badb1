//! The lines of refusals.

use hw_text::{Code, NoMemory, Place, Refusal, TextBuf};
use std::alloc::Global;

/// The causes of refusals, document by document.
static CODES: [Code; 58] = [
    Code::ModelBadByte,
    Code::ModelBadToken,
    Code::ModelSyntax,
    Code::ModelUnsupported,
    Code::ModelUnknown,
    Code::ModelDuplicate,
    Code::ModelEndName,
    Code::ModelWrongParent,
    Code::ModelKindDiffers,
    Code::ModelTypeDiffers,
    Code::ModelFanIn,
    Code::ModelBadProperty,
    Code::ModelContainsItself,
    Code::ModelNoRoot,
    Code::ModelManyRoots,
    Code::ModelNoPeriod,
    Code::ModelNameClash,
    Code::ModelCKeyword,
    Code::ModelLimit,
    Code::ModelOverfull,
    Code::ModelPeriodNotMultiple,
    Code::ModelNotBuilt,
    Code::ContractSyntax,
    Code::ContractUnknownName,
    Code::ContractWrongType,
    Code::ContractWrongPlace,
    Code::ContractOutOfRange,
    Code::ContractBadName,
    Code::ContractLimit,
    Code::UserBadToken,
    Code::UserSyntax,
    Code::UserNotInSubset,
    Code::UserUnknown,
    Code::UserDuplicate,
    Code::UserTypeClash,
    Code::UserMixedSigns,
    Code::UserCallsLater,
    Code::UserAddressOf,
    Code::UserMayOverflow,
    Code::UserMayDivideByZero,
    Code::UserMayShiftWide,
    Code::UserIndexMayPass,
    Code::UserNarrowsWide,
    Code::UserMissingEntry,
    Code::UserWrongSignature,
    Code::UserReservedName,
    Code::UserStateMissing,
    Code::UserLimit,
    Code::TraceBadLine,
    Code::TraceUnknownName,
    Code::TraceBadValue,
    Code::RunFileNotJson,
    Code::RunFileBadShape,
    Code::RunFileUnknownPort,
    Code::RunFileBadValue,
    Code::RunFileFrameOrder,
    Code::RunFileFrameTooLate,
    Code::RunFileLimit,
];

/// A line for each cause, with the same parts.
pub fn all(alloc: Global, file: &[u8], out: &mut TextBuf) -> Result<(), NoMemory> {
    for &code in &CODES {
        let refusal = refusal(alloc, code)?;
        out.word(refusal.line(alloc, file)?.rows())?;
    }
    Ok(())
}

fn refusal(alloc: Global, code: Code) -> Result<Refusal, NoMemory> {
    let mut word = TextBuf::new(alloc);
    word.word(b"x")?;
    Ok(Refusal {
        code,
        place: Place {
            line: 3,
            column: 79,
        },
        word: word.copy()?,
        low: -1,
        high: 22,
        length: 8,
    })
}

/// The line of a model that this version does not read.
pub fn not_built(alloc: Global, file: &[u8], out: &mut TextBuf) -> Result<(), NoMemory> {
    let line = Refusal::not_built(alloc).line(alloc, file)?;
    out.word(line.rows())
}
