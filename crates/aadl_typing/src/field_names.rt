//! Fields of data that are named as words of C.

ghost use Rattle.std.specs.Prelude.{◌≡◌, None, IfOk};
ghost use Rattle.aadl_names.specs.Offences.{earliest_from};
ghost use Rattle.aadl_typing.specs.FieldNames.{c_word_offence, c_word_offences};

use crate::c_words::is_c_word;
use crate::refusals::at_name;
use aadl_names::{PartRow, Scope, Test, first_offence};
use aadl_tree::Subcomponent;
use aadl_types::is_data;
use hw_text::{Code, NoMemory, Refusal};
use std::alloc::Global;

/// The condition that no field of data is named as a word of C.
#[derive(Clone, Copy)]
struct FieldName;

impl<'a> Test<PartRow<'a, Subcomponent>> for FieldName {
    ghost offence_of = { λ _. c_word_offence };

    fn offence(
        &self,
        alloc: Global,
        row: &PartRow<'a, Subcomponent>,
    ) -> Result<Option<Refusal>, NoMemory> {
        let name = &row.part.get().name;
        if is_data(row.category) && is_c_word(name.name.rows()) {
            Ok(Some(at_name(alloc, Code::ModelCKeyword, name)?))
        } else {
            Ok(None)
        }
    }
}

/// The first field of data in the text that is named as a word of C.
pub fn first_c_word(alloc: Global, scope: &Scope<'_>) -> Result<Option<Refusal>, NoMemory>
    ensures { IfOk result (λ first. first ≡ earliest_from None (c_word_offences scope.now.tables.now)) }
{
    let first = first_offence(alloc, &FieldName, scope.tables.subcomponents.rows(), None)?;
    Ok(first)
}
