//! The data declarations of a model.

ghost use Rattle.std.specs.Prelude.{◌≡◌, ◌++◌, IfOk, OnOk};
ghost use Rattle.aadl_types.specs.DataRows.{is_data, if_data, data_rows};

use aadl_names::ClassRow;
use aadl_tree::{Category, Declaration, Package};
use hw_text::{NoMemory, Rows};
use std::alloc::Global;

/// All data types and data implementations, in text order.
pub fn data_rows(alloc: Global, model: &Package) -> Result<Rows<ClassRow>, NoMemory>
    ensures { IfOk result (λ rows. rows ≡ data_rows model.now) }
{
    let mut rows = Rows::new(alloc);
    let mut types = 0_usize;
    let mut implementations = 0_usize;
    for declaration in model.declarations.rows() {
        match declaration {
            Declaration::Type(declared) => {
                push_if_data(&mut rows, declared.category, ClassRow::Type(types))?;
                types += 1;
            }
            Declaration::Implementation(declared) => {
                let class = ClassRow::Implementation(implementations);
                push_if_data(&mut rows, declared.category, class)?;
                implementations += 1;
            }
            Declaration::Annex(_) => {}
        }
    }
    Ok(rows)
}

fn push_if_data(
    rows: &mut Rows<ClassRow>,
    category: Category,
    class: ClassRow,
) -> Result<(), NoMemory>
    ensures { OnOk result (rows.new ≡ rows.old ++ if_data category class) }
{
    if is_data(category) {
        rows.push(class)?;
    }
    Ok(())
}

pub fn is_data(category: Category) -> bool
    ensures { result ≡ is_data category }
{
    match category {
        Category::Data => true,
        _ => false,
    }
}
