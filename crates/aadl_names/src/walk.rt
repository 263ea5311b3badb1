//! The walk through a model's declarations.

ghost use Rattle.std.specs.Prelude.{◌≡◌, IfOk};
ghost use Rattle.aadl_names.specs.TableRows.{tables_of};

use crate::tables::Tables;
use aadl_tree::Package;
use hw_text::NoMemory;
use std::alloc::Global;

/// The tables of a model, which hold references into it.
#[tactic(auto, using(crate::proofs::Walked::walked_first, crate::proofs::Walked::walked_on, crate::proofs::Walked::walked_all))]
pub fn declared<'a>(alloc: Global, model: &'a Package) -> Result<Tables<'a>, NoMemory>
    ensures { IfOk result (λ tables. tables ≡ tables_of model.now) }
{
    let mut tables = Tables::new(alloc);
    for declaration in model.declarations.rows() {
        tables.declare(declaration)?;
    }
    Ok(tables)
}
