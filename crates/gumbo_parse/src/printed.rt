//! What is printed is read again.

ghost use Rattle.hw_text.specs.declared.place.Place.{Place};
ghost use Rattle.hw_text.specs.WholeTexts.{IsTextOf};
ghost use Rattle.gumbo_parse.specs.declared.contract.Contract.{Contract};
ghost use Rattle.gumbo_parse.specs.Allowed.{AreAllowed};
ghost use Rattle.gumbo_parse.specs.Annex.{annex_text};
ghost use Rattle.gumbo_parse.specs.ContractTokens.{contract_tokens};
ghost use Rattle.gumbo_parse.specs.Printed.{IsWithinLimits};
ghost use Rattle.gumbo_parse.specs.Rules.{contract_rules};
ghost use Rattle.gumbo_parse.specs.Unplaced.{SameContract};

/// The law of printing and reading: the canonical text of a contract whose tokens are those that its
/// types allow, as `print_annex` ensures, is within the limits a text of a contract that is the same
/// but for places, wherever it stands.
pub fn printed_is_text()
    ensures { (c : Contract) (at : Place) → AreAllowed (contract_tokens c) → IsWithinLimits c → (d : Contract) × IsTextOf (contract_rules at) (annex_text c) d × SameContract c d }
{}
