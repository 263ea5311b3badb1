//! Laws of the definitions that the top call cites, each the contract of a call that does nothing.

ghost use Rattle.std.specs.Prelude.{IsPermutation};
ghost use Rattle.arch_model.specs.Arch.{IsWellFormed};
ghost use Rattle.hamr_cli.specs.declared.thin.model.ThinModel.{ThinModel};
ghost use Rattle.hamr_cli.specs.Output.{OutputIsOne, TidiedStays};
ghost use Rattle.hamr_cli.specs.Instance.{links_named, instance_of};
ghost use Rattle.hamr_cli.specs.Model.{IsThinModel};

/// What the files hold decides what a command prints and with which status: there are no two
/// outputs of one command.
pub fn output_is_one()
    ensures { OutputIsOne }
{}

/// What `tidy` printed is left as it is by `tidy`, within the limits of models.
pub fn tidied_stays()
    ensures { TidiedStays }
{}

/// The instance of a thin model is an architecture, whose tables fit one another. Its links are
/// those of the connections, put in the order of their ports.
pub fn instance_fits()
    ensures tables { (model : ThinModel) → IsThinModel model → IsWellFormed (instance_of model) }
    ensures links { (model : ThinModel) → IsPermutation (links_named model) (instance_of model).links }
{}
