// Why the bodies of an elaborated file end as their methods do.

ghost use Rattle.std.specs.Prelude.{◌≡◌, Ok};
ghost use Rattle.ls_types_elaboration.specs.Trees.{File};
ghost use Rattle.ls_types_elaboration.specs.Elaboration.{ElaboratedFile, elaborated};
ghost use Rattle.ls_types_laws.specs.Bodies.{BodiesFit, NoneLeft};

/// In the elaboration of a class text's tree, no jump leaves the body of a method. If a method answers a value, its
/// body ends with a value or an exception. So no call of that method has the value that stands for none.
#[tactic(auto, using(crate::proofs::FittingBodies::bodies_fit, crate::proofs::FittingBodies::none_left))]
pub fn bodies_fit()
    ensures bodies { (f : File) (o : ElaboratedFile) → elaborated f ≡ Ok o → BodiesFit o.file }
    ensures values { (f : File) (o : ElaboratedFile) → elaborated f ≡ Ok o → NoneLeft o.file }
{}
