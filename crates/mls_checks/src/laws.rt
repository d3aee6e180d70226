//! What leaves and key packages have that passed their checks.

ghost use Rattle.mls_checks.specs.Laws.{SignedAnywhere, PackageSteps, ReplacedSteps};

/// A leaf of a key package is signed at any place of any group. Whoever passed the checks has each thing that they
/// ask for. The function does nothing.
pub fn laws_of_leaves()
    ensures anywhere { SignedAnywhere }
    ensures offered { PackageSteps }
    ensures replaced { ReplacedSteps }
{}
