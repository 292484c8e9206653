//! Laws about what a wish orders, each the contract of a function that does nothing.
ghost use Rattle.cf_prepare.specs.Imports.{UsedSuffice};
ghost use Rattle.cf_prepare.specs.First.{FirstDeployment};

/// With the imports that it uses alone, a source that has no flaw changes what it does with all.
pub fn used_suffice()
    ensures { UsedSuffice }
{}

/// What the order of a wish to create a stack that holds nothing says of its source over nothing that
/// is seen.
pub fn first_deployment()
    ensures { FirstDeployment }
{}
