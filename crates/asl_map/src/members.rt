//! The classes of globals and sites.

ghost use Rattle.std.specs.Prelude.{◌≡◌, IfOk};
ghost use Rattle.asl_points_to.specs.Classes.{AreClasses};

use asl_lower::Lowering;
use asl_points_to::Classes;
use std::alloc::{AllocError, Global};

/// The class of each global.
pub fn global_classes(alloc: Global, classes: &Classes) -> Result<Vec<u16>, AllocError>
    ensures { IfOk result (λ v. v.items ≡ classes.now.globals) }
{
    classes.globals().to_vec(alloc)
}

/// The class of each site.
pub fn site_classes(
    alloc: Global,
    lowering: &Lowering,
    classes: &Classes,
) -> Result<Vec<u16>, AllocError>
    requires { AreClasses lowering.now classes.now }
    ensures { IfOk result (λ v. v.items ≡ classes.now.sites) }
{
    let mut of_sites = Vec::new(alloc);
    for site in 0..lowering.sites() {
        of_sites.push(classes.of_site(site))?;
    }
    Ok(of_sites)
}
