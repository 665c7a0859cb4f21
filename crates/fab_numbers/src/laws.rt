//! Laws of bundles with numbers for names.
ghost use Rattle.std.specs.Prelude.{◌≡◌, length};
ghost use Rattle.std.specs.List.{enumerate_from};
ghost use Rattle.fab_tree.specs.declared.start.Start.{Start};
ghost use Rattle.fab_tree.specs.Sites.{site_places};
ghost use Rattle.fab_language.specs.Numbers.{resolved};
ghost use Rattle.fab_labelling.specs.Sites.{pcs_of, sites_of};
ghost use Rattle.fab_numbers.specs.FirstNames.{NumbersName};
ghost use Rattle.fab_numbers.specs.SiteOrder.{of_methods};

/// Where a name is declared, what has its number is the first that has this name, whatever the bundle
/// is.
pub fn numbers_have_names()
    ensures { (s : Start) → NumbersName s }
{}

/// The sites of all methods are 0, 1, 2 and so on, in the order of the text, each at its place: none is
/// left out and none stands twice, whatever the bundle is.
pub fn sites_count_up()
    ensures { (s : Start) → of_methods (resolved s).methods ≡ enumerate_from 0 (site_places s.program) }
{}

/// The labels of sites are listed in the order of the sites' numbers: the entry of a number is that of
/// the site with this number, and each site of the text has one, whatever the bundle is.
pub fn labels_stand_at_their_sites()
    ensures order { (s : Start) → sites_of (resolved s) ≡ enumerate_from 0 (pcs_of (resolved s)) }
    ensures all { (s : Start) → length (pcs_of (resolved s)) ≡ length (site_places s.program) }
{}
