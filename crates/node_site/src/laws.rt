//! Laws of the links of a page, of the holdings of a library, of the sites of hosts, and of texts: each is the contract
//! of a function with an empty body.
ghost use Rattle.node_site.specs.Laws.{ExceptedIsDirect, FreeIsDirect, NoProxyIsDirect, OthersGoThrough};
ghost use Rattle.node_site.specs.Laws.{LinkFits, SubdomainsAreWithin};
ghost use Rattle.node_site.specs.HostLaws.{HostsAreStandard, LinksAreStandard};
ghost use Rattle.node_site.specs.HeldLaws.{AllIsHeld, HeldDaysAreShown, OffIsNotHeld, OffPackageIsNotHeld};
ghost use Rattle.node_site.specs.HeldLaws.{UnlistedIsNotHeld};
ghost use Rattle.node_site.specs.SitesLaws.{CaseDoesNotCount, OtherSiteDecides, OwnSiteDecides};
ghost use Rattle.node_site.specs.TextLaws.{TextsHaveNames};

/// A link that is free to read does not go through the proxy.
pub fn free_is_direct()
    ensures { FreeIsDirect }
{}

/// Nor does a link to a host that needs no proxy.
pub fn excepted_is_direct()
    ensures { ExceptedIsDirect }
{}

/// Without a proxy, and without a prefix of a platform, each link is its target.
pub fn no_proxy_is_direct()
    ensures { NoProxyIsDirect }
{}

/// Every other link is the prefix of its platform or of the site, and the target is in the place of the address: as it
/// is, or what decodes to it.
pub fn others_go_through()
    ensures { OthersGoThrough }
{}

/// A link has no more bytes than its room.
pub fn link_fits()
    ensures { LinkFits }
{}

/// A domain and its subdomains are within it.
pub fn subdomains_are_within()
    ensures { SubdomainsAreWithin }
{}

/// The host that is shown of an address is the one that the URL Standard parses, and the address has no user, if it has
/// no spaces and no control characters.
pub fn hosts_are_standard()
    ensures { HostsAreStandard }
{}

/// So is the host that is shown of each link.
pub fn links_are_standard()
    ensures { LinksAreStandard }
{}

/// A library has what a query asks for of a title exactly if the title is held on a day that is covered and asked for.
pub fn held_days_are_shown()
    ensures { HeldDaysAreShown }
{}

/// A library has nothing of a title that is switched off.
pub fn off_is_not_held()
    ensures { OffIsNotHeld }
{}

/// A library has nothing of a package without a title that it may have, so nobody has to look at the package's rows.
pub fn off_package_is_not_held()
    ensures { OffPackageIsNotHeld }
{}

/// A library whose site file names no package and no title has everything, unless `held = false` turns the default
/// round.
pub fn all_is_held()
    ensures { AllIsHeld }
{}

/// With `held = false` as the default, a library has nothing of a title that no table mentions, nor of its package.
pub fn unlisted_is_not_held()
    ensures { UnlistedIsNotHeld }
{}

/// Each text can be replaced by its name.
pub fn texts_have_names()
    ensures { TextsHaveNames }
{}

/// A host with a site of its own has it, whatever the sites of other hosts are.
pub fn own_site_decides<S>()
    ensures { OwnSiteDecides S }
{}

/// A host without a site of its own has that of all others, whatever the sites of other hosts are.
pub fn other_site_decides<S>()
    ensures { OtherSiteDecides S }
{}

/// The case of letters in a host does not count.
pub fn case_does_not_count<S>()
    ensures { CaseDoesNotCount S }
{}
