//! Laws of the longest match, for IPv4 and for IPv6: each is a function whose contract is the law.
ghost use Rattle.vg_model.specs.Route.{ip4, ip6};
ghost use Rattle.vg_fib.specs.Laws.{CoveringPrefixIsUnique, LongestMatchIsBest, NoMatchIsNone, OrderIsFree, RemoveChangesOnlyCovered, SetChangesOnlyCovered, SetRouteIsFound};

/// Of the prefixes of one length at most one covers an address, since host bits are zero. So the
/// longest prefix that covers it is unique.
pub fn covering_prefix_is_unique()
    ensures of_ip4 { CoveringPrefixIsUnique ip4 }
    ensures of_ip6 { CoveringPrefixIsUnique ip6 }
{}

/// The best route for an address is that of the longest prefix that covers it, and there is none
/// exactly where none covers it (RFC 1812, section 5.2.4.3).
pub fn best_route_is_the_longest_match()
    ensures found { LongestMatchIsBest ip4 }
    ensures none { NoMatchIsNone ip4 }
    ensures found6 { LongestMatchIsBest ip6 }
    ensures none6 { NoMatchIsNone ip6 }
{}

/// The best route doesn't depend on the order in which routes stand, where no prefix stands twice.
pub fn order_is_free()
    ensures of_ip4 { OrderIsFree ip4 }
    ensures of_ip6 { OrderIsFree ip6 }
{}

/// A route that was set is found for each address that its prefix covers, unless a longer prefix
/// covers it.
pub fn set_route_is_found()
    ensures of_ip4 { SetRouteIsFound ip4 }
    ensures of_ip6 { SetRouteIsFound ip6 }
{}

/// To set a route changes nothing for addresses that its prefix doesn't cover.
pub fn set_changes_only_covered()
    ensures of_ip4 { SetChangesOnlyCovered ip4 }
    ensures of_ip6 { SetChangesOnlyCovered ip6 }
{}

/// To remove a route changes nothing for addresses that its prefix doesn't cover.
pub fn remove_changes_only_covered()
    ensures of_ip4 { RemoveChangesOnlyCovered ip4 }
    ensures of_ip6 { RemoveChangesOnlyCovered ip6 }
{}
