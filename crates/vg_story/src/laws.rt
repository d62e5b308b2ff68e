//! Laws of what is shown of a visit: each is a function whose contract is the law.
ghost use Rattle.vg_story.specs.Laws.{UnshownStay, ShownHaveTexts, ShowTags, ShowHashes, ShowPlaces};

/// Where no change of a field is shown, it is as before: the length, the addresses and the tag always, and those of an IP header where
/// the type in front of it is that of the header before and after.
pub fn unshown_fields_stay()
    ensures { UnshownStay }
{}

/// No value that is shown is empty: a neighbor or an interface that the graph doesn't have is not shown.
pub fn shown_values_have_texts()
    ensures { ShownHaveTexts }
{}

/// The tag that is shown is the packet's, by the definition by which nodes take it off and number it.
pub fn shown_tags_are_the_packets()
    ensures { ShowTags }
{}

/// The hash that is shown of an IPv4 look-up is the one by which it chooses.
pub fn shown_hashes_are_the_packets()
    ensures { ShowHashes }
{}

/// The place that is shown among several neighbors is that of the neighbor to which the packet goes.
pub fn shown_places_are_the_neighbors()
    ensures { ShowPlaces }
{}
