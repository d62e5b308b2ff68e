//! Laws of the definitions: each is a function whose contract is the law.
ghost use Rattle.std.specs.Prelude.{◌≡◌, ◌<◌, ℕ, List, length, Some, slice_get};
ghost use Rattle.vg_model.specs.declared.kinds.DropError.{DropError};
ghost use Rattle.vg_model.specs.declared.kinds.TheConstants.{ERRORS};
ghost use Rattle.vg_model.specs.declared.kinds.TheConstants.DropError.{ALL};
ghost use Rattle.vg_model.specs.declared.limits.TheConstants.{MOST_NODES, MOST_INTERFACES, MOST_ADJACENCIES, MOST_ROUTES, MOST_MEMBERS, LEAST_VLAN, MOST_VLAN, LONGEST_PACKET, FIRST_ROOM, BUFFER_SIZE, MOST_PIECES, MOST_LEGS, FRAME_SIZE};
ghost use Rattle.vg_model.specs.declared.start.TheConstants.{PG_INPUT, HANDOFF_DEQUEUE, ERROR_DROP, FIRST_SLOT};
ghost use Rattle.vg_model.specs.Errors.{all_errors, error_number};
ghost use Rattle.vg_model.specs.Graph.{Graph, kind_at, pg_input, handoff_dequeue, error_drop};
ghost use Rattle.vg_model.specs.Edit.{most_nodes, most_interfaces, most_adjacencies, most_routes};
ghost use Rattle.vg_model.specs.KindWord.{least_vlan, most_vlan};
ghost use Rattle.vg_model.specs.Members.{most_members};
ghost use Rattle.vg_model.specs.Packet.{Packet, longest_packet, first_room, frame_size};
ghost use Rattle.vg_model.specs.PoolBook.{buffer_size, most_pieces};
ghost use Rattle.vg_model.specs.Visit.{Visit, ip4_visit};
ghost use Rattle.vg_model.specs.Leg.{Way, leg, most_legs, first_slot};
ghost use Rattle.vg_model.specs.Start.{start_graph};
ghost use Rattle.vg_model.specs.Header.{header_sum, word_sum, folded};
ghost use Rattle.vg_model.specs.Valid.{IsValid, IsPacket, IsKindSet, IsTarget, AreBytes};

/// The start graph is valid.
pub fn start_is_valid()
    ensures { IsValid start_graph }
{}

/// The visits of the IPv4 kinds keep the laws of a set of kinds.
pub fn ip4_kinds_are_lawful()
    ensures { IsKindSet ip4_visit }
{}

/// No visit of the IPv4 kinds changes the room of a packet, so none of them makes a packet longer.
pub fn ip4_kinds_leave_the_room()
    ensures { (g : Graph) (n : ℕ) (p : Packet) → (ip4_visit g n p).1.room ≡ p.room }
{}

/// Every leg of a valid graph ends: under lawful visits, of a packet that may be, from a node that arcs may lead to.
pub fn legs_end()
    ensures { (visit : Visit) (g : Graph) (workers worker number node : ℕ) (p : Packet) → IsKindSet visit → IsValid g → IsPacket p
        → IsTarget (kind_at g node) → (way : Way) × (leg visit g workers worker number node p ≡ Some way) }
{}

/// The sum of a header's words may be taken with each carry brought back in at once, or added up plainly and folded at
/// the end (RFC 1071, sections 1 and 2).
pub fn sum_may_be_folded_at_the_end()
    ensures { (header : List ℕ) → AreBytes header → header_sum header ≡ folded (word_sum header) }
{}

/// The list of the drop errors has them all, each at its number.
pub fn errors_are_in_order()
    ensures all { ALL ≡ all_errors }
    ensures numbered { (error : DropError) → slice_get all_errors (error_number error) ≡ Some error }
{}

/// The limits in the code that definitions have too are those of the definitions.
pub fn limits_are_those_defined()
    ensures nodes { MOST_NODES ≡ most_nodes }
    ensures interfaces { MOST_INTERFACES ≡ most_interfaces }
    ensures adjacencies { MOST_ADJACENCIES ≡ most_adjacencies }
    ensures routes { MOST_ROUTES ≡ most_routes }
    ensures members { MOST_MEMBERS ≡ most_members }
    ensures least_vlan { LEAST_VLAN ≡ least_vlan }
    ensures most_vlan { MOST_VLAN ≡ most_vlan }
    ensures bytes { LONGEST_PACKET ≡ longest_packet }
    ensures room { FIRST_ROOM ≡ first_room }
    ensures buffer { BUFFER_SIZE ≡ buffer_size }
    ensures pieces { MOST_PIECES ≡ most_pieces }
    ensures legs { MOST_LEGS ≡ most_legs }
    ensures frame { FRAME_SIZE ≡ frame_size }
    ensures errors { ERRORS ≡ length all_errors }
{}

/// The nodes of the start graph with numbers of their own in the code have those of the definitions.
pub fn start_numbers_are_those_defined()
    ensures source { PG_INPUT ≡ pg_input }
    ensures dequeue { HANDOFF_DEQUEUE ≡ handoff_dequeue }
    ensures drop { ERROR_DROP ≡ error_drop }
    ensures slot { FIRST_SLOT ≡ first_slot }
{}
