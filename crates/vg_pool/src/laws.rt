//! Laws of packets over several buffers, and of the numbers of a pool: each is a function whose contract is the law.
ghost use Rattle.std.specs.Prelude.{◌≡◌};
ghost use Rattle.vg_pool.specs.declared.caches.TheConstants.{MOST_CACHED};
ghost use Rattle.vg_pool.specs.declared.pools.TheConstants.{MOST_TAKEN, LOT, LEAST_KEPT, MOST_KEPT};
ghost use Rattle.vg_pool.specs.Laws.{PartsAreThePacket};
ghost use Rattle.vg_pool.specs.Moves.{most_cached, most_taken, lot, least_kept, most_kept};

/// The parts of a packet in the buffers of its chain, joined in order, are its bytes.
pub fn parts_are_the_packet()
    ensures { PartsAreThePacket }
{}

/// The numbers of a pool and its caches in the code are those of the definitions.
pub fn limits_are_those_defined()
    ensures cached { MOST_CACHED ≡ most_cached }
    ensures taken { MOST_TAKEN ≡ most_taken }
    ensures lot { LOT ≡ lot }
    ensures least { LEAST_KEPT ≡ least_kept }
    ensures most { MOST_KEPT ≡ most_kept }
{}
