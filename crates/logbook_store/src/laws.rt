// Laws of one logbook's region, for a move that writes its next place behind a closed gate.
ghost use Rattle.logbook_store.specs.Laws.{MovesOnceOpen, StaysWhileClosed};

/// While the next place is closed, whatever stands behind its gate, the region spells the logbook of before.
pub fn a_logbook_stays_while_its_next_place_is_closed()
    ensures { StaysWhileClosed }
{}

/// Once the next place is open over the next number with the oldest message in progress, the region spells the
/// logbook that has moved that message.
pub fn a_logbook_moves_once_its_next_place_is_open()
    ensures { MovesOnceOpen }
{}
