//! The laws of slot maps.
ghost use Rattle.slotted_slots.specs.Laws.{MapLaws};

/// Proves the laws of slot maps: the contract is the record of them. The call does nothing.
pub fn map_laws_hold()
    ensures { MapLaws }
{}
