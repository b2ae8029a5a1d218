//! Laws of lookups and of their answers, each the contract of a function without effect.
ghost use Rattle.termwiz_keymap.specs.KeysInOrder.{AreInOrder};
ghost use Rattle.termwiz_keymap.specs.Lookup.{ClonesEqual, ExactStays, TellsEqual};

use crate::keymap::Found;

/// If a lookup answers `Exact` although more may come, each longer text that begins with that text has the same answer, under
/// either flag: for every map, of every type of value.
pub fn exact_stays<V>()
    ensures { ExactStays V }
{}

/// Two answers of a lookup are equal by `==` exactly if they are the same answer, and a clone equals its original, if that is
/// so of the map's values.
pub fn found_values<V: PartialEq + Clone>()
    ensures equality { TellsEqual V.eq → TellsEqual ⟦<Found<V> as PartialEq>⟧.eq }
    ensures clones { ClonesEqual V.is_clone → ClonesEqual ⟦<Found<V> as Clone>⟧.is_clone }
{}

/// What [`KeyMap::get_index`](crate::keymap::KeyMap::get_index) lists: each key, with its value, at exactly one place, and the keys at
/// higher places are greater in the order of their bytes.
#[tactic(auto, using(crate::proofs::lemmas::entries::EntriesInOrder::in_order_of_bytes))]
pub fn keys_in_order<V>()
    ensures { AreInOrder V }
{}
