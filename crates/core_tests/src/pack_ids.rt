//! Numbers of packs at the edges.
use gix_odb_core::PackId;

/// Slots, places in a multi-pack index, and their numbers.
const PACKS: [(usize, Option<u32>, u32); 7] = [
    (0, None, 0),
    (32_767, None, 32_767),
    (0, Some(0), 32_768),
    (32_767, Some(0), 65_535),
    (0, Some(65_535), 4_294_934_528),
    (1, Some(1), 98_305),
    (32_767, Some(65_535), 4_294_967_295),
];

/// The number of a pack, if slot and place are within their bounds.
fn number_of(index: usize, place: Option<u32>) -> Option<u32> {
    if index >= 32_768 {
        return None;
    }
    let pack = PackId {
        index,
        multipack_index: place,
    };
    match place {
        Some(65_536..) => None,
        _ => Some(pack.to_intrinsic_pack_id()),
    }
}

/// Whether a number is that of this slot and place.
fn gives(id: u32, index: usize, place: Option<u32>) -> bool {
    let pack = PackId::from_intrinsic_pack_id(id);
    pack.index == index && pack.multipack_index == place
}

// A number that takes the place for the slot, or loses its bit.
#[test]
fn numbers_of_packs(rt: HostRuntime) {
    for (index, place, id) in PACKS {
        assert!(rt; number_of(index, place) == Some(id) && gives(id, index, place));
    }
}

// A number above 16 bits without the bit is a slot as a whole.
#[test]
fn number_without_the_bit(rt: HostRuntime) {
    for id in [65_536, 4_294_934_527] {
        assert!(rt; gives(id, id as usize, None));
    }
}
