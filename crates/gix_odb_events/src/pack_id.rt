//! Numbers of packs.
ghost use Rattle.std.specs.Prelude.{◌≡◌, ◌≤◌, ◌<◌, ◌^◌};
ghost use Rattle.std.specs.Option.{ForSome};
ghost use Rattle.gix_odb_events.specs.PackId.{intrinsic_id_of, pack_id_of};

/// The number of a slot.
pub type IndexId = usize;

// The bit of an intrinsic id for packs of a multi-pack index.
const MULTI_INDEX_BIT: u32 = 32_768;

// Where the number of a pack within its multi-pack index begins in an intrinsic id.
const MULTI_INDEX_UNIT: u32 = 65_536;

/// A pack of a store: the slot of its index, and its place among the packs of a multi-pack index, if it is in one.
#[derive(Clone, Copy, Debug, PartialEq, Eq)]
pub struct PackId {
    pub index: IndexId,
    pub multipack_index: Option<u32>,
}

impl PackId {
    /// The pack's number as callers keep it, from which the pack can be read back: the lowest 15 bits are the slot,
    /// the next bit is set for a pack of a multi-pack index, and its place there is in the bits above.
    pub fn to_intrinsic_pack_id(self) -> u32
        requires slot { self.index < 2 ^ 15 }
        requires place { ForSome self.multipack_index (λ place. place ≤ 65535) }
        ensures id { result ≡ intrinsic_id_of self }
        ensures kept { pack_id_of result ≡ self }
    {
        let index = self.index as u32;
        match self.multipack_index {
            None => index,
            Some(place) => index + MULTI_INDEX_BIT + place * MULTI_INDEX_UNIT,
        }
    }

    /// The pack with a number.
    pub fn from_intrinsic_pack_id(id: u32) -> PackId
        ensures pack { result ≡ pack_id_of id }
    {
        if id / MULTI_INDEX_BIT % 2 == 1 {
            PackId {
                index: (id % MULTI_INDEX_BIT) as IndexId,
                multipack_index: Some(id / MULTI_INDEX_UNIT),
            }
        } else {
            PackId {
                index: id as IndexId,
                multipack_index: None,
            }
        }
    }
}
