//! The class table in code: a kind for each class, and a row of widths and rights for each kind.

ghost use Rattle.std.specs.Prelude.{◌≡◌, map, option_map, slice_get};
ghost use Rattle.class_spec.specs.Classes.{class_row};
ghost use Rattle.entity_classes.specs.Kinds.{row_of};
ghost use Rattle.entity_classes.specs.Rule.{listed_as};

use crate::access::{Access, C, R, W};

const ONU_DATA: [(u8, Access); 1] = [(1, W)];

const SOFTWARE_IMAGE: [(u8, Access); 4] = [(14, R), (1, R), (1, R), (1, R)];

const ETHERNET_UNI: [(u8, Access); 11] = [
    (1, W),
    (1, R),
    (1, W),
    (1, W),
    (1, W),
    (1, R),
    (1, R),
    (2, W),
    (1, W),
    (2, W),
    (1, W),
];

const BRIDGE_SERVICE: [(u8, Access); 10] = [
    (1, C),
    (1, C),
    (1, C),
    (2, C),
    (2, C),
    (2, C),
    (2, C),
    (1, C),
    (1, C),
    (4, C),
];

const BRIDGE_PORT: [(u8, Access); 13] = [
    (2, C),
    (1, C),
    (1, C),
    (2, C),
    (2, C),
    (2, C),
    (1, C),
    (1, C),
    (1, C),
    (6, R),
    (2, W),
    (2, W),
    (1, C),
];

const VLAN_FILTER: [(u8, Access); 3] = [(24, C), (1, C), (1, C)];

const MAPPER: [(u8, Access); 13] = [
    (2, C),
    (2, C),
    (2, C),
    (2, C),
    (2, C),
    (2, C),
    (2, C),
    (2, C),
    (2, C),
    (1, C),
    (24, W),
    (1, C),
    (1, C),
];

const ONU_G: [(u8, Access); 8] = [
    (4, R),
    (14, R),
    (8, R),
    (1, R),
    (1, R),
    (1, W),
    (1, W),
    (1, R),
];

const ONU2_G: [(u8, Access); 9] = [
    (20, R),
    (1, R),
    (2, R),
    (1, R),
    (1, W),
    (2, R),
    (1, R),
    (1, R),
    (2, R),
];

const T_CONT: [(u8, Access); 3] = [(2, W), (1, R), (1, W)];

const GEM_INTERWORKING: [(u8, Access); 8] = [
    (2, C),
    (1, C),
    (2, C),
    (2, C),
    (1, R),
    (1, R),
    (2, C),
    (1, W),
];

const GEM_PORT: [(u8, Access); 8] = [
    (2, C),
    (2, C),
    (1, C),
    (2, C),
    (2, C),
    (1, R),
    (2, C),
    (1, R),
];

const GAL_ETHERNET: [(u8, Access); 1] = [(2, C)];

/// A class of the profile, by its name.
#[derive(Clone, Copy, Debug)]
pub(crate) enum Kind {
    OnuData,
    SoftwareImage,
    EthernetUni,
    BridgeService,
    BridgePort,
    VlanFilter,
    Mapper,
    OnuG,
    Onu2G,
    TCont,
    GemInterworking,
    GemPort,
    GalEthernet,
}

/// The class of this number.
#[tactic(auto, unfolding(crate::specs::Kinds::row_of, class_spec::specs::Classes::class_row, class_spec::specs::Classes::class_table))]
pub(crate) fn find(number: u16) -> Option<Kind>
    ensures { option_map row_of result ≡ class_row number }
{
    match number {
        2 => Some(Kind::OnuData),
        7 => Some(Kind::SoftwareImage),
        11 => Some(Kind::EthernetUni),
        45 => Some(Kind::BridgeService),
        47 => Some(Kind::BridgePort),
        84 => Some(Kind::VlanFilter),
        130 => Some(Kind::Mapper),
        256 => Some(Kind::OnuG),
        257 => Some(Kind::Onu2G),
        262 => Some(Kind::TCont),
        266 => Some(Kind::GemInterworking),
        268 => Some(Kind::GemPort),
        272 => Some(Kind::GalEthernet),
        _ => None,
    }
}

/// The width and the rights of each attribute, in order.
#[tactic(auto, unfolding(crate::specs::Kinds::row_of, class_spec::specs::Classes::class_row, class_spec::specs::Classes::class_table))]
pub(crate) fn shapes(kind: Kind) -> &'static [(u8, Access)]
    ensures { result.now ≡ map listed_as (row_of kind).attributes }
{
    match kind {
        Kind::OnuData => &ONU_DATA,
        Kind::SoftwareImage => &SOFTWARE_IMAGE,
        Kind::EthernetUni => &ETHERNET_UNI,
        Kind::BridgeService => &BRIDGE_SERVICE,
        Kind::BridgePort => &BRIDGE_PORT,
        Kind::VlanFilter => &VLAN_FILTER,
        Kind::Mapper => &MAPPER,
        Kind::OnuG => &ONU_G,
        Kind::Onu2G => &ONU2_G,
        Kind::TCont => &T_CONT,
        Kind::GemInterworking => &GEM_INTERWORKING,
        Kind::GemPort => &GEM_PORT,
        Kind::GalEthernet => &GAL_ETHERNET,
    }
}

/// The shape in this place, from 0 on.
pub(crate) fn shape_at(shapes: &[(u8, Access)], place: usize) -> Option<(u8, Access)>
    ensures { result ≡ slice_get shapes.now place }
{
    shapes.get(place).copied()
}
