//! A class of the profile, and its attributes.

ghost use Rattle.std.specs.Prelude.{◌≡◌, ◌-◌, ◌<◌, ◌≤◌, ◌↔◌, true, length, slice_get, option_map};
ghost use Rattle.std.specs.Prelude.{IsSome, IfSome, Some};
ghost use Rattle.class_spec.specs.Classes.{Attribute as Listed, attribute_in};

use crate::access::Access;
use crate::kinds::{Kind, shape_at, shapes};
use class_spec::{Maker, WIDEST_CLASS};
use std::marker::Model;

/// An attribute of a class: its number from 1 on, its width in bytes, and the manager's rights on
/// it.
#[derive(Clone, Copy, Debug, PartialEq, Eq)]
pub struct Attribute {
    pub number: u8,
    pub width: u8,
    pub access: Access,
}

/// A class of the profile. Its attributes are numbered from 1 without gaps, each has 1 to 25 bytes,
/// and those that a create sets have at most 32 bytes together.
#[derive(Clone, Copy, Debug)]
pub struct Class {
    kind: Kind,
}

impl Model for Class {
    ghost use Rattle.class_spec.specs.Classes.{Row};
    ghost use Rattle.entity_classes.specs.Kinds.{row_of, kind_of, kind_of-row_of};

    ghost Value = { Row };

    ghost view = { λ class. row_of class.kind };

    ghost inverse = { λ row. record { kind = kind_of row.number } };

    ghost inverse_ok = { λ class _ i. record { kind = kind_of-row_of class.kind i } };
}

impl Class {
    ghost use Rattle.entity_classes.specs.Kinds.{row_of};
    ghost use Rattle.entity_classes.specs.Rule.{IsRow, attribute_of, allows, whole_width};

    pub(crate) fn of(kind: Kind) -> Class
        ensures { result ≡ row_of kind }
    {
        Class { kind }
    }

    /// The number of the class.
    #[tactic(auto, unfolding(crate::specs::Kinds::row_of, class_spec::specs::Classes::class_row, class_spec::specs::Classes::class_table))]
    pub fn number(&self) -> u16
        ensures { result ≡ self.now.number }
    {
        match self.kind {
            Kind::OnuData => 2,
            Kind::SoftwareImage => 7,
            Kind::EthernetUni => 11,
            Kind::BridgeService => 45,
            Kind::BridgePort => 47,
            Kind::VlanFilter => 84,
            Kind::Mapper => 130,
            Kind::OnuG => 256,
            Kind::Onu2G => 257,
            Kind::TCont => 262,
            Kind::GemInterworking => 266,
            Kind::GemPort => 268,
            Kind::GalEthernet => 272,
        }
    }

    /// Who makes the instances of the class.
    #[tactic(auto, unfolding(crate::specs::Kinds::row_of, class_spec::specs::Classes::class_row, class_spec::specs::Classes::class_table))]
    pub fn maker(&self) -> Maker
        ensures { result ≡ self.now.maker }
    {
        match self.kind {
            Kind::OnuData | Kind::SoftwareImage | Kind::EthernetUni => Maker::Unit,
            Kind::OnuG | Kind::Onu2G | Kind::TCont => Maker::Unit,
            Kind::BridgeService | Kind::BridgePort | Kind::VlanFilter | Kind::Mapper =>
                Maker::Manager,
            Kind::GemInterworking | Kind::GemPort | Kind::GalEthernet => Maker::Manager,
        }
    }

    /// How many attributes the class has. They are numbered from 1 without gaps.
    pub fn count(&self) -> u8
        ensures count { result ≡ length self.now.attributes }
        ensures rule { IsRow self.now }
    {
        shapes(self.kind).len() as u8
    }

    /// The bytes of the values of all attributes together.
    #[tactic(auto, unfolding(crate::specs::Kinds::row_of, class_spec::specs::Classes::class_row, class_spec::specs::Classes::class_table))]
    pub fn width(&self) -> usize
        ensures width { result ≡ whole_width self.now.attributes }
        ensures most { result ≤ WIDEST_CLASS }
    {
        match self.kind {
            Kind::OnuData => 1,
            Kind::SoftwareImage => 17,
            Kind::EthernetUni => 13,
            Kind::BridgeService => 17,
            Kind::BridgePort => 24,
            Kind::VlanFilter => 26,
            Kind::Mapper => 45,
            Kind::OnuG => 31,
            Kind::Onu2G => 31,
            Kind::TCont => 4,
            Kind::GemInterworking => 12,
            Kind::GemPort => 13,
            Kind::GalEthernet => 2,
        }
    }

    /// The attribute of this number. None exactly where the number is 0 or above `count`. Its
    /// access contains `WRITE` exactly where the attribute may be written, and `SET_BY_CREATE`
    /// exactly where a create sets it. It takes no memory.
    pub fn attribute(&self, number: u8) -> Option<Attribute>
        ensures value { result ≡ option_map attribute_of (attribute_in self.now.attributes number) }
        ensures place { 0 < number
            → result ≡ option_map attribute_of (slice_get self.now.attributes (number - 1)) }
        ensures there { IsSome result ↔ ((0 < number) × (number ≤ length self.now.attributes)) }
        ensures numbered { IfSome result (λ attribute. attribute.number ≡ number) }
        ensures read { IfSome result (λ attribute. allows attribute.access Access.READ ≡ true) }
        ensures written { (one : Listed) → attribute_in self.now.attributes number ≡ Some one
            → IfSome result (λ attribute. allows attribute.access Access.WRITE ≡ one.written) }
        ensures created { (one : Listed) → attribute_in self.now.attributes number ≡ Some one
            → IfSome result
            (λ attribute. allows attribute.access Access.SET_BY_CREATE ≡ one.created) }
        ensures rule { IsRow self.now }
    {
        let shapes = shapes(self.kind);
        if number == 0 {
            return None;
        }
        match shape_at(shapes, number as usize - 1) {
            Some((width, access)) => Some(Attribute {
                number,
                width,
                access,
            }),
            None => None,
        }
    }
}
