//! Structs in the making.

ghost use Rattle.std.specs.Prelude.{◌≡◌, ◌≤◌, ◌<◌, ◌+◌, ◌++◌, [], ◌∷◌, List, max, IfOk};
ghost use Rattle.hw_types.specs.declared.ty.Ty.{Ty as AnyType};
ghost use Rattle.hw_types.specs.declared.ty.Ty.TheVariants.{Fields as struct_of_types};
ghost use Rattle.hw_types.specs.Extent.{AreMembers, IsExtentOf};
ghost use Rattle.hw_types.specs.Layout.{aligned_up, shifted, begin_of};
ghost use Rattle.hw_types.specs.Shape.{IsAlign, IsLaidOut};

use crate::extent::SCALAR_LIMIT;
use crate::layout::append_shifted;
use crate::{Extent, FieldCellList, Layout, Width};
use hw_text::NoMemory;
use std::alloc::Global;

/// The members of a struct so far.
#[derive(Debug, Drop)]
pub struct Members {
    scalars: FieldCellList,
    end: u32,
    align: u32,
    count: u64,
}

impl Members {
    pub fn new(alloc: Global) -> Members
        ensures { AreMembers [] result }
    {
        Members {
            scalars: FieldCellList::new(alloc),
            end: 0,
            align: 1,
            count: 0,
        }
    }

    /// These members, and one more behind them.
    pub fn with(self, member: &Extent) -> Result<Members, NoMemory>
        requires { (types : List AnyType) × (type : AnyType) × AreMembers types self × IsExtentOf type member.now }
        ensures { IfOk result (λ members. (types : List AnyType) (type : AnyType) → AreMembers types self → IsExtentOf type member.now
            → AreMembers (types ++ type ∷ []) members) }
    {
        let count = self.count.saturating_add(member.count());
        let align = self.align.max(member.align());
        let members = Members {
            scalars: self.scalars,
            end: self.end,
            align,
            count,
        };
        if count > SCALAR_LIMIT {
            return Ok(members);
        }
        match member {
            Extent::Laid(layout) => Ok(members.placed(layout)?),
            Extent::TooWide(_) => Ok(members),
        }
    }

    /// Puts the scalars of a member behind those that are there.
    fn placed(self, member: &Layout) -> Result<Members, NoMemory>
        requires here { self.end ≤ 2048 }
        requires room { member.now.size ≤ 2048 }
        ensures scalars { IfOk result (λ members. members.scalars ≡ self.scalars ++ shifted (begin_of self.end member.now) member.now.scalars) }
        ensures end { IfOk result (λ members. members.end ≡ begin_of self.end member.now + member.now.size) }
        ensures align { IfOk result (λ members. members.align ≡ self.align) }
        ensures count { IfOk result (λ members. members.count ≡ self.count) }
    {
        let begin = round_up(self.end, member.align());
        let mut scalars = self.scalars;
        append_shifted(&mut scalars, begin, member.scalars())?;
        Ok(Members {
            scalars,
            end: begin + member.size(),
            align: self.align,
            count: self.count,
        })
    }

    /// What is known of the struct of these members.
    pub fn into_extent(self) -> Extent
        requires { (types : List AnyType) × AreMembers types self }
        ensures { (types : List AnyType) → AreMembers types self → IsExtentOf (struct_of_types types) result }
    {
        if self.count > SCALAR_LIMIT {
            return Extent::TooWide(Width {
                count: self.count,
                align: self.align,
            });
        }
        let size = round_up(self.end, self.align);
        Extent::Laid(Layout::new(self.scalars, size, self.align))
    }
}

/// The least multiple of an alignment at or above a place.
fn round_up(place: u32, align: u32) -> u32
    requires power { IsAlign align }
    requires room { place ≤ 2048 }
    ensures value { result ≡ aligned_up place align }
    ensures room { result ≤ 2048 + 7 }
{
    (place + (align - 1)) / align * align
}
