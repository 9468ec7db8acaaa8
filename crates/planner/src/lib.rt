// The plan of a flowsheet, its image, and the part of it that a screen asks for.
#![tactic(auto)]

ghost use Rattle.planner.specs.Answer.{number_of};
ghost use Rattle.std.specs.Prelude.{◌≡◌};
ghost use Rattle.planner.specs.declared.Refusal.TheVariants.{Image};

mod block;
mod links;
mod planning;
mod screen;
mod sheet;
mod written;

pub use planning::{plan_image, plan_read};
use rows::Row;
pub use screen::part;
pub use sheet::{clear_work, no_plan, plan_of};
use std::marker::Model;

// At most 256 numbers of 16 bits.
pub type Numbers = Row<u16, 256>;

// A plan as its three tables: four numbers for each block, the units in order, the torn streams block by block.
#[derive(Clone, Copy, PartialEq)]
pub struct Plan {
    pub blocks: Numbers,
    pub order: Numbers,
    pub torn: Numbers,
}

// A clause sees the three tables as they stand. That they are a value of their own lets a plan be used again after it was handed on by value.
impl Model for Plan {
    ghost use Rattle.planner.specs.PlanTables.{PlanTables};

    ghost Value = { PlanTables };

    ghost view = { λ plan. record { blocks = plan.blocks; order = plan.order; torn = plan.torn } };

    ghost inverse = { λ tables. record { blocks = tables.blocks; order = tables.order; torn = tables.torn } };
}

// What a screen asks for of a block: its units, or its torn streams.
#[derive(Clone, Copy, Debug, PartialEq, Eq)]
pub enum Asked {
    Units,
    Tears,
}

// Why a flowsheet isn't planned.
#[derive(Clone, Copy, Debug, PartialEq, Eq)]
pub enum Refusal {
    // 1 to 10: its image isn't read.
    Image(flowsheet::Refusal),
    // 11: a block over 12 units.
    LargeBlock,
    // 12: plan buffer shorter than the plan, or working memory under 65,536 bytes.
    NoRoom,
}

impl From<flowsheet::Refusal> for Refusal {
    ghost from_gives = { λ refusal r. r ≡ Image refusal };

    fn from(refusal: flowsheet::Refusal) -> Refusal {
        Self::Image(refusal)
    }
}

impl From<Refusal> for u32 {
    ghost from_gives = { λ refusal number. number ≡ number_of refusal };

    fn from(refusal: Refusal) -> u32 {
        match refusal {
            Refusal::Image(refusal) => u32::from(refusal),
            Refusal::LargeBlock => 11,
            Refusal::NoRoom => 12,
        }
    }
}
