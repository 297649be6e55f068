//! The machine: the tree and its mounts, groups with their listeners, marks and accesses, one step
//! at a time.
//!
//! [`Machine`] stands on any table of marks with sections. Each open access has entered a section,
//! and goes by what that shows until it ends and leaves it. [`World`] is the machine over the table
//! in which marks stand in rows, whose sections show the marks as they stood:
//!
//! ```
//! let mut world = World::new(alloc)?;
//! let reply = world.step(&Step::Init { flags: 4 })?; // group 1
//! ```
#![tactic(auto)]

mod access_steps;
mod begin_steps;
mod deeds;
mod file_steps;
mod files;
mod group_steps;
mod inner;
mod machine;
mod mark_steps;
mod marks;
mod open_accesses;
mod plans;
mod refused;
mod retirement;
mod sections;
mod shown;
mod spots;
mod world;

pub use machine::Machine;
pub use sections::Sections;
pub use world::World;
