//! Files of cases: what a case runs, in which world, and what is wanted of it.
#![tactic(auto)]

pub use compare::add_differences;
pub use devices::{Device, Setting, When};
pub use holes::{Hole, filled};
pub use items::{Item, Kind, items_of};
pub use report::Report;
pub use scene::{Failures, Group, Scene, scene_of};
pub use signs::bytes_of;
pub use trouble::Trouble;
pub use world::{Ran, World, failing};

mod compare;
mod devices;
mod holes;
mod items;
mod limits;
mod repeats;
mod report;
mod scene;
mod shown;
mod signs;
mod trouble;
mod world;
