//! Systems of zones over joint columns: the tuples that lie in each of them, added to a store cell by cell.
#![tactic(auto)]

mod align;
mod alone;
mod choice;
mod chosen;
mod divisor;
mod frame;
mod free;
mod front_walk;
mod fronts;
mod joint;
mod marks;
mod order;
mod part;
mod piece;
mod residue;
mod sole;
mod system;
mod wholes;
mod window;
mod windows;

pub use align::Align;
pub use choice::{Choice, choose};
pub use chosen::{put, with_text};
pub use divisor::common_divisor;
pub use frame::Frame;
pub use front_walk::add_fronts;
pub use fronts::Fronts;
pub use order::Order;
pub use part::{Part, PlacedZone, parts_of};
pub use system::add_system;
pub use wholes::add_zone;
pub use window::ResidueWindow;
pub use windows::{Windows, windows_of, windows_within};
