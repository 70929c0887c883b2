// The listing of a plan: what the planner says of its rack and of each of its tasks.
#![tactic(auto)]

mod entry;
mod listings;
mod page;
mod refusal;

pub use entry::gap_listing;
pub use listings::list;
pub use refusal::ListingRefusal;
