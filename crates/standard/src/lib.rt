// Resources: Resource Manager, Application Information and Date-Time, a pair of any two resources, and a quota over any one.
#![tactic(auto)]

mod answer;
mod date_time;
mod information;
mod manager;
mod pair;
mod public;
mod quota;
mod session_set;
mod single;

pub use answer::{WRONG_LENGTH, reply};
pub use date_time::DateTime;
pub use information::Information;
pub use manager::Manager;
pub use pair::Pair;
pub use public::{
    APPLICATION_INFORMATION, DATE_TIME, RESOURCE_MANAGER, STANDARD_IDENTIFIERS, StandardResources,
    standard_resources, standard_under_quota,
};
pub use quota::Quota;
pub use single::{Handler, SingleResource};
